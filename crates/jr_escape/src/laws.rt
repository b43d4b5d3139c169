ghost use Rattle.jr_escape.specs.Laws.{ShownHidesNothing, PlainStays};

/// No character of a text that is shown so is one that a terminal or a browser obeys or doesn't show.
pub fn shown_hides_nothing()
    ensures { ShownHidesNothing }
{}

/// A text that has none of these and no backslash is shown as it is.
pub fn plain_stays()
    ensures { PlainStays }
{}
