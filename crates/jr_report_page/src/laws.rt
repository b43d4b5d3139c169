ghost use Rattle.jr_report_page.specs.Raw.{NothingComesRaw, PageHidesNothing};

/// No byte of an escaped text begins a tag, ends one or ends an attribute's value.
pub fn nothing_comes_raw()
    ensures { NothingComesRaw }
{}

/// No character of an escaped text is one that a browser obeys or doesn't show.
pub fn page_hides_nothing()
    ensures { PageHidesNothing }
{}
