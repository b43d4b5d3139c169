ghost use Rattle.jr_laws_rest.specs.Tried.{EachByteTriedOnce, TriedInARow};

/// What a clone that goes in order tried in its first pass is a row of pieces, from the start of its region up to where it came.
pub fn tried_in_a_row()
    ensures { TriedInARow }
{}

/// Rounds of which each goes on where the one before it stopped try each byte once, up to where the last of them came.
pub fn each_byte_tried_once()
    ensures { EachByteTriedOnce }
{}
