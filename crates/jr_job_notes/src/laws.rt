// Laws over the definitions alone. Each function does nothing: its contract is the law, so that the
// check proves it.
ghost use Rattle.jr_job_notes.specs.Laws.{AcceptedHaveNone, FirstIsNamed, RefusedAscend};

/// If a plan is refused by a line, the first note is that line's.
pub fn first_is_named()
    ensures { FirstIsNamed }
{}

/// The lines that have notes stand in the order of the text.
pub fn refused_ascend()
    ensures { RefusedAscend }
{}

/// A file that is taken has no line that is refused by itself.
pub fn accepted_have_none()
    ensures { AcceptedHaveNone }
{}
