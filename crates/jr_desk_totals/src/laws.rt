ghost use Rattle.jr_desk_totals.specs.After.{TestsAreCompared, ClonesAreAll, OneEventMore, EndsAreCounted, VerdictsAreCounted};
ghost use Rattle.jr_desk_totals.specs.After.{CountsAreFew, OneCloneChanges};

/// The tests of a clone are comparisons of its counts.
pub fn tests_are_compared()
    ensures { TestsAreCompared }
{}

/// Nothing is in flight if no clone of the plan has anything in flight, and no verdict is to come if none of a clone is.
pub fn clones_are_all()
    ensures { ClonesAreAll }
{}

/// What one event more makes of each count is told by the counts before, the event, and the I/O that it names.
pub fn one_event_more()
    ensures { OneEventMore }
{}

/// An End names an I/O that flies and was counted.
pub fn ends_are_counted()
    ensures { EndsAreCounted }
{}

/// A Verdict names a check that ended whole, has none, and was counted.
pub fn verdicts_are_counted()
    ensures { VerdictsAreCounted }
{}

/// No more I/Os end than were started, no more verdicts are given than checks were made, and bytes are of blocks: so all counts
/// of a legal history are small.
pub fn counts_are_few()
    ensures { CountsAreFew }
{}

/// An event changes the totals of that clone alone that it is about.
pub fn one_clone_changes()
    ensures { OneCloneChanges }
{}
