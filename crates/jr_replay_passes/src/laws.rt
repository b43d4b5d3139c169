// A law over the definitions alone. The function does nothing: its contract is the law, so that the
// check proves it.
ghost use Rattle.jr_replay_passes.specs.Laws.{MovedAreStarted};

/// In a legal history each I/O ends once, so no more end than were started. So a caller that starts
/// fewer than 2^32 I/Os may ask for the totals of its history.
pub fn moved_are_started()
    ensures { MovedAreStarted }
{}
