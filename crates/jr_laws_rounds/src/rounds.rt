ghost use Rattle.jr_laws_rounds.specs.Rounds.{ClosedAtEnd, KeptIsCurrent, LeftAreUnsettled, LeftInPass, WaitsUnderWay};

/// A group of the pass that a clone is in waits for its checks exactly if the current round is under way.
pub fn waits_under_way()
    ensures { WaitsUnderWay }
{}

/// If all draws of the pass were issued, its groups are closed exactly if the current round is.
pub fn closed_at_end()
    ensures { ClosedAtEnd }
{}

/// The writes that the current round still has to check are writes of the pass.
pub fn left_in_pass()
    ensures { LeftInPass }
{}

/// If the round is due, they are exactly those of full groups that aren't settled.
pub fn left_are_unsettled()
    ensures { LeftAreUnsettled }
{}

/// The round that is left by the calls that a desk makes at a clone's events is the current round.
pub fn kept_is_current()
    ensures { KeptIsCurrent }
{}
