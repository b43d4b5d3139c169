ghost use Rattle.jr_laws_rounds.specs.Standing.{ChoiceByStanding, CloneFinishedByStanding, FinishedByStanding};

/// The least step of a clone, by the pass that it is in and its current round.
pub fn choice_by_standing()
    ensures { ChoiceByStanding }
{}

/// The pass that a clone is in is finished if all its draws were issued, nothing of the clone flies, and the round is
/// closed.
pub fn finished_by_standing()
    ensures { FinishedByStanding }
{}

/// A clone is finished if it is in its last pass and that is finished.
pub fn clone_finished_by_standing()
    ensures { CloneFinishedByStanding }
{}
