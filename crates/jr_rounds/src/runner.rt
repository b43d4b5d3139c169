ghost use Rattle.std.specs.Prelude.{IfOk};
ghost use Rattle.jr_rounds.specs.Repeats.{IsEndOf};

use crate::sums::Sums;
use jr_cli_ends::RunEnd;
use jr_plan::Plan;

/// What runs rounds, and is told how each ended.
pub trait RoundRunner {
    /// Why a round can't be run.
    type Fault: Drop;

    /// Runs a round, which has this plan, and prints no report of it.
    fn run(&mut self, plan: Plan, round: u32) -> Result<RunEnd, Self::Fault>
        ensures { IfOk result (IsEndOf plan) };

    /// Whether no other round is to begin. It is asked once after each round.
    fn is_over(&mut self) -> bool;

    /// A round has ended, is printed as far as it is to be, and is in these sums.
    fn told(&mut self, round: u32, ended: &RunEnd, is_last: bool, sums: &Sums);
}
