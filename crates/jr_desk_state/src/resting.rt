ghost use Rattle.std.specs.Prelude.{◌≡◌, ◌<◌, ◌≤◌, ℕ, true, false, nat_le, slice_get, Some};
ghost use Rattle.jr_model.specs.Legal.{is_at_rest, is_complete, is_halted, phase_is_open};
ghost use Rattle.jr_model.specs.Plan.{SubJob as Clone, clone_of};
ghost use Rattle.jr_model.specs.Rounds.{pass_finished, pass_of};
ghost use Rattle.jr_desk_state.specs.Boards.{IsBoard};
ghost use Rattle.jr_desk_state.specs.Rests.{AreRested};
ghost use Rattle.jr_desk_state.specs.declared.standings.Standing.{Standing as Stood};

use crate::board::Board;
use crate::standings::has_rounds;
use jr_plan::Plan;

// Whether the pass that a clone is in is finished, where the clone isn't halted.
pub(crate) fn pass_is_finished(plan: &Plan, board: &Board, clone: usize) -> bool
    requires board { IsBoard plan.now board.now }
    requires runs { (job : Clone) → clone_of plan.now clone ≡ Some job → is_halted board.now.history.items job ≡ false }
    ensures { (job : Clone) (standing : Stood) → clone_of plan.now clone ≡ Some job
        → slice_get board.now.standings.items clone ≡ Some standing
        → result ≡ pass_finished board.now.history.items (pass_of job standing.pass) }
{
    if clone >= plan.clones()
        || clone >= board.standings.len()
        || clone >= board.tallies.counts.len()
    {
        return false;
    }
    let standing = &board.standings[clone];
    let counts = &board.tallies.counts[clone];
    if !standing.draws.is_over() || counts.issues > 0 || counts.checks > 0 {
        return false;
    }
    !has_rounds(plan.clone_at(clone)) || standing.rounds.is_closed()
}

// Whether a clone is finished or halted, with nothing in flight and no verdict to come.
pub(crate) fn is_at_rest(plan: &Plan, board: &Board, clone: usize) -> bool
    requires board { IsBoard plan.now board.now }
    ensures { (job : Clone) → clone_of plan.now clone ≡ Some job → result ≡ is_at_rest board.now.history.items job }
{
    if clone >= plan.clones()
        || clone >= board.standings.len()
        || clone >= board.tallies.counts.len()
    {
        return false;
    }
    let counts = &board.tallies.counts[clone];
    if counts.issues > 0 || counts.checks > 0 || counts.verdicts > 0 {
        return false;
    }
    if counts.is_halted {
        return true;
    }
    let passes = plan.clone_at(clone).passes();
    let standing = &board.standings[clone];
    if standing.pass + 1 < passes {
        return false;
    }
    pass_is_finished(plan, board, clone)
}

/// Which clones needn't be looked at again: one that is at rest stays so.
#[derive(Clone, Copy)]
pub struct Rested {
    /// The clones before this one are at rest.
    pub leading: usize,
    /// And so are those of earlier phases than this one's, where there is such a clone.
    pub earliest: usize,
    /// No clone is of a later phase.
    pub last_phase: u32,
}

// Looks at all clones again, where the one of the earliest phase has come to rest, once another has gone on. That is once a clone at
// most.
pub(crate) fn go_past_rested(plan: &Plan, board: &mut Board)
    requires { IsBoard plan.now board.old }
    ensures board { IsBoard plan.now board.new }
    ensures history { board.new.history.items ≡ board.old.history.items }
{
    let Rested {
        leading,
        earliest,
        last_phase,
    } = board.rested;
    // It is most often this one that goes on.
    if leading == board.last_issued && earliest == board.last_issued {
        return;
    }
    if earliest >= plan.clones() || is_at_rest(plan, board, earliest) {
        board.rested = Rested {
            leading: first_busy(plan, board),
            earliest: earliest_busy(plan, board),
            last_phase,
        };
    }
}

// The first clone that isn't at rest, or how many there are.
fn first_busy(plan: &Plan, board: &Board) -> usize
    requires { IsBoard plan.now board.now }
    ensures { (clone : ℕ) (job : Clone) → clone_of plan.now clone ≡ Some job → clone < result
        → is_at_rest board.now.history.items job ≡ true }
{
    for clone in 0..plan.clones() {
        if !is_at_rest(plan, board, clone) {
            return clone;
        }
    }
    plan.clones()
}

// The first clone of the earliest phase of which one isn't at rest, or how many clones there are.
fn earliest_busy(plan: &Plan, board: &Board) -> usize
    requires { IsBoard plan.now board.now }
    ensures { (clone : ℕ) (job first : Clone) → clone_of plan.now clone ≡ Some job → clone_of plan.now result ≡ Some first
        → job.phase < first.phase → is_at_rest board.now.history.items job ≡ true }
{
    let mut earliest = plan.clones();
    let mut phase = u32::MAX;
    for clone in 0..plan.clones() {
        let own = plan.clone_at(clone).phase();
        if own < phase && !is_at_rest(plan, board, clone) {
            earliest = clone;
            phase = own;
        }
    }
    earliest
}

// The first phase of which a clone isn't at rest: draws of later phases may not be issued. No phase is later where all
// clones are at rest.
pub(crate) fn open_phase(plan: &Plan, board: &Board) -> u32
    requires { IsBoard plan.now board.now }
    ensures { (clone : ℕ) (job : Clone) → clone_of plan.now clone ≡ Some job
        → phase_is_open plan.now board.now.history.items job ≡ nat_le job.phase result }
{
    let Rested {
        earliest,
        last_phase,
        ..
    } = board.rested;
    if earliest >= plan.clones() {
        return phase_of_all(plan, board);
    }
    let phase = plan.clone_at(earliest).phase();
    if phase >= last_phase {
        return last_phase;
    }
    if !is_at_rest(plan, board, earliest) {
        return phase;
    }
    phase_of_all(plan, board)
}

// A phase that no clone's is later than.
pub(crate) fn last_phase(plan: &Plan) -> u32
    ensures { (clone : ℕ) (job : Clone) → clone_of plan.now clone ≡ Some job → job.phase ≤ result }
{
    let mut last = 0;
    for clone in 0..plan.clones() {
        last = plan.clone_at(clone).phase().max(last);
    }
    last
}

// The phase that is open, found by a look at all clones.
fn phase_of_all(plan: &Plan, board: &Board) -> u32
    requires { IsBoard plan.now board.now }
    ensures { (clone : ℕ) (job : Clone) → clone_of plan.now clone ≡ Some job
        → phase_is_open plan.now board.now.history.items job ≡ nat_le job.phase result }
{
    let mut phase = u32::MAX;
    for clone in 0..plan.clones() {
        let own = plan.clone_at(clone).phase();
        if !is_at_rest(plan, board, clone) {
            phase = phase.min(own);
        }
    }
    phase
}

/// Whether nothing is in flight, no verdict is missing, and each clone is finished or halted.
pub fn is_complete(plan: &Plan, board: &Board) -> bool
    requires { IsBoard plan.now board.now }
    ensures { result ≡ is_complete plan.now board.now.history.items }
{
    // Those before the leading one are at rest.
    for clone in board.rested.leading..plan.clones() {
        if !is_at_rest(plan, board, clone) {
            return false;
        }
    }
    true
}
