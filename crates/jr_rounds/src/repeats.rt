ghost use Rattle.std.specs.Prelude.{◌≡◌, ◌≤◌, ◌++◌, ◌∷◌, ◌||◌, [], true, length, IfErr, IfOk, List};
ghost use Rattle.std.specs.Io.KnownBytes.{Appends};
ghost use Rattle.jr_model.specs.declared.totals.Totals.{Totals as TotalsRecord};
ghost use Rattle.jr_model.specs.Legal.{is_complete, is_legal};
ghost use Rattle.jr_model.specs.Report.{all_totals};
ghost use Rattle.jr_rounds.specs.Repeats.{HasBroken, HasRounds, IsBreak, IsEndOf};
ghost use Rattle.jr_rounds.specs.Rounds.{is_bad, run_text};
ghost use Rattle.jr_rounds.specs.Sums.{AreSums};
ghost use Rattle.jr_rounds.specs.Turns.{BreaksWith, ends_after, found_after};

use crate::ends::RoundsEnd;
use crate::faults::RoundsFault;
use crate::runner::RoundRunner;
use crate::seeds::plan_of_round;
use crate::sums::Sums;
use crate::texts::{is_bad, tell_round, tell_sums};
use jr_cli_ends::RunEnd;
use jr_cli_words::CliFault;
use jr_desk::Desk;
use jr_plan::Plan;
use std::alloc::Global;
use std::io::Write;

// When rounds end: how many they may be at most, and whether one that is bad doesn't end them.
#[derive(Clone, Copy)]
struct Until {
    limit: u32,
    is_keeping_going: bool,
}

// What a round was found to be: whether the runner said that no other is to begin, and whether it is the last.
#[derive(Clone, Copy)]
struct Turn {
    is_over: bool,
    is_last: bool,
}

/// Runs the plan again and again, each time with other seeds. Prints the report of each round that is bad or interrupted and of the last
/// one, and then the sums. It ends after `limit` rounds, after one that is bad unless `is_keeping_going`, after one that is interrupted,
/// or when the runner says so. While a round runs, nothing is kept of those before it but their sums.
pub fn run_rounds<T: RoundRunner, V: Write>(
    alloc: Global,
    plan: &Plan,
    limit: u32,
    is_keeping_going: bool,
    runner: &mut T,
    out: &mut V,
) -> Result<RoundsEnd, RoundsFault<T::Fault>>
    requires { 1 ≤ limit }
    ensures ran { IfOk result (HasRounds plan.now limit is_keeping_going (V.contents out.old) (V.contents out.new)) }
    ensures broken { IfErr result (IsBreak (HasBroken plan.now is_keeping_going (V.contents out.old) (V.contents out.new))) }
{
    let until = Until {
        limit,
        is_keeping_going,
    };
    let mut sums = Sums::new(alloc, plan)?;
    let mut found = 0;
    for round in 0..limit {
        let made = plan_of_round(alloc, plan, round)?;
        let ended = match runner.run(made, round) {
            Ok(ended) => ended,
            Err(fault) => return Err(tell_broken_off(alloc, plan, &sums, fault, out)),
        };
        let turn = end_round(alloc, round, &ended, until, &mut sums, runner, out)?;
        found = found_with(found, &ended.desk);
        if turn.is_last {
            tell_sums(alloc, plan, &sums, out)?;
            return Ok(RoundsEnd {
                rounds: round + 1,
                found,
                is_over: turn.is_over,
                last: ended,
                sums,
            });
        }
    }
    unreachable!()
}

// 1 if the desk's run is bad, else what was found before it.
fn found_with(before: u8, desk: &Desk) -> u8
    ensures { result ≡ found_after (is_bad desk.now.plan desk.now.history) before }
{
    if is_bad(desk) { 1 } else { before }
}

// Prints what is to be printed of a round that has ended, adds it to the sums, and tells the runner.
fn end_round<T: RoundRunner, V: Write>(
    alloc: Global,
    round: u32,
    ended: &RunEnd,
    until: Until,
    sums: &mut Sums,
    runner: &mut T,
    out: &mut V,
) -> Result<Turn, CliFault>
    requires { length sums.old.totals ≡ length ended.now.desk.plan.clones }
    ensures last { IfOk result (λ turn. turn.is_last ≡ (turn.is_over || ends_after until round ended.now)) }
    ensures told { IfOk result (λ turn. Appends (V.contents out.old) (V.contents out.new)
        (run_text round ended.now.desk.plan ended.now.desk.history turn.is_last)) }
    ensures sums { IfOk result (λ _. (rounds : List (List TotalsRecord)) → AreSums rounds sums.old
        → AreSums (rounds ++ all_totals ended.now.desk.plan ended.now.desk.history ∷ []) sums.new) }
    ensures clones { IfOk result (λ _. length sums.new.totals ≡ length sums.old.totals) }
    ensures legal { IfOk result (λ _. is_legal ended.now.desk.plan ended.now.desk.history ≡ true) }
{
    // Its contract says that it is legal.
    let _ = ended.desk.history();
    let is_over = runner.is_over();
    let is_last = is_over || ends_after(until, round, ended);
    tell_round(alloc, round, &ended.desk, is_last, out)?;
    sums.add(ended.desk.totals());
    runner.told(round, ended, is_last, sums);
    Ok(Turn { is_over, is_last })
}

// Whether rounds end after this one, whatever the runner says.
fn ends_after(until: Until, round: u32, ended: &RunEnd) -> bool
    ensures { result ≡ ends_after until round ended.now }
{
    u64::from(round) + 1 == u64::from(until.limit)
        || (is_bad(&ended.desk) && !until.is_keeping_going)
        || ended.is_interrupted()
}

// Why rounds end where one can't be run, for this reason: their sums are printed, if there were any.
fn tell_broken_off<E, V: Write>(
    alloc: Global,
    plan: &Plan,
    sums: &Sums,
    fault: E,
    out: &mut V,
) -> RoundsFault<E>
    ensures { IsBreak (BreaksWith plan.now sums.now (V.contents out.old) (V.contents out.new)) result }
{
    if sums.rounds() == 0 {
        return RoundsFault::Round(fault);
    }
    match tell_sums(alloc, plan, sums, out) {
        Ok(()) => RoundsFault::Round(fault),
        Err(_) => RoundsFault::Untold(fault),
    }
}
