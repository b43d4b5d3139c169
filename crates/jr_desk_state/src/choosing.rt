ghost use Rattle.std.specs.Prelude.{◌≡◌, ◌<◌, ℕ, true, false, length, nat_le, slice_get, Some, IfSome};
ghost use Rattle.std.specs.List.{list_any};
ghost use Rattle.std.specs.Option.{option_map, unwrap_or};
ghost use Rattle.jr_model.specs.declared.contents.Expected.TheVariants.{Nothing};
ghost use Rattle.jr_model.specs.Choice.{choice, choice_of_clone};
ghost use Rattle.jr_model.specs.History.{first_given, same_write};
ghost use Rattle.jr_model.specs.Legal.{is_halted, phase_is_open};
ghost use Rattle.jr_model.specs.Plan.{SubJob as Clone, clone_of};
ghost use Rattle.jr_model.specs.Rounds.{has_rounds, pass_of};
ghost use Rattle.jr_model.specs.Tickets.{piece_fits};
ghost use Rattle.jr_backlog.specs.CurrentRound.{current_round};
ghost use Rattle.jr_backlog.specs.Deferred.{is_committed};
ghost use Rattle.jr_laws_rounds.specs.Standing.{is_under_way, issue_of, next_issue, take_up_write};
ghost use Rattle.jr_desk_state.specs.Boards.{IsBoard, IsReady};
ghost use Rattle.jr_desk_state.specs.WriteLogs.{judged_by};
ghost use Rattle.jr_desk_state.specs.declared.standings.Standing.{Standing as Stood};

use crate::board::Board;
use crate::resting::{open_phase, pass_is_finished};
use crate::standings::{Standing, has_rounds};
use jr_model::{Dir, Draw, Event, Expected, WriteId};
use jr_plan::Plan;
use jr_writes::Found;

// What a take appends next, and for a check what its bytes are judged by, as it was found while the check was chosen. It is made once
// the check's ticket is.
#[derive(Drop)]
pub(crate) struct Chosen<'a> {
    pub event: Event,
    pub found: Option<Found<'a>>,
}

// What the bytes of the step are judged by.
pub(crate) fn expected_of(found: &Option<Found<'_>>) -> Expected
    ensures { result ≡ unwrap_or found.now Nothing }
{
    match found {
        Some(found) => found.expected(),
        None => Expected::Nothing,
    }
}

// What a take by this worker appends next, if it may append anything: the least step of all clones.
pub(crate) fn choose<'a>(plan: &Plan, board: &'a Board, worker: u32) -> Option<Chosen<'a>>
    requires board { IsBoard plan.now board.now }
    requires ready { IsReady plan.now board.now }
    ensures step { option_map (λ chosen. chosen.event) result ≡ choice plan.now board.now.history.items worker }
    ensures judged { IfSome result (λ chosen. judged_by board.now.log.writes chosen.event ≡ Some (unwrap_or chosen.found Nothing)) }
{
    let phase = open_phase(plan, board);
    // Those before are at rest, and do nothing more. Those that are known to wait are gone past.
    let mut clone = board.waiting.next_unmarked(board.rested.leading);
    while clone < plan.clones() {
        let step = step_of_clone(plan, board, phase, clone, worker);
        if step.is_some() {
            return step;
        }
        clone = board.waiting.next_unmarked(clone + 1);
    }
    None
}

// The least step of a clone, where draws of clones up to this phase may be issued.
fn step_of_clone<'a>(
    plan: &Plan,
    board: &'a Board,
    phase: u32,
    clone: usize,
    worker: u32,
) -> Option<Chosen<'a>>
    requires board { IsBoard plan.now board.now }
    requires ready { IsReady plan.now board.now }
    requires there { clone < length plan.now.clones }
    requires phase { (job : Clone) → clone_of plan.now clone ≡ Some job
        → phase_is_open plan.now board.now.history.items job ≡ nat_le job.phase phase }
    ensures step { (job : Clone) → clone_of plan.now clone ≡ Some job
        → option_map (λ chosen. chosen.event) result ≡ choice_of_clone plan.now board.now.history.items worker job }
    ensures judged { IfSome result (λ chosen. judged_by board.now.log.writes chosen.event ≡ Some (unwrap_or chosen.found Nothing)) }
{
    let job = plan.clone_at(clone);
    let standing = &board.standings[clone];
    let counts = &board.tallies.counts[clone];
    if counts.is_halted || counts.issues + counts.checks >= job.depth() {
        return None;
    }
    if has_rounds(job) && standing.rounds.is_under_way() {
        if counts.issues > 0 {
            return None;
        }
        return round_step(plan, board, standing, worker, job.declines());
    }
    if job.phase() > phase {
        return None;
    }
    next_issue(plan, board, clone, worker)
}

// The check or skip of the first write of a clone's round that nothing bars and that wasn't taken up.
fn round_step<'a>(
    plan: &Plan,
    board: &'a Board,
    standing: &Standing,
    worker: u32,
    declines: bool,
) -> Option<Chosen<'a>>
    requires board { IsBoard plan.now board.now }
    requires ready { IsReady plan.now board.now }
    requires settled { is_committed standing.now.rounds ≡ true }
    ensures step { (clone : ℕ) (job : Clone) → clone_of plan.now clone ≡ Some job
        → slice_get board.now.standings.items clone ≡ Some standing.now
        → has_rounds job ≡ true → declines ≡ job.declines → is_halted board.now.history.items job ≡ false
        → is_under_way (current_round job board.now.history.items) ≡ true
        → option_map (λ chosen. chosen.event) result
        ≡ first_given (take_up_write plan.now board.now.history.items worker job) (current_round job board.now.history.items).to_check }
    ensures judged { IfSome result (λ chosen. judged_by board.now.log.writes chosen.event ≡ Some (unwrap_or chosen.found Nothing)) }
{
    for place in 0..standing.rounds.left() {
        let Some(write) = standing.rounds.write_at(place) else {
            return None;
        };
        let step = take_up(plan, board, standing, worker, declines, write);
        if step.is_some() {
            return step;
        }
    }
    None
}

// The check or skip of a write of a clone's round, unless it was taken up or something in flight bars it.
fn take_up<'a>(
    plan: &Plan,
    board: &'a Board,
    standing: &Standing,
    worker: u32,
    declines: bool,
    write: WriteId,
) -> Option<Chosen<'a>>
    requires board { IsBoard plan.now board.now }
    requires ready { IsReady plan.now board.now }
    ensures step { (clone : ℕ) (job : Clone) → clone_of plan.now clone ≡ Some job
        → slice_get board.now.standings.items clone ≡ Some standing.now
        → has_rounds job ≡ true → declines ≡ job.declines → is_halted board.now.history.items job ≡ false
        → list_any (same_write write) (current_round job board.now.history.items).to_check ≡ true
        → option_map (λ chosen. chosen.event) result ≡ take_up_write plan.now board.now.history.items worker job write }
    ensures judged { IfSome result (λ chosen. judged_by board.now.log.writes chosen.event ≡ Some (unwrap_or chosen.found Nothing)) }
{
    let issued = *standing.issued.get(write.number as usize)?;
    if issued.is_taken_up {
        return None;
    }
    let piece = board.tickets.piece(issued.id)?;
    if !board.flying.is_clear(&piece, Dir::Read, declines) {
        return None;
    }
    match board.log.writes.found(&write) {
        Some(found) => Some(Chosen {
            event: Event::Probe {
                worker,
                write,
                piece,
            },
            found: Some(found),
        }),
        None => Some(Chosen {
            event: Event::Skip { worker, write },
            found: None,
        }),
    }
}

// The issue of a clone's next draw, where its phase is open: of the pass that it is in, or of the next one where that is
// finished.
fn next_issue<'a>(plan: &Plan, board: &'a Board, clone: usize, worker: u32) -> Option<Chosen<'a>>
    requires board { IsBoard plan.now board.now }
    requires ready { IsReady plan.now board.now }
    requires there { clone < length plan.now.clones }
    requires runs { (job : Clone) → clone_of plan.now clone ≡ Some job → is_halted board.now.history.items job ≡ false }
    requires opened { (job : Clone) → clone_of plan.now clone ≡ Some job
        → phase_is_open plan.now board.now.history.items job ≡ true }
    ensures step { (job : Clone) (standing : Stood) → clone_of plan.now clone ≡ Some job
        → slice_get board.now.standings.items clone ≡ Some standing
        → option_map (λ chosen. chosen.event) result ≡ next_issue plan.now board.now.history.items worker job standing.pass }
    ensures judged { IfSome result (λ chosen. judged_by board.now.log.writes chosen.event ≡ Some (unwrap_or chosen.found Nothing)) }
{
    let standing = &board.standings[clone];
    if !pass_is_finished(plan, board, clone) {
        return issue_of(
            plan,
            board,
            clone as u32,
            standing.pass,
            standing.draws.next(),
            worker,
        );
    }
    let next = standing.pass + 1;
    if next >= plan.clone_at(clone).passes() {
        return None;
    }
    match &standing.later {
        Some(draws) => issue_of(plan, board, clone as u32, next, draws.next(), worker),
        None => None,
    }
}

// The issue of a draw of a clone's pass, unless something in flight bars it.
fn issue_of<'a>(
    plan: &Plan,
    board: &'a Board,
    clone: u32,
    pass: u32,
    draw: Option<Draw>,
    worker: u32,
) -> Option<Chosen<'a>>
    requires board { IsBoard plan.now board.now }
    requires ready { IsReady plan.now board.now }
    requires there { clone < length plan.now.clones }
    requires fits { IfSome draw (λ draw. piece_fits draw.piece ≡ true) }
    ensures step { (job : Clone) → clone_of plan.now clone ≡ Some job → phase_is_open plan.now board.now.history.items job ≡ true
        → option_map (λ chosen. chosen.event) result ≡ issue_of plan.now board.now.history.items worker (pass_of job pass) draw }
    ensures judged { IfSome result (λ chosen. judged_by board.now.log.writes chosen.event ≡ Some (unwrap_or chosen.found Nothing)) }
{
    let draw = draw?;
    let job = plan.clone_at(clone as usize);
    if !board.flying.is_clear(&draw.piece, draw.dir, job.declines()) {
        return None;
    }
    let write = WriteId {
        clone,
        pass,
        number: draw.number,
    };
    Some(Chosen {
        event: Event::Issue {
            worker,
            kind: job.issued_as(draw.dir),
            write,
            piece: draw.piece,
        },
        found: None,
    })
}
