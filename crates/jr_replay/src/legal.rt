ghost use Rattle.std.specs.Prelude.{◌≡◌, false, nat_le, ◌==◌, not, ◌&&◌, ◌||◌, take, if◌then◌else◌};
ghost use Rattle.std.specs.List.{list_any, list_all};
ghost use Rattle.jr_model.specs.History.{is_of_clone, awaiting, in_flight};
ghost use Rattle.jr_model.specs.Legal.{is_halted, is_over, is_at_rest, phase_is_open, has_room, conflicts, waits_for, is_clear};
ghost use Rattle.jr_model.specs.Legal.{takes_up, may_take_up, may_issue, check_or_skip, step_of};
ghost use Rattle.jr_model.specs.Plan.{clone_of, declines_of, issued_as};
ghost use Rattle.jr_model.specs.Rounds.{write_id, is_write_draw, issued_count, has_rounds, clone_finished, is_current};
ghost use Rattle.jr_model.specs.Rounds.{pass_finished, passes_of};

use crate::rounds::{
    flying_count, is_open, issued_count, nothing_flies_of, pass_finished, waits_for_round,
};
use jr_model::{Draw, Event, Piece, Started, overlaps};
use jr_plan::{Plan, SubJob};
use jr_replay_history::{Past, is_intact, is_of_clone, is_write};
use jr_replay_passes::{Agenda, PlannedClone, PlannedPass, has_rounds, is_write_draw};

// Whether a clone is halted, by whether it has a fault, and a bad verdict that is fatal.
fn halts(faulty: bool, fatal: bool, condemned: bool) -> bool
    ensures { result ≡ (faulty || (fatal && condemned)) }
{
    faulty || (fatal && condemned)
}

/// Whether a fault, or a bad verdict if that is fatal, has halted a clone.
pub(crate) fn is_halted(past: &Past, job: &SubJob) -> bool
    ensures { result ≡ is_halted past.now job.now }
{
    let clone = job.clone_number();
    let ledger = past.ledger();
    let faulty = ledger.is_faulty(clone);
    let condemned = ledger.is_condemned(clone);
    halts(faulty, job.is_fatal(), condemned)
}

/// Whether all passes of a clone are finished.
pub(crate) fn clone_finished(past: &Past, clone: &PlannedClone<'_>) -> bool
    ensures { result ≡ clone_finished past.now clone.now }
{
    all_finished(past, clone.passes())
}

fn all_finished(past: &Past, passes: &[PlannedPass<'_>]) -> bool
    ensures { result ≡ list_all (pass_finished past.now) passes.now }
{
    passes.iter().all(|pass| pass_finished(past, pass))
}

/// Whether a clone is finished or halted.
pub(crate) fn is_over(past: &Past, clone: &PlannedClone<'_>) -> bool
    ensures { result ≡ is_over past.now clone.now }
{
    is_halted(past, clone.job()) || clone_finished(past, clone)
}

// Whether a verdict of the clone is still to come.
pub(crate) fn awaits_verdict(past: &Past, clone: u32) -> bool
    ensures { result ≡ list_any (is_of_clone clone) (awaiting past.now) }
{
    past.awaiting().iter().any(|io| is_of_clone(clone, io))
}

/// Whether a clone is over, with nothing in flight and no verdict to come.
pub(crate) fn is_at_rest(past: &Past, clone: &PlannedClone<'_>) -> bool
    ensures { result ≡ is_at_rest past.now clone.now }
{
    let number = clone.job().clone_number();
    nothing_flies_of(past, number) && !awaits_verdict(past, number) && is_over(past, clone)
}

// Whether a clone is of this phase or later, or at rest.
fn lets_begin(past: &Past, phase: u32, other: &PlannedClone<'_>) -> bool
    ensures { result ≡ (nat_le phase other.now.phase || is_at_rest past.now other.now) }
{
    phase <= other.job().phase() || is_at_rest(past, other)
}

/// Whether all clones of earlier phases are at rest.
pub(crate) fn phase_is_open(work: &Agenda<'_>, past: &Past, job: &SubJob) -> bool
    ensures { result ≡ phase_is_open work.now past.now job.now }
{
    let phase = job.phase();
    work.clones()
        .iter()
        .all(|other| lets_begin(past, phase, other))
}

/// Whether a clone has fewer I/Os in flight than its depth.
pub(crate) fn has_room(past: &Past, job: &SubJob) -> bool
    ensures { result ≡ has_room past.now job.now }
{
    flying_count(past, job.clone_number()) < job.depth() as usize
}

// Whether the I/O overlaps the piece, and one of the two writes.
fn conflicts(writes: bool, piece: &Piece, io: &Started) -> bool
    ensures { result ≡ conflicts writes piece.now io.now }
{
    (writes || is_write(io.kind)) && overlaps(&io.piece, piece)
}

// Whether a clone is there and declines.
pub(crate) fn clone_declines(plan: &Plan, clone: u32) -> bool
    ensures { result ≡ declines_of (clone_of plan.now clone) }
{
    let clone = clone as usize;
    if clone < plan.clones() {
        plan.clone_at(clone).declines()
    } else {
        false
    }
}

// Whether a clone's I/O has to wait for the other: the two conflict, and neither clone declines.
fn waits_for(plan: &Plan, job: &SubJob, writes: bool, piece: &Piece, io: &Started) -> bool
    ensures { result ≡ waits_for plan.now job.now writes piece.now io.now }
{
    !(job.declines() || clone_declines(plan, io.write.clone)) && conflicts(writes, piece, io)
}

fn waits_for_any(plan: &Plan, past: &Past, job: &SubJob, writes: bool, piece: &Piece) -> bool
    ensures { result ≡ list_any (waits_for plan.now job.now writes piece.now) (in_flight past.now) }
{
    past.in_flight()
        .iter()
        .any(|io| waits_for(plan, job, writes, piece, io))
}

/// Whether a clone's I/O over a piece has to wait for nothing in flight.
pub(crate) fn is_clear(plan: &Plan, past: &Past, job: &SubJob, writes: bool, piece: &Piece) -> bool
    ensures { result ≡ is_clear plan.now past.now job.now writes piece.now }
{
    !waits_for_any(plan, past, job, writes, piece)
}

// Whether the first passes of a clone, so many, are finished.
fn earlier_finished(past: &Past, clone: &PlannedClone<'_>, number: u32) -> bool
    ensures { result ≡ list_all (pass_finished past.now) (take number (passes_of clone.now)) }
{
    clone
        .passes()
        .iter()
        .take(number as usize)
        .all(|pass| pass_finished(past, pass))
}

/// Whether a pass is the first of its clone that isn't finished.
pub(crate) fn is_current(past: &Past, clone: &PlannedClone<'_>, pass: &PlannedPass<'_>) -> bool
    requires { pass.now.job ≡ clone.now }
    ensures { result ≡ is_current past.now pass.now }
{
    pass.number() < clone.job().passes()
        && !pass_finished(past, pass)
        && earlier_finished(past, clone, pass.number())
}

// Whether a draw is the next of its pass, of a clone that isn't halted and has room, with nothing in
// flight in its way.
pub(crate) fn is_next(plan: &Plan, past: &Past, pass: &PlannedPass<'_>, draw: &Draw) -> bool
    ensures { result
        ≡ ((draw.now.number == issued_count past.now pass.now)
        && not (is_halted past.now pass.now.job)
        && has_room past.now pass.now.job
        && is_clear plan.now past.now pass.now.job (is_write_draw draw.now) draw.now.piece) }
{
    let writes = is_write_draw(draw);
    draw.number as usize == issued_count(past.ledger(), pass)
        && !is_halted(past, pass.job())
        && has_room(past, pass.job())
        && is_clear(plan, past, pass.job(), writes, &draw.piece)
}

/// Whether a draw of a pass may be issued.
pub(crate) fn may_issue(
    work: &Agenda<'_>,
    past: &Past,
    clone: &PlannedClone<'_>,
    pass: &PlannedPass<'_>,
    draw: &Draw,
) -> bool
    requires { pass.now.job ≡ clone.now }
    ensures { result ≡ may_issue work.now past.now pass.now draw.now }
{
    is_next(work.plan(), past, pass, draw)
        && is_current(past, clone, pass)
        && !waits_for_round(past.ledger(), pass)
        && phase_is_open(work, past, pass.job())
}

// Whether a draw is a write that wasn't checked or skipped, of a clone that has rounds, isn't halted
// and has room, with nothing in flight in its check's way.
pub(crate) fn is_left(plan: &Plan, past: &Past, pass: &PlannedPass<'_>, draw: &Draw) -> bool
    ensures { result
        ≡ (is_write_draw draw.now
        && has_rounds pass.now.job
        && not (list_any (takes_up (write_id pass.now draw.now)) past.now)
        && not (is_halted past.now pass.now.job)
        && has_room past.now pass.now.job
        && is_clear plan.now past.now pass.now.job false draw.now.piece) }
{
    is_write_draw(draw)
        && has_rounds(pass.job())
        && !past.ledger().is_taken_up(&pass.write_id(draw))
        && !is_halted(past, pass.job())
        && has_room(past, pass.job())
        && is_clear(plan, past, pass.job(), false, &draw.piece)
}

/// Whether the write of a draw may be checked, or skipped, now.
pub(crate) fn may_take_up(
    work: &Agenda<'_>,
    past: &Past,
    pass: &PlannedPass<'_>,
    draw: &Draw,
) -> bool
    ensures { result ≡ may_take_up work.now past.now pass.now draw.now }
{
    is_left(work.plan(), past, pass, draw) && is_open(past, pass, pass.group_index(draw.number))
}

// The check of a write that is intact, the skip of one that isn't.
pub(crate) fn check_if(intact: bool, worker: u32, pass: &PlannedPass<'_>, draw: &Draw) -> Event
    ensures { result
        ≡ (if intact then Event.Probe worker (write_id pass.now draw.now) draw.now.piece
        else Event.Skip worker (write_id pass.now draw.now)) }
{
    let write = pass.write_id(draw);
    if intact {
        Event::Probe {
            worker,
            write,
            piece: draw.piece,
        }
    } else {
        Event::Skip { worker, write }
    }
}

// The check of a write where it is intact, else its skip.
fn check_or_skip(past: &Past, worker: u32, pass: &PlannedPass<'_>, draw: &Draw) -> Event
    ensures { result ≡ check_or_skip past.now worker pass.now draw.now }
{
    let intact = is_intact(past, &pass.write_id(draw), &draw.piece);
    check_if(intact, worker, pass, draw)
}

// The issue of a draw.
pub(crate) fn issue_of(worker: u32, pass: &PlannedPass<'_>, draw: &Draw) -> Event
    ensures { result
        ≡ Event.Issue worker (issued_as pass.now.job draw.now.dir) (write_id pass.now draw.now) draw.now.piece }
{
    Event::Issue {
        worker,
        kind: pass.job().issued_as(draw.dir),
        write: pass.write_id(draw),
        piece: draw.piece,
    }
}

/// What may happen with a draw of a pass now, if anything: its check or skip, or its issue.
pub(crate) fn step_of(
    work: &Agenda<'_>,
    past: &Past,
    worker: u32,
    clone: &PlannedClone<'_>,
    pass: &PlannedPass<'_>,
    draw: &Draw,
) -> Option<Event>
    requires { pass.now.job ≡ clone.now }
    ensures { result ≡ step_of work.now past.now worker pass.now draw.now }
{
    if may_take_up(work, past, pass, draw) {
        return Some(check_or_skip(past, worker, pass, draw));
    }
    if may_issue(work, past, clone, pass, draw) {
        return Some(issue_of(worker, pass, draw));
    }
    None
}
