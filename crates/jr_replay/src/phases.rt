// What may happen with a draw after a legal history: what the history has shown already isn't looked at again.
ghost use Rattle.std.specs.Prelude.{◌≡◌, suc, ◌<◌, ◌==◌, nat_eq, nat_lt, nat_le, not, true, false, ◌&&◌, ◌||◌, IfOk, OnOk, Some, slice_get, take};
ghost use Rattle.std.specs.HashMap.{get};
ghost use Rattle.std.specs.List.{list_any, list_all};
ghost use Rattle.jr_model.specs.Legal.{is_legal, is_over, is_at_rest, is_complete, is_halted, has_room, is_clear, phase_is_open, takes_up, may_take_up, may_issue, step_of, check_or_skip};
ghost use Rattle.jr_model.specs.Legal.{step_of_draw, step_at};
ghost use Rattle.jr_model.specs.Plan.{clone_of};
ghost use Rattle.jr_model.specs.Rounds.{pass_of, passes_of, write_id, is_write_draw, issued_count, has_rounds, group_index};
ghost use Rattle.jr_model.specs.Rounds.{all_issued, is_full, is_closed, is_open, rounds_closed, waits_for_round, pass_finished};
ghost use Rattle.jr_model.specs.Rounds.{clone_finished, is_current};
ghost use Rattle.jr_replay.specs.Courses.{IsCourse};
ghost use Rattle.jr_replay.specs.Phases.{is_its_turn};

use crate::clones::{has_room, is_clear, is_halted, is_quiet, no_issue_flies, nothing_flies_of};
use crate::courses::Course;
use crate::legal::{check_if, issue_of};
use crate::rounds::{all_issued, is_full, is_pending, issued_count, rounds_closed};
use jr_model::{Draw, Event, Memory, WriteId};
use jr_plan::{Plan, SubJob};
use jr_replay_history::{Ledger, is_intact_by};
use jr_replay_passes::{PlannedPass, has_rounds, is_write_draw};
use std::alloc::Global;

// Whether both hold.
fn both(a: bool, b: bool) -> bool
    ensures { result ≡ (a && b) }
{
    a && b
}

// Whether the group of a write that wasn't taken up is open: as that write isn't settled, it isn't closed.
fn is_open_for(plan: &Plan, course: &Course<'_>, pass: &PlannedPass<'_>, draw: &Draw) -> bool
    requires course { IsCourse plan.now course.now }
    requires there { clone_of plan.now pass.now.job.clone ≡ Some pass.now.job }
    requires drawn { slice_get pass.now.draws draw.now.number ≡ Some draw.now }
    requires writes { is_write_draw draw.now ≡ true }
    requires fresh { list_any (takes_up (write_id pass.now draw.now)) course.now.history ≡ false }
    ensures { result ≡ is_open course.now.history pass.now (group_index pass.now draw.now.number) }
{
    pass.facts();
    let full = is_full(&course.history, pass, pass.group_index(draw.number));
    let quiet = no_issue_flies(plan, course, pass.job());
    both(full, quiet)
}

// Whether the I/O of a draw that is wanted may start, in a clone that isn't halted and has room, with nothing in flight in its way.
fn may_start(
    plan: &Plan,
    course: &Course<'_>,
    pass: &PlannedPass<'_>,
    draw: &Draw,
    writes: bool,
    wanted: bool,
) -> bool
    requires course { IsCourse plan.now course.now }
    requires there { clone_of plan.now pass.now.job.clone ≡ Some pass.now.job }
    requires drawn { slice_get pass.now.draws draw.now.number ≡ Some draw.now }
    ensures { result
        ≡ (wanted
        && not (is_halted course.now.history pass.now.job)
        && has_room course.now.history pass.now.job
        && is_clear plan.now course.now.history pass.now.job writes draw.now.piece) }
{
    wanted
        && !is_halted(plan, course, pass.job())
        && has_room(plan, course, pass.job())
        && is_clear(plan, course, pass, draw, writes)
}

// Whether a draw is a write that wasn't checked or skipped, of a clone that has rounds.
fn is_unchecked(ledger: &Ledger, pass: &PlannedPass<'_>, draw: &Draw) -> bool
    ensures { result
        ≡ (is_write_draw draw.now
        && has_rounds pass.now.job
        && not (list_any (takes_up (write_id pass.now draw.now)) ledger.now)) }
{
    is_write_draw(draw) && has_rounds(pass.job()) && !ledger.is_taken_up(&pass.write_id(draw))
}

// Whether this write is still to be taken up by a clone that isn't halted and has room, with nothing in flight in its check's way.
fn is_left(plan: &Plan, course: &Course<'_>, pass: &PlannedPass<'_>, draw: &Draw) -> bool
    requires course { IsCourse plan.now course.now }
    requires there { clone_of plan.now pass.now.job.clone ≡ Some pass.now.job }
    requires drawn { slice_get pass.now.draws draw.now.number ≡ Some draw.now }
    ensures { result
        ≡ (is_write_draw draw.now
        && has_rounds pass.now.job
        && not (list_any (takes_up (write_id pass.now draw.now)) course.now.history)
        && not (is_halted course.now.history pass.now.job)
        && has_room course.now.history pass.now.job
        && is_clear plan.now course.now.history pass.now.job false draw.now.piece) }
{
    let unchecked = is_unchecked(&course.history, pass, draw);
    may_start(plan, course, pass, draw, false, unchecked)
}

// Whether the write of a draw may be checked, or skipped, now.
fn may_take_up(plan: &Plan, course: &Course<'_>, pass: &PlannedPass<'_>, draw: &Draw) -> bool
    requires course { IsCourse plan.now course.now }
    requires there { clone_of plan.now pass.now.job.clone ≡ Some pass.now.job }
    requires drawn { slice_get pass.now.draws draw.now.number ≡ Some draw.now }
    ensures { result ≡ may_take_up plan.now course.now.history pass.now draw.now }
{
    is_left(plan, course, pass, draw) && is_open_for(plan, course, pass, draw)
}

// Whether a group waits for its checks, where the writes of its clone are checked at all.
fn is_waiting(ledger: &Ledger, pass: &PlannedPass<'_>, issued: usize, g: usize) -> bool
    requires { issued ≡ issued_count ledger.now pass.now }
    ensures { result ≡ (has_rounds pass.now.job
        && (is_full ledger.now pass.now g && not (is_closed ledger.now pass.now g))) }
{
    has_rounds(pass.job()) && is_pending(ledger, pass, issued, g)
}

// Whether a group of the pass waits for its checks: only that of the write that was issued last can.
fn waits_for_round(plan: &Plan, ledger: &Ledger, pass: &PlannedPass<'_>) -> bool
    requires legal { is_legal plan.now ledger.now ≡ true }
    requires there { clone_of plan.now pass.now.job.clone ≡ Some pass.now.job }
    ensures { result ≡ waits_for_round ledger.now pass.now }
{
    plan.facts();
    pass.facts();
    let issued = issued_count(ledger, pass);
    match pass.last_below(issued) {
        None => false,
        Some(last) => is_waiting(ledger, pass, issued, pass.group_index(last.number)),
    }
}

// Whether all draws of a pass were issued, and its rounds are closed.
fn is_carried_out(ledger: &Ledger, pass: &PlannedPass<'_>) -> bool
    ensures { result ≡ (all_issued ledger.now pass.now && rounds_closed ledger.now pass.now) }
{
    all_issued(ledger, pass) && rounds_closed(ledger, pass)
}

// Whether a pass of a clone is finished, where the next one hasn't begun. One that hasn't begun isn't, nor is one while anything of the
// clone flies, and of the others the draws are kept or made once more.
fn is_finished(
    alloc: Global,
    plan: &Plan,
    course: &Course<'_>,
    job: &SubJob,
    number: u32,
) -> Result<bool, Memory>
    requires course { IsCourse plan.now course.now }
    requires there { clone_of plan.now job.now.clone ≡ Some job.now }
    requires last { issued_count course.now.history (pass_of job.now (suc number)) ≡ 0 }
    ensures { IfOk result (λ yes. yes ≡ pass_finished course.now.history (pass_of job.now number)) }
{
    if has_not_begun(&course.history, job, number) {
        return Ok(false);
    }
    if !nothing_flies_of(plan, course, job) {
        return Ok(false);
    }
    match course.kept(job.clone_number(), number) {
        Some(pass) => Ok(is_carried_out(&course.history, pass)),
        None => {
            let pass = PlannedPass::new(alloc, job, number)?;
            Ok(is_carried_out(&course.history, &pass))
        }
    }
}

// Whether no draw of a clone's pass was issued.
fn has_not_begun(ledger: &Ledger, job: &SubJob, number: u32) -> bool
    ensures { result ≡ (issued_count ledger.now (pass_of job.now number) == 0) }
{
    ledger.issued_count(job.clone_number(), number) == 0
}

// Whether the first passes of a clone, so many, are finished: they are where a draw of the next was issued, or the last of them is.
fn earlier_finished(
    alloc: Global,
    plan: &Plan,
    course: &Course<'_>,
    job: &SubJob,
    number: u32,
) -> Result<bool, Memory>
    requires course { IsCourse plan.now course.now }
    requires there { clone_of plan.now job.now.clone ≡ Some job.now }
    ensures { number < job.now.passes
        → IfOk result (λ yes. yes ≡ list_all (pass_finished course.now.history) (take number (passes_of job.now))) }
{
    if !has_not_begun(&course.history, job, number) {
        return Ok(true);
    }
    if number == 0 {
        return Ok(true);
    }
    is_finished(alloc, plan, course, job, number - 1)
}

// Whether all passes of a clone are finished: the last of them is.
fn clone_finished(
    alloc: Global,
    plan: &Plan,
    course: &Course<'_>,
    job: &SubJob,
) -> Result<bool, Memory>
    requires course { IsCourse plan.now course.now }
    requires there { clone_of plan.now job.now.clone ≡ Some job.now }
    ensures { IfOk result (λ yes. yes ≡ clone_finished course.now.history job.now) }
{
    job.facts();
    is_finished(alloc, plan, course, job, job.passes() - 1)
}

// Whether a clone is finished or halted.
fn is_over(alloc: Global, plan: &Plan, course: &Course<'_>, job: &SubJob) -> Result<bool, Memory>
    requires course { IsCourse plan.now course.now }
    requires there { clone_of plan.now job.now.clone ≡ Some job.now }
    ensures { IfOk result (λ yes. yes ≡ is_over course.now.history job.now) }
{
    if is_halted(plan, course, job) {
        return Ok(true);
    }
    clone_finished(alloc, plan, course, job)
}

// Whether a clone is over, with nothing in flight and no verdict to come.
fn is_at_rest(alloc: Global, plan: &Plan, course: &Course<'_>, job: &SubJob) -> Result<bool, Memory>
    requires course { IsCourse plan.now course.now }
    requires there { clone_of plan.now job.now.clone ≡ Some job.now }
    ensures { IfOk result (λ yes. yes ≡ is_at_rest course.now.history job.now) }
{
    if !is_quiet(plan, course, job) {
        return Ok(false);
    }
    is_over(alloc, plan, course, job)
}

// Whether a clone is of this phase or later, or at rest.
fn lets_begin(
    alloc: Global,
    plan: &Plan,
    course: &Course<'_>,
    phase: u32,
    other: &SubJob,
) -> Result<bool, Memory>
    requires course { IsCourse plan.now course.now }
    requires there { clone_of plan.now other.now.clone ≡ Some other.now }
    ensures { IfOk result (λ yes. yes ≡ (nat_le phase other.now.phase || is_at_rest course.now.history other.now)) }
{
    if phase <= other.phase() {
        return Ok(true);
    }
    is_at_rest(alloc, plan, course, other)
}

// Whether all clones of earlier phases are at rest.
fn phase_is_open(
    alloc: Global,
    plan: &Plan,
    course: &Course<'_>,
    job: &SubJob,
) -> Result<bool, Memory>
    requires course { IsCourse plan.now course.now }
    ensures { IfOk result (λ yes. yes ≡ phase_is_open plan.now course.now.history job.now) }
{
    for i in 0..plan.clones() {
        if !lets_begin(alloc, plan, course, job.phase(), plan.clone_at(i))? {
            return Ok(false);
        }
    }
    Ok(true)
}

// Whether all clones of earlier phases are at rest: they are where the clone has begun, and stay so.
fn is_phase_open(
    alloc: Global,
    plan: &Plan,
    course: &Course<'_>,
    job: &SubJob,
) -> Result<bool, Memory>
    requires course { IsCourse plan.now course.now }
    requires there { clone_of plan.now job.now.clone ≡ Some job.now }
    ensures { IfOk result (λ yes. yes ≡ phase_is_open plan.now course.now.history job.now) }
{
    if has_not_begun(&course.history, job, 0) {
        return phase_is_open(alloc, plan, course, job);
    }
    Ok(true)
}

// Whether a draw is the next of its pass, of a clone that isn't halted and has room, with nothing in flight in its way.
fn is_next(plan: &Plan, course: &Course<'_>, pass: &PlannedPass<'_>, draw: &Draw) -> bool
    requires course { IsCourse plan.now course.now }
    requires there { clone_of plan.now pass.now.job.clone ≡ Some pass.now.job }
    requires drawn { slice_get pass.now.draws draw.now.number ≡ Some draw.now }
    ensures { result
        ≡ ((draw.now.number == issued_count course.now.history pass.now)
        && not (is_halted course.now.history pass.now.job)
        && has_room course.now.history pass.now.job
        && is_clear plan.now course.now.history pass.now.job (is_write_draw draw.now) draw.now.piece) }
{
    let next = draw.number as usize == issued_count(&course.history, pass);
    may_start(plan, course, pass, draw, is_write_draw(draw), next)
}

// Whether the pass of a draw that is its next one is the first of its clone that isn't finished, where it is known whether those
// before it are: it isn't finished itself.
fn is_current(course: &Course<'_>, pass: &PlannedPass<'_>, draw: &Draw, earlier: bool) -> bool
    requires drawn { slice_get pass.now.draws draw.now.number ≡ Some draw.now }
    requires next { (draw.now.number == issued_count course.now.history pass.now) ≡ true }
    requires earlier { pass.now.number < pass.now.job.passes
        → earlier ≡ list_all (pass_finished course.now.history) (take pass.now.number (passes_of pass.now.job)) }
    ensures { result ≡ is_current course.now.history pass.now }
{
    pass.number() < pass.job().passes() && earlier
}

// Whether a draw of a pass may be issued, but for its phase.
fn is_its_turn(
    plan: &Plan,
    course: &Course<'_>,
    pass: &PlannedPass<'_>,
    draw: &Draw,
    earlier: bool,
) -> bool
    requires course { IsCourse plan.now course.now }
    requires there { clone_of plan.now pass.now.job.clone ≡ Some pass.now.job }
    requires drawn { slice_get pass.now.draws draw.now.number ≡ Some draw.now }
    requires earlier { pass.now.number < pass.now.job.passes
        → earlier ≡ list_all (pass_finished course.now.history) (take pass.now.number (passes_of pass.now.job)) }
    ensures { result ≡ is_its_turn plan.now course.now.history pass.now draw.now }
{
    is_next(plan, course, pass, draw)
        && is_current(course, pass, draw, earlier)
        && !waits_for_round(plan, &course.history, pass)
}

// Whether a draw of a pass may be issued.
fn may_issue(
    alloc: Global,
    plan: &Plan,
    course: &Course<'_>,
    pass: &PlannedPass<'_>,
    draw: &Draw,
    earlier: bool,
) -> Result<bool, Memory>
    requires course { IsCourse plan.now course.now }
    requires there { clone_of plan.now pass.now.job.clone ≡ Some pass.now.job }
    requires drawn { slice_get pass.now.draws draw.now.number ≡ Some draw.now }
    requires earlier { pass.now.number < pass.now.job.passes
        → earlier ≡ list_all (pass_finished course.now.history) (take pass.now.number (passes_of pass.now.job)) }
    ensures { IfOk result (λ yes. yes ≡ may_issue plan.now course.now.history pass.now draw.now) }
{
    if !is_its_turn(plan, course, pass, draw, earlier) {
        return Ok(false);
    }
    is_phase_open(alloc, plan, course, pass.job())
}

// The check of a write where it is intact, else its skip.
fn check_or_skip(
    plan: &Plan,
    course: &Course<'_>,
    worker: u32,
    pass: &PlannedPass<'_>,
    draw: &Draw,
) -> Event
    requires { IsCourse plan.now course.now }
    ensures { result ≡ check_or_skip course.now.history worker pass.now draw.now }
{
    let raced = &course.indexes.raced;
    let intact = is_intact_by(&course.history, raced, &pass.write_id(draw), &draw.piece);
    check_if(intact, worker, pass, draw)
}

// What may happen with a draw of a pass now, if anything.
fn legal_step_of(
    alloc: Global,
    plan: &Plan,
    course: &Course<'_>,
    worker: u32,
    pass: &PlannedPass<'_>,
    draw: &Draw,
    earlier: bool,
) -> Result<Option<Event>, Memory>
    requires course { IsCourse plan.now course.now }
    requires there { clone_of plan.now pass.now.job.clone ≡ Some pass.now.job }
    requires drawn { slice_get pass.now.draws draw.now.number ≡ Some draw.now }
    requires earlier { pass.now.number < pass.now.job.passes
        → earlier ≡ list_all (pass_finished course.now.history) (take pass.now.number (passes_of pass.now.job)) }
    ensures { IfOk result (λ step. step ≡ step_of plan.now course.now.history worker pass.now draw.now) }
{
    if may_take_up(plan, course, pass, draw) {
        return Ok(Some(check_or_skip(plan, course, worker, pass, draw)));
    }
    if may_issue(alloc, plan, course, pass, draw, earlier)? {
        return Ok(Some(issue_of(worker, pass, draw)));
    }
    Ok(None)
}

// What may happen with the draw of this number, if it is there.
fn legal_step_of_number(
    alloc: Global,
    plan: &Plan,
    course: &Course<'_>,
    worker: u32,
    pass: &PlannedPass<'_>,
    number: u32,
    earlier: bool,
) -> Result<Option<Event>, Memory>
    requires course { IsCourse plan.now course.now }
    requires there { clone_of plan.now pass.now.job.clone ≡ Some pass.now.job }
    requires earlier { pass.now.number < pass.now.job.passes
        → earlier ≡ list_all (pass_finished course.now.history) (take pass.now.number (passes_of pass.now.job)) }
    ensures { IfOk result
        (λ step. step ≡ step_of_draw plan.now course.now.history worker pass.now (slice_get pass.now.draws number)) }
{
    pass.facts();
    match pass.draw_at(number) {
        None => Ok(None),
        Some(draw) => legal_step_of(alloc, plan, course, worker, pass, &draw, earlier),
    }
}

// What may happen with the draw of this name of a clone, if anything, where its pass is kept.
fn legal_step_kept(
    alloc: Global,
    plan: &Plan,
    course: &Course<'_>,
    worker: u32,
    write: &WriteId,
    job: &SubJob,
    earlier: bool,
) -> Result<Option<Event>, Memory>
    requires course { IsCourse plan.now course.now }
    requires there { clone_of plan.now job.now.clone ≡ Some job.now }
    requires own { job.now.clone ≡ write.now.clone }
    requires kept { get nat_eq course.now.passes job.now.clone ≡ Some (pass_of job.now write.now.pass) }
    requires earlier { write.now.pass < job.now.passes
        → earlier ≡ list_all (pass_finished course.now.history) (take write.now.pass (passes_of job.now)) }
    ensures { IfOk result (λ step. step ≡ step_at plan.now course.now.history worker write.now) }
{
    match course.kept(write.clone, write.pass) {
        None => Ok(None),
        Some(pass) => legal_step_of_number(
            alloc,
            plan,
            course,
            worker,
            pass,
            write.number,
            earlier,
        ),
    }
}

/// What may happen with the draw of this name now, if anything; as by `step_at`, in far fewer steps.
pub fn legal_step_at<'a>(
    alloc: Global,
    plan: &'a Plan,
    course: &mut Course<'a>,
    worker: u32,
    write: &WriteId,
) -> Result<Option<Event>, Memory>
    requires { IsCourse plan.now course.old }
    ensures step { IfOk result (λ step. step ≡ step_at plan.now course.old.history worker write.now) }
    ensures course { OnOk result (IsCourse plan.now course.new) }
    ensures history { course.new.history ≡ course.old.history }
{
    plan.facts();
    let clone = write.clone as usize;
    if clone >= plan.clones() {
        return Ok(None);
    }
    let job = plan.clone_at(clone);
    let earlier = earlier_finished(alloc, plan, course, job, write.pass)?;
    course.enter(alloc, job, write.pass)?;
    legal_step_kept(alloc, plan, course, worker, write, job, earlier)
}

/// Whether a legal run is a whole run of its plan.
pub fn is_whole_run(alloc: Global, plan: &Plan, course: &Course<'_>) -> Result<bool, Memory>
    requires course { IsCourse plan.now course.now }
    ensures { IfOk result (λ yes. yes ≡ is_complete plan.now course.now.history) }
{
    for i in 0..plan.clones() {
        if !is_at_rest(alloc, plan, course, plan.clone_at(i))? {
            return Ok(false);
        }
    }
    Ok(true)
}
