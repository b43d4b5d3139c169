ghost use Rattle.std.specs.Prelude.{◌≡◌, ◌&&◌, not, ◌==◌, IfOk, length, slice_get, if◌then◌else◌};
ghost use Rattle.std.specs.List.{list_all};
ghost use Rattle.jr_model.specs.History.{started, flies, outcome_of, is_judged, ended_whole, in_flight, awaiting};
ghost use Rattle.jr_model.specs.Legal.{step_of_draw, step_of_clone, step_at, same_issue, is_this_issue, is_this_probe};
ghost use Rattle.jr_model.specs.Legal.{is_this_skip, outcome_fits, end_fits, is_header_finding, is_byte_finding, is_chunk_finding, digest_finds, kind_finds};
ghost use Rattle.jr_model.specs.Legal.{kind_says, own_digest_finds, own_finds, own_says, ticket_says, job_says, verdict_fits};
ghost use Rattle.jr_model.specs.Legal.{is_void, may_happen, is_over, is_complete};
ghost use Rattle.jr_model.specs.Plan.{clone_of};
ghost use Rattle.jr_model.specs.Races.{has_raced};
ghost use Rattle.jr_replay.specs.Courses.{IsCourse};

use crate::courses::Course;
use crate::legal::{is_over, step_of};
use jr_model::{
    Draw, Event, IssueKind, Memory, Method, Outcome, Piece, SECTOR, Started, TicketKind, Verdict,
    VerifyKind, What, WriteId, same_piece, same_write,
};
use jr_plan::Plan;
use jr_replay_history::{Ledger, Past, ended_whole, is_judged_kind, is_void};
use jr_replay_passes::{Agenda, PlannedClone, PlannedPass};
use std::alloc::Global;

// What may happen with a draw that may not be there.
fn step_of_draw(
    work: &Agenda<'_>,
    past: &Past,
    worker: u32,
    clone: &PlannedClone<'_>,
    pass: &PlannedPass<'_>,
    draw: Option<Draw>,
) -> Option<Event>
    requires { pass.now.job ≡ clone.now }
    ensures { result ≡ step_of_draw work.now past.now worker pass.now draw }
{
    match draw {
        None => None,
        Some(draw) => step_of(work, past, worker, clone, pass, &draw),
    }
}

// What may happen with the draw of this name of a clone now, if anything.
pub(crate) fn step_of_clone(
    alloc: Global,
    work: &Agenda<'_>,
    past: &Past,
    worker: u32,
    write: &WriteId,
    clone: &PlannedClone<'_>,
) -> Result<Option<Event>, Memory>
    ensures { IfOk result
        (λ step. step ≡ step_of_clone work.now past.now worker write.now (Some clone.now)) }
{
    if let Some(pass) = clone.passes().get(write.pass as usize) {
        let draw = pass.draw_at(write.number);
        return Ok(step_of_draw(work, past, worker, clone, pass, draw));
    }
    let pass = PlannedPass::new(alloc, clone.job(), write.pass)?;
    let draw = pass.draw_at(write.number);
    Ok(step_of_draw(work, past, worker, clone, &pass, draw))
}

/// What may happen with the draw of this name now, if anything.
pub(crate) fn step_at(
    alloc: Global,
    work: &Agenda<'_>,
    past: &Past,
    worker: u32,
    write: &WriteId,
) -> Result<Option<Event>, Memory>
    ensures { IfOk result (λ step. step ≡ step_at work.now past.now worker write.now) }
{
    match work.clones().get(write.clone as usize) {
        None => Ok(None),
        Some(clone) => step_of_clone(alloc, work, past, worker, write, clone),
    }
}

fn same_issue(a: IssueKind, b: IssueKind) -> bool
    ensures { result ≡ same_issue a b }
{
    a == b
}

fn is_this_issue(kind: IssueKind, write: &WriteId, piece: &Piece, step: &Option<Event>) -> bool
    ensures { result ≡ is_this_issue kind write.now piece.now step.now }
{
    match step {
        Some(
            Event::Issue {
                kind: k,
                write: w,
                piece: p,
                ..
            },
        ) => same_issue(*k, kind) && same_write(w, write) && same_piece(p, piece),
        _ => false,
    }
}

fn is_this_probe(write: &WriteId, piece: &Piece, step: &Option<Event>) -> bool
    ensures { result ≡ is_this_probe write.now piece.now step.now }
{
    match step {
        Some(
            Event::Probe {
                write: w,
                piece: p,
                ..
            },
        ) => same_write(w, write) && same_piece(p, piece),
        _ => false,
    }
}

fn is_this_skip(write: &WriteId, step: &Option<Event>) -> bool
    ensures { result ≡ is_this_skip write.now step.now }
{
    match step {
        Some(Event::Skip { write: w, .. }) => same_write(w, write),
        _ => false,
    }
}

fn outcome_fits(outcome: Outcome, len: u32) -> bool
    ensures { result ≡ outcome_fits outcome len }
{
    match outcome {
        Outcome::Whole | Outcome::Failed => true,
        Outcome::Short(count) => count < len,
    }
}

fn end_fits(worker: u32, outcome: Outcome, io: Option<Started>) -> bool
    ensures { result ≡ end_fits worker outcome io }
{
    match io {
        None => false,
        Some(io) => io.worker == worker && outcome_fits(outcome, io.piece.len),
    }
}

// Whether this is wrong with a header, or the bytes after it.
fn is_header_finding(what: What) -> bool
    ensures { result ≡ is_header_finding what }
{
    match what {
        What::Header | What::Digest | What::DataArea => true,
        What::Byte(_) | What::Chunk(_, _) => false,
    }
}

// Whether this is a part of one of so many chunks.
fn is_chunk_finding(chunks: u32, what: What) -> bool
    ensures { result ≡ is_chunk_finding chunks what }
{
    match what {
        What::Chunk(i, _) => i < chunks,
        _ => false,
    }
}

// Whether headers can find this: one for the block, or one at each interval.
fn digest_finds(interval: u32, len: u32, what: What) -> bool
    ensures { result ≡ digest_finds interval len what }
{
    if interval == 0 {
        is_header_finding(what)
    } else {
        is_chunk_finding(len / interval, what)
    }
}

// Whether this is a byte of a piece of this length.
fn is_byte_finding(len: u32, what: What) -> bool
    ensures { result ≡ is_byte_finding len what }
{
    match what {
        What::Byte(i) => i < len,
        _ => false,
    }
}

// Whether a check of this kind can find this.
fn kind_finds(kind: VerifyKind, interval: u32, len: u32, what: What) -> bool
    ensures { result ≡ kind_finds kind interval len what }
{
    match kind {
        VerifyKind::Plain => false,
        VerifyKind::Pattern => is_byte_finding(len, what),
        VerifyKind::Md5 | VerifyKind::Sha1 | VerifyKind::Sha256 => digest_finds(
            interval, len, what,
        ),
    }
}

// Whether a check of this kind can have this verdict.
fn kind_says(kind: VerifyKind, interval: u32, len: u32, verdict: Verdict) -> bool
    ensures { result ≡ kind_says kind interval len verdict }
{
    match verdict {
        Verdict::Good => true,
        Verdict::Bad(what) => kind_finds(kind, interval, len, what),
        Verdict::Void => false,
    }
}

// Whether a checked read's own headers can find this: they say themselves how it is cut, into whole blocks at least.
fn own_digest_finds(len: u32, what: What) -> bool
    ensures { result ≡ own_digest_finds len what }
{
    is_header_finding(what) || is_chunk_finding((len / SECTOR).max(1), what)
}

// Whether a checked read of this kind can find this.
fn own_finds(kind: VerifyKind, len: u32, what: What) -> bool
    ensures { result ≡ own_finds kind len what }
{
    match kind {
        VerifyKind::Plain => false,
        VerifyKind::Pattern => is_byte_finding(len, what),
        VerifyKind::Md5 | VerifyKind::Sha1 | VerifyKind::Sha256 => own_digest_finds(len, what),
    }
}

// Whether a checked read of this kind can have this verdict.
fn own_says(kind: VerifyKind, len: u32, verdict: Verdict) -> bool
    ensures { result ≡ own_says kind len verdict }
{
    match verdict {
        Verdict::Good => true,
        Verdict::Bad(what) => own_finds(kind, len, what),
        Verdict::Void => false,
    }
}

// Whether an I/O of this kind can have this verdict, where its clone verifies so.
fn ticket_says(kind: TicketKind, method: &Method, len: u32, verdict: Verdict) -> bool
    ensures { result ≡ ticket_says kind method.now len verdict }
{
    match kind {
        TicketKind::Probe => kind_says(method.kind, method.interval, len, verdict),
        TicketKind::ReadCheck => own_says(method.kind, len, verdict),
        TicketKind::Read | TicketKind::Write => false,
    }
}

// Whether an I/O of this clone of the plan can have this verdict.
fn clone_says(plan: &Plan, clone: u32, kind: TicketKind, len: u32, verdict: Verdict) -> bool
    ensures { result ≡ job_says (clone_of plan.now clone) kind len verdict }
{
    let clone = clone as usize;
    if clone < plan.clones() {
        ticket_says(kind, &plan.clone_at(clone).method(), len, verdict)
    } else {
        false
    }
}

// Whether this may be said of an I/O: nothing of its bytes where it raced, and else what its kind can find.
fn may_be_said(plan: &Plan, raced: bool, verdict: Verdict, io: &Started) -> bool
    ensures { result
        ≡ (if raced then is_void verdict
        else job_says (clone_of plan.now io.now.write.clone) io.now.kind io.now.piece.len verdict) }
{
    if raced {
        is_void(verdict)
    } else {
        clone_says(plan, io.write.clone, io.kind, io.piece.len, verdict)
    }
}

fn verdict_fits(plan: &Plan, raced: bool, verdict: Verdict, io: Option<Started>) -> bool
    ensures { result ≡ verdict_fits plan.now raced verdict io }
{
    match io {
        None => false,
        Some(io) => is_judged_kind(io.kind) && may_be_said(plan, raced, verdict, &io),
    }
}

/// Whether a worker's I/O may end so now.
pub fn may_end(past: &Ledger, worker: u32, io: usize, outcome: Outcome) -> bool
    ensures { result
        ≡ (flies past.now io && end_fits worker outcome (slice_get (started past.now) io)) }
{
    past.flies(io) && end_fits(worker, outcome, past.started_at(io))
}

// Whether a check or checked read that raced or didn't may have this verdict now.
fn may_judge_if(raced: bool, plan: &Plan, ledger: &Ledger, io: usize, verdict: Verdict) -> bool
    ensures { result
        ≡ (ended_whole (outcome_of ledger.now io) && not (is_judged ledger.now io)
        && verdict_fits plan.now raced verdict (slice_get (started ledger.now) io)) }
{
    ended_whole(ledger.outcome_of(io))
        && !ledger.is_judged(io)
        && verdict_fits(plan, raced, verdict, ledger.started_at(io))
}

/// Whether a check or checked read may have this verdict now.
pub fn may_judge(plan: &Plan, past: &Past, io: usize, verdict: Verdict) -> bool
    ensures { result
        ≡ (ended_whole (outcome_of past.now io) && not (is_judged past.now io)
        && verdict_fits plan.now (has_raced past.now io) verdict (slice_get (started past.now) io)) }
{
    may_judge_if(past.has_raced(io), plan, past.ledger(), io, verdict)
}

/// Whether this check of a legal run may be judged so.
pub fn may_be_judged(plan: &Plan, course: &Course<'_>, io: usize, verdict: Verdict) -> bool
    requires { IsCourse plan.now course.now }
    ensures { result
        ≡ (ended_whole (outcome_of course.now.history io) && not (is_judged course.now.history io)
        && verdict_fits plan.now (has_raced course.now.history io) verdict (slice_get (started course.now.history) io)) }
{
    let raced = course.indexes.raced.contains(&io);
    may_judge_if(raced, plan, &course.history, io, verdict)
}

// What may happen with a draw of the plan after a history, if anything.
fn step_after(
    alloc: Global,
    plan: &Plan,
    past: &Past,
    worker: u32,
    write: &WriteId,
) -> Result<Option<Event>, Memory>
    ensures { IfOk result (λ step. step ≡ step_at plan.now past.now worker write.now) }
{
    let work = Agenda::new(alloc, plan)?;
    step_at(alloc, &work, past, worker, write)
}

// Whether an event may happen after what a past says.
fn may_follow(alloc: Global, plan: &Plan, past: &Past, event: &Event) -> Result<bool, Memory>
    ensures { IfOk result (λ yes. yes ≡ may_happen plan.now past.now event.now) }
{
    match event {
        Event::Issue {
            worker,
            kind,
            write,
            piece,
        } => {
            let step = step_after(alloc, plan, past, *worker, write)?;
            Ok(is_this_issue(*kind, write, piece, &step))
        }
        Event::Probe {
            worker,
            write,
            piece,
        } => {
            let step = step_after(alloc, plan, past, *worker, write)?;
            Ok(is_this_probe(write, piece, &step))
        }
        Event::Skip { worker, write } => {
            let step = step_after(alloc, plan, past, *worker, write)?;
            Ok(is_this_skip(write, &step))
        }
        Event::End {
            worker,
            io,
            outcome,
        } => Ok(may_end(past.ledger(), *worker, *io as usize, *outcome)),
        Event::Verdict { io, verdict, .. } => Ok(may_judge(plan, past, *io as usize, *verdict)),
    }
}

/// Whether an event may happen after a history: each rule is worked out anew from the events.
pub fn allowed(alloc: Global, plan: &Plan, history: &[Event], event: &Event) -> Result<bool, Memory>
    ensures { IfOk result (λ yes. yes ≡ may_happen plan.now history.now event.now) }
{
    let past = Past::new(alloc, history)?;
    may_follow(alloc, plan, &past, event)
}

// Whether each clone is finished or halted.
fn all_over(work: &Agenda<'_>, past: &Past) -> bool
    ensures { result ≡ list_all (is_over past.now) work.now.clones }
{
    work.clones().iter().all(|clone| is_over(past, clone))
}

/// Whether a history is a whole run of the plan: nothing is in flight, no verdict is to come, and
/// each clone is finished or halted.
pub fn complete_among(work: &Agenda<'_>, past: &Past) -> bool
    ensures { result ≡ is_complete work.now past.now }
{
    past.in_flight().is_empty() && past.awaiting().is_empty() && all_over(work, past)
}

// Whether what a past says is a whole run of the plan.
fn is_whole(alloc: Global, plan: &Plan, past: &Past) -> Result<bool, Memory>
    ensures { IfOk result (λ yes. yes ≡ is_complete plan.now past.now) }
{
    let work = Agenda::new(alloc, plan)?;
    Ok(complete_among(&work, past))
}

/// Whether a history is a whole run of the plan; as by `complete_among`.
pub fn complete(alloc: Global, plan: &Plan, history: &[Event]) -> Result<bool, Memory>
    ensures { IfOk result (λ yes. yes ≡ is_complete plan.now history.now) }
{
    let past = Past::new(alloc, history)?;
    is_whole(alloc, plan, &past)
}
