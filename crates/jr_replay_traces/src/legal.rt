ghost use Rattle.std.specs.Prelude.{◌≡◌, IfOk, OnOk, Some, None, if◌then◌else◌};
ghost use Rattle.jr_replay.specs.Courses.{IsCourse};
ghost use Rattle.jr_replay_traces.specs.TraceChecks.{is_small, name_fits, ending_fits, finding_fits, write_of, outcome_of, verdict_of};
ghost use Rattle.jr_replay_traces.specs.TraceChecks.{legal_event};
ghost use Rattle.jr_replay_traces.specs.TraceSteps.{begun, named, ended, judged, issue_in, probe_in, skip_in, event_in, event_named};

use crate::entries::{Ending, Entry, Finding, Name, Start};
use jr_model::{Event, Memory, Outcome, Verdict, What, WriteId, same_write};
use jr_plan::Plan;
use jr_replay::{Course, legal_step_at, may_be_judged, may_end};
use jr_replay_history::Ledger;
use std::alloc::Global;

// The event that a line speaks of, where it may happen after the legal history.
pub(crate) fn legal_event<'a>(
    alloc: Global,
    plan: &'a Plan,
    course: &mut Course<'a>,
    entry: &Entry,
) -> Result<Option<Event>, Memory>
    requires { IsCourse plan.now course.old }
    ensures event { IfOk result (λ event. event ≡ legal_event plan.now course.old.history entry.now) }
    ensures course { OnOk result (IsCourse plan.now course.new) }
    ensures history { course.new.history ≡ course.old.history }
{
    match entry {
        Entry::Issue(_) | Entry::Probe(_) | Entry::Skip { .. } => {
            legal_start(alloc, plan, course, entry)
        }
        Entry::End { worker, io, ending } => Ok(ended(&course.history, *worker, *io, ending)),
        Entry::Verdict { by, io, finding } => { Ok(judged(plan, course, *by, *io, finding)) }
    }
}

// The event of a line that starts an I/O or a check, or skips a write, where it may happen.
fn legal_start<'a>(
    alloc: Global,
    plan: &'a Plan,
    course: &mut Course<'a>,
    entry: &Entry,
) -> Result<Option<Event>, Memory>
    requires { IsCourse plan.now course.old }
    ensures event { IfOk result
        (λ event. event ≡ event_named plan.now course.old.history entry.now (named course.old.history entry.now)) }
    ensures course { OnOk result (IsCourse plan.now course.new) }
    ensures history { course.new.history ≡ course.old.history }
{
    let Some((worker, write)) = named(&course.history, entry) else {
        return Ok(None);
    };
    let step = legal_step_at(alloc, plan, course, worker, &write)?;
    Ok(event_in(entry, worker, &write, &step))
}

// The worker and the draw of a line that starts what has the next number, or skips a write.
fn named(past: &Ledger, entry: &Entry) -> Option<(u32, WriteId)>
    ensures { result ≡ named past.now entry.now }
{
    match entry {
        Entry::Issue(start) | Entry::Probe(start) => begun(past, start),
        Entry::Skip { worker, write } => Some((small(*worker)?, write_of(write)?)),
        Entry::End { .. } | Entry::Verdict { .. } => None,
    }
}

// The event of such a line, where the step is one.
fn event_in(entry: &Entry, worker: u32, write: &WriteId, step: &Option<Event>) -> Option<Event>
    ensures { result ≡ event_in entry.now worker write.now step.now }
{
    match entry {
        Entry::Issue(_) => issue_in(worker, write, step),
        Entry::Probe(_) => probe_in(worker, write, step),
        Entry::Skip { .. } => skip_in(worker, write, step),
        Entry::End { .. } | Entry::Verdict { .. } => None,
    }
}

// The worker and the draw of a start that has the next number.
fn begun(past: &Ledger, start: &Start) -> Option<(u32, WriteId)>
    ensures { result ≡ begun past.now start.now }
{
    let worker = small(start.worker)?;
    let io = small(start.io)?;
    let write = write_of(&start.write)?;
    if io as usize == past.started().len() {
        Some((worker, write))
    } else {
        None
    }
}

// The end of an I/O, where it may end so.
fn ended(past: &Ledger, worker: u64, io: u64, ending: &Ending) -> Option<Event>
    ensures { result ≡ ended past.now worker io ending.now }
{
    let worker = small(worker)?;
    let io = small(io)?;
    let outcome = outcome_of(ending)?;
    if may_end(past, worker, io as usize, outcome) {
        Some(Event::End {
            worker,
            io,
            outcome,
        })
    } else {
        None
    }
}

// The verdict on an I/O, where it may have it.
fn judged(plan: &Plan, course: &Course<'_>, by: u64, io: u64, finding: &Finding) -> Option<Event>
    requires { IsCourse plan.now course.now }
    ensures { result ≡ judged plan.now course.now.history by io finding.now }
{
    let worker = small(by)?;
    let io = small(io)?;
    let verdict = verdict_of(finding)?;
    if may_be_judged(plan, course, io as usize, verdict) {
        Some(Event::Verdict {
            worker,
            io,
            verdict,
        })
    } else {
        None
    }
}

// The issue of this draw, where the step is one.
fn issue_in(worker: u32, write: &WriteId, step: &Option<Event>) -> Option<Event>
    ensures { result ≡ issue_in worker write.now step.now }
{
    match step {
        Some(
            Event::Issue {
                kind,
                write: issued,
                piece,
                ..
            },
        ) if same_write(issued, write) => Some(Event::Issue {
            worker,
            kind: *kind,
            write: *write,
            piece: *piece,
        }),
        _ => None,
    }
}

// The check of this write, where the step is one.
fn probe_in(worker: u32, write: &WriteId, step: &Option<Event>) -> Option<Event>
    ensures { result ≡ probe_in worker write.now step.now }
{
    match step {
        Some(
            Event::Probe {
                write: probed,
                piece,
                ..
            },
        ) if same_write(probed, write) => Some(Event::Probe {
            worker,
            write: *write,
            piece: *piece,
        }),
        _ => None,
    }
}

// The skip of this write, where the step is one.
fn skip_in(worker: u32, write: &WriteId, step: &Option<Event>) -> Option<Event>
    ensures { result ≡ skip_in worker write.now step.now }
{
    match step {
        Some(Event::Skip { write: skipped, .. }) if same_write(skipped, write) => {
            Some(Event::Skip {
                worker,
                write: *write,
            })
        }
        _ => None,
    }
}

// A number that an event may have.
fn small(n: u64) -> Option<u32>
    ensures { result ≡ (if is_small n then Some n else None) }
{
    u32::try_from(n).ok()
}

// The draw of this name, where its numbers are small.
fn write_of(write: &Name) -> Option<WriteId>
    ensures { result ≡ (if name_fits write.now then Some (write_of write.now) else None) }
{
    Some(WriteId {
        clone: small(write.clone)?,
        pass: small(write.pass)?,
        number: small(write.number)?,
    })
}

fn outcome_of(ending: &Ending) -> Option<Outcome>
    ensures { result ≡ (if ending_fits ending.now then Some (outcome_of ending.now) else None) }
{
    match ending {
        Ending::Whole => Some(Outcome::Whole),
        Ending::Failed => Some(Outcome::Failed),
        Ending::Short(count) => Some(Outcome::Short(small(*count)?)),
    }
}

fn verdict_of(finding: &Finding) -> Option<Verdict>
    ensures { result ≡ (if finding_fits finding.now then Some (verdict_of finding.now) else None) }
{
    match finding {
        Finding::Good => Some(Verdict::Good),
        Finding::Header => Some(Verdict::Bad(What::Header)),
        Finding::Digest => Some(Verdict::Bad(What::Digest)),
        Finding::DataArea => Some(Verdict::Bad(What::DataArea)),
        Finding::Byte(place) => Some(Verdict::Bad(What::Byte(small(*place)?))),
        Finding::Chunk(chunk, part) => Some(Verdict::Bad(What::Chunk(small(*chunk)?, *part))),
        Finding::Void => Some(Verdict::Void),
    }
}
