ghost use Rattle.std.specs.Prelude.{◌≡◌, IfOk};
ghost use Rattle.std.specs.List.{list_any};
ghost use Rattle.jr_model.specs.History.{started_by, started, end_of, outcome_of, kind_for, is_verdict_on, is_judged, is_probe};
ghost use Rattle.jr_model.specs.History.{is_judged_kind, is_write, is_of_clone, ended_whole};
ghost use Rattle.jr_model.specs.Legal.{is_io_of, is_fault, is_bad, is_void};

use jr_model::{Event, IssueKind, Memory, Outcome, Started, TicketKind, Verdict};
use std::alloc::Global;

// The kind of ticket for a draw that is issued so.
fn kind_for(kind: IssueKind) -> TicketKind
    ensures { result ≡ kind_for kind }
{
    match kind {
        IssueKind::Read => TicketKind::Read,
        IssueKind::Write => TicketKind::Write,
        IssueKind::ReadCheck => TicketKind::ReadCheck,
    }
}

/// The I/O or check that an event starts.
pub fn started_by(event: &Event) -> Option<Started>
    ensures { result ≡ started_by event.now }
{
    match *event {
        Event::Issue {
            worker,
            kind,
            write,
            piece,
        } => Some(Started {
            worker,
            kind: kind_for(kind),
            write,
            piece,
        }),
        Event::Probe {
            worker,
            write,
            piece,
        } => Some(Started {
            worker,
            kind: TicketKind::Probe,
            write,
            piece,
        }),
        _ => None,
    }
}

/// All I/Os and checks that were started, each at the place of its number.
pub fn started(alloc: Global, history: &[Event]) -> Result<Vec<Started>, Memory>
    ensures { IfOk result (λ ios. ios.items ≡ started history.now) }
{
    let ios: Vec<Started> = history
        .iter()
        .filter_map(|event| started_by(event))
        .collect(alloc)?;
    Ok(ios)
}

/// How an I/O ended, if this event is its end.
pub fn end_of(io: usize, event: &Event) -> Option<Outcome>
    ensures { result ≡ end_of io event.now }
{
    match *event {
        Event::End {
            io: id,
            outcome,
            ..
        } if id as usize == io => Some(outcome),
        _ => None,
    }
}

/// How an I/O ended, if it has.
pub fn outcome_of(history: &[Event], io: usize) -> Option<Outcome>
    ensures { result ≡ outcome_of history.now io }
{
    for event in history {
        let outcome = end_of(io, event);
        if outcome.is_some() {
            return outcome;
        }
    }
    None
}

/// Whether the event is the verdict on this I/O.
pub fn is_verdict_on(io: usize, event: &Event) -> bool
    ensures { result ≡ is_verdict_on io event.now }
{
    match *event {
        Event::Verdict { io: id, .. } => id as usize == io,
        _ => false,
    }
}

/// Whether an I/O has its verdict.
pub fn is_judged(history: &[Event], io: usize) -> bool
    ensures { result ≡ is_judged history.now io }
{
    history.iter().any(|event| is_verdict_on(io, event))
}

/// Whether a ticket of this kind is the check of a write.
pub fn is_probe(kind: TicketKind) -> bool
    ensures { result ≡ is_probe kind }
{
    kind == TicketKind::Probe
}

/// Whether an I/O of this kind gets a verdict if it ends whole: the check of a write, or a checked read.
pub fn is_judged_kind(kind: TicketKind) -> bool
    ensures { result ≡ is_judged_kind kind }
{
    matches!(kind, TicketKind::Probe | TicketKind::ReadCheck)
}

/// Whether a ticket of this kind is a write of a job.
pub fn is_write(kind: TicketKind) -> bool
    ensures { result ≡ is_write kind }
{
    kind == TicketKind::Write
}

/// Whether an I/O ended with all its bytes.
pub fn ended_whole(outcome: Option<Outcome>) -> bool
    ensures { result ≡ ended_whole outcome }
{
    outcome == Some(Outcome::Whole)
}

/// Whether an outcome is a fault.
pub fn is_fault(outcome: Outcome) -> bool
    ensures { result ≡ is_fault outcome }
{
    outcome != Outcome::Whole
}

/// Whether a verdict is bad.
pub fn is_bad(verdict: Verdict) -> bool
    ensures { result ≡ is_bad verdict }
{
    matches!(verdict, Verdict::Bad(_))
}

/// Whether a verdict says nothing of the bytes.
pub fn is_void(verdict: Verdict) -> bool
    ensures { result ≡ is_void verdict }
{
    verdict == Verdict::Void
}

/// Whether an I/O is of this clone.
pub fn is_of_clone(clone: u32, io: &Started) -> bool
    ensures { result ≡ is_of_clone clone io.now }
{
    io.write.clone == clone
}

/// Whether an I/O is there and of this clone.
pub fn is_io_of(clone: u32, io: Option<Started>) -> bool
    ensures { result ≡ is_io_of clone io }
{
    match io {
        None => false,
        Some(io) => is_of_clone(clone, &io),
    }
}
