ghost use Rattle.std.specs.Prelude.{◌≡◌, List};
ghost use Rattle.jr_model.specs.declared.events.Event.{Event as Happened};
ghost use Rattle.jr_report_maps.specs.Maps.{fate_of_verdict, fate_of_whole, fate_of_write, judges, said_by_end, said_by_verdict, said_of, skips, verdict_bytes};
ghost use Rattle.jr_report_maps.specs.Spans.{said_by, span_bytes};
ghost use Rattle.jr_model.specs.History.{started};
ghost use Rattle.std.specs.List.{list_any};
ghost use Rattle.std.specs.Option.{option_map};
ghost use Rattle.jr_report_maps.specs.Told.{IsTold};

use crate::fates::Fate;
use crate::spans::{Span, bad_bytes, whole};
use crate::told::Lookups;
use jr_model::{Event, Outcome, Started, TicketKind, Verdict, WriteId};
use jr_plan::Plan;
use jr_replay_history::is_fault;

// Some bytes, and what an event says of them.
#[derive(Clone, Copy)]
pub(crate) struct Mark {
    pub span: Span,
    pub fate: Fate,
}

pub(crate) fn mark_of(told: &Lookups, plan: &Plan, event: &Event) -> Option<Mark>
    ensures { (history : List Happened) → IsTold history told.now
        → option_map said_by result ≡ said_of plan.now history event.now }
{
    match *event {
        Event::End { io, outcome, .. } => {
            end_mark(told, outcome, told.ios.as_slice().get(io as usize).copied())
        }
        Event::Verdict { io, verdict, .. } => {
            verdict_mark(plan, verdict, told.ios.as_slice().get(io as usize).copied())
        }
        _ => None,
    }
}

// What the end of an I/O says.
fn end_mark(told: &Lookups, outcome: Outcome, io: Option<Started>) -> Option<Mark>
    ensures { (history : List Happened) → IsTold history told.now → option_map said_by result ≡ said_by_end history outcome io }
{
    let io = io?;
    let fate = if is_fault(outcome) {
        Fate::Fault
    } else {
        fate_of_whole(told, io.kind, &io.write)
    };
    Some(Mark {
        span: whole(&io.piece),
        fate,
    })
}

// What a verdict says.
fn verdict_mark(plan: &Plan, verdict: Verdict, io: Option<Started>) -> Option<Mark>
    ensures { option_map said_by result ≡ said_by_verdict plan.now verdict io }
{
    let io = io?;
    Some(Mark {
        span: verdict_bytes(plan, verdict, &io),
        fate: fate_of_verdict(verdict),
    })
}

// The bytes that it is over.
fn verdict_bytes(plan: &Plan, verdict: Verdict, io: &Started) -> Span
    ensures { span_bytes result ≡ verdict_bytes plan.now verdict io.now }
{
    match verdict {
        Verdict::Good | Verdict::Void => whole(&io.piece),
        Verdict::Bad(what) => bad_bytes(plan, &io.write, &io.piece, what),
    }
}

fn fate_of_verdict(verdict: Verdict) -> Fate
    ensures { result ≡ fate_of_verdict verdict }
{
    match verdict {
        Verdict::Good => Fate::Good,
        Verdict::Bad(_) => Fate::Bad,
        Verdict::Void => Fate::Void,
    }
}

// Of an I/O that ended whole.
fn fate_of_whole(told: &Lookups, kind: TicketKind, write: &WriteId) -> Fate
    ensures { (history : List Happened) → IsTold history told.now → result ≡ fate_of_whole history kind write.now }
{
    match kind {
        TicketKind::Read | TicketKind::ReadCheck => Fate::Read,
        TicketKind::Write => fate_of_write(told, write),
        TicketKind::Probe => Fate::Untouched,
    }
}

fn fate_of_write(told: &Lookups, write: &WriteId) -> Fate
    ensures { (history : List Happened) → IsTold history told.now → result ≡ fate_of_write history write.now }
{
    if is_skipped(told, write) {
        return Fate::Skipped;
    }
    if is_judged(told, write) {
        return Fate::Untouched;
    }
    Fate::Unchecked
}

fn is_skipped(told: &Lookups, write: &WriteId) -> bool
    ensures { (history : List Happened) → IsTold history told.now → result ≡ list_any (skips write.now) history }
{
    told.skipped.contains(write)
}

fn is_judged(told: &Lookups, write: &WriteId) -> bool
    ensures { (history : List Happened) → IsTold history told.now → result ≡ list_any (judges (started history) write.now) history }
{
    told.judged.contains(write)
}
