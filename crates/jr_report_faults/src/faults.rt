ghost use Rattle.std.specs.Prelude.{◌≡◌, ◌+◌, ◌-◌, ◌^◌, ◌<◌, ◌≤◌, ◌++◌, ◌∷◌, []};
ghost use Rattle.std.specs.Prelude.{List, IfOk, OnOk, string_bytes};
ghost use Rattle.std.specs.Option.{option_to_list};
ghost use Rattle.jr_model.specs.declared.events.Event.{Event as Happened};
ghost use Rattle.jr_model.specs.History.{started};
ghost use Rattle.jr_model.specs.Report.{file_name};
ghost use Rattle.jr_report_faults.specs.declared.faults.Fault.{Fault as OneFault};
ghost use Rattle.jr_report_faults.specs.Faults.{AreFaultsOf, AreFirst, fault_by, fault_with};
ghost use Rattle.jr_report_faults.specs.Tickets.{ticket_fault};
ghost use Rattle.jr_desk_tickets.specs.Handing.{IsHanded};

use crate::notes::FaultNote;
use jr_desk_tickets::TicketTable;
use jr_model::{Event, Memory, Outcome, Piece, Started, Ticket, TicketKind, WriteId};
use jr_plan::Plan;
use std::alloc::Global;

/// So many faults of a run are named at most. Of the others it is said how many they are.
pub const MOST_NAMED: usize = 100;

/// An I/O or check of a run that failed or ended short.
#[derive(Clone, Copy, PartialEq, Eq)]
pub struct Fault {
    pub kind: TicketKind,
    /// The draw, and for a check the write that it reads back.
    pub write: WriteId,
    pub piece: Piece,
    pub outcome: Outcome,
}

/// The faults of a run: notes of the first of them, in the order in which they ended, and how many more there are.
#[derive(Drop)]
pub struct Faults {
    pub first: Vec<FaultNote>,
    pub more: u64,
}

impl Faults {
    // Adds the fault behind the others.
    fn add(&mut self, alloc: Global, plan: &Plan, fault: Fault) -> Result<(), Memory>
        requires { self.old.more < 2 ^ 64 - 1 }
        ensures more { self.new.more ≤ self.old.more + 1 }
        ensures added { OnOk result ((faults : List OneFault) → AreFirst plan.now faults self.old
            → AreFirst plan.now (faults ++ fault ∷ []) self.new) }
    {
        if self.first.as_slice().len() == MOST_NAMED {
            self.more += 1;
            return Ok(());
        }
        let note = note_of(alloc, plan, fault)?;
        self.first.push(note)?;
        Ok(())
    }

    // Adds the fault, if there is one.
    fn add_if(&mut self, alloc: Global, plan: &Plan, fault: Option<Fault>) -> Result<(), Memory>
        requires { self.old.more < 2 ^ 64 - 1 }
        ensures more { self.new.more ≤ self.old.more + 1 }
        ensures added { OnOk result ((faults : List OneFault) → AreFirst plan.now faults self.old
            → AreFirst plan.now (faults ++ option_to_list fault) self.new) }
    {
        match fault {
            None => Ok(()),
            Some(fault) => self.add(alloc, plan, fault),
        }
    }
}

/// The faults of a run of this plan, with this history, by the tickets that it handed out.
pub fn faults_of(
    alloc: Global,
    plan: &Plan,
    history: &[Event],
    tickets: &TicketTable,
) -> Result<Faults, Memory>
    requires { IsHanded plan.now history.now tickets.now }
    ensures { IfOk result (AreFaultsOf plan.now history.now) }
{
    let mut faults = Faults {
        first: Vec::new(alloc),
        more: 0,
    };
    for event in history {
        faults.add_if(alloc, plan, fault_by(plan, tickets, event))?;
    }
    Ok(faults)
}

/// The faults of a run in which these I/Os and checks were started, in this order.
pub fn faults_among(
    alloc: Global,
    plan: &Plan,
    history: &[Event],
    ios: &[Started],
) -> Result<Faults, Memory>
    requires { ios.now ≡ started history.now }
    ensures { IfOk result (AreFaultsOf plan.now history.now) }
{
    let mut faults = Faults {
        first: Vec::new(alloc),
        more: 0,
    };
    for event in history {
        faults.add_if(alloc, plan, fault_among(ios, event))?;
    }
    Ok(faults)
}

// The fault that the event is, if it is one, where these are started.
fn fault_among(ios: &[Started], event: &Event) -> Option<Fault>
    ensures { result ≡ fault_by ios.now event.now }
{
    match *event {
        Event::End { io, outcome, .. } => fault_of(ios.get(io as usize).copied(), outcome),
        _ => None,
    }
}

fn fault_of(io: Option<Started>, outcome: Outcome) -> Option<Fault>
    ensures { result ≡ fault_with outcome io }
{
    match io {
        Some(io) if outcome != Outcome::Whole => Some(Fault {
            kind: io.kind,
            write: io.write,
            piece: io.piece,
            outcome,
        }),
        _ => None,
    }
}

// The fault that the event is, if it is one.
fn fault_by(plan: &Plan, tickets: &TicketTable, event: &Event) -> Option<Fault>
    ensures { (history : List Happened) → IsHanded plan.now history tickets.now → result ≡ fault_by (started history) event.now }
{
    match *event {
        Event::End { outcome, .. } if outcome == Outcome::Whole => None,
        Event::End { io, outcome, .. } => fault_with(tickets.ticket(plan, io), outcome),
        _ => None,
    }
}

// What was handed out, where it ended in a fault.
fn fault_with(ticket: Option<Ticket>, outcome: Outcome) -> Option<Fault>
    ensures { result ≡ ticket_fault outcome ticket }
{
    match ticket {
        Some(ticket) if outcome != Outcome::Whole => Some(Fault {
            kind: ticket.kind,
            write: ticket.write,
            piece: ticket.piece,
            outcome,
        }),
        _ => None,
    }
}

// The note of a fault.
fn note_of(alloc: Global, plan: &Plan, fault: Fault) -> Result<FaultNote, Memory>
    ensures fault { IfOk result (λ note. note.fault ≡ fault) }
    ensures name { IfOk result (λ note. string_bytes note.name ≡ file_name plan.now fault.piece.file) }
{
    let name = String::from_str(alloc, plan.file_name(fault.piece.file))?;
    Ok(FaultNote { fault, name })
}
