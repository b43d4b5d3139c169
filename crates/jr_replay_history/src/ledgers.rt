ghost use Rattle.std.specs.Prelude.{◌≡◌, ◌∷◌, [], ◌++◌, ◌<◌, ◌^◌, ℕ, IfOk, filter, filter_map, length, slice_get};
ghost use Rattle.std.specs.List.{list_any};
ghost use Rattle.jr_model.specs.History.{started, flies, outcome_of, is_judged};
ghost use Rattle.jr_model.specs.Legal.{is_bad, takes_up};
ghost use Rattle.jr_model.specs.Rounds.{Pass as PassRecord, is_settled, issued_count};
ghost use Rattle.jr_model.specs.Totals.{is_fault_of, is_verdict_of};
ghost use Rattle.jr_replay_history.specs.Marks.{IsMarked, is_named};
ghost use Rattle.jr_replay_history.specs.Parts.{is_over_part};
ghost use Rattle.jr_replay_history.specs.WriteEnds.{write_end};

use crate::events::{started, started_by};
use crate::marking::mark;
use crate::marks::{Marks, WriteEnd};
use jr_model::{Event, Memory, Outcome, Started, WriteId};
use std::alloc::Global;
use std::marker::Model;

/// A list of events with tables of what they say of I/Os, writes and clones. Contracts see the list.
#[derive(Drop)]
pub struct Ledger {
    events: Vec<Event>,
    ios: Vec<Started>,
    marks: Marks,
}

impl Model for Ledger {
    ghost use Rattle.std.specs.Prelude.{List};
    ghost use Rattle.jr_model.specs.declared.events.Event.{Event};
    ghost use Rattle.jr_replay_history.specs.Ledgers.{IsLedger};

    ghost Value = { List Event };

    ghost view = { λ l. l.events.items };

    ghost invariant = { λ l. IsLedger l.events.items l.ios.items l.marks };
}

impl Ledger {
    /// Goes through the events.
    pub fn new(alloc: Global, events: Vec<Event>) -> Result<Ledger, Memory>
        ensures { IfOk result (λ ledger. ledger ≡ events.items) }
    {
        let ios = started(alloc, events.as_slice())?;
        let marks = marks_of(alloc, ios.as_slice(), events.as_slice())?;
        Ok(Ledger { events, ios, marks })
    }

    /// The ledger with one more event.
    pub fn followed_by(self, alloc: Global, event: Event) -> Result<Ledger, Memory>
        ensures { IfOk result (λ ledger. ledger ≡ self ++ event ∷ []) }
    {
        let Ledger {
            mut events,
            mut ios,
            mut marks,
        } = self;
        events.push(event)?;
        match started_by(&event) {
            None => {}
            Some(io) => {
                if is_named(&marks, ios.len()) {
                    return Ledger::new(alloc, events);
                }
                ios.push(io)?;
            }
        }
        mark(alloc, &mut marks, ios.as_slice(), &event)?;
        Ok(Ledger { events, ios, marks })
    }

    /// Its events, the oldest first.
    pub fn events(&self) -> &[Event]
        ensures { result.now ≡ self.now }
    {
        self.events.as_slice()
    }

    /// How many events it has.
    pub fn len(&self) -> usize
        ensures value { result ≡ length self.now }
        ensures bound { result < 2 ^ 63 }
    {
        self.events.len()
    }

    /// All I/Os and checks that were started, each at the place of its number.
    pub fn started(&self) -> &[Started]
        ensures { result.now ≡ started self.now }
    {
        self.ios.as_slice()
    }

    /// The I/O or check of this number.
    pub fn started_at(&self, io: usize) -> Option<Started>
        ensures { result ≡ slice_get (started self.now) io }
    {
        self.started().get(io).copied()
    }

    /// Whether the I/O or check of this number is in flight.
    pub fn flies(&self, io: usize) -> bool
        ensures { result ≡ flies self.now io }
    {
        io < self.started().len() && self.outcome_of(io).is_none()
    }

    /// How an I/O ended, if it has.
    pub fn outcome_of(&self, io: usize) -> Option<Outcome>
        ensures { result ≡ outcome_of self.now io }
    {
        self.marks.outcomes.get(&io).copied()
    }

    /// Whether an I/O has its verdict.
    pub fn is_judged(&self, io: usize) -> bool
        ensures { result ≡ is_judged self.now io }
    {
        self.marks.judged.contains(&io)
    }

    /// How many draws of a clone's pass were issued.
    pub fn issued_count(&self, clone: u32, number: u32) -> usize
        ensures { (pass : PassRecord) → pass.job.clone ≡ clone → pass.number ≡ number
            → result ≡ issued_count self.now pass }
    {
        self.marks
            .issued
            .get(&(clone, number))
            .copied()
            .unwrap_or(0)
    }

    /// Whether a write was checked or skipped.
    pub fn is_taken_up(&self, write: &WriteId) -> bool
        ensures { result ≡ list_any (takes_up write.now) self.now }
    {
        self.marks.taken_up.contains(write)
    }

    /// Whether a write was skipped, or its check ended.
    pub fn is_settled(&self, write: &WriteId) -> bool
        ensures { result ≡ is_settled self.now write.now }
    {
        self.marks.settled.contains(write)
    }

    /// Whether an I/O of the clone ended with a fault.
    pub fn is_faulty(&self, clone: u32) -> bool
        ensures { result ≡ list_any (is_fault_of (started self.now) clone) self.now }
    {
        self.marks.faulty.contains(&clone)
    }

    /// Whether a check or checked read of the clone has a bad verdict.
    pub fn is_condemned(&self, clone: u32) -> bool
        ensures { result ≡ list_any (is_verdict_of (started self.now) is_bad clone) self.now }
    {
        self.marks.condemned.contains(&clone)
    }

    /// The ends of writes, the oldest first.
    pub fn written(&self) -> &[WriteEnd]
        ensures { result.now ≡ filter_map (write_end (started self.now)) self.now }
    {
        self.marks.written.as_slice()
    }

    /// Of these the ends over a part of a file.
    pub fn ends_over(&self, file: u32, part: u64) -> &[WriteEnd]
        ensures { result.now
            ≡ filter (is_over_part file part) (filter_map (write_end (started self.now)) self.now) }
    {
        self.marks.parts.ends_over(file, part)
    }
}

// Whether the end or the verdict of an I/O of this number is marked already.
fn is_named(marks: &Marks, io: usize) -> bool
    ensures { result ≡ is_named marks.now io }
{
    marks.outcomes.contains_key(&io) || marks.judged.contains(&io)
}

// What events say, where these I/Os are started.
fn marks_of(alloc: Global, ios: &[Started], events: &[Event]) -> Result<Marks, Memory>
    ensures { IfOk result (λ marks. IsMarked ios.now events.now marks) }
{
    let mut marks = Marks::new(alloc);
    for event in events {
        mark(alloc, &mut marks, ios, event)?;
    }
    Ok(marks)
}
