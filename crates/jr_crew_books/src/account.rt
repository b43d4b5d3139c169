ghost use Rattle.std.specs.Prelude.{◌≡◌};
ghost use Rattle.jr_model.specs.History.{is_judged_kind};
ghost use Rattle.jr_desk_tickets.specs.Handing.{IsHanded};

use crate::completed::{is_handed, is_probe};
use crate::entries::{BookEntry, BookValues};
use jr_desk_tickets::TicketTable;
use jr_model::{Event, IoId, Method, Ticket, TicketKind};
use jr_plan::Plan;
use std::marker::Model;

/// A run as its books are compared with it: its plan, its history, and the tickets that were handed out.
#[derive(Drop)]
pub struct Account<'a> {
    plan: &'a Plan,
    history: &'a [Event],
    tickets: &'a TicketTable,
}

impl<'a> Model for Account<'a> {
    ghost use Rattle.jr_desk_tickets.specs.Handing.{IsHanded};
    ghost use Rattle.jr_crew_books.specs.AccountRecords.{AccountRecord};

    ghost Value = { AccountRecord };

    ghost view = { λ a. record { plan = a.plan.now; history = a.history.now } };

    // The tickets are those of the history.
    ghost invariant = { λ a. IsHanded a.plan.now a.history.now a.tickets.now };
}

impl<'a> Account<'a> {
    ghost use Rattle.std.specs.Prelude.{◌≡◌, true, length, slice_get, Some, IsTrue, IsFalse};
    ghost use Rattle.std.specs.Option.{option_map};
    ghost use Rattle.jr_model.specs.declared.events.Started.{Started as StartedIo};
    ghost use Rattle.jr_model.specs.History.{started, is_judged_kind};
    ghost use Rattle.jr_model.specs.Legal.{is_legal};
    ghost use Rattle.jr_desk_tickets.specs.Kept.{IsOwn, tickets_of};
    ghost use Rattle.jr_crew_books.specs.Accounts.{AreMethodsOf};
    ghost use Rattle.jr_crew_books.specs.BookEntries.{IsKnown, done_as};
    ghost use Rattle.jr_crew_books.specs.Finished.{is_finished};

    /// The account of a run of this plan.
    pub fn new(plan: &'a Plan, history: &'a [Event], tickets: &'a TicketTable) -> Account<'a>
        requires { IsHanded plan.now history.now tickets.now }
        ensures { result ≡ record { plan = plan.now; history = history.now } }
    {
        Account {
            plan,
            history,
            tickets,
        }
    }

    /// The plan.
    pub fn plan(&self) -> &Plan
        ensures { result.now ≡ self.now.plan }
    {
        self.plan
    }

    /// All that happened, the oldest first.
    pub fn history(&self) -> &[Event]
        ensures { result.now ≡ self.now.history }
    {
        self.history
    }

    /// The ticket that was handed out under this number, if any was.
    pub fn ticket_at(&self, id: IoId) -> Option<Ticket>
        ensures { result ≡ slice_get (tickets_of self.now.plan self.now.history) id }
    {
        self.tickets.ticket(self.plan, id)
    }

    /// Whether this ticket is the one that was handed out under its number.
    pub fn is_own(&self, ticket: &Ticket) -> bool
        ensures yes { IsTrue result → IsOwn self.now.plan self.now.history ticket.now }
        ensures no { IsFalse result → ¬ IsOwn self.now.plan self.now.history ticket.now }
    {
        self.tickets.is_own(self.plan, ticket)
    }

    // Whether the ticket of this entry is the one that was handed out under its number. Only that of a check that may be judged by a header
    // is made again.
    pub(crate) fn is_own_entry(
        &self,
        methods: &[Method],
        known: &BookValues,
        entry: &BookEntry,
    ) -> bool
        requires methods { AreMethodsOf self.now.plan methods.now }
        requires known { IsKnown known.now entry.now }
        ensures { IsTrue result → slice_get (tickets_of self.now.plan self.now.history) entry.now.id
            ≡ Some (done_as known.now entry.now).ticket }
    {
        if is_probe(entry.kind) {
            return self.is_own_check(known, entry);
        }
        is_handed(self.tickets, methods, known, entry)
    }

    // Whether this check is the history's own: its ticket is made again to see it.
    fn is_own_check(&self, known: &BookValues, entry: &BookEntry) -> bool
        requires { IsKnown known.now entry.now }
        ensures { IsTrue result → slice_get (tickets_of self.now.plan self.now.history) entry.now.id
            ≡ Some (done_as known.now entry.now).ticket }
    {
        match known.done_of(entry) {
            Some(done) => self.is_own(&done.ticket),
            None => false,
        }
    }

    /// The worker that the I/O of this number was handed out to, if it was handed out.
    pub fn worker(&self, id: IoId) -> Option<u32>
        ensures { result ≡ option_map (λ ticket. ticket.worker) (slice_get (tickets_of self.now.plan self.now.history) id) }
    {
        self.tickets.worker(id)
    }

    /// How many I/Os and checks were started.
    pub fn count(&self) -> usize
        ensures { result ≡ length (started self.now.history) }
    {
        self.tickets.count()
    }

    /// Whether the I/O of this number has ended, and has its verdict if it gets one and ended whole.
    pub fn is_finished(&self, id: IoId) -> bool
        requires { is_legal self.now.plan self.now.history ≡ true }
        ensures { (io : StartedIo) → slice_get (started self.now.history) id ≡ Some io
            → result ≡ is_finished self.now.history id io }
    {
        let has_ended = self.tickets.has_ended(id);
        let is_whole = self.tickets.has_ended_whole(id);
        let is_judged = self.tickets.is_judged(id);
        has_ended && !(self.gets_verdict(id) && is_whole && !is_judged)
    }

    // Whether it gets a verdict: it is a check, or a checked read.
    fn gets_verdict(&self, id: IoId) -> bool
        ensures { (io : StartedIo) → slice_get (started self.now.history) id ≡ Some io → result ≡ is_judged_kind io.kind }
    {
        match self.kind(id) {
            Some(kind) => is_judged_kind(kind),
            None => false,
        }
    }

    fn kind(&self, id: IoId) -> Option<TicketKind>
        ensures { result ≡ option_map (λ ticket. ticket.kind) (slice_get (tickets_of self.now.plan self.now.history) id) }
    {
        self.tickets.kind(id)
    }
}

fn is_judged_kind(kind: TicketKind) -> bool
    ensures { result ≡ is_judged_kind kind }
{
    match kind {
        TicketKind::Probe | TicketKind::ReadCheck => true,
        TicketKind::Read | TicketKind::Write => false,
    }
}
