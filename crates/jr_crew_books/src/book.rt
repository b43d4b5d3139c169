ghost use Rattle.std.specs.Prelude.{◌≡◌, [], ◌∷◌, ◌++◌, OnOk};

use crate::account::Account;
use crate::accounts::BookedEnd;
use crate::books::Done;
use crate::completed::is_completed;
use crate::entries::{BookEntry, BookValues};
use jr_model::{Memory, Method, Outcome, Ticket, Verdict};
use jr_writes::Known;
use std::alloc::Global;
use std::marker::Model;

/// What a worker completed, in the order of its ends. It takes some 72 bytes for each: what is the same as before is kept once.
/// Contracts see a list of `Done`.
#[derive(Drop)]
pub struct Book {
    entries: Vec<BookEntry>,
    known: BookValues,
}

impl Model for Book {
    ghost use Rattle.std.specs.Prelude.{List, All};
    ghost use Rattle.jr_crew_books.specs.declared.books.Done.{Done as Completed};

    ghost Value = { List Completed };

    ghost use Rattle.jr_crew_books.specs.BookEntries.{IsKnown, dones_as};

    ghost view = { λ book. dones_as book.known book.entries.items };

    // What the entries speak of is known.
    ghost invariant = { λ book. All (IsKnown book.known) book.entries.items };
}

impl Book {
    ghost use Rattle.std.specs.Prelude.{◌≡◌, [], ◌∷◌, ◌++◌, IfOk, IsTrue, OnOk, OnErr, Some, length, slice_get};
    ghost use Rattle.std.specs.List.{cons_option};
    ghost use Rattle.jr_crew_books.specs.declared.books.Done.{Done as Completed};
    ghost use Rattle.jr_crew_books.specs.Accounts.{AreMethodsOf, completed_by};

    /// An empty book. It takes the memory of its entries from `alloc`.
    pub fn new(alloc: Global) -> Book
        ensures { result ≡ [] }
    {
        let known = BookValues {
            methods: Vec::new(alloc),
            expected: Known::new(alloc),
            verdicts: Vec::new(alloc),
        };
        Book {
            entries: Vec::new(alloc),
            known,
        }
    }

    /// Writes behind all others what was completed by this ticket, how it ended and what was said of it.
    pub fn push(
        &mut self,
        ticket: &Ticket,
        outcome: Outcome,
        verdict: Option<Verdict>,
    ) -> Result<(), Memory>
        ensures ok { OnOk result
            (self.new ≡ self.old ++ record { ticket = ticket.now; outcome = outcome; verdict = verdict } ∷ []) }
        ensures err { OnErr result (self.new ≡ self.old) }
    {
        let entry = self.known.note(ticket, outcome, verdict)?;
        self.entries.push(entry)?;
        Ok(())
    }

    /// How many there are.
    pub fn len(&self) -> usize
        ensures { result ≡ length self.now }
    {
        self.entries.len()
    }

    /// The one at this place, counted from 0, if there is one.
    pub fn done_at(&self, place: usize) -> Option<Done>
        ensures { result ≡ slice_get self.now place }
    {
        match self.entries.get(place) {
            Some(entry) => self.known.done_of(entry),
            None => None,
        }
    }

    // Whether what ended so stands at this place, as the account has it. Nothing is made of the entry to compare it.
    pub(crate) fn has_at(
        &self,
        place: usize,
        account: &Account<'_>,
        methods: &[Method],
        ending: &BookedEnd,
    ) -> bool
        requires { AreMethodsOf account.now.plan methods.now }
        ensures { IsTrue result → (done : Completed) × (slice_get self.now place ≡ Some done)
            × (Some done ≡ completed_by account.now.plan account.now.history ending.now) }
    {
        match self.entries.get(place) {
            Some(entry) => is_completed(account, methods, &self.known, entry, ending),
            None => false,
        }
    }

    /// All of them.
    pub fn dones(&self, alloc: Global) -> Result<Vec<Done>, Memory>
        ensures { IfOk result (λ dones. dones.items ≡ self.now) }
    {
        let mut dones = Vec::new(alloc);
        for place in 0..self.len() {
            self.copy_at(place, &mut dones)?;
        }
        Ok(dones)
    }

    // Adds the one at this place, if there is one.
    fn copy_at(&self, place: usize, dones: &mut Vec<Done>) -> Result<(), Memory>
        ensures { OnOk result (dones.new.items ≡ dones.old.items ++ cons_option (slice_get self.now place) []) }
    {
        match self.done_at(place) {
            Some(done) => {
                // The prover hears of the pattern's type by this.
                let _ = &done.ticket.method.pattern;
                push(dones, done)
            }
            None => Ok(()),
        }
    }
}

// Puts it behind the last one.
pub(crate) fn push<X: Drop>(all: &mut Vec<X>, one: X) -> Result<(), Memory>
    ensures { OnOk result (all.new.items ≡ all.old.items ++ one ∷ []) }
{
    all.push(one)?;
    Ok(())
}
