ghost use Rattle.std.specs.Prelude.{◌≡◌, ◌≤◌, Option, Some, length, IfOk, IsTrue};
ghost use Rattle.std.specs.Option.{option_copied, unwrap_or};
ghost use Rattle.jr_model.specs.declared.events.Verdict.{Verdict as Saying};
ghost use Rattle.jr_crew_books.specs.BookEntries.{IsEntryOf, IsGrown, IsKnown, IsLonger, done_as, done_with_last, entry_piece, last_of, no_method};

use crate::books::Done;
use crate::said::is_same_verdict;
use jr_model::{
    Expected, IoId, Memory, Method, Outcome, Piece, Ticket, TicketKind, Verdict, WriteId,
    is_same_method,
};
use jr_writes::{Known, Place};

// What a book keeps of what a worker completed: all of it but its method, what its check compares with and its verdict. Of its method
// and its verdict it has how many its book knew: its own is the last of so many, and 0 stands for none. Of what its check compares
// with it has the place.
#[derive(Clone, Copy)]
pub struct BookEntry {
    pub seed: u64,
    pub offset: u64,
    pub write: WriteId,
    pub id: IoId,
    pub worker: u32,
    pub file: u32,
    pub len: u32,
    pub method: u32,
    pub expected: Place,
    pub verdict: u32,
    pub outcome: Outcome,
    pub kind: TicketKind,
}

const _: () = prove!(size_of::<BookEntry>() <= 72);

// What the entries of a book speak of: each that differs from the one before it, once.
#[derive(Drop)]
pub struct BookValues {
    pub methods: Vec<Method>,
    pub expected: Known,
    pub verdicts: Vec<Verdict>,
}

impl BookValues {
    // The entry of what was completed. What it speaks of is known from now on.
    pub(crate) fn note(
        &mut self,
        ticket: &Ticket,
        outcome: Outcome,
        verdict: Option<Verdict>,
    ) -> Result<BookEntry, Memory>
        ensures grown { IsGrown self.old self.new }
        ensures entry { IfOk result (IsEntryOf self.new (record { ticket = ticket.now; outcome = outcome; verdict = verdict })) }
    {
        let method = note_method(&mut self.methods, &ticket.method)?;
        let expected = self.expected.place(&ticket.piece, &ticket.expected)?;
        let said = note_verdict(&mut self.verdicts, verdict)?;
        Ok(entry_of(ticket, outcome, method, expected, said))
    }

    // What was completed, by its entry.
    pub(crate) fn done_of(&self, entry: &BookEntry) -> Option<Done>
        requires { IsKnown self.now entry.now }
        ensures { result ≡ Some (done_as self.now entry.now) }
    {
        let method = last_of(&self.methods, entry.method)?;
        let expected = self.expected.made(entry.expected, &piece_of(entry));
        let verdict = last_of(&self.verdicts, entry.verdict);
        Some(done_with(entry, method, expected, verdict))
    }

    // Whether this is the method of an entry.
    pub(crate) fn has_method(&self, entry: &BookEntry, method: &Method) -> bool
        ensures { IsTrue result → unwrap_or (last_of self.now.methods.items entry.now.method) no_method ≡ method.now }
    {
        match last_in(&self.methods, entry.method) {
            Some(known) => is_same_method(known, method),
            None => false,
        }
    }

    // Whether this is the verdict of an entry, if it has one.
    pub(crate) fn has_verdict(&self, entry: &BookEntry, verdict: Option<Verdict>) -> bool
        ensures { IsTrue result → last_of self.now.verdicts.items entry.now.verdict ≡ verdict }
    {
        match (last_of(&self.verdicts, entry.verdict), verdict) {
            (Some(known), Some(verdict)) => is_same_verdict(known, verdict),
            (None, None) => true,
            _ => false,
        }
    }
}

// Where it read or wrote.
fn piece_of(entry: &BookEntry) -> Piece
    ensures { result ≡ entry_piece entry.now }
{
    Piece {
        file: entry.file,
        offset: entry.offset,
        len: entry.len,
    }
}

// The last of so many; nothing where there are none.
fn last_of<T: Copy>(known: &[T], count: u32) -> Option<T>
    ensures { result ≡ last_of known.now count }
{
    last_in(known, count).copied()
}

// The last one known before this count, where it stands.
fn last_in<T>(known: &[T], count: u32) -> Option<&T>
    ensures { option_copied result ≡ last_of known.now count }
{
    if count == 0 {
        return None;
    }
    known.get(count as usize - 1)
}

// How many methods are known once this one is the last.
fn note_method(methods: &mut Vec<Method>, method: &Method) -> Result<u32, Memory>
    ensures longer { IsLonger methods.old.items methods.new.items }
    ensures last { IfOk result (λ count. last_of methods.new.items count ≡ Some method.now) }
{
    match methods.last() {
        Some(last) if is_same_method(last, method) => {}
        _ => methods.push(*method)?,
    }
    narrow(methods.len())
}

// How many verdicts are known once this one is the last; 0 where there is none.
fn note_verdict(verdicts: &mut Vec<Verdict>, verdict: Option<Verdict>) -> Result<u32, Memory>
    ensures longer { IsLonger verdicts.old.items verdicts.new.items }
    ensures last { IfOk result (λ count. last_of verdicts.new.items count ≡ verdict) }
    ensures within { IfOk result (λ count. count ≤ length verdicts.new.items) }
{
    let Some(verdict) = verdict else {
        return Ok(0);
    };
    match verdicts.last() {
        Some(last) if is_same_verdict(*last, verdict) => {}
        _ => verdicts.push(verdict)?,
    }
    narrow(verdicts.len())
}

// The number in 32 bits. No run has so many I/Os that it wants more.
fn narrow(number: usize) -> Result<u32, Memory>
    ensures { IfOk result (λ narrowed. narrowed ≡ number) }
{
    match u32::try_from(number) {
        Ok(narrowed) => Ok(narrowed),
        Err(_) => Err(Memory),
    }
}

// The entry of what was completed, where these are its places.
fn entry_of(
    ticket: &Ticket,
    outcome: Outcome,
    method: u32,
    expected: Place,
    verdict: u32,
) -> BookEntry
    ensures method { result.method ≡ method }
    ensures expected { result.expected ≡ expected }
    ensures verdict { result.verdict ≡ verdict }
    ensures rest { (said : Option Saying) → done_with_last result ticket.now.method ticket.now.expected said
        ≡ record { ticket = ticket.now; outcome = outcome; verdict = said } }
{
    BookEntry {
        seed: ticket.seed,
        offset: ticket.piece.offset,
        write: ticket.write,
        id: ticket.id,
        worker: ticket.worker,
        file: ticket.piece.file,
        len: ticket.piece.len,
        method,
        expected,
        verdict,
        outcome,
        kind: ticket.kind,
    }
}

// What was completed, by its entry and by what that speaks of.
fn done_with(
    entry: &BookEntry,
    method: Method,
    expected: Expected,
    verdict: Option<Verdict>,
) -> Done
    ensures { result ≡ done_with_last entry.now method expected verdict }
{
    let ticket = Ticket {
        id: entry.id,
        worker: entry.worker,
        kind: entry.kind,
        write: entry.write,
        piece: piece_of(entry),
        seed: entry.seed,
        method,
        expected,
    };
    Done {
        ticket,
        outcome: entry.outcome,
        verdict,
    }
}
