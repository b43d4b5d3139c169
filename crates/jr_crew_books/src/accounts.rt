ghost use Rattle.std.specs.Prelude.{◌≡◌, ℕ, [], IsTrue, IfOk, IfSome, Option, Some, None, length, slice_get, if◌then◌else◌};
ghost use Rattle.std.specs.Option.{option_or};
ghost use Rattle.std.specs.List.{list_all};
ghost use Rattle.jr_model.specs.declared.events.Verdict.{Verdict as GivenVerdict};
ghost use Rattle.jr_model.specs.History.{started};
ghost use Rattle.jr_desk_tickets.specs.Kept.{tickets_of};
ghost use Rattle.jr_crew_books.specs.declared.books.Done.{Done as Completed};
ghost use Rattle.jr_crew_books.specs.Accounts.{IsTableOf, AreMethodsOf, AreFollowed, AreMoved, IsMoved, AreGonePast, completed_by};
ghost use Rattle.jr_crew_books.specs.Books.{verdict_by, verdict_in, done_by, dones_of};

use crate::account::Account;
use crate::book::Book;
use crate::methods::methods_of;
use jr_model::{Event, IoId, Memory, Method, Outcome, Verdict};
use std::alloc::Global;

// How an I/O ended, with the verdict on it where workers judge.
#[derive(Clone, Copy)]
pub struct BookedEnd {
    pub io: IoId,
    pub outcome: Outcome,
    pub verdict: Option<Verdict>,
}

// The verdict on each check, at its number: a place for each I/O that was started.
fn verdicts_of(alloc: Global, account: &Account<'_>) -> Result<Vec<Option<Verdict>>, Memory>
    ensures table { IfOk result (λ table. IsTableOf table.items account.now.history) }
    ensures len { IfOk result (λ table. length table.items ≡ length (started account.now.history)) }
{
    let mut table = vec![in alloc; None; account.count()]?;
    note_verdicts(table.as_mut_slice(), account.history());
    Ok(table)
}

// Notes the verdicts of a history in a table without any.
#[tactic(auto, using(crate::proofs::Tables::table_on))]
fn note_verdicts(table: &mut [Option<Verdict>], history: &[Event])
    requires { IsTableOf table.old [] }
    ensures table { IsTableOf table.new history.now }
    ensures len { length table.new ≡ length table.old }
{
    for event in history {
        note_verdict(table, event);
    }
}

// Where the event is a verdict, and the check has none yet, it is noted.
fn note_verdict(table: &mut [Option<Verdict>], event: &Event)
    ensures len { length table.new ≡ length table.old }
    ensures noted { (io : ℕ) (said : Option GivenVerdict) → slice_get table.new io ≡ Some said
        → (before : Option GivenVerdict) × (slice_get table.old io ≡ Some before) × (said ≡ option_or before (verdict_by io event.now)) }
{
    if let Event::Verdict { io, verdict, .. } = *event {
        let at = io as usize;
        if at < table.len() && table[at].is_none() {
            table[at] = Some(verdict);
        }
    }
}

/// Whether each book is what its worker completed, as the history has it.
pub fn are_books(
    alloc: Global,
    account: &Account<'_>,
    inline: bool,
    books: &[Book],
) -> Result<bool, Memory>
    ensures { IfOk result (λ are. IsTrue are → (i : ℕ) (book : _) → slice_get books.now i ≡ Some book
        → book ≡ dones_of account.now.plan inline account.now.history i) }
{
    let methods = methods_of(alloc, account.plan())?;
    let table = verdicts_of(alloc, account)?;
    let mut places = vec![in alloc; 0; books.len()]?;
    Ok(are_followed(
        account,
        &methods,
        &table,
        inline,
        books,
        places.as_mut_slice(),
    ))
}

// Whether the books are those of the history, which is walked once, with a place in each book.
fn are_followed(
    account: &Account<'_>,
    methods: &[Method],
    table: &[Option<Verdict>],
    inline: bool,
    books: &[Book],
    places: &mut [usize],
) -> bool
    requires methods { AreMethodsOf account.now.plan methods.now }
    requires table { IsTableOf table.now account.now.history }
    requires first { AreFollowed books.now (done_by account.now.plan inline account.now.history) places.old [] }
    ensures { IsTrue result → (i : ℕ) (book : _) → slice_get books.now i ≡ Some book
        → book ≡ dones_of account.now.plan inline account.now.history i }
{
    if !follow_all(
        account,
        methods,
        table,
        inline,
        books,
        places,
        account.history(),
    ) {
        return false;
    }
    are_gone_past(books, places)
}

// Goes past what these events completed in each book, as long as that is what stands there.
fn follow_all(
    account: &Account<'_>,
    methods: &[Method],
    table: &[Option<Verdict>],
    inline: bool,
    books: &[Book],
    places: &mut [usize],
    events: &[Event],
) -> bool
    requires methods { AreMethodsOf account.now.plan methods.now }
    requires table { IsTableOf table.now account.now.history }
    requires first { AreFollowed books.now (done_by account.now.plan inline account.now.history) places.old [] }
    ensures { IsTrue result
        → AreFollowed books.now (done_by account.now.plan inline account.now.history) places.new events.now }
{
    for event in events {
        if !follows(account, methods, table, inline, books, places, event) {
            return false;
        }
    }
    true
}

// Goes past what this event completed, if anything.
fn follows(
    account: &Account<'_>,
    methods: &[Method],
    table: &[Option<Verdict>],
    inline: bool,
    books: &[Book],
    places: &mut [usize],
    event: &Event,
) -> bool
    requires methods { AreMethodsOf account.now.plan methods.now }
    requires table { IsTableOf table.now account.now.history }
    ensures { IsTrue result
        → AreMoved books.now (done_by account.now.plan inline account.now.history) places.old places.new event.now }
{
    match *event {
        Event::End {
            worker,
            io,
            outcome,
        } => match ending_of(table, inline, io, outcome) {
            Some(ending) => moves(account, methods, books, places, worker as usize, &ending),
            None => false,
        },
        _ => true,
    }
}

// Goes past this in one of the books, if what it completed stands there.
fn moves(
    account: &Account<'_>,
    methods: &[Method],
    books: &[Book],
    places: &mut [usize],
    at: usize,
    ending: &BookedEnd,
) -> bool
    requires { AreMethodsOf account.now.plan methods.now }
    ensures { IsTrue result → (done : Completed) × IsMoved books.now places.old places.new at done
        × (Some done ≡ completed_by account.now.plan account.now.history ending.now) }
{
    if at >= books.len() || at >= places.len() {
        return false;
    }
    let place = places[at];
    let book = &books[at];
    if place >= book.len() || !book.has_at(place, account, methods, ending) {
        return false;
    }
    places[at] = place + 1;
    true
}

// Whether nothing is left in any book.
fn are_gone_past(books: &[Book], places: &[usize]) -> bool
    ensures { IsTrue result → AreGonePast books.now places.now }
{
    if places.len() != books.len() {
        return false;
    }
    for i in 0..books.len() {
        if places[i] != books[i].len() {
            return false;
        }
    }
    true
}

// The end that a book has to show, as the history has it.
fn ending_of(
    table: &[Option<Verdict>],
    inline: bool,
    io: IoId,
    outcome: Outcome,
) -> Option<BookedEnd>
    ensures { (history : _) → IsTableOf table.now history
        → IfSome result (λ ending. ending ≡ record {
          io = io;
          outcome = outcome;
          verdict = if inline then verdict_in history io else None;
        }) }
{
    let verdict = verdict_for(table, inline, io)?;
    Some(BookedEnd {
        io,
        outcome,
        verdict,
    })
}

// The verdict on a check, where workers judge. A check that was started has a place in the table.
fn verdict_for(table: &[Option<Verdict>], inline: bool, io: IoId) -> Option<Option<Verdict>>
    ensures { (history : _) → IsTableOf table.now history
        → IfSome result (λ said. said ≡ (if inline then verdict_in history io else None)) }
{
    if !inline {
        return Some(None);
    }
    table.get(io as usize).copied()
}
