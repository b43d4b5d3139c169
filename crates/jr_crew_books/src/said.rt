ghost use Rattle.std.specs.Prelude.{◌≡◌, All, IsTrue, IfOk};
ghost use Rattle.jr_crew_books.specs.Books.{IsSaidIn, IsVerdictIn};

use crate::books::Said;
use jr_model::{Event, Memory, Verdict};
use std::alloc::Global;

/// Whether each verdict of the history is the next one in the book of its verifier. Verifiers are numbered on from the workers.
pub fn are_said(
    alloc: Global,
    history: &[Event],
    workers: usize,
    books: &[Vec<Said>],
) -> Result<bool, Memory>
    ensures { IfOk result (λ are. IsTrue are → All (IsVerdictIn books.now (λ book. book.items)) history.now) }
{
    let mut places = vec![in alloc; 0; books.len()]?;
    Ok(are_said_next(history, workers, books, places.as_mut_slice()))
}

// Whether what the books say are the verdicts of the history, which is walked once, with a place in each book.
fn are_said_next(
    history: &[Event],
    workers: usize,
    books: &[Vec<Said>],
    places: &mut [usize],
) -> bool
    ensures { IsTrue result → All (IsVerdictIn books.now (λ book. book.items)) history.now }
{
    for event in history {
        if !is_said(event, workers, books, places) {
            return false;
        }
    }
    true
}

// Goes past the verdict in its verifier's book, where the event is one.
fn is_said(event: &Event, workers: usize, books: &[Vec<Said>], places: &mut [usize]) -> bool
    ensures { IsTrue result → IsVerdictIn books.now (λ book. book.items) event.now }
{
    match *event {
        Event::Verdict {
            worker,
            io,
            verdict,
        } => match (worker as usize).checked_sub(workers) {
            Some(at) => says(books, places, at, &Said { io, verdict }),
            None => false,
        },
        _ => true,
    }
}

// Goes past this in one of the books, if it stands there.
fn says(books: &[Vec<Said>], places: &mut [usize], at: usize, said: &Said) -> bool
    ensures { IsTrue result → IsSaidIn books.now (λ book. book.items) said.now }
{
    if at >= books.len() || at >= places.len() {
        return false;
    }
    let place = places[at];
    let book = &books[at];
    if place >= book.len() || !is_same_said(&book[place], said) {
        return false;
    }
    places[at] = place + 1;
    true
}

fn is_same_said(a: &Said, b: &Said) -> bool
    ensures { IsTrue result → a.now ≡ b.now }
{
    a.io == b.io && is_same_verdict(a.verdict, b.verdict)
}

pub(crate) fn is_same_verdict(a: Verdict, b: Verdict) -> bool
    ensures { IsTrue result → a ≡ b }
{
    a == b
}
