// What each worker of a run completed, its book, and what each verifier said of checks, and whether the books are what the history
// says: compared once all threads have ended. And whether each event has the number of one who does such, and whether all that was started has come to its end.
#![tactic(auto)]

mod account;
mod accounts;
mod book;
mod books;
mod completed;
mod entries;
mod finished;
mod methods;
mod numbers;
mod said;

pub use account::Account;
pub use accounts::are_books;
pub use book::Book;
pub use books::{Done, Said};
pub use finished::all_finished;
pub use numbers::{are_numbered, are_own_verdicts};
pub use said::are_said;
