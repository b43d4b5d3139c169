// Texts that others chose, as names of jobs and files, shown so that a terminal and a browser do nothing that they ask for.
#![tactic(auto)]

mod chars;
mod laws;
mod texts;

pub use chars::{EscapedChar, is_hidden};
pub use laws::{plain_stays, shown_hides_nothing};
pub use texts::{Escaped, EscapedLines};
