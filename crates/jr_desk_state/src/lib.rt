// What the desk keeps of a run: its history, and indexes of it, each with a definition over the history, so that no call looks at
// the whole history. And the steps that the desk takes over them: the desk itself stands in `jr_desk`.
#![tactic(auto)]

mod board;
mod choosing;
mod ending;
mod flying;
mod resting;
mod standings;
mod starting;
mod takes;
mod taking;
mod waiting;
mod written;

pub use board::Board;
pub use ending::{end, judge};
pub use resting::is_complete;
pub use takes::Take;
pub use taking::{answer_to, new_board, prepare, start_next};
