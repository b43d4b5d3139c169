// Laws over the definitions: which steps may follow a legal history of a planned run, how many there are, and what was
// started by them. Nothing here is run; each function's contract is a law, so that the check proves it.
#![tactic(auto)]

mod choosing;
mod counts;
mod drawn;
mod idle;

pub use choosing::{choice_is_least, nothing_without_choice};
pub use counts::{appends_one, serial_ends, started_are_few, taken_is_all};
pub use drawn::{no_block_twice, started_are_drawn, started_fit, started_once};
pub use idle::{idle_is_complete, serial_is_complete};
