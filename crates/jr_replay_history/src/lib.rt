// A history with what it says of its I/Os and writes worked out: once from a list of events, or kept
// up event by event.
#![tactic(auto)]

mod events;
mod histories;
mod last_writes;
mod ledgers;
mod marking;
mod marks;
mod parts;
mod races;

pub use events::{
    end_of, ended_whole, is_bad, is_fault, is_io_of, is_judged, is_judged_kind, is_of_clone,
    is_probe, is_verdict_on, is_void, is_write, outcome_of, started, started_by,
};
pub use histories::Past;
pub use last_writes::{is_intact, is_intact_by, last_write, last_write_by};
pub use ledgers::Ledger;
pub use marks::WriteEnd;
pub use parts::{PART, part_of};
