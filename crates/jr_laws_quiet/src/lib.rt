// The laws of a run in which nothing goes wrong: its report is that of the draws, whatever the order of its events.
// Nothing here is run; each function's contract is a law, so that the check proves it.
#![tactic(auto)]

mod quiet;

pub use quiet::{checks_stay_last, last_is_latest, nothing_races, quiet_report, write_waits};
