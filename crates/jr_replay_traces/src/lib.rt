// The trace of a run, a line for each event of its history, and the check of a trace.
#![tactic(auto)]

mod checks;
mod entries;
mod fields;
mod laws;
mod legal;
mod traces;

pub use checks::{Checked, check_stopped_trace, check_trace, read_run};
pub use laws::{accepted_is_a_trace, numbers_fit, trace_is_accepted};
pub use traces::trace_text;
