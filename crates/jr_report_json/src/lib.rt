// The report of a run as JSON: what its text says, and the faults.
#![tactic(auto)]

mod asked;
mod endings;
mod objects;
mod rows;
mod texts;

pub use endings::{KnownFile, RunNotes, RunSetting, RunStatus};
pub use texts::{json_text, push_clones, push_item, push_string};
