// How a run ended: its status and its faults, and what is told of it beside its report (the list of its bad blocks, its JSON).
#![tactic(auto)]

mod ended;
mod findings;
mod found;
mod interrupted;
mod places;
mod status;
mod storage;

pub use ended::{Executed, RunEnd};
pub use findings::{Findings, json_text};
pub use found::faults_found;
pub use interrupted::Interrupted;
pub use places::{list_text, list_text_with_faults};
pub use status::status_of;
pub use storage::Storage;
