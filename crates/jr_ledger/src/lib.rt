//! The ledger of a run: which writes ended whole, and which syncs were asked for and returned well. Its text, its reader, and what is
//! recorded when.
#![tactic(auto)]

mod faults;
mod fields;
mod identity;
mod laws;
mod lines;
mod reader;
mod recorder;
mod syncs;

pub use faults::LedgerFault;
pub use identity::job_digest;
pub use laws::only_sound_recorded;
pub use lines::{LedgerLine, SyncId};
pub use reader::read_lines;
pub use recorder::Recorder;
pub use syncs::Syncs;
