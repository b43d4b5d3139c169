// Files of the system as an engine, and the files of a plan made long enough for it.
#![tactic(auto)]

mod claims;
mod devices;
mod directs;
mod faults;
mod file_engine;
mod kept;
mod layouts;
mod lengths;
mod made;
mod making;
mod names;
mod opened;
mod refusals;
mod shares;
mod to_read;
mod uses;

pub use claims::{Claims, claim, claim_direct};
pub use directs::Directs;
pub use faults::FileFault;
pub use file_engine::FileEngine;
pub use jr_io_devices::Use;
pub use kept::Reserved;
pub use layouts::lay_out;
pub use names::NamedFile;
pub use refusals::{Act, Refusal, Why};
pub use shares::{Reads, SharedFile, Unsynced};
pub use to_read::claim_to_read;
