// The splits of block sizes that a job file says (fio's `bssplit`; a plain block size is a split of
// one entry).
#![tactic(auto)]

mod faults;
mod reading;
mod splits;

pub use faults::SplitFault;
pub use jr_plan::{Split, mix};
pub use splits::ReadSplit;
