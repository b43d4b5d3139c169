//! Which plans may be judged after a cut, and all writes of a plan.
#![tactic(auto)]

mod faults;
mod laws;
mod planned;
mod taken;

pub use faults::{AfterFault, Refusal, after_fault_text};
pub use laws::advice_helps;
pub use planned::planned_writes;
pub use taken::{after_fault, chunk_len, writes_to};
