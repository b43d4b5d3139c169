// Why a run gave no desk, and why a text isn't the trace of a run.
#![tactic(auto)]

mod runs;
mod traces;

pub use runs::RunFault;
pub use traces::TraceFault;
