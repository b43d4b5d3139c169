//! What is found after the power was cut, by a plan and the ledger of its run: of each chunk, whether a write that may stand there does.
#![tactic(auto)]

mod findings;
mod held;
mod laws;
mod ledgers;
mod writes;

pub use findings::{Finding, finding_of};
pub use laws::nothing_is_told;
pub use ledgers::{kept_lines, line_of};
pub use writes::{Named, PlannedWrite, has_chunk, named_by};
