//! What is done of a plan's files after the power was cut: each chunk is read by an engine, judged by the ledger, and told.
#![tactic(auto)]

mod faults;
mod files;
mod found;
mod judge;
mod part;
mod parts;
mod readings;
mod rows;
mod told;
mod walk;

pub use faults::AfterFailure;
pub use told::{After, judge_after};
