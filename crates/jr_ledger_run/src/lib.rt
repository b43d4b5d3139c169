//! The ledger of a run that goes on: its threads add to it under one lock, and say what goes out at once.
#![tactic(auto)]

mod lines;
mod run_ledger;

pub use lines::Lines;
pub use run_ledger::RunLedger;
