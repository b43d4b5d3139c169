//! The words of a seed: what a job's draws and its generated data are made of.
#![tactic(auto)]

mod generator;
mod seeds;
mod source;

pub use generator::Words;
pub use seeds::pass_seed;
pub use source::{WordList, WordSource};
