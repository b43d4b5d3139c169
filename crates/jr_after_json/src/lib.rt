//! What is found of files after the power was cut, as JSON and as a list of blocks.
#![tactic(auto)]

mod blocks;
mod rows;
mod texts;

pub use blocks::{chunk_blocks, fault_chunks};
pub use rows::{count_of, word_of};
pub use texts::{Judgement, judgement_text, told_in};
