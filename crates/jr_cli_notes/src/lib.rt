// What is told of a run beside its history: what stands in bad blocks, in words, and when, where and over which devices it was.
#![tactic(auto)]

mod beginnings;
mod common;
mod devices;
mod found;
mod surroundings;

pub use beginnings::Beginning;
pub use devices::known_files;
pub use found::tell_found;
pub use surroundings::Surroundings;
