// What is said of a line of a job file that isn't read: why, what to write instead, and what becomes of it where the file is adapted.
#![tactic(auto)]

mod keys;
mod near;
mod rows;

pub use keys::{key_told, value_told};
pub use rows::{Fate, Told, Way};
