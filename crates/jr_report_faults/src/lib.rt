// The faults of a run: the first of them by name, and how many more there are.
#![tactic(auto)]

mod faults;
mod notes;

pub use faults::{Fault, Faults, MOST_NAMED, faults_among, faults_of};
pub use notes::{FaultNote, kind_word};
