// A fio job file as it has to be written here: what is taken stays as it is, and each other line says what became of it.
#![tactic(auto)]

mod adapting;
mod causes;
mod command;
mod faults;
mod following;
mod jobs;
mod keeping;
mod marks;
mod settled;
mod state;
mod turns;
mod writing;

pub use adapting::{Adapted, adapt};
pub use faults::AdaptFault;
pub use jobs::Lengths;
