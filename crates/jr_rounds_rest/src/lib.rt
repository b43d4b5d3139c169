// What is left of a job after a run in which a fault halted clones, and the plan of the round that goes on with it.
#![tactic(auto)]

mod drafting;
mod going;
mod left;
mod tasks;
mod texts;
mod unchecked;
mod untried;

pub use drafting::next_round;
pub use going::clone_goes_on;
pub use left::tasks_left;
pub use tasks::{Task, first_tasks};
pub use texts::{parts_text, untried_text};
pub use untried::untried_bytes;
