// What may happen after a history, and when it is whole: each definition of a legal history as a
// plain program over what the history says, worked out.
#![tactic(auto)]

mod answers;
mod choices;
mod clones;
mod courses;
mod indexes;
mod legal;
mod phases;
mod rounds;

pub use answers::{allowed, complete, may_be_judged, may_end, may_judge};
pub use choices::choice;
pub use courses::Course;
pub use indexes::Indexes;
pub use phases::{is_whole_run, legal_step_at};
