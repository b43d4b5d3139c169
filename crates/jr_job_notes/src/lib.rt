// What a refused job file's writer is told beside the first fault: each line that is refused, why, and what to write instead.
#![tactic(auto)]

mod jobs;
mod laws;
mod lines;
mod notes;
mod numbers;
mod open;
mod others;
mod said;
mod unread;
mod whole;

pub use laws::{accepted_have_none, first_is_named, refused_ascend};
pub use lines::{line_notes, told_of};
pub use notes::{Note, job_notes, plan_notes, unread_notes};
pub use numbers::{fio_number, fio_seconds};
pub use others::other_words;
