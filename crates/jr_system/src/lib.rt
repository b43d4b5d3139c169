// What a run has of the machine around it: what is asked of it while it goes on, what the screen shows of it, how much memory is left; and
// why the program ends before its time, and what is said of it.
#![tactic(auto)]

mod asked;
mod closed;
mod extents;
mod machine;
mod meminfo;
mod memory;
mod show;
mod signs;
mod stops;

pub use asked::{Asked, asked_by, stop_after, stop_when_short};
pub use closed::Closed;
pub use extents::PlanBytes;
pub use machine::{Machine, Outlet};
pub use meminfo::{MemoryFiles, tell_history};
pub use memory::{MemoryState, history_bytes, is_watched};
pub use show::{Meter, Pace, Screen, Wiper, shown};
pub use signs::signs_of;
pub use stops::{Stop, tell_notes};
