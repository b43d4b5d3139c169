// Whole blocks read and written at a place of a file; and what is kept of a file for that: its sectors, where it was written, which
// calls failed, and what asks the launcher about it.
#![tactic(auto)]

mod droppers;
mod failures;
mod marks;
mod moving;
mod positioned;
mod regions;
mod rooms;
mod sectors;

pub use droppers::{Cached, DirectAnswer, Dropper, Hold, Launcher};
pub use failures::{FailedCall, Failures};
pub use marks::{FileSync, SyncMarks, SyncStage};
pub use moving::{LARGEST_OFFSET, read_whole, write_whole};
pub use positioned::Positioned;
pub use rooms::Room;
pub use sectors::{first_ragged, is_whole, sector_of};
