// Where a run found what: the blocks of a file that came back wrong, and a map of what happened to each part of it.
#![tactic(auto)]

mod bads;
mod blocks;
mod fates;
mod files;
mod firsts;
mod maps;
mod marks;
mod spans;
mod told;
mod wrong;

pub use bads::bads_of;
pub use blocks::{bad_blocks, blocks_text};
pub use fates::Fate;
pub use files::{FileMarks, marks_of};
pub use firsts::first_bads;
pub use maps::{FileMap, map_of};
pub use wrong::wrong_blocks;
