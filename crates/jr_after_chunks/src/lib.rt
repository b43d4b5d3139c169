//! The chunks of a file that a plan may write, one after another, and the finding on each.
#![tactic(auto)]

mod index;
mod judging;
mod laws;
mod next;
mod places;

pub use index::{Index, index_of};
pub use judging::{chunk_finding, longest_block, named_writes};
pub use laws::{each_chunk_comes, no_chunk_is_parts};
pub use next::next_chunk;
