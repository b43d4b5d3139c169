//! What a write puts into its blocks, and what is wrong with the bytes that a check, or a checked read, read.
#![tactic(auto)]

mod buffers;
mod chunks;
mod content;
mod digests;
mod filler;
mod hashers;
mod judgement;
mod own;
mod parts;
mod ruling;
mod served;

pub use buffers::room_for;
pub use content::fill;
pub use ruling::{Ruling, rule};
pub use served::{Ready, Served, ready_own, serve, serve_own};
