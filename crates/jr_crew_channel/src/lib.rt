//! The hand-over from workers to verifiers: a bounded channel, of which each thread knows what it put and took.
#![tactic(auto)]

mod balance;
mod handoff;
mod parcel;

pub use handoff::{Handoff, Pass};
pub use parcel::Parcel;
