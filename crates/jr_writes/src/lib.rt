// The log of the intact writes of a run: which writes are the last on each block of their piece, and
// what their checks compare with.
#![tactic(auto)]

mod fronts;
mod kept;
mod logs;
mod names;
mod packed;
mod places;
mod sheets;
mod spot;
mod spots;

pub use fronts::{header_front, header_of_halves};
pub use kept::{Head, Known, Place};
pub use logs::{Found, Logged, WriteLog};
