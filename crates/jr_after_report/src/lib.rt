//! What is told of the chunks of files after the power was cut: lines and totals.
#![tactic(auto)]

mod counts;
mod lines;
mod reports;

pub use counts::Counts;
pub use lines::{Judged, push_line};
pub use reports::{FileReport, report};
