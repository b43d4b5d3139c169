// Where the outputs of a run go, and what they must not go over: decided by what a file is, and not by its name.
#![tactic(auto)]

mod newfiles;
mod spots;
mod targets;
mod ways;

pub use newfiles::NewFile;
pub use spots::{Spot, met_by};
pub use targets::{Target, Unfit, spot_of};
pub use ways::{Kind, Way, Where, way_of};
