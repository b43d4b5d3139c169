// The random map of a clone: which cells of its region a pass has already drawn.
#![tactic(auto)]

mod cells;
mod levels;
mod words;

pub use cells::{CellMap, MOST_CELLS};
