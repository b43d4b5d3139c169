// Job text as fio's manual describes it: sections, their option lines, and the numbers in them.
#![tactic(auto)]

mod cuts;
mod entries;
mod faults;
mod numbers;
mod reader;

pub use entries::{Line, Section};
pub use faults::{NumFault, TextFault};
pub use numbers::number;
pub use reader::sections;
