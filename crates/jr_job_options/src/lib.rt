// What the option lines of one job say: its options, how its region is cut, and what is wrong with them.
#![tactic(auto)]

mod faults;
mod keys;
mod options;
mod settings;
mod shapes;
mod values;
mod words;

pub use faults::JobFault;
pub use jr_plan::Bound;
pub use options::JobOptions;
pub use shapes::Shape;
