// What the program is asked for: the words of the command line, the lines of a plan, and the faults that end the program.
#![tactic(auto)]

mod arguments;
mod faults;
mod inputs;
mod jobs;
mod sizes;
mod traces;
mod wiping;
mod words;
mod workers;

pub use faults::CliFault;
pub use inputs::{memory_or, read_ledger, read_text, read_trace};
pub use jobs::{print_plan, to_output, write_out};
pub use sizes::{BlockSize, list_size};
pub use traces::TraceReader;
pub use wiping::{Wipe, Wiping};
pub use words::{Choice, LOGIC, RELEASE, VERSION, answer_words, choose};
pub use workers::workers_of;
