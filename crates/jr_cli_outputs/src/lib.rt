// Where a run is told beside its report: its trace, the list of bad blocks, the JSON and the page, and maps on the screen.
#![tactic(auto)]

mod maps;
mod outputs;
mod roads;
mod unfailing;
mod wanted;

pub use outputs::{Content, Outputs, TraceFile};
pub use unfailing::{Nowhere, Unfailing};
pub use wanted::Wanted;
