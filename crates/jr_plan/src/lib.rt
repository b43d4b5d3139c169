// The plan of a run: its clones, their files, and how it is carried out; and a builder of plans.
#![tactic(auto)]

mod clones;
mod drafts;
mod faults;
mod files;
mod plans;
mod splits;
mod texts;
mod wishes;
mod workloads;

pub use clones::SubJob;
pub use drafts::Draft;
pub use faults::{Bound, PlanFault};
pub use files::FileSpec;
pub use jr_model::EngineKind;
pub use plans::Plan;
pub use splits::{Split, mix};
pub use texts::{io_type_word, plan_text, verify_word};
pub use wishes::Wish;
pub use workloads::Workload;
