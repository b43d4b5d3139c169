// From the sections of a job file to the plan of a run: jobs, clones, files and limits.
#![tactic(auto)]

mod building;
mod laws;
mod names;
mod planned;
mod reading;
mod sections;
mod surveys;
mod tallies;

pub use jr_job_options::JobFault;
pub use jr_plan::{Bound, EngineKind, FileSpec, Plan, SubJob, plan_text};
pub use laws::{files_are_asked, high_is_greatest, low_is_least};
pub use reading::plan;
