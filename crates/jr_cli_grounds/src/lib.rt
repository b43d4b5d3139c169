// What the words of the command line come to: the plan of a job text, or the text as it has to be written here; what its run is carried out
// over and by whom, and what it is asked for; the files that a ledger is of or that are judged by one, and the status after rounds.
#![tactic(auto)]

mod adapting;
mod afters;
mod asking;
mod crews;
mod files;
mod grounds;
mod jobs;
mod ledgers;
mod outcomes;
mod remarks;
mod ways;

pub use adapting::{job_size, print_adapted};
pub use afters::{refuse_judgement, take_to_read};
pub use asking::asked_for;
pub use crews::{add, boxed, shares};
pub use files::{Taken, take_files};
pub use grounds::{Ground, OneEngine, crew_engines};
pub use jobs::{PlannedJob, job_plan};
pub use ledgers::{begin_ledger, ledger_cut, refuse_ledger, unsynced_on_the_way};
pub use outcomes::Outcome;
pub use ways::{has_one_worker, shares_memory};
