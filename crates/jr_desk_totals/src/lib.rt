// The counts and totals of a run's clones, and its bad verdicts: kept up event by event, so that no call looks at the whole
// history. Beside them, laws over the definitions: what one event more makes of a clone's counts and totals. A law is never run:
// its function's contract is the law, so that the check proves it.
#![tactic(auto)]

mod laws;
mod tallies;

pub use laws::{
    clones_are_all, counts_are_few, ends_are_counted, one_clone_changes, one_event_more,
    tests_are_compared, verdicts_are_counted,
};
pub use tallies::{Bad, Counts, Tallies};
