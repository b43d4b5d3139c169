// Laws over the definitions: what a clone's current round says of its groups, and what the clone may do next by where it
// stands. Nothing here is run; each function's contract is a law, so that the check proves it.
#![tactic(auto)]

mod latest;
mod rounds;
mod standing;

pub use latest::{open_is_latest, taken_up_is_latest};
pub use rounds::{
    closed_at_end, kept_is_current, left_are_unsettled, left_in_pass, waits_under_way,
};
pub use standing::{choice_by_standing, clone_finished_by_standing, finished_by_standing};
