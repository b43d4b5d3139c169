// Laws over the definitions: the write log and the I/Os in flight are those of a legal history. Nothing here is run; each
// function's contract is a law, so that the check proves it.
#![tactic(auto)]

mod flying;
mod intact;

pub use flying::{
    clear_is_clear, ended_flies_no_more, flies_is_flying, flying_is_started, next_flies,
    next_is_free, others_fly_on,
};
pub use intact::{
    log_grows, log_is_by_started, log_is_intact, log_is_intact_of_draws, logged_is_intact,
    unended_is_unlogged,
};
