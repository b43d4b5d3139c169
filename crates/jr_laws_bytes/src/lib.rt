// Laws over the definitions: what the bytes read and written are in a legal history of a planned run, and when nothing goes
// wrong. Nothing here is run; each function's contract is a law, so that the check proves it.
#![tactic(auto)]

mod checks;
mod clean;

pub use checks::{
    checks_stay_intact, honest_is_good, keeps_last_writes, miscompares_exactly, quiet_play,
};
pub use clean::{serial_is_clean, serial_is_good, serial_is_quiet};
