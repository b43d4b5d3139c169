// Laws over the definitions: an I/O has raced exactly if a write over its bytes was in flight beside it. Nothing here is run; each
// function's contract is a law, so that the check proves it.
#![tactic(auto)]

mod races;

pub use races::{raced_is_written_over, written_over_has_raced};
