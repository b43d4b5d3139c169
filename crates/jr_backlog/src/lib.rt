// The writes of a round that are still to check: when a round of checks is due, which write is
// checked next, and when the round is closed.
#![tactic(auto)]

mod deferred;
mod rounds;

pub use deferred::DeferredRounds;
pub use rounds::Rounds;
