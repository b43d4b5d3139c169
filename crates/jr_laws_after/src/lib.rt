// Laws of what is judged after the power was cut. Nothing here is run; each function's contract is a law, so that the check proves it.
#![tactic(auto)]

mod waiting;

pub use waiting::late_writes_change_nothing;
