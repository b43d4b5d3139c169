// Laws of what is tried by a clone that goes in order, and by the rounds that go on after its faults. Nothing here is run; each function's
// contract is a law, so that the check proves it.
#![tactic(auto)]

mod tried;

pub use tried::{each_byte_tried_once, tried_in_a_row};
