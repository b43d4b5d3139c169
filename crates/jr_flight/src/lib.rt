// What is in flight, found by its number and by where it reads or writes, and what of it raced.
#![tactic(auto)]

mod flights;
mod ios;

pub use flights::Flight;
pub use ios::{Ended, FlightFault, Io};
