// The draws of a pass: which I/Os a clone makes, in order.
#![tactic(auto)]

mod course;
mod drawer;
mod draws_left;
mod places;

pub use drawer::Drawer;
pub use draws_left::DrawsLeft;
