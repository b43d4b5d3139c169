// The desk: the one shared state of a run. It hands out I/O and takes in results, and its history is the run. And lists of steps
// played over a desk and a memory of their own: what a desk promises of every list of issues, completions, checks and verdicts is
// said of such a play.
#![tactic(auto)]

mod desk;
mod plays;
mod scripted;

pub use desk::Desk;
pub use jr_desk_state::Take;
pub use jr_desk_totals::Bad;
pub use jr_model::{DeskFault, Step, StepReply, Totals, is_same_ticket};
pub use plays::{Played, play};
