// What a plan asks for, worked out: its clones with their passes, and of each pass the draws and the
// groups of its writes. And what a history did, counted. What may happen isn't looked at.
#![tactic(auto)]

mod agendas;
mod counts;
mod draws;
mod laws;
mod passes;

pub use agendas::{Agenda, PlannedClone};
pub use counts::{totals, totals_among};
pub use laws::moved_are_started;
pub use passes::{PlannedPass, has_rounds, is_write_draw};
