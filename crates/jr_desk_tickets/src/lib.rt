// The tickets that a run handed out, and how far each of them has come: of a ticket is kept what the plan doesn't say.
#![tactic(auto)]

mod launches;
mod table;

pub use launches::Launch;
pub use table::{IoState, TicketTable};
