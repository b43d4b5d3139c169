use crate::flying::Flying;
use crate::resting::Rested;
use crate::standings::Standing;
use crate::waiting::Waiting;
use crate::written::CheckedLog;
use jr_desk_tickets::TicketTable;
use jr_desk_totals::Tallies;
use jr_model::Event;

/// What happened in a run, and what is kept of it, so that no call looks at the whole history.
#[derive(Drop)]
pub struct Board {
    /// All events, the oldest first. It is appended to alone.
    pub history: Vec<Event>,
    pub tickets: TicketTable,
    pub flying: Flying,
    pub log: CheckedLog,
    pub tallies: Tallies,
    pub standings: Vec<Standing>,
    pub rested: Rested,
    pub waiting: Waiting,
    /// The clone that issued a draw last. All others are prepared for their next one.
    pub last_issued: usize,
    /// No fewer than the writes that are still to check.
    pub left: usize,
}
