// What a run of fio jobs is made of: pieces of files, I/Os, events, verdicts. The definitions that
// every other crate's contracts cite stand in `specs/`.
#![tactic(auto)]

mod blocks;
mod contents;
mod digits;
mod events;
mod laws;
mod limits;
mod memory;
mod replies;
mod sameness;
mod steps;
mod texts;
mod tickets;
mod totals;
mod workloads;

pub use blocks::{Dir, Piece, overlaps};
pub use contents::{Expected, Method, Pattern, VerifyKind};
pub use digits::{all_digits, digits_number};
pub use events::{Event, IoId, IssueKind, Outcome, Part, Started, Verdict, What, WriteId};
pub use laws::{
    choice_may_happen, every_run_is_legal, front_is_legal, legal_goes_on,
    own_verdict_is_of_its_kind, serial_is_legal, verdict_is_of_its_kind,
};
pub use limits::{
    LARGEST_BLOCK, LARGEST_END, LONGEST_TEXT, MOST_CELLS, MOST_CLONES, MOST_DEPTH, MOST_PASSES,
    MOST_VERIFIERS, MOST_WORK, SECTOR,
};
pub use memory::Memory;
pub use replies::{Reply, ReplyBytes};
pub use sameness::{
    is_same_expected, is_same_kind, is_same_method, is_same_ticket, same_piece, same_write,
};
pub use steps::{DeskFault, Step, StepReply};
pub use texts::{push_field, push_number, push_text};
pub use tickets::{Ticket, TicketKind};
pub use totals::Totals;
pub use workloads::{Draw, EngineKind, IoType};
