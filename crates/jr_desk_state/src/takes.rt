ghost use Rattle.std.specs.Prelude.{◌≡◌};
ghost use Rattle.jr_desk_state.specs.Takes.{answer_with};

use jr_model::{Ticket, TicketKind};

/// What a worker that asks for work is answered.
#[derive(Clone, Copy, Debug, PartialEq, Eq)]
pub enum Take {
    /// A read or write of the job.
    Io(Ticket),
    /// The check of a write.
    Probe(Ticket),
    /// Nothing may be started until something ends or gets its verdict.
    Wait,
    /// The run is complete, or the desk was stopped.
    Finished,
}

// The answer where this ticket is handed out, if any is, and the run is complete or not.
pub(crate) fn answer_with(is_complete: bool, ticket: &Option<Ticket>) -> Take
    ensures { result ≡ answer_with is_complete ticket.now }
{
    match ticket {
        Some(ticket) if ticket.kind == TicketKind::Probe => Take::Probe(*ticket),
        Some(ticket) => Take::Io(*ticket),
        None if is_complete => Take::Finished,
        None => Take::Wait,
    }
}
