ghost use Rattle.std.specs.Prelude.{◌≡◌, replicate, IfOk};

use jr_model::{Memory, Ticket};
use std::alloc::Global;

/// Room for the ticket's piece, for `serve`: as many zeros as it has bytes.
pub fn room_for(alloc: Global, ticket: &Ticket) -> Result<Vec<u8>, Memory>
    ensures { IfOk result (λ buffer. buffer.items ≡ replicate ticket.now.piece.len 0) }
{
    let len = ticket.piece.len;
    Ok(vec![in alloc; 0; len as usize]?)
}
