ghost use Rattle.std.specs.Prelude.{◌≡◌, replicate, vec_len, OnOk};
ghost use Rattle.jr_header.specs.Served.{asked_with};

use jr_model::{Memory, Ticket, TicketKind};

/// Makes a buffer that was used before as long as the ticket's piece. It is zeros, but for a write, which fills it.
pub fn fit_buffer(buffer: &mut Vec<u8>, ticket: &Ticket) -> Result<(), Memory>
    ensures len { OnOk result (vec_len buffer.new ≡ ticket.now.piece.len) }
    ensures asked { OnOk result (asked_with ticket.now.kind ticket.now buffer.new.items
        ≡ asked_with ticket.now.kind ticket.now (replicate ticket.now.piece.len 0)) }
{
    let len = ticket.piece.len;
    match ticket.kind {
        TicketKind::Write => lengthen(buffer, len),
        TicketKind::Read | TicketKind::Probe | TicketKind::ReadCheck => clear(buffer, len),
    }
}

// So many bytes, whatever they are.
fn lengthen(buffer: &mut Vec<u8>, len: u32) -> Result<(), Memory>
    ensures { OnOk result (vec_len buffer.new ≡ len) }
{
    buffer.resize(len as usize, 0)?;
    Ok(())
}

// So many zeros.
#[tactic(auto, using(crate::proofs::Clearing::zeros_of))]
fn clear(buffer: &mut Vec<u8>, len: u32) -> Result<(), Memory>
    ensures len { OnOk result (vec_len buffer.new ≡ len) }
    ensures zeros { OnOk result (buffer.new.items ≡ replicate len 0) }
{
    buffer.clear();
    buffer.resize(len as usize, 0)?;
    Ok(())
}
