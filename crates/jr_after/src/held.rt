ghost use Rattle.std.specs.Prelude.{◌≡◌, ◌≤◌, ◌<◌, ◌+◌, ◌*◌, ◌^◌, length, true, IfSome};
ghost use Rattle.jr_model.specs.Content.{chunks_in};
ghost use Rattle.jr_model.specs.Judgement.{same_bytes};
ghost use Rattle.jr_model.specs.Tickets.{ticket_fits};
ghost use Rattle.jr_after.specs.Writes.{bytes_in};
ghost use Rattle.jr_after.specs.Parts.{IsInChunk, IsNarrowed, chunk_alone, is_cut, ticket_of};

use crate::writes::PlannedWrite;
use jr_header::fill;
use jr_model::{Expected, Piece, Ticket, TicketKind, VerifyKind};

// Whether the bytes are those that the write put into a part of its piece. The room is as long as the block, at least; what it holds
// afterwards says nothing.
pub(crate) fn is_held(planned: &PlannedWrite, part: &Piece, bytes: &[u8], room: &mut [u8]) -> bool
    requires fits { ticket_fits (ticket_of planned.now) ≡ true }
    requires from { planned.now.piece.offset ≤ part.now.offset }
    requires till { part.now.offset + part.now.len ≤ planned.now.piece.offset + planned.now.piece.len }
    requires room { planned.now.piece.len ≤ length room.old }
    ensures { result ≡ same_bytes bytes.now (bytes_in planned.now part.now) }
{
    let narrow = narrowed(planned, part);
    is_whole_held(&narrow, part, bytes, room)
}

// Whether this part of the write's block has these bytes; the whole of the block is made to see it.
fn is_whole_held(planned: &PlannedWrite, part: &Piece, bytes: &[u8], room: &mut [u8]) -> bool
    requires fits { ticket_fits (ticket_of planned.now) ≡ true }
    requires from { planned.now.piece.offset ≤ part.now.offset }
    requires till { part.now.offset + part.now.len ≤ planned.now.piece.offset + planned.now.piece.len }
    requires room { planned.now.piece.len ≤ length room.old }
    ensures { result ≡ same_bytes bytes.now (bytes_in planned.now part.now) }
{
    let ticket = ticket_of(planned);
    let block = &mut room[..planned.piece.len as usize];
    let _ = fill(&ticket, block);
    let from = (part.offset - planned.piece.offset) as usize;
    bytes == &block[from..from + part.len as usize]
}

// A write with the same bytes in a part, but as few others as can be: only they have to be made.
fn narrowed(planned: &PlannedWrite, part: &Piece) -> PlannedWrite
    requires fits { ticket_fits (ticket_of planned.now) ≡ true }
    requires from { planned.now.piece.offset ≤ part.now.offset }
    requires till { part.now.offset + part.now.len ≤ planned.now.piece.offset + planned.now.piece.len }
    ensures { IsNarrowed planned.now part.now result }
{
    match chunk_around(planned, part) {
        Some(i) => chunk_alone(planned, part, i),
        None => *planned,
    }
}

// The chunk of the write that the part lies in, if it lies in one.
fn chunk_around(planned: &PlannedWrite, part: &Piece) -> Option<u32>
    requires from { planned.now.piece.offset ≤ part.now.offset }
    requires till { part.now.offset + part.now.len ≤ planned.now.piece.offset + planned.now.piece.len }
    ensures { IfSome result (IsInChunk planned.now part.now) }
{
    let interval = planned.method.interval;
    if !is_cut(planned.method.kind, interval) {
        return None;
    }
    let count = planned.piece.len / interval;
    let skip = (part.offset - planned.piece.offset) as u32;
    let i = skip / interval;
    if i < count && part.len <= interval - skip % interval {
        Some(i)
    } else {
        None
    }
}

// Whether blocks of this kind are cut into chunks at this interval.
fn is_cut(kind: VerifyKind, interval: u32) -> bool
    ensures { result ≡ is_cut kind interval }
{
    match kind {
        VerifyKind::Plain | VerifyKind::Pattern => false,
        VerifyKind::Md5 | VerifyKind::Sha1 | VerifyKind::Sha256 => interval != 0,
    }
}

// This chunk of the write as a write of its own.
fn chunk_alone(planned: &PlannedWrite, part: &Piece, i: u32) -> PlannedWrite
    requires { IsInChunk planned.now part.now i }
    ensures { result ≡ chunk_alone planned.now i }
{
    // (the chunk begins no later than the part)
    let _begin = part.offset;
    let interval = planned.method.interval;
    let piece = Piece {
        file: planned.piece.file,
        offset: planned.piece.offset + u64::from(i) * u64::from(interval),
        len: interval,
    };
    PlannedWrite {
        write: planned.write,
        piece,
        seed: planned.seed.wrapping_add(u64::from(i)),
        method: planned.method,
    }
}

// The ticket of the write: what its block is filled by.
fn ticket_of(planned: &PlannedWrite) -> Ticket
    ensures { result ≡ ticket_of planned.now }
{
    Ticket {
        id: 0,
        worker: 0,
        kind: TicketKind::Write,
        write: planned.write,
        piece: planned.piece,
        seed: planned.seed,
        method: planned.method,
        expected: Expected::Nothing,
    }
}
