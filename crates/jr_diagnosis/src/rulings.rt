// What stands in a block that was judged to be bad.
ghost use Rattle.std.specs.Prelude.{◌≡◌, ◌≤◌, ◌+◌, ◌^◌, IfOk, true, false, length, vec_len};
ghost use Rattle.std.specs.Option.{option_map};
ghost use Rattle.jr_model.specs.Judgement.{own_interval};
ghost use Rattle.jr_model.specs.Tickets.{ticket_fits};
ghost use Rattle.jr_header.specs.Served.{ticket_content};
ghost use Rattle.jr_diagnosis.specs.Rulings.{bad_span, chunk_within, interval_in, is_known, place_of, told, told_in, told_of};

use crate::diagnoses::{Diagnosis, diagnosis_of, own_diagnosis_of};
use crate::sectors::first_sectors;
use jr_header::{Ruling, Served, fill, room_for};
use jr_model::{Memory, Piece, Ticket, TicketKind, Verdict, VerifyKind, What, WriteId};
use std::alloc::Global;

/// What stands in a block, or in a chunk of one, that came back wrong.
#[derive(Drop)]
pub struct Diagnosed {
    /// The write that was checked, or the read.
    pub write: WriteId,
    /// The block, or the chunk of it that is bad first.
    pub place: Piece,
    pub diagnosis: Diagnosis,
    /// Of each of the first 64 sectors of 512 bytes whether it is right; of none where it isn't known what should stand there.
    pub sectors: Vec<bool>,
}

// So many bytes of a block, from this one on.
#[derive(Clone, Copy)]
struct Span {
    from: u32,
    len: u32,
}

/// What stands in the block of this ruling; nothing is said of a good one. Only memory can be wanting.
pub fn diagnose(alloc: Global, ruling: &Ruling<'_>) -> Result<Option<Diagnosed>, Memory>
    ensures { IfOk result (λ found. option_map told found ≡ told_of ruling.now) }
{
    match ruling.verdict() {
        Verdict::Good | Verdict::Void => Ok(None),
        Verdict::Bad(what) => {
            let found = diagnose_by(alloc, ruling.served(), &what)?;
            Ok(Some(found))
        }
    }
}

fn diagnose_by(alloc: Global, served: &Served, what: &What) -> Result<Diagnosed, Memory>
    ensures { IfOk result (λ found. told found ≡ told_in served.now (bad_span served.now.ticket served.now.bytes what.now)) }
{
    let span = bad_span(served.ticket(), served.bytes(), what);
    if is_known(served.ticket()) {
        diagnose_known(alloc, served, &span)
    } else {
        diagnose_own(alloc, served, &span)
    }
}

// Where it is known which bytes should stand there.
fn diagnose_known(alloc: Global, served: &Served, span: &Span) -> Result<Diagnosed, Memory>
    requires known { is_known served.now.ticket ≡ true }
    requires within { span.now.from + span.now.len ≤ served.now.ticket.piece.len }
    ensures { IfOk result (λ found. told found ≡ told_in served.now span.now) }
{
    let ticket = served.ticket();
    let place = place_of(&ticket.piece, span);
    let block = written(alloc, ticket)?;
    let from = span.from as usize;
    let end = from + span.len as usize;
    let read = &served.bytes()[from..end];
    let written = &block.as_slice()[from..end];
    let sectors = first_sectors(alloc, written, read)?;
    Ok(Diagnosed {
        write: ticket.write,
        place,
        diagnosis: diagnosis_of(&ticket.method, &ticket.write, &place, written, read),
        sectors,
    })
}

// Where that isn't known.
fn diagnose_own(alloc: Global, served: &Served, span: &Span) -> Result<Diagnosed, Memory>
    requires unknown { is_known served.now.ticket ≡ false }
    requires within { span.now.from + span.now.len ≤ served.now.ticket.piece.len }
    ensures { IfOk result (λ found. told found ≡ told_in served.now span.now) }
{
    let ticket = served.ticket();
    let place = place_of(&ticket.piece, span);
    let from = span.from as usize;
    let read = &served.bytes()[from..from + span.len as usize];
    Ok(Diagnosed {
        write: ticket.write,
        place,
        diagnosis: own_diagnosis_of(ticket.method.kind, &place, read),
        sectors: Vec::new(alloc),
    })
}

// The part of a block that is bad.
fn bad_span(ticket: &Ticket, bytes: &[u8], what: &What) -> Span
    requires fits { ticket_fits ticket.now ≡ true }
    requires room { length bytes.now ≡ ticket.now.piece.len }
    ensures span { result ≡ bad_span ticket.now bytes.now what.now }
    ensures within { result.from + result.len ≤ ticket.now.piece.len }
{
    match what {
        What::Header | What::Digest | What::DataArea | What::Byte(_) => Span {
            from: 0,
            len: ticket.piece.len,
        },
        What::Chunk(i, _) => chunk_within(ticket.piece.len, interval_in(ticket, bytes), *i),
    }
}

// The chunk of this number in a block of so many bytes, or all of the block where no such chunk lies within it.
fn chunk_within(len: u32, interval: u32, i: u32) -> Span
    ensures span { result ≡ chunk_within len interval i }
    ensures within { result.from + result.len ≤ len }
{
    let from = u64::from(i) * u64::from(interval);
    if interval > 0 && from + u64::from(interval) <= u64::from(len) {
        Span {
            from: from as u32,
            len: interval,
        }
    } else {
        Span { from: 0, len }
    }
}

// How far apart the headers of a check's block are.
fn interval_in(ticket: &Ticket, bytes: &[u8]) -> u32
    requires fits { ticket_fits ticket.now ≡ true }
    requires room { length bytes.now ≡ ticket.now.piece.len }
    ensures { result ≡ interval_in ticket.now.kind ticket.now bytes.now }
{
    match ticket.kind {
        TicketKind::Read | TicketKind::Write | TicketKind::Probe => ticket.method.interval,
        TicketKind::ReadCheck => own_interval(bytes),
    }
}

// The length that stands in the first header.
fn own_interval(bytes: &[u8]) -> u32
    requires { 12 ≤ length bytes.now }
    ensures { result ≡ own_interval bytes.now }
{
    u32::from_le_bytes([bytes[8], bytes[9], bytes[10], bytes[11]])
}

// Where a part of a piece is.
fn place_of(piece: &Piece, span: &Span) -> Piece
    requires { piece.now.offset + span.now.from ≤ 2 ^ 63 }
    ensures { result ≡ place_of piece.now span.now }
{
    Piece {
        file: piece.file,
        offset: piece.offset + u64::from(span.from),
        len: span.len,
    }
}

// Whether it is known which bytes should stand there: those of the write that is checked, or a pattern.
fn is_known(ticket: &Ticket) -> bool
    ensures { result ≡ is_known ticket.now }
{
    matches!(ticket.kind, TicketKind::Probe) || matches!(ticket.method.kind, VerifyKind::Pattern)
}

// The bytes that should stand in a ticket's block.
fn written(alloc: Global, ticket: &Ticket) -> Result<Vec<u8>, Memory>
    requires fits { ticket_fits ticket.now ≡ true }
    requires known { is_known ticket.now ≡ true }
    ensures bytes { IfOk result (λ block. block.items ≡ ticket_content ticket.now) }
    ensures len { IfOk result (λ block. vec_len block ≡ ticket.now.piece.len) }
{
    let mut block = room_for(alloc, ticket)?;
    fill(ticket, block.as_mut_slice());
    Ok(block)
}
