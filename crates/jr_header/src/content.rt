ghost use Rattle.std.specs.Prelude.{◌≡◌, ◌≤◌, ◌<◌, ◌^◌, ◌-◌, ◌%◌, ◌++◌, true, length, drop};
ghost use Rattle.jr_model.specs.Content.{magic, kind_code, digest_length, header_front, header_over, headed_block, header_of};
ghost use Rattle.jr_model.specs.Content.{block_version};
ghost use Rattle.jr_model.specs.Tickets.{ticket_fits, interval_fits};
ghost use Rattle.jr_header.specs.Served.{ticket_content, ticket_expected};

use crate::chunks::fill_chunks;
use crate::digests::{digest_length, header_back};
use crate::filler::fill_filler;
use jr_model::{Expected, Method, Piece, Ticket, VerifyKind, WriteId};

// Headers begin with JRV and a digit, which says whether they are for a whole block or for a chunk.
pub(crate) const BLOCK_VERSION: u8 = b'1';

pub(crate) const CHUNK_VERSION: u8 = b'2';

/// Fills the buffer with the bytes of the ticket's write, and says what its check is judged by. The interval between headers is
/// that of a ticket for a write or a check which fits.
pub fn fill(ticket: &Ticket, buffer: &mut [u8]) -> Expected
    requires fits { ticket_fits ticket.now ≡ true }
    requires interval { interval_fits ticket.now.method.kind ticket.now.method.interval ticket.now.piece.len ≡ true }
    requires length { length buffer.old ≡ ticket.now.piece.len }
    ensures content { buffer.new ≡ ticket_content ticket.now }
    ensures expected { result ≡ ticket_expected ticket.now }
{
    let method = &ticket.method;
    match method.kind {
        VerifyKind::Plain => {
            fill_filler(&method.pattern, ticket.seed, buffer);
            Expected::Nothing
        }
        VerifyKind::Pattern => {
            fill_filler(&method.pattern, ticket.seed, buffer);
            match method.pattern {
                Some(pattern) => Expected::Pattern(pattern),
                None => Expected::Nothing,
            }
        }
        VerifyKind::Md5 | VerifyKind::Sha1 | VerifyKind::Sha256 => {
            if method.interval == 0 {
                let (write, piece) = (&ticket.write, &ticket.piece);
                let header = fill_headed(BLOCK_VERSION, method, write, piece, ticket.seed, buffer);
                Expected::Header(header)
            } else {
                fill_chunks(ticket, buffer);
                Expected::Seed(ticket.seed)
            }
        }
    }
}

// Fills the buffer with the header and the data area of a piece of this write, and gives the header.
pub(crate) fn fill_headed(
    version: u8,
    method: &Method,
    write: &WriteId,
    piece: &Piece,
    seed: u64,
    buffer: &mut [u8],
) -> [u8; 64]
    requires whole { length buffer.old % 8 ≡ 0 }
    requires room { 64 ≤ length buffer.old }
    requires length { length buffer.old ≡ piece.now.len }
    requires pass { write.now.pass < 2 ^ 16 }
    ensures block { buffer.new ≡ headed_block version method.now write.now piece.now seed }
    ensures header { result ≡ header_of version method.now write.now piece.now seed }
{
    let (head, area) = buffer.split_at_mut(64);
    fill_filler(&method.pattern, seed, area);
    let front = header_front(version, method.kind, write, piece);
    let header = joined(&front, &header_back(method.kind, area));
    head.copy_from_slice(&header);
    header
}

// The two halves of a header in one.
pub(crate) fn joined(front: &[u8; 32], back: &[u8; 32]) -> [u8; 64]
    ensures { result ≡ front.now ++ back.now }
{
    let mut header = [0; 64];
    header[..32].copy_from_slice(front);
    header[32..].copy_from_slice(back);
    header
}

// The first half of a header: who wrote what, and where.
pub(crate) fn header_front(
    version: u8,
    kind: VerifyKind,
    write: &WriteId,
    piece: &Piece,
) -> [u8; 32]
    requires { write.now.pass < 2 ^ 16 }
    ensures { result ≡ header_front version kind write.now piece.now }
{
    let mut front = [0; 32];
    front[..4].copy_from_slice(&magic(version));
    front[4] = kind_code(kind);
    front[5] = digest_length(kind);
    front[6..8].copy_from_slice(&(write.pass as u16).to_le_bytes());
    front[8..12].copy_from_slice(&piece.len.to_le_bytes());
    front[12..16].copy_from_slice(&write.clone.to_le_bytes());
    front[16..24].copy_from_slice(&piece.offset.to_le_bytes());
    front[24..32].copy_from_slice(&u64::from(write.number).to_le_bytes());
    front
}

// What a header begins with.
pub(crate) fn magic(version: u8) -> [u8; 4]
    ensures { result ≡ magic version }
{
    [b'J', b'R', b'V', version]
}

// The kind's number in a header.
pub(crate) fn kind_code(kind: VerifyKind) -> u8
    ensures { result ≡ kind_code kind }
{
    match kind {
        VerifyKind::Plain | VerifyKind::Pattern => 0,
        VerifyKind::Md5 => 1,
        VerifyKind::Sha1 => 2,
        VerifyKind::Sha256 => 3,
    }
}
