ghost use Rattle.std.specs.Prelude.{◌≡◌, ◌≤◌, ◌<◌, ◌^◌, ◌+◌, ◌-◌, ◌*◌, ◌%◌, ◌++◌, true, length, flat_map};
ghost use Rattle.std.specs.List.{range_with_len};
ghost use Rattle.jr_model.specs.Content.{chunk_at, chunk_bytes, chunk_header, chunk_seed, chunks_in, filler_of, header_back};
ghost use Rattle.jr_model.specs.Judgement.{chunk_verdict, chunks_verdict, header_verdict, in_chunk};
ghost use Rattle.jr_header.specs.Chunks.{IsInChunks};

use crate::content::{CHUNK_VERSION, fill_headed, header_front, joined};
use crate::digests::header_back;
use crate::judgement::{header_verdict, told_verdict};
use crate::parts::{filler_back, is_filler};
use jr_model::{Method, Part, Piece, Ticket, Verdict, What};

// Chunk i of a piece: as many bytes as the interval between headers.
pub(crate) fn chunk_at(interval: u32, piece: &Piece, i: u32) -> Piece
    requires { piece.now.offset + i * interval < 2 ^ 64 }
    ensures { result ≡ chunk_at interval piece.now i }
{
    Piece {
        file: piece.file,
        offset: piece.offset + u64::from(i) * u64::from(interval),
        len: interval,
    }
}

// The seed of its filler.
fn chunk_seed(seed: u64, i: u32) -> u64
    ensures { result ≡ chunk_seed seed i }
{
    seed.wrapping_add(u64::from(i))
}

// Fills the buffer with the chunks of the ticket's write.
pub(crate) fn fill_chunks(ticket: &Ticket, buffer: &mut [u8])
    requires chunks { IsInChunks ticket.now.method.interval ticket.now.piece }
    requires pass { ticket.now.write.pass < 2 ^ 16 }
    requires length { length buffer.old ≡ ticket.now.piece.len }
    ensures { buffer.new ≡ flat_map (chunk_bytes ticket.now.method ticket.now.write ticket.now.piece ticket.now.seed)
        (range_with_len 0 (chunks_in ticket.now.method.interval ticket.now.piece)) }
{
    let interval = ticket.method.interval;
    for i in 0..ticket.piece.len / interval {
        let start = i as usize * interval as usize;
        let chunk = &mut buffer[start..start + interval as usize];
        let piece = chunk_at(interval, &ticket.piece, i);
        let seed = chunk_seed(ticket.seed, i);
        fill_headed(
            CHUNK_VERSION,
            &ticket.method,
            &ticket.write,
            &piece,
            seed,
            chunk,
        );
    }
}

// The verdict on the chunks of a check, whose write had this seed: that on the first one that isn't good.
pub(crate) fn chunks_verdict(ticket: &Ticket, seed: u64, bytes: &[u8]) -> Verdict
    requires chunks { IsInChunks ticket.now.method.interval ticket.now.piece }
    requires pass { ticket.now.write.pass < 2 ^ 16 }
    requires length { length bytes.now ≡ ticket.now.piece.len }
    ensures { result ≡ chunks_verdict ticket.now.method ticket.now.write ticket.now.piece seed bytes.now }
{
    let interval = ticket.method.interval;
    let chunks = ticket.piece.len / interval;
    for i in 0..chunks {
        let start = i as usize * interval as usize;
        let chunk = &bytes[start..start + interval as usize];
        if let Verdict::Bad(what) = chunk_verdict(ticket, seed, i, chunk) {
            return Verdict::Bad(what);
        }
    }
    Verdict::Good
}

// The verdict on chunk i.
fn chunk_verdict(ticket: &Ticket, seed: u64, i: u32, chunk: &[u8]) -> Verdict
    requires place { ticket.now.piece.offset + i * ticket.now.method.interval < 2 ^ 64 }
    requires pass { ticket.now.write.pass < 2 ^ 16 }
    requires whole { length chunk.now % 8 ≡ 0 }
    requires room { 64 ≤ length chunk.now }
    requires length { length chunk.now ≡ ticket.now.method.interval }
    ensures { result ≡ in_chunk i (header_verdict ticket.now.method.kind
        (chunk_header ticket.now.method ticket.now.write ticket.now.piece seed i) chunk.now) }
{
    let method = &ticket.method;
    let piece = chunk_at(method.interval, &ticket.piece, i);
    let front = header_front(CHUNK_VERSION, method.kind, &ticket.write, &piece);
    in_chunk(
        i,
        filled_verdict(method, &front, chunk_seed(seed, i), chunk),
    )
}

// The verdict on bytes that begin with a header, by the first half that it should have, and the seed of the filler that should stand
// behind it. Where that filler stands there, its digest is the one that is expected, so no other is worked out.
fn filled_verdict(method: &Method, front: &[u8; 32], seed: u64, bytes: &[u8]) -> Verdict
    requires whole { length bytes.now % 8 ≡ 0 }
    requires room { 64 ≤ length bytes.now }
    ensures { result ≡ header_verdict method.now.kind
        (front.now ++ header_back method.now.kind (filler_of method.now.pattern seed (length bytes.now - 64))) bytes.now }
{
    let area = &bytes[64..];
    if is_filler(&method.pattern, seed, area) {
        told_verdict(&joined(front, &header_back(method.kind, area)), bytes)
    } else {
        let back = filler_back(method.kind, &method.pattern, seed, area.len());
        header_verdict(method.kind, &joined(front, &back), bytes)
    }
}

// A verdict by a header, said of chunk i.
pub(crate) fn in_chunk(i: u32, verdict: Verdict) -> Verdict
    ensures { result ≡ in_chunk i verdict }
{
    match verdict {
        Verdict::Bad(What::Header) => Verdict::Bad(What::Chunk(i, Part::Header)),
        Verdict::Bad(What::Digest) => Verdict::Bad(What::Chunk(i, Part::Digest)),
        Verdict::Bad(What::DataArea) => Verdict::Bad(What::Chunk(i, Part::DataArea)),
        Verdict::Good | Verdict::Void | Verdict::Bad(What::Byte(_) | What::Chunk(_, _)) => verdict,
    }
}
