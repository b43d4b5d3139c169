// The verdict on bytes by what they say of themselves: which write put them there is not asked.
ghost use Rattle.std.specs.Prelude.{◌≡◌, ◌≤◌, ◌<◌, ◌^◌, ◌+◌, ◌*◌, true, length, map};
ghost use Rattle.std.specs.List.{range_with_len};
ghost use Rattle.jr_model.specs.Content.{chunk_at, chunk_version, chunks_in};
ghost use Rattle.jr_model.specs.Judgement.{cuts_whole, first_bad, in_chunk, own_chunk_verdict, own_chunks_verdict, own_digest_verdict};
ghost use Rattle.jr_model.specs.Judgement.{own_header, own_header_verdict, own_interval, own_verdict_of, pattern_verdict};
ghost use Rattle.jr_model.specs.Tickets.{piece_fits};
ghost use Rattle.jr_header.specs.Chunks.{IsInChunks};
ghost use Rattle.jr_header.specs.Own.{own_back, own_front};

use crate::chunks::{chunk_at, in_chunk};
use crate::content::{BLOCK_VERSION, CHUNK_VERSION, joined, kind_code, magic};
use crate::digests::digest_length;
use crate::judgement::{byte_verdict, first_difference, header_verdict, same_bytes};
use jr_model::{Part, Pattern, Piece, SECTOR, Verdict, VerifyKind, What};

pub(crate) fn own_verdict(
    kind: VerifyKind,
    pattern: &Option<Pattern>,
    piece: &Piece,
    bytes: &[u8],
) -> Verdict
    requires fits { piece_fits piece.now ≡ true }
    requires length { length bytes.now ≡ piece.now.len }
    ensures { result ≡ own_verdict_of kind pattern.now piece.now bytes.now }
{
    match kind {
        VerifyKind::Plain => Verdict::Good,
        VerifyKind::Pattern => pattern_verdict(pattern, bytes),
        VerifyKind::Md5 | VerifyKind::Sha1 | VerifyKind::Sha256 => {
            own_digest_verdict(kind, piece, bytes)
        }
    }
}

// The verdict by the pattern, where there is one.
fn pattern_verdict(pattern: &Option<Pattern>, bytes: &[u8]) -> Verdict
    requires { length bytes.now < 2 ^ 32 }
    ensures { result ≡ pattern_verdict pattern.now bytes.now }
{
    match pattern {
        Some(pattern) => byte_verdict(first_difference(pattern.as_slice(), bytes)),
        None => Verdict::Good,
    }
}

// The verdict by their headers: that of a chunk or that of a block tells how they are cut.
fn own_digest_verdict(kind: VerifyKind, piece: &Piece, bytes: &[u8]) -> Verdict
    requires fits { piece_fits piece.now ≡ true }
    requires length { length bytes.now ≡ piece.now.len }
    ensures { result ≡ own_digest_verdict kind piece.now bytes.now }
{
    if same_bytes(&bytes[..4], &magic(CHUNK_VERSION)) {
        own_chunks_verdict(kind, own_interval(bytes), piece, bytes)
    } else {
        own_header_verdict(BLOCK_VERSION, kind, piece, bytes)
    }
}

// The interval between headers by the first one: the length that stands in it.
fn own_interval(bytes: &[u8]) -> u32
    requires { 12 ≤ length bytes.now }
    ensures { result ≡ own_interval bytes.now }
{
    u32::from_le_bytes([bytes[8], bytes[9], bytes[10], bytes[11]])
}

// Whether chunks of this interval are whole 512-byte blocks, and a whole number of them makes up so many bytes.
fn cuts_whole(interval: u32, len: u32) -> bool
    ensures { result ≡ cuts_whole interval len }
{
    interval > 0 && interval % SECTOR == 0 && len % interval == 0
}

// The verdict on the chunks of this interval: that on the first one that isn't good.
fn own_chunks_verdict(kind: VerifyKind, interval: u32, piece: &Piece, bytes: &[u8]) -> Verdict
    requires fits { piece_fits piece.now ≡ true }
    requires length { length bytes.now ≡ piece.now.len }
    ensures { result ≡ own_chunks_verdict kind interval piece.now bytes.now }
{
    if !cuts_whole(interval, piece.len) {
        return Verdict::Bad(What::Chunk(0, Part::Header));
    }
    cut_chunks_verdict(kind, interval, piece, bytes)
}

// The first chunk of a piece that isn't its own write's, where the interval cuts the piece.
fn cut_chunks_verdict(kind: VerifyKind, interval: u32, piece: &Piece, bytes: &[u8]) -> Verdict
    requires chunks { IsInChunks interval piece.now }
    requires length { length bytes.now ≡ piece.now.len }
    ensures { result ≡ first_bad (map (own_chunk_verdict kind interval piece.now bytes.now)
        (range_with_len 0 (chunks_in interval piece.now))) }
{
    for i in 0..piece.len / interval {
        let start = i as usize * interval as usize;
        let chunk = &bytes[start..start + interval as usize];
        if let Verdict::Bad(what) = own_chunk_verdict(kind, interval, piece, i, chunk) {
            return Verdict::Bad(what);
        }
    }
    Verdict::Good
}

// The verdict on chunk i by its own header.
fn own_chunk_verdict(
    kind: VerifyKind,
    interval: u32,
    piece: &Piece,
    i: u32,
    chunk: &[u8],
) -> Verdict
    requires place { piece.now.offset + i * interval < 2 ^ 64 }
    requires room { 64 ≤ length chunk.now }
    ensures { result ≡ in_chunk i (own_header_verdict chunk_version kind (chunk_at interval piece.now i) chunk.now) }
{
    let place = chunk_at(interval, piece, i);
    in_chunk(i, own_header_verdict(CHUNK_VERSION, kind, &place, chunk))
}

// The verdict on a piece by its own header.
fn own_header_verdict(version: u8, kind: VerifyKind, piece: &Piece, bytes: &[u8]) -> Verdict
    requires { 64 ≤ length bytes.now }
    ensures { result ≡ own_header_verdict version kind piece.now bytes.now }
{
    header_verdict(kind, &own_header(version, kind, piece, bytes), bytes)
}

// The header that the bytes of this piece should begin with: what only its writer knows is as they say.
fn own_header(version: u8, kind: VerifyKind, piece: &Piece, bytes: &[u8]) -> [u8; 64]
    requires { 64 ≤ length bytes.now }
    ensures { result ≡ own_header version kind piece.now bytes.now }
{
    joined(
        &own_front(version, kind, piece, bytes),
        &own_back(kind, bytes),
    )
}

// Its first half: pass, clone and draw number as they were read.
fn own_front(version: u8, kind: VerifyKind, piece: &Piece, bytes: &[u8]) -> [u8; 32]
    requires { 32 ≤ length bytes.now }
    ensures { result ≡ own_front version kind piece.now bytes.now }
{
    let mut front = [0; 32];
    front[..4].copy_from_slice(&magic(version));
    front[4] = kind_code(kind);
    front[5] = digest_length(kind);
    front[6..8].copy_from_slice(&bytes[6..8]);
    front[8..12].copy_from_slice(&piece.len.to_le_bytes());
    front[12..16].copy_from_slice(&bytes[12..16]);
    front[16..24].copy_from_slice(&piece.offset.to_le_bytes());
    front[24..32].copy_from_slice(&bytes[24..32]);
    front
}

// Its second half: the digest as it was read, and zeros.
fn own_back(kind: VerifyKind, bytes: &[u8]) -> [u8; 32]
    requires { 64 ≤ length bytes.now }
    ensures { result ≡ own_back kind bytes.now }
{
    let count = usize::from(digest_length(kind));
    let mut back = [0; 32];
    back[..count].copy_from_slice(&bytes[32..32 + count]);
    back
}
