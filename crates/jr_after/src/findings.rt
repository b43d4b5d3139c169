ghost use Rattle.std.specs.Prelude.{◌≡◌, ◌*◌, ◌^◌, ◌+◌, ◌<◌, ◌≤◌, All, length};
ghost use Rattle.std.specs.Option.{option_map};
ghost use Rattle.jr_after.specs.Findings.{finding_of, first_such, is_held, is_kept, is_sector_held, is_torn, kept_number, kept_write};
ghost use Rattle.jr_after.specs.Findings.{last_kept, may_stand, name_of, sector_at, sector_of};
ghost use Rattle.jr_after.specs.Parts.{CanHold};

use crate::held::is_held;
use crate::writes::Named;
use jr_model::{Piece, SECTOR, WriteId};

/// What is found of the bytes of a chunk.
#[derive(Clone, Copy, PartialEq, Eq)]
pub enum Finding {
    /// No kept write is over it: nothing is promised.
    Open,
    /// They are exactly those of a write that may stand there.
    Kept,
    /// They are exactly those of a write that the kept one had replaced: the kept one, and the one that is found.
    Lost(WriteId, WriteId),
    /// They are of no write, but each 512 bytes are those of one that may stand there: what is kept.
    Torn(WriteId),
    /// They are of no write: what is kept.
    Broken(WriteId),
}

/// The finding on the bytes of a chunk that these writes are over, of which those in the first `kept` lines of the ledger are kept. `room`
/// is as long as each of their blocks, at least, and what it holds afterwards says nothing.
pub fn finding_of(
    kept: usize,
    over: &[Named],
    chunk: &Piece,
    bytes: &[u8],
    room: &mut [u8],
) -> Finding
    requires parts { All (CanHold chunk.now (length room.old)) over.now }
    requires length { length bytes.now ≡ chunk.now.len }
    requires end { chunk.now.offset + chunk.now.len < 2 ^ 64 }
    ensures { result ≡ finding_of kept over.now chunk.now bytes.now }
{
    let last = last_kept(kept, over);
    let Some(write) = kept_write(kept, last, over) else {
        return Finding::Open;
    };
    if is_kept(last, over, chunk, bytes, room) {
        return Finding::Kept;
    }
    if let Some(found) = first_held(over, chunk, bytes, room) {
        return Finding::Lost(write, found);
    }
    if is_torn(last, over, chunk, bytes, room) {
        Finding::Torn(write)
    } else {
        Finding::Broken(write)
    }
}

// The number of the last line of kept writes, from 1; 0 where none of these writes is kept.
fn last_kept(kept: usize, over: &[Named]) -> usize
    ensures { result ≡ last_kept kept over.now }
{
    let mut last = 0usize;
    for named in over {
        last = last.max(kept_number(kept, named.line));
    }
    last
}

// The number of a line, from 1, if it is one of the first `kept`; else 0.
fn kept_number(kept: usize, line: Option<usize>) -> usize
    ensures { result ≡ kept_number kept line }
{
    match line {
        Some(i) if i < kept => i + 1,
        Some(_) | None => 0,
    }
}

// The last kept write of these, if there is one: that with the line of this number.
fn kept_write(kept: usize, last: usize, over: &[Named]) -> Option<WriteId>
    requires { last ≡ last_kept kept over.now }
    ensures { result ≡ option_map name_of (kept_write kept over.now) }
{
    if last == 0 {
        return None;
    }
    for named in over {
        if kept_number(kept, named.line) == last {
            return Some(named.planned.write);
        }
    }
    None
}

// Whether a write may stand behind the kept one whose line has the number `last`.
fn may_stand(last: usize, named: &Named) -> bool
    ensures { result ≡ may_stand last named.now }
{
    match named.line {
        None => true,
        Some(i) => last == 0 || last - 1 <= i,
    }
}

// Whether the bytes are those of a write that may stand there.
fn is_kept(last: usize, over: &[Named], chunk: &Piece, bytes: &[u8], room: &mut [u8]) -> bool
    requires { All (CanHold chunk.now (length room.old)) over.now }
    ensures { result ≡ is_kept last over.now chunk.now bytes.now }
{
    for named in over {
        if may_stand(last, named) && is_held(&named.planned, chunk, bytes, room) {
            return true;
        }
    }
    false
}

// The first write whose bytes they are.
fn first_held(over: &[Named], chunk: &Piece, bytes: &[u8], room: &mut [u8]) -> Option<WriteId>
    requires { All (CanHold chunk.now (length room.old)) over.now }
    ensures { result ≡ option_map name_of (first_such (is_held chunk.now bytes.now) over.now) }
{
    for named in over {
        if is_held(&named.planned, chunk, bytes, room) {
            return Some(named.planned.write);
        }
    }
    None
}

// Whether each 512 bytes are of a write that may stand there.
fn is_torn(last: usize, over: &[Named], chunk: &Piece, bytes: &[u8], room: &mut [u8]) -> bool
    requires parts { All (CanHold chunk.now (length room.old)) over.now }
    requires length { length bytes.now ≡ chunk.now.len }
    requires end { chunk.now.offset + chunk.now.len < 2 ^ 64 }
    ensures { result ≡ is_torn last over.now chunk.now bytes.now }
{
    for i in 0..chunk.len / SECTOR {
        if !is_sector_held(last, over, chunk, bytes, i, room) {
            return false;
        }
    }
    true
}

// Whether the 512 bytes at this place are of a write that may stand there.
fn is_sector_held(
    last: usize,
    over: &[Named],
    chunk: &Piece,
    bytes: &[u8],
    i: u32,
    room: &mut [u8],
) -> bool
    requires parts { All (CanHold chunk.now (length room.old)) over.now }
    requires place { i * 512 + 512 ≤ chunk.now.len }
    requires length { length bytes.now ≡ chunk.now.len }
    requires end { chunk.now.offset + chunk.now.len < 2 ^ 64 }
    ensures { result ≡ is_sector_held last over.now chunk.now bytes.now i }
{
    let part = sector_at(chunk, i);
    let sector = sector_of(bytes, i as usize);
    for named in over {
        if may_stand(last, named) && is_held(&named.planned, &part, sector, room) {
            return true;
        }
    }
    false
}

// The 512 bytes at this place of a chunk.
fn sector_at(chunk: &Piece, i: u32) -> Piece
    requires { chunk.now.offset + i * 512 < 2 ^ 64 }
    ensures { result ≡ sector_at chunk.now i }
{
    Piece {
        file: chunk.file,
        offset: chunk.offset + u64::from(i) * u64::from(SECTOR),
        len: SECTOR,
    }
}

fn sector_of(bytes: &[u8], i: usize) -> &[u8]
    requires { i * 512 + 512 ≤ length bytes.now }
    ensures { result.now ≡ sector_of bytes.now i }
{
    let (_, rest) = bytes.split_at(i * 512);
    let (sector, _) = rest.split_at(512);
    sector
}
