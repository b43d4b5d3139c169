// What is found by the bytes of many chunks: they are shared out among threads, since each is judged by itself.
ghost use Rattle.std.specs.Prelude.{◌≡◌, ◌<◌, ◌^◌, All, length, map, flat_map, IfOk};
ghost use Rattle.jr_after.specs.Ledgers.{kept_lines};
ghost use Rattle.jr_cli_after.specs.Reading.{IsPartOf, found_at};
ghost use Rattle.jr_cli_after.specs.Readings.{end_of};
ghost use Rattle.jr_cli_after.specs.Sharing.{found_of};

use crate::judge::Judge;
use crate::part::{Part, part_of};
use jr_after::Finding;
use jr_model::{Memory, Piece};
use rayon::prelude::*;
use std::alloc::Global;
use std::thread::Threads;

// How many bytes are judged at a time by one thread (64 KiB), if chunks aren't longer.
const SHARE: u32 = 65_536;

impl<'a, 'b> Part<'a, 'b> {
    fn finding(&self, alloc: Global, room: &mut Vec<u8>) -> Result<Finding, Memory>
        ensures { IfOk result (λ finding. finding ≡ found_of self.now) }
    {
        self.judge.make_room(room)?;
        self.judge.finding(
            alloc,
            self.kept,
            &self.chunk,
            self.bytes,
            room.as_mut_slice(),
        )
    }
}

// What is found by the bytes of chunks, which lie among these.
pub(crate) fn findings_of<R: Threads + Sync>(
    rt: &R,
    alloc: Global,
    judge: &Judge<'_>,
    kept: usize,
    piece: &Piece,
    chunks: &[Piece],
    bytes: &[u8],
) -> Result<Vec<Finding>, Memory>
    requires kept { kept ≡ kept_lines piece.now.file judge.now.lines }
    requires parts { All (IsPartOf piece.now) chunks.now }
    requires end { end_of piece.now < 2 ^ 64 }
    requires length { length bytes.now ≡ piece.now.len }
    ensures { IfOk result (λ found. found.items ≡ map (found_at judge.now piece.now.offset bytes.now) chunks.now) }
{
    let parts = parts_of(alloc, judge, kept, piece, chunks, bytes)?;
    let found = found_by_threads(rt, alloc, parts.as_slice(), share_of(chunks))?;
    joined(alloc, found.as_slice())
}

// The chunks, each with its bytes.
fn parts_of<'a, 'b>(
    alloc: Global,
    judge: &'a Judge<'b>,
    kept: usize,
    piece: &Piece,
    chunks: &[Piece],
    bytes: &'a [u8],
) -> Result<Vec<Part<'a, 'b>>, Memory>
    requires kept { kept ≡ kept_lines piece.now.file judge.now.lines }
    requires parts { All (IsPartOf piece.now) chunks.now }
    requires end { end_of piece.now < 2 ^ 64 }
    requires length { length bytes.now ≡ piece.now.len }
    ensures { IfOk result (λ parts. map found_of parts.items ≡ map (found_at judge.now piece.now.offset bytes.now) chunks.now) }
{
    let mut parts = Vec::with_capacity(alloc, chunks.len())?;
    for chunk in chunks {
        let bytes = part_of(piece, bytes, chunk);
        parts.push(Part {
            judge,
            kept,
            chunk: *chunk,
            bytes,
        })?;
    }
    Ok(parts)
}

// How many chunks as long as the first are judged at a time.
fn share_of(chunks: &[Piece]) -> usize
    ensures { 0 < result }
{
    match chunks.first() {
        Some(chunk) if chunk.len > 0 => (SHARE / chunk.len).max(1) as usize,
        _ => 1,
    }
}

// What is found, by as many threads as there are processors; so many parts are judged at a time.
fn found_by_threads<R: Threads + Sync>(
    rt: &R,
    alloc: Global,
    parts: &[Part<'_, '_>],
    share: usize,
) -> Result<Vec<Vec<Finding>>, Memory>
    requires { 0 < share }
    ensures { IfOk result (λ found. flat_map (λ one. one.items) found.items ≡ map found_of parts.now) }
{
    let found = parts
        .par_chunks(share)
        .with_min_len(1)
        .map(
            move |parts: &[Part<'_, '_>]| -> Result<Vec<Finding>, Memory>
                ensures { IfOk result (λ found. found.items ≡ map found_of parts.now) }
            { found_in_turn(alloc, parts) },
        )
        .collect::<Result<Vec<Vec<Finding>>, Memory>>(rt, alloc)?;
    found
}

// What is found by some of them, one after another.
fn found_in_turn(alloc: Global, parts: &[Part<'_, '_>]) -> Result<Vec<Finding>, Memory>
    ensures { IfOk result (λ found. found.items ≡ map found_of parts.now) }
{
    let mut room = Vec::new(alloc);
    let mut found = Vec::with_capacity(alloc, parts.len())?;
    for part in parts {
        found.push(part.finding(alloc, &mut room)?)?;
    }
    Ok(found)
}

// What was found by all of them, in their order.
fn joined(alloc: Global, found: &[Vec<Finding>]) -> Result<Vec<Finding>, Memory>
    ensures { IfOk result (λ all. all.items ≡ flat_map (λ one. one.items) found.now) }
{
    let mut all = Vec::new(alloc);
    for one in found {
        all.extend_from_slice(one.as_slice())?;
    }
    Ok(all)
}
