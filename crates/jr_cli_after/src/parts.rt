// What chunks add to what is told of their file.
ghost use Rattle.std.specs.Prelude.{◌≡◌, ◌<◌, ◌+◌, ◌^◌, All, false, true, length, map, OnOk};
ghost use Rattle.jr_after.specs.Findings.{finding_on};
ghost use Rattle.jr_after.specs.Ledgers.{kept_lines};
ghost use Rattle.jr_after.specs.Writes.{writes_of};
ghost use Rattle.jr_cli_after.specs.Reading.{AreAdded, IsAdded, IsPartOf, count_in, found_at, reading_at};
ghost use Rattle.jr_cli_after.specs.Readings.{end_of};

use crate::files::FileAfter;
use crate::found::findings_of;
use crate::judge::Judge;
use crate::part::part_of;
use jr_after::Finding;
use jr_after_report::Judged;
use jr_model::{Memory, Piece};
use std::alloc::Global;
use std::thread::Threads;

// Adds what is found by the bytes of some chunks, which lie among these, if all of these were read.
pub(crate) fn add_parts<R: Threads + Sync>(
    rt: &R,
    alloc: Global,
    judge: &Judge<'_>,
    kept: usize,
    piece: &Piece,
    chunks: &[Piece],
    is_whole: bool,
    bytes: &[u8],
    told: &mut FileAfter,
) -> Result<(), Memory>
    requires kept { kept ≡ kept_lines piece.now.file judge.now.lines }
    requires parts { All (IsPartOf piece.now) chunks.now }
    requires end { end_of piece.now < 2 ^ 64 }
    requires length { length bytes.now ≡ piece.now.len }
    requires few { count_in told.old + length chunks.now < 2 ^ 64 }
    ensures { OnOk result (AreAdded judge.now (map (reading_at piece.now is_whole bytes.now) chunks.now) told.old told.new) }
{
    if !is_whole {
        return add_unread_parts(judge, piece, chunks, bytes, told);
    }
    let found = findings_of(rt, alloc, judge, kept, piece, chunks, bytes)?;
    add_found(judge, piece, chunks, bytes, found.as_slice(), told)
}

// Adds chunks that weren't read whole.
fn add_unread_parts(
    judge: &Judge<'_>,
    piece: &Piece,
    chunks: &[Piece],
    bytes: &[u8],
    told: &mut FileAfter,
) -> Result<(), Memory>
    requires parts { All (IsPartOf piece.now) chunks.now }
    requires length { length bytes.now ≡ piece.now.len }
    requires few { count_in told.old + length chunks.now < 2 ^ 64 }
    ensures { OnOk result (AreAdded judge.now (map (reading_at piece.now false bytes.now) chunks.now) told.old told.new) }
{
    for chunk in chunks {
        let part = part_of(piece, bytes, chunk);
        add_unread(judge, chunk, part, told)?;
    }
    Ok(())
}

// Adds chunks that were read whole, by what is found of each.
fn add_found(
    judge: &Judge<'_>,
    piece: &Piece,
    chunks: &[Piece],
    bytes: &[u8],
    found: &[Finding],
    told: &mut FileAfter,
) -> Result<(), Memory>
    requires parts { All (IsPartOf piece.now) chunks.now }
    requires length { length bytes.now ≡ piece.now.len }
    requires found { found.now ≡ map (found_at judge.now piece.now.offset bytes.now) chunks.now }
    requires few { count_in told.old + length chunks.now < 2 ^ 64 }
    ensures { OnOk result (AreAdded judge.now (map (reading_at piece.now true bytes.now) chunks.now) told.old told.new) }
{
    for (place, chunk) in chunks.iter().enumerate() {
        let part = part_of(piece, bytes, chunk);
        add_judged(judge, chunk, part, found[place], told)?;
    }
    Ok(())
}

// Adds what is found by a chunk's bytes, if it was read whole.
pub(crate) fn add_reading(
    alloc: Global,
    judge: &Judge<'_>,
    kept: usize,
    chunk: &Piece,
    is_whole: bool,
    bytes: &[u8],
    told: &mut FileAfter,
) -> Result<(), Memory>
    requires kept { kept ≡ kept_lines chunk.now.file judge.now.lines }
    requires some { 0 < chunk.now.len }
    requires end { chunk.now.offset + chunk.now.len < 2 ^ 64 }
    requires length { length bytes.now ≡ chunk.now.len }
    requires few { count_in told.old + 1 < 2 ^ 64 }
    ensures { OnOk result (IsAdded judge.now chunk.now is_whole bytes.now told.old told.new) }
{
    if !is_whole {
        return add_unread(judge, chunk, bytes, told);
    }
    let mut room = Vec::new(alloc);
    judge.make_room(&mut room)?;
    let finding = judge.finding(alloc, kept, chunk, bytes, room.as_mut_slice())?;
    add_judged(judge, chunk, bytes, finding, told)
}

fn add_unread(
    judge: &Judge<'_>,
    chunk: &Piece,
    bytes: &[u8],
    told: &mut FileAfter,
) -> Result<(), Memory>
    requires { count_in told.old + 1 < 2 ^ 64 }
    ensures { OnOk result (IsAdded judge.now chunk.now false bytes.now told.old told.new) }
{
    let _bytes = bytes;
    told.add_unread(judge.plan(), chunk)
}

fn add_judged(
    judge: &Judge<'_>,
    chunk: &Piece,
    bytes: &[u8],
    finding: Finding,
    told: &mut FileAfter,
) -> Result<(), Memory>
    requires few { count_in told.old + 1 < 2 ^ 64 }
    requires found { finding ≡ finding_on (writes_of judge.now.plan) judge.now.lines chunk.now bytes.now }
    ensures { OnOk result (IsAdded judge.now chunk.now true bytes.now told.old told.new) }
{
    let _bytes = bytes;
    let one = Judged {
        chunk: *chunk,
        finding,
    };
    told.add_judged(judge.plan(), &one)
}
