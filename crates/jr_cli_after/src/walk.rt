ghost use Rattle.std.specs.Prelude.{◌≡◌, ◌≤◌, ◌<◌, ◌+◌, ◌∷◌, [], ◌^◌, ◌&&◌, ◌==◌, All, not, length, IfOk, OnOk};
ghost use Rattle.jr_after.specs.Ledgers.{kept_lines};
ghost use Rattle.jr_cli_after.specs.Reading.{AreAlone, IsFileAfter, IsPartOf, IsStep, count_in};
ghost use Rattle.jr_cli_after.specs.Readings.{end_of};

use crate::faults::AfterFailure;
use crate::files::FileAfter;
use crate::judge::Judge;
use crate::parts::{add_parts, add_reading};
use crate::readings::read_piece;
use crate::rows::{Row, row_from};
use jr_after::kept_lines;
use jr_after_chunks::next_chunk;
use jr_engines::Engine;
use jr_model::{Memory, Piece};
use std::alloc::Global;
use std::thread::Threads;

// Reads the chunks of a file one after another, and judges each that is read whole.
pub(crate) fn judge_file<R: Threads + Sync>(
    rt: &R,
    alloc: Global,
    judge: &Judge<'_>,
    file: u32,
    engine: &mut dyn Engine,
) -> Result<FileAfter, AfterFailure>
    ensures { IfOk result (λ told. IsFileAfter judge.now file (state engine.old) told (state engine.new)) }
{
    let kept = kept_lines(file, judge.lines());
    let mut told = FileAfter::new(alloc, file);
    let mut bytes = Vec::new(alloc);
    let mut from = 0u64;
    while let Some(first) = next_chunk(judge.plan(), file, from) {
        let row = row_from(alloc, judge.plan(), &first)?;
        make_room(&mut bytes, row.piece.len)?;
        let buffer = bytes.as_mut_slice();
        judge_row(rt, alloc, judge, kept, &row, engine, buffer, &mut told)?;
        from = row.piece.offset + u64::from(row.piece.len);
    }
    Ok(told)
}

// Lets the buffer have so many bytes at least, whatever they are.
fn make_room(buffer: &mut Vec<u8>, len: u32) -> Result<(), Memory>
    ensures { OnOk result (len ≤ length buffer.new.items) }
{
    if buffer.len() < len as usize {
        buffer.resize(len as usize, 0)?;
    }
    Ok(())
}

// Reads the chunks of a row at once, and adds what is found. If not all of their bytes are got, each chunk is read alone.
fn judge_row<R: Threads + Sync>(
    rt: &R,
    alloc: Global,
    judge: &Judge<'_>,
    kept: usize,
    row: &Row,
    engine: &mut dyn Engine,
    buffer: &mut [u8],
    told: &mut FileAfter,
) -> Result<(), AfterFailure>
    requires kept { kept ≡ kept_lines row.now.piece.file judge.now.lines }
    requires parts { All (IsPartOf row.now.piece) row.now.chunks.items }
    requires end { end_of row.now.piece < 2 ^ 64 }
    requires buffer { row.now.piece.len ≤ length buffer.old }
    requires few { count_in told.old + length row.now.chunks.items < 2 ^ 64 }
    ensures { OnOk result (IsStep judge.now row.now.chunks.items row.now.piece (state engine.old) told.old told.new (state engine.new)) }
{
    let piece = &row.piece;
    let chunks = row.chunks.as_slice();
    let bytes = &mut buffer[..piece.len as usize];
    let is_whole = read_piece(engine, piece, bytes)?;
    if is_split(is_whole, chunks.len()) {
        return judge_alone(alloc, judge, kept, piece, chunks, engine, bytes, told);
    }
    add_parts(rt, alloc, judge, kept, piece, chunks, is_whole, bytes, told)?;
    Ok(())
}

// Whether each chunk is read alone after the read of all.
fn is_split(is_whole: bool, count: usize) -> bool
    ensures { result ≡ (not is_whole && not (count == 1)) }
{
    !is_whole && count != 1
}

// Reads each of these chunks alone, and adds what is found.
fn judge_alone(
    alloc: Global,
    judge: &Judge<'_>,
    kept: usize,
    piece: &Piece,
    chunks: &[Piece],
    engine: &mut dyn Engine,
    buffer: &mut [u8],
    told: &mut FileAfter,
) -> Result<(), AfterFailure>
    requires kept { kept ≡ kept_lines piece.now.file judge.now.lines }
    requires parts { All (IsPartOf piece.now) chunks.now }
    requires end { end_of piece.now < 2 ^ 64 }
    requires buffer { piece.now.len ≤ length buffer.old }
    requires few { count_in told.old + length chunks.now < 2 ^ 64 }
    ensures { OnOk result (AreAlone judge.now chunks.now (state engine.old) told.old told.new (state engine.new)) }
{
    for chunk in chunks {
        let bytes = &mut buffer[..chunk.len as usize];
        judge_chunk(alloc, judge, kept, chunk, engine, bytes, told)?;
    }
    Ok(())
}

// Reads a chunk, and adds what is found.
fn judge_chunk(
    alloc: Global,
    judge: &Judge<'_>,
    kept: usize,
    chunk: &Piece,
    engine: &mut dyn Engine,
    bytes: &mut [u8],
    told: &mut FileAfter,
) -> Result<(), AfterFailure>
    requires kept { kept ≡ kept_lines chunk.now.file judge.now.lines }
    requires some { 0 < chunk.now.len }
    requires end { chunk.now.offset + chunk.now.len < 2 ^ 64 }
    requires length { length bytes.old ≡ chunk.now.len }
    requires few { count_in told.old + 1 < 2 ^ 64 }
    ensures { OnOk result (AreAlone judge.now (chunk.now ∷ []) (state engine.old) told.old told.new (state engine.new)) }
{
    let is_whole = read_piece(engine, chunk, bytes)?;
    add_reading(alloc, judge, kept, chunk, is_whole, bytes, told)?;
    Ok(())
}
