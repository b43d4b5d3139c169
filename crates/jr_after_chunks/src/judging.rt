ghost use Rattle.std.specs.Prelude.{◌≡◌, ◌≤◌, ◌<◌, ◌^◌, ◌+◌, ◌++◌, ◌∷◌, [], All, List, Some, flat_map, map, length, IfOk, IfSome, OnOk};
ghost use Rattle.jr_after.specs.Findings.{finding_on, named_by};
ghost use Rattle.jr_after.specs.Ledgers.{kept_lines};
ghost use Rattle.jr_after.specs.declared.writes.PlannedWrite.{PlannedWrite as WriteRecord};
ghost use Rattle.jr_after_plans.specs.Fits.{CanBeWritten};
ghost use Rattle.jr_after_chunks.specs.Index.{IsIndexOf};
ghost use Rattle.jr_after_chunks.specs.Judging.{CanBeNamed, finding_among, longest_of, named_over, over_at, over_one};
ghost use Rattle.jr_ledger.specs.declared.lines.LedgerLine.{LedgerLine as Line};

use crate::index::{Index, part_of, places_over};
use crate::places::{named_at, places_in};
use jr_after::{Finding, Named, PlannedWrite, finding_of, has_chunk};
use jr_ledger::LedgerLine;
use jr_model::{Memory, Piece};
use std::alloc::Global;
use std::slice;

/// The writes of a plan, each with its line in a ledger.
pub fn named_writes(
    alloc: Global,
    lines: &[LedgerLine],
    writes: &[PlannedWrite],
) -> Result<Vec<Named>, Memory>
    ensures value { IfOk result (λ named. named.items ≡ map (named_by lines.now) writes.now) }
    ensures fit { All CanBeWritten writes.now → IfOk result (λ named. All CanBeNamed named.items) }
{
    all_named(alloc, lines, writes)
}

fn all_named(
    alloc: Global,
    lines: &[LedgerLine],
    writes: &[PlannedWrite],
) -> Result<Vec<Named>, Memory>
    ensures { IfOk result (λ named. named.items ≡ map (named_by lines.now) writes.now) }
{
    let places = places_in(alloc, lines)?;
    let mut named = Vec::new(alloc);
    for planned in writes {
        push(&mut named, named_at(&places, planned))?;
    }
    Ok(named)
}

/// The length of the longest block of these writes; 0 if there are none.
pub fn longest_block(named: &[Named]) -> u32
    ensures { result ≡ longest_of named.now }
{
    let mut longest = 0u32;
    for one in named {
        longest = longest.max(one.planned.piece.len);
    }
    longest
}

/// The finding on the bytes of a chunk, by all writes of a plan with their lines, of which those in the first `kept` lines are kept
/// (`kept_lines` of the file). The room is for a block of these writes. What it holds afterwards says nothing.
pub fn chunk_finding(
    alloc: Global,
    kept: usize,
    named: &[Named],
    index: &Index,
    chunk: &Piece,
    bytes: &[u8],
    room: &mut [u8],
) -> Result<Finding, Memory>
    requires fit { All CanBeNamed named.now }
    requires indexed { IsIndexOf index.now named.now }
    requires some { 0 < chunk.now.len }
    requires room { longest_of named.now ≤ length room.old }
    requires length { length bytes.now ≡ chunk.now.len }
    requires end { chunk.now.offset + chunk.now.len < 2 ^ 64 }
    ensures value { IfOk result (λ finding. finding ≡ finding_among kept named.now chunk.now bytes.now) }
    ensures finding { (writes : List WriteRecord) (lines : List Line) → named.now ≡ map (named_by lines) writes
        → kept ≡ kept_lines chunk.now.file lines
        → IfOk result (λ finding. finding ≡ finding_on writes lines chunk.now bytes.now) }
{
    let places = places_near(named, index, chunk);
    judged_at(alloc, kept, named, places, chunk, bytes, room)
}

// The places among which are those of the writes that are over a chunk.
fn places_near<'a>(named: &[Named], index: &'a Index, chunk: &Piece) -> &'a [usize]
    requires some { 0 < chunk.now.len }
    requires indexed { IsIndexOf index.now named.now }
    ensures { flat_map (over_at chunk.now named.now) result.now ≡ named_over chunk.now named.now }
{
    let _named = named;
    places_over(index, chunk.file, part_of(chunk.offset))
}

// The finding, where the writes that are over the chunk are among those at these places. If it is one, nothing is copied.
fn judged_at(
    alloc: Global,
    kept: usize,
    named: &[Named],
    places: &[usize],
    chunk: &Piece,
    bytes: &[u8],
    room: &mut [u8],
) -> Result<Finding, Memory>
    requires fit { All CanBeNamed named.now }
    requires places { flat_map (over_at chunk.now named.now) places.now ≡ named_over chunk.now named.now }
    requires room { longest_of named.now ≤ length room.old }
    requires length { length bytes.now ≡ chunk.now.len }
    requires end { chunk.now.offset + chunk.now.len < 2 ^ 64 }
    ensures { IfOk result (λ finding. finding ≡ finding_among kept named.now chunk.now bytes.now) }
{
    if let Some(over) = one_at_most(named, places, chunk) {
        return Ok(finding_of(kept, over, chunk, bytes, room));
    }
    let over = over_at_all(alloc, named, places, chunk)?;
    Ok(finding_of(kept, over.as_slice(), chunk, bytes, room))
}

// Those of the writes at some places that are over the chunk, if they are no more than one.
fn one_at_most<'a>(named: &'a [Named], places: &[usize], chunk: &Piece) -> Option<&'a [Named]>
    ensures { IfSome result (λ over. over.now ≡ flat_map (over_at chunk.now named.now) places.now) }
{
    let mut over: &'a [Named] = &[];
    for place in places {
        over = joined(over, over_at(named, *place, chunk))?;
    }
    Some(over)
}

// Both lists as one, if one of them is empty.
fn joined<'a>(first: &'a [Named], second: &'a [Named]) -> Option<&'a [Named]>
    ensures { IfSome result (λ both. both.now ≡ first.now ++ second.now) }
{
    if second.is_empty() {
        return Some(first);
    }
    if first.is_empty() {
        return Some(second);
    }
    None
}

// Those of the writes at some places that are over the chunk.
fn over_at_all(
    alloc: Global,
    named: &[Named],
    places: &[usize],
    chunk: &Piece,
) -> Result<Vec<Named>, Memory>
    ensures { IfOk result (λ over. over.items ≡ flat_map (over_at chunk.now named.now) places.now) }
{
    let mut over = Vec::new(alloc);
    for place in places {
        over.extend_from_slice(over_at(named, *place, chunk))?;
    }
    Ok(over)
}

// The write at a place, if it is over the chunk.
fn over_at<'a>(named: &'a [Named], place: usize, chunk: &Piece) -> &'a [Named]
    ensures { result.now ≡ over_at chunk.now named.now place }
{
    match named.get(place) {
        None => &[],
        Some(one) => if_over(one, chunk),
    }
}

fn if_over<'a>(one: &'a Named, chunk: &Piece) -> &'a [Named]
    ensures { result.now ≡ over_one chunk.now (Some one.now) }
{
    if has_chunk(chunk, &one.planned) {
        return slice::from_ref(one);
    }
    &[]
}

fn push<T: Copy>(items: &mut Vec<T>, item: T) -> Result<(), Memory>
    ensures { OnOk result (items.new.items ≡ items.old.items ++ item ∷ []) }
{
    items.push(item)?;
    Ok(())
}
