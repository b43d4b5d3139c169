// The blocks of a file that chunks have bytes in.
ghost use Rattle.std.specs.Prelude.{◌≡◌, ◌≤◌, ◌++◌, ◌∷◌, [], IfOk, OnOk, flat_map, map, filter};
ghost use Rattle.jr_desk_totals.specs.Bads.{miscompare_of};
ghost use Rattle.jr_after_report.specs.Counting.{is_fault};
ghost use Rattle.jr_after_json.specs.Blocks.{AreChunkBlocks, fault_chunks, fault_chunks_of, place_of};
ghost use Rattle.jr_after_json.specs.Bads.{bad_over};

use jr_after::Finding;
use jr_after_report::{FileReport, Judged};
use jr_desk_totals::Bad;
use jr_model::{Memory, Piece, SECTOR, What, WriteId};
use jr_plan::Plan;
use jr_report_maps::bad_blocks;
use std::alloc::Global;

/// The chunks of these files that are lost or broken.
pub fn fault_chunks(alloc: Global, found: &[FileReport]) -> Result<Vec<Piece>, Memory>
    ensures { IfOk result (λ chunks. chunks.items ≡ fault_chunks found.now) }
{
    let mut chunks = Vec::new(alloc);
    for one in found {
        push_faults(&mut chunks, one.told())?;
    }
    Ok(chunks)
}

// Appends those of a file.
fn push_faults(chunks: &mut Vec<Piece>, told: &[Judged]) -> Result<(), Memory>
    ensures { OnOk result (chunks.new.items ≡ chunks.old.items ++ map place_of (filter is_fault told.now)) }
{
    for one in told {
        push_fault(chunks, one)?;
    }
    Ok(())
}

fn push_fault(chunks: &mut Vec<Piece>, one: &Judged) -> Result<(), Memory>
    ensures { OnOk result (chunks.new.items ≡ chunks.old.items ++ map place_of (filter is_fault (one.now ∷ []))) }
{
    if is_fault(one) {
        chunks.push(one.chunk)?;
    }
    Ok(())
}

fn is_fault(one: &Judged) -> bool
    ensures { result ≡ is_fault one.now }
{
    match one.finding {
        Finding::Lost(_, _) | Finding::Broken(_) => true,
        Finding::Open | Finding::Kept | Finding::Torn(_) => false,
    }
}

/// The numbers of the blocks of a file that these chunks have bytes in, counted from the start of the file. A block has `size` bytes; the
/// file is given by its place in the plan.
pub fn chunk_blocks(
    alloc: Global,
    plan: &Plan,
    chunks: &[Piece],
    file: u32,
    size: u64,
) -> Result<Vec<u64>, Memory>
    requires { SECTOR ≤ size }
    ensures { IfOk result (λ blocks. AreChunkBlocks chunks.now file size blocks.items) }
{
    let bads = bads_over(alloc, chunks)?;
    let blocks = bad_blocks(alloc, plan, bads.as_slice(), file, size)?;
    Ok(blocks)
}

// For each chunk a bad verdict that is over all of it.
fn bads_over(alloc: Global, chunks: &[Piece]) -> Result<Vec<Bad>, Memory>
    ensures { IfOk result (λ bads. bads.items ≡ map bad_over chunks.now) }
{
    let mut bads = Vec::new(alloc);
    for chunk in chunks {
        bads.push(bad_over(chunk))?;
    }
    Ok(bads)
}

fn bad_over(chunk: &Piece) -> Bad
    ensures { result ≡ bad_over chunk.now }
{
    Bad {
        write: WriteId {
            clone: 0,
            pass: 0,
            number: 0,
        },
        piece: *chunk,
        what: What::Header,
    }
}
