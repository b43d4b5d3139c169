ghost use Rattle.std.specs.Prelude.{◌≡◌, ◌≤◌, ◌<◌, ◌+◌, ◌*◌, ◌++◌, ◌&&◌, ◌||◌};
ghost use Rattle.std.specs.Prelude.{◌∷◌, nat_le, nat_lt, max, ℕ, [], true, map, IfOk, OnOk};
ghost use Rattle.std.specs.List.{list_any};
ghost use Rattle.std.specs.List.Sorted.{IsNonDecreasingBy, IsStrictlyIncreasing};
ghost use Rattle.jr_desk_totals.specs.Bads.{miscompare_of};
ghost use Rattle.jr_report_maps.specs.BadBlocks.{AreBadBlocks, block_line, blocks_text, is_bad_block, is_listed};
ghost use Rattle.jr_report_maps.specs.Spans.{span_bytes};
ghost use Rattle.jr_report_maps.specs.Sweeps.{bytes_of, is_over, IsRising};
ghost use Rattle.jr_report_maps.specs.declared.spans.Span.{Span as Place};

use crate::spans::{Span, bad_bytes, end_block, first_block, has_bytes};
use jr_desk_totals::Bad;
use jr_model::{Memory, SECTOR, push_number, push_text};
use jr_plan::Plan;
use std::alloc::Global;

/// The numbers of the blocks of a file that bad verdicts are over, counted from the start of the file. A block has `size` bytes; the file
/// is given by its place in the plan.
pub fn bad_blocks(
    alloc: Global,
    plan: &Plan,
    bads: &[Bad],
    file: u32,
    size: u64,
) -> Result<Vec<u64>, Memory>
    requires { SECTOR ≤ size }
    ensures { IfOk result (λ blocks. AreBadBlocks plan.now (map miscompare_of bads.now) file size blocks.items) }
{
    let spans = by_offset(alloc, plan, bads)?;
    blocks_of(alloc, spans.as_slice(), file, size)
}

// The bytes that bad verdicts are over, by their offsets.
fn by_offset(alloc: Global, plan: &Plan, bads: &[Bad]) -> Result<Vec<Span>, Memory>
    ensures same { IfOk result (λ spans. (file size block : ℕ) →
        list_any (is_over file size block) spans.items ≡ is_bad_block plan.now (map miscompare_of bads.now) file size block) }
    ensures ascending { IfOk result (λ spans. IsNonDecreasingBy (λ (span : Place). span.offset + span.skip) spans.items) }
{
    let mut spans = spans_of(alloc, plan, bads)?;
    spans.sort_unstable_by_key(|span| u128::from(span.offset) + u128::from(span.skip));
    Ok(spans)
}

// The bytes that bad verdicts are over.
pub(crate) fn spans_of(alloc: Global, plan: &Plan, bads: &[Bad]) -> Result<Vec<Span>, Memory>
    ensures { IfOk result (λ spans. map span_bytes spans.items ≡ map (bytes_of plan.now) bads.now) }
{
    let mut spans = Vec::new(alloc);
    for bad in bads {
        add_span(&mut spans, plan, bad)?;
    }
    Ok(spans)
}

fn add_span(spans: &mut Vec<Span>, plan: &Plan, bad: &Bad) -> Result<(), Memory>
    ensures { OnOk result (map span_bytes spans.new.items ≡ map span_bytes spans.old.items ++ bytes_of plan.now bad.now ∷ []) }
{
    spans.push(bad_bytes(plan, &bad.write, &bad.piece, bad.what))?;
    Ok(())
}

// The blocks that these spans have a byte in; their offsets ascend.
pub(crate) fn blocks_of(
    alloc: Global,
    spans: &[Span],
    file: u32,
    size: u64,
) -> Result<Vec<u64>, Memory>
    requires size { SECTOR ≤ size }
    requires ascending { IsNonDecreasingBy (λ (span : Place). span.offset + span.skip) spans.now }
    ensures listed { IfOk result (λ blocks. (block : ℕ) →
        is_listed blocks.items block ≡ list_any (is_over file size block) spans.now) }
    ensures ascending { IfOk result (λ blocks. IsStrictlyIncreasing blocks.items) }
{
    let mut blocks = Vec::new(alloc);
    let mut next = 0u64;
    for span in spans {
        let end = list_span(&mut blocks, next, span, file, size)?;
        next = end;
    }
    Ok(blocks)
}

// Lists the blocks of a span from `next` on, and answers the first block behind it from which on none is listed.
fn list_span(
    blocks: &mut Vec<u64>,
    next: u64,
    span: &Span,
    file: u32,
    size: u64,
) -> Result<u64, Memory>
    requires size { SECTOR ≤ size }
    requires rising { IsRising blocks.old.items next }
    ensures rising { IfOk result (λ end. IsRising blocks.new.items end) }
    ensures listed { OnOk result ((block : ℕ) → is_listed blocks.new.items block
        ≡ (is_listed blocks.old.items block || (nat_le next block && is_over file size block span.now))) }
    ensures reached { IfOk result (λ end. (block : ℕ) → next ≤ block → block < end
        → span.now.offset + span.now.skip < block * size + size → is_over file size block span.now ≡ true) }
{
    if !has_bytes(span, file) {
        return Ok(next);
    }
    let from = next.max(first_block(span, size));
    let end = end_block(span, size);
    list_range(blocks, from, end)?;
    Ok(from.max(end))
}

// Lists the blocks from `from` on up to `end`.
fn list_range(blocks: &mut Vec<u64>, from: u64, end: u64) -> Result<(), Memory>
    requires { IsRising blocks.old.items from }
    ensures rising { OnOk result (IsRising blocks.new.items (max from end)) }
    ensures listed { OnOk result ((block : ℕ) → is_listed blocks.new.items block
        ≡ (is_listed blocks.old.items block || (nat_le from block && nat_lt block end))) }
{
    for block in from..end {
        list_one(blocks, block)?;
    }
    Ok(())
}

fn list_one(blocks: &mut Vec<u64>, block: u64) -> Result<(), Memory>
    ensures { OnOk result (blocks.new.items ≡ blocks.old.items ++ block ∷ []) }
{
    blocks.push(block)?;
    Ok(())
}

/// The list as `badblocks -o` writes it: a number a line.
pub fn blocks_text(alloc: Global, blocks: &[u64]) -> Result<Vec<u8>, Memory>
    ensures { IfOk result (λ text. text.items ≡ blocks_text blocks.now) }
{
    let mut text = Vec::new(alloc);
    for block in blocks {
        push_block(&mut text, *block)?;
    }
    Ok(text)
}

fn push_block(text: &mut Vec<u8>, block: u64) -> Result<(), Memory>
    ensures { OnOk result (text.new.items ≡ text.old.items ++ block_line block) }
{
    push_number(text, block)?;
    push_text(text, "\n")
}
