ghost use Rattle.std.specs.Prelude.{◌≡◌, ◌<◌, ◌≤◌, ◌&&◌, ◌++◌, ◌∷◌, ℕ, [], Option, None, Some};
ghost use Rattle.std.specs.Prelude.{nat_le, nat_lt, length, slice_index_or, IfOk, OnOk, if◌then◌else◌};
ghost use Rattle.std.specs.Option.{option_or};
ghost use Rattle.jr_report_maps.specs.Firsts.{first_bad};
ghost use Rattle.jr_report_maps.specs.Sweeps.{is_over};
ghost use Rattle.jr_desk_totals.specs.declared.tallies.Bad.{Bad as OneBad};

use crate::spans::{Span, bad_bytes, end_block, first_block, has_bytes};
use jr_desk_totals::Bad;
use jr_model::{Memory, SECTOR};
use jr_plan::Plan;
use std::alloc::Global;

/// For each cell of a map of a file the first of these bad verdicts that is over a byte of it. The map has so many cells of `size` bytes;
/// the file is given by its place in the plan.
pub fn first_bads(
    alloc: Global,
    plan: &Plan,
    bads: &[Bad],
    file: u32,
    size: u64,
    count: usize,
) -> Result<Vec<Option<Bad>>, Memory>
    requires { SECTOR ≤ size }
    ensures count { IfOk result (λ firsts. length firsts.items ≡ count) }
    ensures firsts { IfOk result (λ firsts. (cell : ℕ) (d : Option OneBad) → cell < length firsts.items
        → slice_index_or firsts.items cell d ≡ first_bad plan.now bads.now file size cell) }
{
    let mut firsts = none_yet(alloc, count)?;
    note_all(firsts.as_mut_slice(), plan, bads, file, size);
    Ok(firsts)
}

// So many cells of which no bad verdict is known.
fn none_yet(alloc: Global, count: usize) -> Result<Vec<Option<Bad>>, Memory>
    ensures len { IfOk result (λ firsts. length firsts.items ≡ count) }
    ensures firsts { IfOk result (λ firsts. (cell : ℕ) (d : Option OneBad) → cell < length firsts.items
        → slice_index_or firsts.items cell d ≡ None) }
{
    let mut firsts = Vec::new(alloc);
    for place in 0..count {
        add_none(&mut firsts)?;
    }
    Ok(firsts)
}

fn add_none(firsts: &mut Vec<Option<Bad>>) -> Result<(), Memory>
    ensures { OnOk result (firsts.new.items ≡ firsts.old.items ++ None ∷ []) }
{
    firsts.push(None)?;
    Ok(())
}

// Notes these bad verdicts, in their order, in cells of which none is known.
fn note_all(firsts: &mut [Option<Bad>], plan: &Plan, bads: &[Bad], file: u32, size: u64)
    requires size { SECTOR ≤ size }
    requires blank { (cell : ℕ) (d : Option OneBad) → cell < length firsts.old → slice_index_or firsts.old cell d ≡ None }
    ensures firsts { (cell : ℕ) (d : Option OneBad) → cell < length firsts.new
        → slice_index_or firsts.new cell d ≡ first_bad plan.now bads.now file size cell }
    ensures len { length firsts.new ≡ length firsts.old }
{
    for bad in bads {
        let span = bad_bytes(plan, &bad.write, &bad.piece, bad.what);
        note(firsts, file, size, &span, bad);
    }
}

// Notes a bad verdict over these bytes.
fn note(firsts: &mut [Option<Bad>], file: u32, size: u64, span: &Span, bad: &Bad)
    requires { SECTOR ≤ size }
    ensures { (cell : ℕ) (d : Option OneBad) → cell < length firsts.old
        → slice_index_or firsts.new cell d ≡ (if is_over file size cell span.now
        then option_or (slice_index_or firsts.old cell d) (Some bad.now) else slice_index_or firsts.old cell d) }
{
    if !has_bytes(span, file) {
        return;
    }
    let first = first_block(span, size);
    let end = end_block(span, size);
    note_range(firsts, first, end, bad);
}

// Notes it in the cells from `first` on up to `end`.
fn note_range(firsts: &mut [Option<Bad>], first: u64, end: u64, bad: &Bad)
    ensures { (cell : ℕ) (d : Option OneBad) → cell < length firsts.old
        → slice_index_or firsts.new cell d ≡ (if nat_le first cell && nat_lt cell end
        then option_or (slice_index_or firsts.old cell d) (Some bad.now) else slice_index_or firsts.old cell d) }
{
    let until = (end as usize).min(firsts.len());
    for cell in first as usize..until {
        note_cell(firsts, cell, bad);
    }
}

fn note_cell(firsts: &mut [Option<Bad>], cell: usize, bad: &Bad)
    requires { cell < length firsts.old }
    ensures this { (d : Option OneBad) → slice_index_or firsts.new cell d ≡ option_or (slice_index_or firsts.old cell d) (Some bad.now) }
    ensures others { (k : ℕ) (d : Option OneBad) → ¬ k ≡ cell
        → slice_index_or firsts.new k d ≡ slice_index_or firsts.old k d }
{
    firsts[cell] = firsts[cell].or(Some(*bad));
}
