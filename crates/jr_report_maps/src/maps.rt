ghost use Rattle.std.specs.Prelude.{◌≡◌, ◌≤◌, ◌<◌, ◌&&◌, ◌++◌, ◌∷◌, ℕ, []};
ghost use Rattle.std.specs.Prelude.{nat_le, nat_lt, length, slice_index_or, IfOk, OnOk, Some, if◌then◌else◌};
ghost use Rattle.jr_report_maps.specs.declared.fates.Fate.{Fate as Shown};
ghost use Rattle.std.specs.Prelude.{List};
ghost use Rattle.jr_model.specs.declared.events.Event.{Event};
ghost use Rattle.jr_model.specs.Plan.{Plan};
ghost use Rattle.jr_report_maps.specs.Maps.{cell_size, fate_of, marked, worse, IsMapOf};
ghost use Rattle.jr_report_maps.specs.Marked.{AreMarksOf, fate_by, saids_of};
ghost use Rattle.jr_report_maps.specs.Spans.{said_by};

use crate::fates::{Fate, worse};
use crate::files::{ByteMarks, FileMarks};
use crate::marks::Mark;
use crate::spans::{end_block, first_block, has_bytes};
use jr_model::{LARGEST_END, Memory, SECTOR};
use std::alloc::Global;

/// A map of a file, from its start on: what happened to the bytes of each of its cells.
#[derive(Drop)]
pub struct FileMap {
    /// How many bytes a cell has, a multiple of 512.
    pub size: u64,
    /// The cells in their order.
    pub fates: Vec<Fate>,
}

/// The map of the first `end` bytes of a file, with `most` cells or fewer, of a history whose marks these are. The file is given by its
/// place in the plan.
pub fn map_of(
    alloc: Global,
    marks: &FileMarks,
    file: u32,
    end: u64,
    most: u32,
) -> Result<FileMap, Memory>
    requires some { 1 ≤ most }
    requires end { end ≤ LARGEST_END }
    ensures map { (plan : Plan) (history : List Event) → AreMarksOf plan history marks.now → file < length plan.files
        → IfOk result (IsMapOf plan history file end most) }
    ensures least { IfOk result (λ map. SECTOR ≤ map.size) }
{
    let size = cell_size(end, most);
    let count = end.div_ceil(size) as usize;
    let mut fates = blank(alloc, count)?;
    paint_file(fates.as_mut_slice(), marks, file, size);
    Ok(FileMap { size, fates })
}

// How many bytes a cell has.
fn cell_size(end: u64, most: u32) -> u64
    requires some { 1 ≤ most }
    requires end { end ≤ LARGEST_END }
    ensures value { result ≡ cell_size most end }
    ensures least { SECTOR ≤ result }
{
    let sector = u64::from(SECTOR);
    sector * end.div_ceil(sector * u64::from(most)).max(1)
}

// So many cells that nothing is said of.
fn blank(alloc: Global, count: usize) -> Result<Vec<Fate>, Memory>
    ensures len { IfOk result (λ fates. length fates.items ≡ count) }
    ensures fates { IfOk result (λ fates. (cell : ℕ) (d : Shown) → cell < length fates.items
        → slice_index_or fates.items cell d ≡ Fate.Untouched) }
{
    let mut fates = Vec::new(alloc);
    for place in 0..count {
        add_blank(&mut fates)?;
    }
    Ok(fates)
}

fn add_blank(fates: &mut Vec<Fate>) -> Result<(), Memory>
    ensures { OnOk result (fates.new.items ≡ fates.old.items ++ Fate.Untouched ∷ []) }
{
    fates.push(Fate::Untouched)?;
    Ok(())
}

// Paints what was said of this file over cells that nothing is said of.
fn paint_file(fates: &mut [Fate], marks: &FileMarks, file: u32, size: u64)
    requires size { SECTOR ≤ size }
    requires blank { (cell : ℕ) (d : Shown) → cell < length fates.old
        → slice_index_or fates.old cell d ≡ Fate.Untouched }
    ensures fates { (plan : Plan) (history : List Event) → AreMarksOf plan history marks.now → file < length plan.files
        → (cell : ℕ) (d : Shown) → cell < length fates.new → slice_index_or fates.new cell d ≡ fate_of plan history file size cell }
    ensures len { length fates.new ≡ length fates.old }
{
    if let Some(marks) = marks.files.get(file as usize) {
        paint_all(fates, marks, file, size);
    }
}

// Paints these over cells that nothing is said of.
fn paint_all(fates: &mut [Fate], marks: &ByteMarks, file: u32, size: u64)
    requires size { SECTOR ≤ size }
    requires blank { (cell : ℕ) (d : Shown) → cell < length fates.old
        → slice_index_or fates.old cell d ≡ Fate.Untouched }
    ensures fates { (cell : ℕ) (d : Shown) → cell < length fates.new
        → slice_index_or fates.new cell d ≡ fate_by file size cell (saids_of marks.now) }
    ensures len { length fates.new ≡ length fates.old }
{
    for mark in marks.items.as_slice() {
        paint_mark(fates, file, size, mark);
    }
}

fn paint_mark(fates: &mut [Fate], file: u32, size: u64, mark: &Mark)
    requires { SECTOR ≤ size }
    ensures { (cell : ℕ) (d : Shown) → cell < length fates.old
        → slice_index_or fates.new cell d ≡ marked file size cell (slice_index_or fates.old cell d) (Some (said_by mark.now)) }
{
    if !has_bytes(&mark.span, file) {
        return;
    }
    let first = first_block(&mark.span, size);
    let end = end_block(&mark.span, size);
    paint_range(fates, first, end, mark.fate);
}

// Paints the cells from `first` on up to `end`.
fn paint_range(fates: &mut [Fate], first: u64, end: u64, fate: Fate)
    ensures { (cell : ℕ) (d : Shown) → cell < length fates.old
        → slice_index_or fates.new cell d ≡ (if nat_le first cell && nat_lt cell end
        then worse (slice_index_or fates.old cell d) fate else slice_index_or fates.old cell d) }
{
    let until = (end as usize).min(fates.len());
    for cell in first as usize..until {
        paint_cell(fates, cell, fate);
    }
}

fn paint_cell(fates: &mut [Fate], cell: usize, fate: Fate)
    requires { cell < length fates.old }
    ensures this { (d : Shown) → slice_index_or fates.new cell d ≡ worse (slice_index_or fates.old cell d) fate }
    ensures others { (k : ℕ) (d : Shown) → ¬ k ≡ cell → slice_index_or fates.new k d ≡ slice_index_or fates.old k d }
{
    fates[cell] = worse(fates[cell], fate);
}
