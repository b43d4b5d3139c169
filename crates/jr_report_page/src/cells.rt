ghost use Rattle.std.specs.Prelude.{◌≡◌, ◌≤◌, ◌<◌, ◌++◌, ◌∷◌, [], length, IfOk, OnOk};
ghost use Rattle.std.specs.Prelude.{List};
ghost use Rattle.jr_model.specs.declared.events.Event.{Event};
ghost use Rattle.jr_report_maps.specs.Marked.{AreMarksOf};
ghost use Rattle.jr_report_page.specs.Cells.{AreCellsBy, AreCellsOf, IsCellAt};

use jr_desk_totals::Bad;
use jr_model::{LARGEST_END, Memory};
use jr_plan::Plan;
use jr_report_maps::{Fate, FileMap, FileMarks, first_bads, map_of};
use std::alloc::Global;

// A cell of a map as a page shows it: where it stands, which bytes it has (from `begin` on up to `end`), the worst that happened to one of
// them, and the first bad verdict over one of them.
#[derive(Clone, Copy)]
pub(crate) struct Cell {
    pub place: u64,
    pub begin: u64,
    pub end: u64,
    pub fate: Fate,
    pub first: Option<Bad>,
}

// The cells of the map of a file's first `end` bytes, with `most` of them or fewer, of a history of the plan whose marks these are.
pub(crate) fn cells_of(
    alloc: Global,
    plan: &Plan,
    marks: &FileMarks,
    bads: &[Bad],
    file: u32,
    end: u64,
    most: u32,
) -> Result<Vec<Cell>, Memory>
    requires some { 1 ≤ most }
    requires end { end ≤ LARGEST_END }
    ensures { (history : List Event) → AreMarksOf plan.now history marks.now → file < length plan.now.files
        → IfOk result (λ cells. AreCellsOf plan.now history bads.now file end most cells.items) }
{
    let map = map_of(alloc, marks, file, end, most)?;
    let firsts = first_bads(alloc, plan, bads, file, map.size, map.fates.len())?;
    let cells = cells_by(alloc, &map, firsts.as_slice(), end)?;
    Ok(cells)
}

// The cells of a map, with the first bad verdict of each.
fn cells_by(
    alloc: Global,
    map: &FileMap,
    firsts: &[Option<Bad>],
    end: u64,
) -> Result<Vec<Cell>, Memory>
    requires firsts { length firsts.now ≡ length map.now.fates.items }
    requires end { end ≤ LARGEST_END }
    ensures { IfOk result (λ cells. AreCellsBy map.now firsts.now end (length map.now.fates.items) cells.items) }
{
    let mut cells = Vec::new(alloc);
    for place in 0..map.fates.len() {
        add_cell(&mut cells, cell_at(map, firsts, end, place))?;
    }
    Ok(cells)
}

fn add_cell(cells: &mut Vec<Cell>, cell: Cell) -> Result<(), Memory>
    ensures { OnOk result (cells.new.items ≡ cells.old.items ++ cell ∷ []) }
{
    cells.push(cell)?;
    Ok(())
}

// The cell at this place of a map.
fn cell_at(map: &FileMap, firsts: &[Option<Bad>], end: u64, place: usize) -> Cell
    requires place { place < length map.now.fates.items }
    requires firsts { length firsts.now ≡ length map.now.fates.items }
    requires end { end ≤ LARGEST_END }
    ensures { IsCellAt map.now firsts.now end place result }
{
    let begin = (place as u64).saturating_mul(map.size);
    Cell {
        place: place as u64,
        begin: begin.min(end),
        end: begin.saturating_add(map.size).min(end),
        fate: map.fates[place],
        first: firsts[place],
    }
}
