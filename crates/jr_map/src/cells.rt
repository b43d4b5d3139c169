ghost use Rattle.std.specs.Prelude.{◌≡◌, ◌≤◌, ◌<◌, false, Some, length, slice_get, IfOk, IfSome};
ghost use Rattle.jr_model.specs.CellSet.{free_cell_from, free_run, with_cells, no_cells, free_count};

use crate::levels::Levels;
use jr_model::Memory;
use std::alloc::Global;
use std::marker::Model;

/// The most cells that a map can have.
pub const MOST_CELLS: u32 = 16_777_216;

/// A set of the cells of a region, each of which is free or taken.
#[derive(Drop)]
pub struct CellMap {
    levels: Levels,
    cells: u32,
    left: u32,
}

// Clauses see a flag for each cell: true where it is taken.
impl Model for CellMap {
    ghost use Rattle.std.specs.Prelude.{Bool, List};

    ghost Value = { List Bool };

    ghost use Rattle.jr_map.specs.Levels.{flags_of, IsCellMap};

    ghost view = { λ map. flags_of map.levels.lowest.items map.cells };

    // A bit of the lowest level is set exactly where its cell is taken or lies at the number of cells or
    // above (`marked`); a bit of an upper level is set exactly where its word below is full or isn't
    // there (`summed`).
    ghost invariant = { λ map. IsCellMap map.levels map.cells map.left };
}

impl CellMap {
    /// A map of `n` cells, all free. The only call of a map that takes memory.
    pub fn new(alloc: Global, n: u32) -> Result<CellMap, Memory>
        requires least { 1 ≤ n }
        requires most { n ≤ MOST_CELLS }
        ensures { IfOk result (λ map. map ≡ no_cells n) }
    {
        let levels = Levels::new(alloc, n as usize)?;
        Ok(CellMap {
            levels,
            cells: n,
            left: n,
        })
    }

    /// The first free cell from `r` on, or from the first cell on if there is none.
    pub fn pick(&self, r: u32) -> Option<u32>
        requires { r < length self.now }
        ensures value { result ≡ free_cell_from self.now r }
        ensures free { IfSome result (λ x. slice_get self.now x ≡ Some false) }
    {
        match self.levels.next_clear(r as usize) {
            Some(x) => Some(x as u32),
            None => Some(self.levels.next_clear(0)? as u32),
        }
    }

    /// How many cells from the free cell `x` on are free without a gap, at most `want`.
    pub fn run(&self, x: u32, want: u32) -> u32
        requires { slice_get self.now x ≡ Some false }
        ensures { result ≡ free_run self.now x want }
    {
        self.levels.run(x as usize, want as usize) as u32
    }

    /// Takes the `m` cells from `x` on, which are all free.
    pub fn take(&mut self, x: u32, m: u32)
        requires { free_run self.old x m ≡ m }
        ensures cells { self.new ≡ with_cells self.old x m }
        ensures len { length self.new ≡ length self.old }
    {
        let start = x as usize;
        self.levels.mark(start, start + m as usize);
        self.left -= m;
    }

    /// How many cells are free.
    pub fn left(&self) -> u32
        ensures { result ≡ free_count self.now }
    {
        self.left
    }

    /// Frees all cells.
    pub fn clear(&mut self)
        ensures cells { self.new ≡ no_cells (length self.old) }
        ensures len { length self.new ≡ length self.old }
    {
        self.levels.clear(self.cells as usize);
        self.left = self.cells;
    }
}
