ghost use Rattle.std.specs.Prelude.{◌≡◌, ◌≤◌, ◌^◌, false, IfOk};
ghost use Rattle.jr_model.specs.Draws.{fresh_places, all_drawn, first_cell, cell_count, places_after};
ghost use Rattle.jr_laws_draws.specs.DrawFacts.{HasCells, AreFree};
ghost use Rattle.jr_draw.specs.PlacesSeen.{places_of};

use jr_map::CellMap;
use jr_model::{IoType, Memory};
use std::alloc::Global;

/// Where a pass may draw.
#[derive(Drop)]
pub enum Places {
    /// One cell after another.
    Sequential,
    /// The cells that the map has free.
    Mapped(CellMap),
    /// Any cell.
    Unmapped,
}

impl Places {
    /// At the start of a pass.
    pub fn new(alloc: Global, io_type: IoType, has_map: bool, cells: u32) -> Result<Places, Memory>
        requires least { 1 ≤ cells }
        requires most { cells ≤ 2 ^ 24 }
        ensures { IfOk result (λ p. places_of p ≡ fresh_places io_type has_map cells) }
    {
        match io_type {
            IoType::Read | IoType::Write | IoType::ReadWrite => Ok(Places::Sequential),
            IoType::RandRead | IoType::RandWrite | IoType::RandRw => {
                if has_map {
                    Ok(Places::Mapped(CellMap::new(alloc, cells)?))
                } else {
                    Ok(Places::Unmapped)
                }
            }
        }
    }

    /// Whether nothing is left to draw.
    pub fn are_drawn(&self, left: u32) -> bool
        ensures { result ≡ all_drawn (places_of self.now) left }
    {
        match self {
            Places::Sequential | Places::Unmapped => left == 0,
            Places::Mapped(map) => map.left() == 0,
        }
    }

    /// The cell at which a draw begins, and how many it takes: `drawn` cells of its direction are
    /// drawn, `left` of all are left, and it wants `want`.
    pub fn choose(&self, cells: u32, drawn: u32, left: u32, want: u32, place: u64) -> (u32, u32)
        requires least { 1 ≤ cells }
        requires cells { HasCells (places_of self.now) cells }
        requires unfinished { all_drawn (places_of self.now) left ≡ false }
        ensures first { result.0 ≡ first_cell (places_of self.now) cells drawn place }
        ensures count { result.1 ≡ cell_count (places_of self.now) cells left result.0 want }
    {
        let nearest = (place % u64::from(cells)) as u32;
        match self {
            Places::Sequential => (drawn, want.min(left)),
            Places::Mapped(map) => {
                let x = map.pick(nearest).unwrap();
                (x, map.run(x, want))
            }
            Places::Unmapped => (nearest, want.min((cells - nearest).min(left))),
        }
    }

    /// Draws the `m` cells from `x` on.
    pub fn take(&mut self, x: u32, m: u32)
        requires { AreFree (places_of self.old) x m }
        ensures { places_of self.new ≡ places_after (places_of self.old) x m }
    {
        if let Places::Mapped(map) = self {
            map.take(x, m);
        }
    }
}
