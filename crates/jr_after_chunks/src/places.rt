ghost use Rattle.std.specs.Prelude.{◌≡◌, IfOk, None, OnOk, Some, if◌then◌else◌};
ghost use Rattle.jr_after.specs.Ledgers.{is_end_of};
ghost use Rattle.jr_model.specs.History.{same_write};
ghost use Rattle.jr_model.specs.declared.events.WriteId.{WriteId as Name};
ghost use Rattle.jr_after_chunks.specs.LinesFound.{ArePlacesIn, place_of};

use jr_after::{Named, PlannedWrite};
use jr_ledger::LedgerLine;
use jr_model::{Memory, WriteId};
use std::alloc::Global;
use std::collections::HashMap;

// The place of the line of each write that a ledger names.
#[derive(Drop)]
pub(crate) struct LinePlaces {
    places: HashMap<WriteId, usize>,
}

// Those of a ledger.
pub(crate) fn places_in(alloc: Global, lines: &[LedgerLine]) -> Result<LinePlaces, Memory>
    ensures { IfOk result (λ places. ArePlacesIn places lines.now) }
{
    let mut places = no_places(alloc);
    let mut count = lines.len();
    while count > 0 {
        count -= 1;
        note(&mut places, count, &lines[count])?;
    }
    Ok(places)
}

fn no_places(alloc: Global) -> LinePlaces
    ensures { (write : Name) → place_of result write ≡ None }
{
    LinePlaces {
        places: HashMap::new(alloc),
    }
}

// Notes a line in place of those behind it.
fn note(places: &mut LinePlaces, place: usize, line: &LedgerLine) -> Result<(), Memory>
    ensures { OnOk result ((write : Name) → place_of places.new write
        ≡ (if is_end_of write line.now then Some place else place_of places.old write)) }
{
    match line {
        LedgerLine::Written(write) => put(places, place, *write),
        LedgerLine::Begun(_) | LedgerLine::Returned(_) => Ok(()),
    }
}

fn put(places: &mut LinePlaces, place: usize, write: WriteId) -> Result<(), Memory>
    ensures { OnOk result ((other : Name) → place_of places.new other
        ≡ (if same_write other write then Some place else place_of places.old other)) }
{
    places.places.insert(write, place)?;
    Ok(())
}

// The write with its line.
pub(crate) fn named_at(places: &LinePlaces, planned: &PlannedWrite) -> Named
    ensures { result ≡ record { planned = planned.now; line = place_of places.now planned.now.write } }
{
    Named {
        planned: *planned,
        line: places.places.get(&planned.write).copied(),
    }
}
