// Sheets of 4,096 places. What stands at the taken ones is kept packed, in rows of 64.
ghost use Rattle.std.specs.Prelude.{◌≡◌, ◌==◌, ◌+◌, ◌*◌, ◌<◌, ◌/◌, ℕ, None, Some, false, IsSome, IfSome, IfOk, OnOk, OnErr, if◌then◌else◌};
ghost use Rattle.std.specs.Option.{option_copied, option_map};
ghost use Rattle.jr_writes.specs.Slots.{IsLastTaken};
ghost use Rattle.jr_writes.specs.Sheets.{HasNoEmptyRow, IsLastInRow, packed_at, sheet_at};

use crate::packed::{Packed, SLOTS};
use jr_model::Memory;
use std::alloc::Global;

// How many places a sheet has.
pub(crate) const PLACES: u32 = 4096;

// 64 rows of 64 slots, of which those are there that have something.
#[derive(Drop)]
pub struct Sheet<V> {
    pub rows: Packed<Packed<V>>,
    ghost filled: { HasNoEmptyRow rows },
}

impl<V> Sheet<V> {
    // A sheet on which one thing stands.
    pub(crate) fn of_one(alloc: Global, place: u32, value: V) -> Result<Sheet<V>, Memory>
    where
        V: Drop,
        requires { place < 4096 }
        ensures { IfOk result (λ one. (q : ℕ) → sheet_at one.rows q ≡ (if q == place then Some value else None)) }
    {
        let row = Packed::of_one(alloc, place % SLOTS, value)?;
        let rows = Packed::of_one(alloc, place / SLOTS, row)?;
        Ok(Sheet { rows })
    }

    // What stands at a place.
    pub(crate) fn get(&self, place: u32) -> Option<&V>
        requires { place < 4096 }
        ensures { option_copied result ≡ sheet_at self.now.rows place }
    {
        match self.rows.get(place / SLOTS) {
            Some(row) => row.get(place % SLOTS),
            None => None,
        }
    }

    // Puts a value at a place, and gives what stood there. A place that is taken wants no memory.
    pub(crate) fn put(&mut self, alloc: Global, place: u32, value: V) -> Result<Option<V>, Memory>
    where
        V: Drop,
        requires { place < 4096 }
        ensures old { IfOk result (λ old. old ≡ sheet_at self.old.rows place) }
        ensures ok { OnOk result ((q : ℕ) → sheet_at self.new.rows q ≡ (if q == place then Some value else sheet_at self.old.rows q)) }
        ensures err { OnErr result ((q : ℕ) → sheet_at self.new.rows q ≡ sheet_at self.old.rows q) }
    {
        let row = place / SLOTS;
        if self.rows.is_taken(row) {
            let rank = self.rows.rank(row);
            let older = self.rows.items[rank].put(place % SLOTS, value)?;
            return Ok(older);
        }
        let one = Packed::of_one(alloc, place % SLOTS, value)?;
        self.rows.insert(row, one)?;
        Ok(None)
    }

    // Takes out what stands at a place.
    pub(crate) fn remove(&mut self, place: u32) -> Option<V>
    where
        V: Drop,
        requires { place < 4096 }
        ensures value { result ≡ sheet_at self.old.rows place }
        ensures places { (q : ℕ) → sheet_at self.new.rows q ≡ (if q == place then None else sheet_at self.old.rows q) }
    {
        let row = place / SLOTS;
        if !self.rows.is_taken(row) {
            return None;
        }
        let rank = self.rows.rank(row);
        let value = self.rows.items[rank].remove(place % SLOTS);
        if self.rows.items[rank].taken == 0 {
            let _ = self.rows.remove(row);
        }
        value
    }

    // Whether nothing stands on it.
    pub(crate) fn is_empty(&self) -> bool
        ensures { result ≡ (self.now.rows.taken == 0) }
    {
        self.rows.taken == 0
    }

    // The last taken place before the end.
    pub(crate) fn last_below(&self, end: u32) -> Option<u32>
        requires { end < 4096 }
        ensures { IsLastTaken (sheet_at self.now.rows) end result }
    {
        let row = end / SLOTS;
        match self.last_in_row(row, end % SLOTS) {
            Some(place) => Some(place),
            None => match self.rows.last_below(row) {
                Some(above) => self.last_of(above),
                None => None,
            },
        }
    }

    // The last taken place.
    pub(crate) fn last(&self) -> Option<u32>
        ensures { IsLastTaken (sheet_at self.now.rows) 4096 result }
    {
        match self.rows.last() {
            Some(row) => self.last_of(row),
            None => None,
        }
    }

    // The last taken place of a row before the end.
    fn last_in_row(&self, row: u32, end: u32) -> Option<u32>
        requires row { row < 64 }
        requires end { end < 64 }
        ensures { IsLastInRow (sheet_at self.now.rows) row end result }
    {
        match self.rows.get(row) {
            Some(slots) => place_in(row, slots.last_below(end)),
            None => None,
        }
    }

    // The last taken place of a row that is there.
    fn last_of(&self, row: u32) -> Option<u32>
        requires row { row < 64 }
        requires there { IsSome (packed_at self.now.rows row) }
        ensures there { IsSome result }
        ensures last { IsLastInRow (sheet_at self.now.rows) row 64 result }
    {
        match self.rows.get(row) {
            Some(slots) => place_in(row, slots.last()),
            None => None,
        }
    }
}

// The place of a slot of a row.
fn place_in(row: u32, slot: Option<u32>) -> Option<u32>
    requires row { row < 64 }
    requires slot { IfSome slot (λ s. s < 64) }
    ensures { result ≡ option_map (λ s. row * 64 + s) slot }
{
    match slot {
        Some(slot) => Some(row * SLOTS + slot),
        None => None,
    }
}
