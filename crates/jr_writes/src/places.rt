// The spots of the settled pieces, found by their places.
ghost use Rattle.std.specs.declared.cmp.Ordering.TheVariants.{Less};
ghost use Rattle.std.specs.Ordering.{is_lt};
ghost use Rattle.std.specs.Prelude.{◌≡◌, ◌+◌, ◌*◌, IfSome, false, ◌%◌, ◌<◌, ◌^◌, None, Some, IsSome, IfOk, MatchOption, OnOk, OnErr, if◌then◌else◌};
ghost use Rattle.std.specs.BTreeMap.{is_at};
ghost use Rattle.jr_writes.specs.Index.{place_order};
ghost use Rattle.jr_writes.specs.Last.{IsLastBefore};
ghost use Rattle.jr_writes.specs.Places.{HasNoEmptySheet, IsLastAbove, IsLastOn, placed, sector_at, sheet_at_place, spot_at};
ghost use Rattle.jr_writes.specs.Sheets.{sheet_at};

use crate::sheets::Sheet;
use crate::spot::Spot;
use jr_model::Memory;
use std::alloc::Global;
use std::collections::BTreeMap;

// How many bytes a sector has: each piece begins where one does.
const SECTOR: u64 = 512;

// How many sectors a sheet has.
const ON_SHEET: u64 = 4096;

// Sheets of the sectors of a file, by the file and their number.
#[derive(Drop)]
pub struct Places {
    pub alloc: Global,
    pub sheets: BTreeMap<(u32, u64), Sheet<Spot>>,
    ghost filled: { HasNoEmptySheet sheets.entries },
}

impl Places {
    pub(crate) fn new(alloc: Global) -> Places
        ensures { (q : _) → spot_at result.sheets.entries q ≡ None }
    {
        Places {
            alloc,
            sheets: BTreeMap::new(alloc),
        }
    }

    // Puts a spot at an offset of a file, and gives what stood there.
    pub(crate) fn insert(
        &mut self,
        file: u32,
        offset: u64,
        spot: Spot,
    ) -> Result<Option<Spot>, Memory>
        requires { offset % 512 ≡ 0 }
        ensures old { IfOk result (λ old. spot_at self.old.sheets.entries (file, offset) ≡ old) }
        ensures ok { OnOk result ((q : _) → spot_at self.new.sheets.entries q
            ≡ (if is_at (place_order (file, offset)) q then Some spot else spot_at self.old.sheets.entries q)) }
        ensures err { OnErr result ((q : _) → spot_at self.new.sheets.entries q ≡ spot_at self.old.sheets.entries q) }
    {
        let sector = offset / SECTOR;
        let name = (file, sector / ON_SHEET);
        let place = (sector % ON_SHEET) as u32;
        let alloc = self.alloc;
        if let Some(sheet) = self.sheets.get_mut(&name) {
            let older = sheet.put(alloc, place, spot)?;
            return Ok(older);
        }
        let one = Sheet::of_one(alloc, place, spot)?;
        self.sheets.insert(name, one)?;
        Ok(None)
    }

    // Takes out what stands at an offset of a file.
    pub(crate) fn remove(&mut self, file: u32, offset: u64)
        requires { offset % 512 ≡ 0 }
        ensures { (q : _) → spot_at self.new.sheets.entries q
            ≡ (if is_at (place_order (file, offset)) q then None else spot_at self.old.sheets.entries q) }
    {
        let sector = offset / SECTOR;
        let name = (file, sector / ON_SHEET);
        let Some(sheet) = self.sheets.get_mut(&name) else {
            return;
        };
        let _ = sheet.remove((sector % ON_SHEET) as u32);
        if sheet.is_empty() {
            let _ = self.sheets.remove(&name);
        }
    }

    // The last offset of a file before the end at which something stands, and what.
    pub(crate) fn last_before(&self, file: u32, end: u64) -> Option<(u64, Spot)>
        requires { end % 512 ≡ 0 }
        ensures { IsLastBefore (spot_at self.now.sheets.entries) file end result }
    {
        let sector = end / SECTOR;
        let name = (file, sector / ON_SHEET);
        match self.last_on(name, (sector % ON_SHEET) as u32) {
            Some(found) => Some(found),
            None => self.last_above(name),
        }
    }

    // The last on this sheet before its end.
    fn last_on(&self, name: (u32, u64), end: u32) -> Option<(u64, Spot)>
        requires number { name.1 < 2 ^ 43 }
        requires end { end < 4096 }
        ensures { IsLastOn (sector_at self.now.sheets.entries) name end result }
    {
        match self.sheets.get(&name) {
            Some(sheet) => spot_on(name.1, sheet, sheet.last_below(end)),
            None => None,
        }
    }

    // The last on the sheets of the file before this one.
    fn last_above(&self, name: (u32, u64)) -> Option<(u64, Spot)>
        requires { name.1 < 2 ^ 43 }
        ensures { IsLastAbove (sector_at self.now.sheets.entries) name result }
    {
        match last_sheet(&self.sheets, name) {
            Some(above) if above.0 == name.0 => match self.sheets.get(&above) {
                Some(sheet) => spot_on(above.1, sheet, sheet.last()),
                None => None,
            },
            _ => None,
        }
    }
}

// What stands at this place of a sheet, and its offset.
fn spot_on(number: u64, sheet: &Sheet<Spot>, place: Option<u32>) -> Option<(u64, Spot)>
    requires number { number < 2 ^ 43 }
    requires place { IfSome place (λ p. p < 4096) }
    ensures { result ≡ placed number (sheet_at sheet.now.rows) place }
{
    match place {
        Some(place) => match sheet.get(place) {
            Some(spot) => Some(((number * ON_SHEET + u64::from(place)) * SECTOR, *spot)),
            None => None,
        },
        None => None,
    }
}

// The last sheet before this one.
fn last_sheet(sheets: &BTreeMap<(u32, u64), Sheet<Spot>>, bound: (u32, u64)) -> Option<(u32, u64)>
    ensures { MatchOption result
        ((k : _) → place_order k bound ≡ Less → sheet_at_place sheets.now.entries k ≡ None)
        (λ f. (IsSome (sheet_at_place sheets.now.entries f)) × (place_order f bound ≡ Less)
        × ((k : _) → place_order k bound ≡ Less → IsSome (sheet_at_place sheets.now.entries k) → is_lt (place_order f k) ≡ false)) }
{
    match sheets.range(..bound).next_back() {
        Some((name, _)) => Some(*name),
        None => None,
    }
}
