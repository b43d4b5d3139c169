// What is kept of the writes, found by their names.
ghost use Rattle.std.specs.Prelude.{◌≡◌, None, Some, OnOk, OnErr, if◌then◌else◌};
ghost use Rattle.std.specs.Option.{option_copied};
ghost use Rattle.std.specs.BTreeMap.{is_at};
ghost use Rattle.jr_model.specs.History.{write_order};
ghost use Rattle.jr_writes.specs.KeptList.{IsWrite};
ghost use Rattle.jr_writes.specs.Names.{name_at, sheet_name};

use crate::kept::Kept;
use crate::sheets::{PLACES, Sheet};
use jr_model::{Memory, WriteId};
use std::alloc::Global;
use std::collections::BTreeMap;

// Sheets of the writes of a clone and a pass whose numbers are the same but for their last 12 bits.
#[derive(Drop)]
pub struct Names {
    pub alloc: Global,
    pub sheets: BTreeMap<WriteId, Sheet<Kept>>,
}

impl Names {
    pub(crate) fn new(alloc: Global) -> Names
        ensures { (q : _) → name_at result.sheets.entries q ≡ None }
    {
        Names {
            alloc,
            sheets: BTreeMap::new(alloc),
        }
    }

    // What is kept of a write.
    pub(crate) fn get(&self, write: &WriteId) -> Option<&Kept>
        ensures value { option_copied result ≡ name_at self.now.sheets.entries write.now }
        ensures fits { IsWrite write.now }
    {
        match self.sheets.get(&sheet_name(write)) {
            Some(sheet) => sheet.get(write.number % PLACES),
            None => None,
        }
    }

    // Keeps this of a write.
    pub(crate) fn insert(&mut self, write: WriteId, kept: Kept) -> Result<(), Memory>
        ensures ok { OnOk result ((q : _) → name_at self.new.sheets.entries q
            ≡ (if is_at (write_order write) q then Some kept else name_at self.old.sheets.entries q)) }
        ensures err { OnErr result ((q : _) → name_at self.new.sheets.entries q ≡ name_at self.old.sheets.entries q) }
    {
        let name = sheet_name(&write);
        let place = write.number % PLACES;
        let alloc = self.alloc;
        if let Some(sheet) = self.sheets.get_mut(&name) {
            sheet.put(alloc, place, kept)?;
            return Ok(());
        }
        let one = Sheet::of_one(alloc, place, kept)?;
        self.sheets.insert(name, one)?;
        Ok(())
    }

    // Keeps nothing more of a write.
    pub(crate) fn remove(&mut self, write: &WriteId)
        ensures { (q : _) → name_at self.new.sheets.entries q
            ≡ (if is_at (write_order write.now) q then None else name_at self.old.sheets.entries q) }
    {
        let name = sheet_name(write);
        let Some(sheet) = self.sheets.get_mut(&name) else {
            return;
        };
        let _ = sheet.remove(write.number % PLACES);
        if sheet.is_empty() {
            let _ = self.sheets.remove(&name);
        }
    }
}

// The name of a write's sheet.
fn sheet_name(write: &WriteId) -> WriteId
    ensures name { result ≡ sheet_name write.now }
    ensures fits { IsWrite write.now }
{
    let whole = *write;
    WriteId {
        number: whole.number / PLACES,
        ..whole
    }
}
