ghost use Rattle.std.specs.Prelude.{◌≡◌, ◌++◌, OnOk, codes, decimal};
ghost use Rattle.jr_ledger.specs.Lines.{written_text, begun_text, returned_text, line_text};

use jr_model::{Memory, WriteId, push_number, push_text};

/// One sync of a file.
#[derive(Clone, Copy, Debug, PartialEq, Eq)]
pub struct SyncId {
    /// The file, by its place in the plan's list.
    pub file: u32,
    /// Its place among the syncs of this file that were asked for, from 0.
    pub number: u64,
}

/// What a line of a ledger says.
#[derive(Clone, Copy, Debug, PartialEq, Eq)]
pub enum LedgerLine {
    /// This write ended whole.
    Written(WriteId),
    /// This sync is about to be asked for.
    Begun(SyncId),
    /// This sync returned well.
    Returned(SyncId),
}

// Appends a line, with its line feed.
pub(crate) fn push_line(text: &mut Vec<u8>, line: &LedgerLine) -> Result<(), Memory>
    ensures { OnOk result (text.new.items ≡ text.old.items ++ line_text line.now) }
{
    match line {
        LedgerLine::Written(write) => push_written(text, write),
        LedgerLine::Begun(sync) => push_begun(text, sync),
        LedgerLine::Returned(sync) => push_returned(text, sync),
    }
}

#[tactic(auto, unfolding(crate::specs::Lines::written_text))]
fn push_written(text: &mut Vec<u8>, write: &WriteId) -> Result<(), Memory>
    ensures { OnOk result (text.new.items ≡ text.old.items ++ written_text write.now) }
{
    push_text(text, "w ")?;
    push_number(text, u64::from(write.clone))?;
    push_text(text, " ")?;
    push_number(text, u64::from(write.pass))?;
    push_text(text, " ")?;
    push_number(text, u64::from(write.number))?;
    push_text(text, "\n")
}

#[tactic(auto, unfolding(crate::specs::Lines::begun_text))]
fn push_begun(text: &mut Vec<u8>, sync: &SyncId) -> Result<(), Memory>
    ensures { OnOk result (text.new.items ≡ text.old.items ++ begun_text sync.now) }
{
    push_text(text, "b ")?;
    push_sync(text, sync)
}

#[tactic(auto, unfolding(crate::specs::Lines::returned_text))]
fn push_returned(text: &mut Vec<u8>, sync: &SyncId) -> Result<(), Memory>
    ensures { OnOk result (text.new.items ≡ text.old.items ++ returned_text sync.now) }
{
    push_text(text, "s ")?;
    push_sync(text, sync)
}

// Appends a sync's file and its number, with the line feed.
fn push_sync(text: &mut Vec<u8>, sync: &SyncId) -> Result<(), Memory>
    ensures { OnOk result (text.new.items
        ≡ text.old.items ++ decimal sync.now.file ++ codes " " ++ decimal sync.now.number ++ codes "\n") }
{
    push_number(text, u64::from(sync.file))?;
    push_text(text, " ")?;
    push_number(text, sync.number)?;
    push_text(text, "\n")
}
