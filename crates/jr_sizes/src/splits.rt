ghost use Rattle.std.specs.Prelude.{◌≡◌, ◌≤◌, length, IfSome, All};
ghost use Rattle.jr_sizes.specs.Splits.{split_of, shared};

use crate::faults::SplitFault;
use crate::reading::{
    MOST_ENTRIES, SplitEntry, blank_count, colon_count, entries_of, given_total, shared,
};
use jr_plan::Split;

/// A split that can be read from a text: entries with a `:` between them, each `size/percent`, `size/` or
/// `size`. What is missing to 100 percent is shared among those that leave it open.
pub trait ReadSplit {
    /// The split that a text says, or its first fault.
    fn read(text: &str) -> Result<Self, SplitFault>;
}

impl ReadSplit for Split {
    fn read(text: &str) -> Result<Split, SplitFault>
        ensures { result ≡ split_of text.now }
    {
        split_in(text)
    }
}

fn split_in(text: &str) -> Result<Split, SplitFault>
    ensures { result ≡ split_of text.now }
{
    if colon_count(text.as_bytes()) >= MOST_ENTRIES {
        return Err(SplitFault::TooMany);
    }
    match entries_of(text) {
        Ok(found) => shared_split(&found.entries[..found.count]),
        Err(fault) => Err(fault),
    }
}

// The split of some entries, of which some may leave their percent open.
fn shared_split(entries: &[SplitEntry]) -> Result<Split, SplitFault>
    requires least { 1 ≤ length entries.now }
    requires count { length entries.now ≤ 64 }
    requires most { All (λ entry. IfSome entry.1 (λ n. n ≤ 100)) entries.now }
    ensures { result ≡ shared entries.now }
{
    let given = given_total(entries);
    if given > 100 {
        return Err(SplitFault::Over);
    }
    let missing = 100 - given;
    let blanks = blank_count(entries) as u32;
    if blanks == 0 && missing > 0 {
        return Err(SplitFault::Under);
    }
    let parts = blanks.max(1);
    let each = (missing / parts) as u8;
    let extra = (missing % parts) as u8;
    match Split::of_entries(&shared(entries, each, extra)[..entries.len()]) {
        Some(split) => Ok(split),
        None => unreachable!("they share 100 percent"),
    }
}
