ghost use Rattle.std.specs.Prelude.{◌≡◌, ◌<◌, ◌≤◌, ◌++◌, ◌∷◌, [], length, drop, SomeIff, take};
ghost use Rattle.jr_model.specs.Draws.{size_at, direction_at};
ghost use Rattle.jr_plan.specs.Sizes.{entry_fits, split_fits};
ghost use Rattle.jr_plan.specs.SplitEntries.{IsSplit, padded, percents_total};

use jr_model::{Dir, LARGEST_BLOCK};
use std::marker::Model;

/// The most entries of a split.
const MOST_ENTRIES: usize = 64;

/// Block sizes with their percentages, which add up to 100.
#[derive(Clone, Copy, PartialEq, Eq)]
pub struct Split {
    entries: [(u32, u8); 64],
    count: usize,
}

impl Model for Split {
    ghost use Rattle.std.specs.Prelude.{List, ℕ, take, length};
    ghost use Rattle.std.proofs.Common.{sym, ap, ◌∙◌};
    ghost use Rattle.jr_plan.specs.SplitEntries.{IsPadded, padded, length-IsPadded};

    ghost Value = { List (ℕ × ℕ) };

    ghost view = { λ s. take s.count s.entries };

    ghost invariant = { λ s. IsPadded s.count s.entries };

    ghost inverse = { λ entries. record { entries = padded entries; count = length entries } };

    ghost inverse_ok = { λ a h. ap (λ entries. record { entries = entries; count = length (take a.count a.entries) }) (sym h.rest) ∙ ap (λ n. record { entries = a.entries; count = n }) (length-IsPadded a.count a.entries h) };
}

impl Split {
    /// The split in which every block has this size.
    pub fn single(size: u32) -> Split
        ensures { result ≡ (size, 100) ∷ [] }
    {
        let mut entries = [(0, 0); 64];
        entries[0] = (size, 100);
        Split { entries, count: 1 }
    }

    /// The split of these entries, each a size in bytes and a percent: 1 to 64 of them, that share 100
    /// percent.
    pub fn of_entries(entries: &[(u32, u8)]) -> Option<Split>
        ensures { SomeIff result (IsSplit entries.now) entries.now }
    {
        let count = entries.len();
        if count == 0 || count > MOST_ENTRIES || percents_total(entries) != 100 {
            return None;
        }
        Some(Split {
            entries: padded_entries(entries),
            count,
        })
    }

    /// The size of a block whose size word is `t` modulo 100.
    pub fn size_of(&self, t: u8) -> u32
        requires { t < 100 }
        ensures { result ≡ size_at self.now t }
    {
        let mut left = t;
        for (size, percent) in &self.entries[..self.count] {
            if left < *percent {
                return *size;
            }
            left -= *percent;
        }
        0
    }

    /// Whether each size that it gives is a multiple of the cell (in bytes), from the cell up to the largest block.
    pub fn fits(&self, cell: u32) -> bool
        requires { 0 < cell }
        ensures { result ≡ split_fits cell self.now }
    {
        self.entries().iter().all(|entry| entry_fits(entry, cell))
    }

    /// Nothing: its contract says what holds of every split.
    pub fn facts(&self)
        ensures least { 1 ≤ length self.now }
        ensures most { length self.now ≤ 64 }
        ensures total { percents_total self.now ≡ 100 }
    {
        let _ = &self.count;
    }

    /// Its entries, each a size in bytes and a percent.
    pub fn entries(&self) -> &[(u32, u8)]
        ensures value { result.now ≡ self.now }
        ensures least { 1 ≤ length self.now }
        ensures most { length self.now ≤ 64 }
        ensures total { percents_total self.now ≡ 100 }
    {
        &self.entries[..self.count]
    }
}

fn entry_fits(entry: &(u32, u8), cell: u32) -> bool
    requires { 0 < cell }
    ensures { result ≡ entry_fits cell entry.now }
{
    entry.1 == 0 || (cell <= entry.0 && entry.0 % cell == 0 && entry.0 <= LARGEST_BLOCK)
}

// The sum of the percents.
fn percents_total(entries: &[(u32, u8)]) -> u32
    requires { length entries.now ≤ 64 }
    ensures { result ≡ percents_total entries.now }
{
    let mut total = 0;
    for (_, percent) in entries {
        total += u32::from(*percent);
    }
    total
}

// The entries, and empty ones up to 64.
fn padded_entries(entries: &[(u32, u8)]) -> [(u32, u8); 64]
    requires { length entries.now ≤ 64 }
    ensures { result ≡ padded entries.now }
{
    let mut all = [(0, 0); 64];
    copy_to_front(&mut all, entries);
    all
}

// Writes the entries over the first ones of a longer slice.
fn copy_to_front(all: &mut [(u32, u8)], entries: &[(u32, u8)])
    requires { length entries.now ≤ length all.old }
    ensures { all.new ≡ entries.now ++ drop (length entries.now) all.old }
{
    all[..entries.len()].copy_from_slice(entries);
}

/// The direction of a draw of a mixed job whose direction word is `t` modulo 100, if so many
/// percent are reads.
pub fn mix(t: u8, percent: u8) -> Dir
    requires { t < 100 }
    ensures { result ≡ direction_at t percent }
{
    if t < percent { Dir::Read } else { Dir::Write }
}
