ghost use Rattle.std.specs.Prelude.{◌≡◌, ◌++◌, ◌∷◌, [], ◌<◌, ◌^◌, ℕ, filter, OnOk, if◌then◌else◌};
ghost use Rattle.jr_replay_history.specs.Parts.{ends_at, first_part, is_over_part, part_count, part_of, same_part};

use crate::marks::WriteEnd;
use jr_model::{Memory, Piece, SECTOR};
use std::alloc::Global;
use std::collections::HashMap;

/// How many bytes a part of a file has (64 KiB).
pub const PART: u32 = 65_536;

/// The part of its file in which a block of 512 bytes lies.
pub fn part_of(block: u64) -> u64
    ensures { result ≡ part_of block }
{
    block / u64::from(PART / SECTOR)
}

// The ends of writes over each part of a file, by file and part, the oldest first.
#[derive(Drop)]
pub struct Parts {
    pub ends: HashMap<(u32, u64), Vec<WriteEnd>>,
}

impl Parts {
    // No ends.
    pub fn new(alloc: Global) -> Parts
        ensures { (key : ℕ × ℕ) → ends_at result key ≡ [] }
    {
        Parts {
            ends: HashMap::new(alloc),
        }
    }

    // The ends over a part of a file.
    pub fn ends_over(&self, file: u32, part: u64) -> &[WriteEnd]
        ensures { result.now ≡ ends_at self.now (file, part) }
    {
        match self.ends.get(&(file, part)) {
            Some(ends) => ends.as_slice(),
            None => &[],
        }
    }
}

// Puts the end of a write behind those over a part.
fn put_over(
    alloc: Global,
    parts: &mut Parts,
    part: (u32, u64),
    end: &WriteEnd,
) -> Result<(), Memory>
    ensures { OnOk result ((key : ℕ × ℕ) → ends_at parts.new key
        ≡ ends_at parts.old key ++ (if same_part key part then end.now ∷ [] else [])) }
{
    let mut ends = match parts.ends.remove(&part) {
        Some(ends) => ends,
        None => Vec::new(alloc),
    };
    ends.push(*end)?;
    parts.ends.insert(part, ends)?;
    Ok(())
}

// The first part that a piece lies over.
fn first_part(piece: &Piece) -> u64
    ensures value { result ≡ first_part piece.now }
    ensures bound { result < 2 ^ 62 }
{
    piece.offset / u64::from(PART)
}

// How many parts it lies over.
fn part_count(piece: &Piece) -> u64
    ensures value { result ≡ part_count piece.now }
    ensures bound { result < 2 ^ 62 }
{
    (piece.offset % u64::from(PART) + u64::from(piece.len)).div_ceil(u64::from(PART))
}

// Puts the end of a write behind those over each part that its piece lies over.
pub(crate) fn put(alloc: Global, parts: &mut Parts, end: &WriteEnd) -> Result<(), Memory>
    ensures { OnOk result ((file part : ℕ) → ends_at parts.new (file, part)
        ≡ ends_at parts.old (file, part) ++ filter (is_over_part file part) (end.now ∷ [])) }
{
    let first = first_part(&end.piece);
    for part in first..first + part_count(&end.piece) {
        put_over(alloc, parts, (end.piece.file, part), end)?;
    }
    Ok(())
}
