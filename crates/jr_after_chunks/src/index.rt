ghost use Rattle.std.specs.Prelude.{◌≡◌, ◌++◌, ◌∷◌, [], ◌<◌, ◌^◌, ℕ, IfOk, OnOk, if◌then◌else◌};
ghost use Rattle.jr_after_chunks.specs.Index.{IsIndexOf, is_over_part, part_count, part_of, places_at, same_part};

use jr_after::Named;
use jr_model::{Memory, Piece};
use std::alloc::Global;
use std::collections::HashMap;

/// How many bytes a part of a file has (64 KiB).
const PART: u32 = 65_536;

/// The places of a plan's writes in their list, by the parts of files that they lie over: so few of them are looked at for one chunk.
#[derive(Drop)]
pub struct Index {
    pub(crate) places: HashMap<(u32, u64), Vec<usize>>,
}

/// The index of these writes.
pub fn index_of(alloc: Global, named: &[Named]) -> Result<Index, Memory>
    ensures { IfOk result (λ index. IsIndexOf index named.now) }
{
    let mut index = no_places(alloc);
    for (place, one) in named.iter().enumerate() {
        put(alloc, &mut index, place, &one.planned.piece)?;
    }
    Ok(index)
}

fn no_places(alloc: Global) -> Index
    ensures { (key : ℕ × ℕ) → places_at result key ≡ [] }
{
    Index {
        places: HashMap::new(alloc),
    }
}

// The places of the writes over a part of a file.
pub(crate) fn places_over(index: &Index, file: u32, part: u64) -> &[usize]
    ensures { result.now ≡ places_at index.now (file, part) }
{
    match index.places.get(&(file, part)) {
        Some(places) => places.as_slice(),
        None => &[],
    }
}

// Puts the place of a write behind those over each part that its piece lies over.
fn put(alloc: Global, index: &mut Index, place: usize, piece: &Piece) -> Result<(), Memory>
    ensures { OnOk result ((file part : ℕ) → places_at index.new (file, part)
        ≡ places_at index.old (file, part) ++ (if is_over_part file part piece.now then place ∷ [] else [])) }
{
    let first = part_of(piece.offset);
    for part in first..first + part_count(piece) {
        put_over(alloc, index, (piece.file, part), place)?;
    }
    Ok(())
}

// Puts it behind those over a part.
fn put_over(alloc: Global, index: &mut Index, part: (u32, u64), place: usize) -> Result<(), Memory>
    ensures { OnOk result ((key : ℕ × ℕ) → places_at index.new key
        ≡ places_at index.old key ++ (if same_part key part then place ∷ [] else [])) }
{
    let mut places = match index.places.remove(&part) {
        Some(places) => places,
        None => Vec::new(alloc),
    };
    places.push(place)?;
    index.places.insert(part, places)?;
    Ok(())
}

// The part of its file in which an offset lies.
pub(crate) fn part_of(offset: u64) -> u64
    ensures value { result ≡ part_of offset }
    ensures bound { result < 2 ^ 62 }
{
    offset / u64::from(PART)
}

// How many parts a piece lies over.
fn part_count(piece: &Piece) -> u64
    ensures value { result ≡ part_count piece.now }
    ensures bound { result < 2 ^ 62 }
{
    (piece.offset % u64::from(PART) + u64::from(piece.len)).div_ceil(u64::from(PART))
}
