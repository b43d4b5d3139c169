ghost use Rattle.std.specs.Prelude.{◌≡◌, ◌<◌, ◌≤◌, ◌+◌, ◌↔◌, IsTrue, length, slice_get, Some, MatchOption, nat_le};
ghost use Rattle.jr_io_devices.specs.Extents.{AreClear, AreFirstOverlap, IsClearOf, IsFirstOverlap, Overlap, extent_in, sector_start, within};

use crate::identities::Identity;

// The kernel counts where a partition begins, and how long a device is, in sectors of so many bytes.
const SECTOR: u64 = 512;

/// Some bytes of a disk, or of a plain file.
#[derive(Clone, Copy, PartialEq, Eq)]
pub struct Extent {
    /// What they are bytes of.
    pub what: Identity,
    /// The first of them.
    pub start: u64,
    /// How many they are.
    pub length: u64,
}

/// What a device is a part of.
#[derive(Clone, Copy)]
pub(crate) enum Below {
    /// The disk of a partition, and the first sector of the partition there.
    Disk(Identity, u64),
    /// The file under a loop device, and the first byte of the device there.
    File(Identity, u64),
}

impl Extent {
    /// All bytes of a file that can be lengthened, or whose length isn't known.
    pub(crate) fn whole(what: Identity) -> Extent {
        Extent {
            what,
            start: 0,
            length: u64::MAX,
        }
    }

    /// These bytes, as those of what their device is a part of.
    pub(crate) fn part_of(self, below: Below) -> Extent
        ensures { result ≡ extent_in self below }
    {
        match below {
            Below::Disk(disk, sector) => self.within(disk, sector_start(sector)),
            Below::File(file, offset) => self.within(file, offset),
        }
    }

    // These bytes, as those of the whole in which their device begins at this byte.
    fn within(self, whole: Identity, start: u64) -> Extent
        ensures { result ≡ within self whole start }
    {
        Extent {
            what: whole,
            start: start.saturating_add(self.start),
            length: self.length,
        }
    }

    /// Whether they have a byte in common.
    pub fn overlaps(self, other: Extent) -> bool
        ensures { IsTrue result ↔ Overlap self other }
    {
        self.what == other.what && !self.is_behind(other) && !other.is_behind(self)
    }

    // Whether they begin behind the last of the others, whatever these are bytes of.
    fn is_behind(self, other: Extent) -> bool
        ensures { result ≡ nat_le (other.start + other.length) self.start }
    {
        self.start >= other.start && self.start - other.start >= other.length
    }
}

/// How many bytes so many sectors of the kernel's are, or the largest number that there is.
pub(crate) fn sector_start(sectors: u64) -> u64
    ensures { result ≡ sector_start sectors }
{
    sectors.saturating_mul(SECTOR)
}

/// The first extent that overlaps with an earlier one, with that one before it.
pub fn first_overlap(extents: &[Extent]) -> Option<(usize, usize)>
    ensures { MatchOption result (AreClear extents.now (length extents.now)) (λ (first, second). AreFirstOverlap extents.now first second) }
{
    for second in 0..extents.len() {
        if let Some(first) = overlap_before(extents, second) {
            return Some((first, second));
        }
    }
    None
}

// The first extent that overlaps with the one at this place, of those before it.
#[tactic(auto, using(crate::proofs::OverlapLemmas::clear_of_more, crate::proofs::OverlapLemmas::first_overlap))]
fn overlap_before(extents: &[Extent], place: usize) -> Option<usize>
    requires { place < length extents.now }
    ensures { MatchOption result (IsClearOf extents.now place place) (λ first. IsFirstOverlap extents.now first place) }
{
    let one = extent_at(extents, place);
    for first in 0..place {
        let other = extent_at(extents, first);
        if other.overlaps(one) {
            return Some(first);
        }
    }
    None
}

fn extent_at(extents: &[Extent], place: usize) -> Extent
    requires { place < length extents.now }
    ensures { slice_get extents.now place ≡ Some result }
{
    extents[place]
}
