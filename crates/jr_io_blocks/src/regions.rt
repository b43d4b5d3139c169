ghost use Rattle.std.specs.Prelude.{◌≡◌, ℕ, ◌+◌, ◌^◌, ◌<◌, ◌≤◌};
ghost use Rattle.jr_io_blocks.specs.Regions.{IsCut, region_of};

/// The most regions that a file is cut into.
pub const MOST_REGIONS: u64 = 16_384;

// The system keeps whole pages of a file, so that a region is some of them.
const PAGE: u64 = 4096;

/// How a file is cut into regions: so many, of so many bytes each. The last one has all that is behind it too.
#[derive(Clone, Copy, PartialEq, Eq)]
pub struct Regions {
    pub size: u64,
    pub count: usize,
}

impl Regions {
    /// The regions of a file that is used up to `high`.
    pub fn of(high: u64) -> Regions
        ensures { IsCut high result.size result.count }
    {
        let pages = high / (MOST_REGIONS * PAGE) + 1;
        let size = pages * PAGE;
        let count = (high / size) as usize + 1;
        Regions { size, count }
    }

    // The region that a byte is in.
    fn region_of(self, place: u64) -> usize
        requires sized { 0 < self.size }
        requires some { 0 < self.count }
        ensures { result ≡ region_of self.size self.count place }
    {
        ((place / self.size) as usize).min(self.count - 1)
    }

    /// The first region that has some of these bytes, and the one behind the last.
    #[tactic(auto, using(crate::proofs::RegionLemmas::region_mono))]
    pub fn span(self, offset: u64, len: usize) -> (usize, usize)
        requires sized { 0 < self.size }
        requires some { 0 < self.count }
        ensures first { result.0 ≡ region_of self.size self.count offset }
        ensures some { result.0 < result.1 }
        ensures inside { result.1 ≤ self.count }
        ensures covers { offset + len < 2 ^ 64 → (place : ℕ) → offset ≤ place → place < offset + len
            → region_of self.size self.count place < result.1 }
    {
        let last = offset.saturating_add((len as u64).saturating_sub(1));
        (self.region_of(offset), self.region_of(last) + 1)
    }
}
