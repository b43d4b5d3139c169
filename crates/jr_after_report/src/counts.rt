ghost use Rattle.std.specs.Prelude.{◌≡◌, ◌+◌, ◌<◌, ◌^◌, [], not, ◌==◌, ◌&&◌};
ghost use Rattle.jr_after_report.specs.Counting.{counted, counts_of, total_of};

use jr_after::Finding;

/// How many chunks of a file there are of each finding.
#[derive(Clone, Copy, Debug, PartialEq, Eq)]
pub struct Counts {
    pub kept: u64,
    pub lost: u64,
    pub broken: u64,
    pub torn: u64,
    /// Those that are open.
    pub unpromised: u64,
}

impl Counts {
    /// Of no chunks.
    pub fn none() -> Counts
        ensures { result ≡ counts_of [] }
    {
        Counts {
            kept: 0,
            lost: 0,
            broken: 0,
            torn: 0,
            unpromised: 0,
        }
    }

    /// Counts one chunk more.
    pub fn add(&mut self, finding: &Finding)
        requires { total_of self.old + 1 < 2 ^ 64 }
        ensures value { self.new ≡ counted self.old finding.now }
        ensures total { total_of self.new ≡ total_of self.old + 1 }
    {
        match finding {
            Finding::Open => self.unpromised += 1,
            Finding::Kept => self.kept += 1,
            Finding::Lost(_, _) => self.lost += 1,
            Finding::Torn(_) => self.torn += 1,
            Finding::Broken(_) => self.broken += 1,
        }
    }

    /// Whether a chunk of these isn't as the storage promised.
    pub fn have_fault(&self) -> bool
        ensures { result ≡ not ((self.now.lost == 0) && (self.now.broken == 0)) }
    {
        self.lost > 0 || self.broken > 0
    }
}
