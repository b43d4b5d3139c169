// How much memory the history of a run may take, and whether so much is left.
ghost use Rattle.std.specs.Prelude.{◌≡◌, ◌*◌, ◌^◌, ◌≤◌};
ghost use Rattle.jr_system.specs.Memory.{bytes_an_io, history_bytes, ios_of, is_short, is_short_of_addresses, is_short_of_pages, is_watched, left_in};

use crate::extents::checked_percent;
use jr_model::MOST_WORK;
use jr_plan::{Plan, SubJob};

// So many bytes are to be left for the report, whatever the program has.
const RESERVE: u64 = 16 * 1024 * 1024;

/// How many bytes the history of a run of the plan with so many workers may take, about: it has no more I/Os than blocks of the least size.
pub fn history_bytes(plan: &Plan, workers: u32) -> u64
    ensures { result ≡ history_bytes plan.now.clones workers }
{
    let mut ios = 0;
    for place in 0..plan.clones() {
        ios += ios_of(plan.clone_at(place));
    }
    ios * bytes_an_io(workers)
}

// How many I/Os a clone has at the most, checks among them.
fn ios_of(clone: &SubJob) -> u64
    requires { clone.now.cells * clone.now.passes ≤ MOST_WORK }
    ensures value { result ≡ ios_of clone.now }
    ensures most { result ≤ 2 ^ 31 }
{
    clone.facts();
    let visits = u64::from(clone.cells()) * u64::from(clone.passes());
    visits + visits * u64::from(checked_percent(clone)) / 100
}

// How many bytes are kept of an I/O, about.
fn bytes_an_io(workers: u32) -> u64
    ensures value { result ≡ bytes_an_io workers }
    ensures most { result ≤ 300 }
{
    if workers > 1 { 300 } else { 210 }
}

/// What the program has of the machine's memory, and what is left for it, in bytes.
#[derive(Clone, Copy, PartialEq, Eq)]
pub struct MemoryState {
    /// How much it has.
    pub used: u64,
    /// How much more it can get.
    pub free: u64,
    /// How many more addresses it may have, if they are limited (`ulimit -v`).
    pub addresses: Option<u64>,
}

impl MemoryState {
    /// Whether a run is to stop, while there is memory for its report.
    pub fn is_short(&self) -> bool
        ensures { result ≡ is_short self.now.used self.now.free self.now.addresses }
    {
        self.is_short_of_pages() || self.is_short_of_addresses()
    }

    fn is_short_of_pages(&self) -> bool
        ensures { result ≡ is_short_of_pages self.now.used self.now.free }
    {
        self.free < (self.used / 4).saturating_add(RESERVE)
    }

    fn is_short_of_addresses(&self) -> bool
        ensures { result ≡ is_short_of_addresses self.now.used self.now.addresses }
    {
        match self.addresses {
            Some(left) => left < RESERVE || left - RESERVE < self.used,
            None => false,
        }
    }

    /// How much more the program can get, in bytes.
    pub fn left(&self) -> u64
        ensures { result ≡ left_in self.now.free self.now.addresses }
    {
        match self.addresses {
            Some(left) => self.free.min(left),
            None => self.free,
        }
    }
}

/// Whether a run is watched whose history may take so many bytes, if so many are left: it is to stop while there is some.
pub fn is_watched(history: u64, left: u64) -> bool
    ensures { result ≡ is_watched history left }
{
    RESERVE < history && left / 2 < history
}
