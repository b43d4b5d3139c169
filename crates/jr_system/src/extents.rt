// How many bytes a run reads, writes and has judged.
ghost use Rattle.std.specs.Prelude.{◌≡◌, ◌*◌, ◌-◌, ◌^◌, ◌≤◌};
ghost use Rattle.jr_system.specs.Extents.{bytes_of, checked_percent, checked_percent_by_type};

use jr_model::{IoType, MOST_WORK};
use jr_plan::{Plan, SubJob};
use std::marker::Model;

/// How many bytes a plan's jobs read and write, and have judged: those that are read back, and those of checked reads. Some checks may be
/// skipped, as overwritten.
#[derive(Clone, Copy)]
pub struct PlanBytes {
    bytes: u64,
}

impl Model for PlanBytes {
    ghost use Rattle.std.specs.Prelude.{ℕ};

    ghost Value = { ℕ };

    ghost view = { λ extent. extent.bytes };

    ghost inverse = { λ n. record { bytes = n } };
}

impl PlanBytes {
    ghost use Rattle.jr_system.specs.Extents.{extent_of};

    pub fn of(plan: &Plan) -> PlanBytes
        ensures { result ≡ extent_of plan.now.clones }
    {
        let mut bytes = 0;
        for place in 0..plan.clones() {
            bytes += bytes_of(plan.clone_at(place));
        }
        PlanBytes { bytes }
    }

    /// How many thousandths of them so many are.
    pub(crate) fn per_mille(self, bytes: u64) -> u64
        ensures { result ≤ 1000 }
    {
        (bytes.saturating_mul(1000) / self.bytes.max(1)).min(1000)
    }

    /// How many are left once so many are done.
    pub(crate) fn left(self, done: u64) -> u64
        ensures { result ≡ self - done }
    {
        self.bytes.saturating_sub(done)
    }
}

// What a clone reads and writes, and has judged.
fn bytes_of(clone: &SubJob) -> u64
    requires { clone.now.cells * clone.now.passes ≤ MOST_WORK }
    ensures value { result ≡ bytes_of clone.now }
    ensures most { result ≤ 2 ^ 55 }
{
    clone.facts();
    let visits = u64::from(clone.cells()) * u64::from(clone.passes());
    let own = visits * u64::from(clone.cell());
    own + own * u64::from(checked_percent(clone)) / 100
}

// How many hundredths of what a clone reads and writes are judged.
pub(crate) fn checked_percent(clone: &SubJob) -> u8
    ensures value { result ≡ checked_percent clone.now }
    ensures most { result ≤ 100 }
{
    clone.facts();
    if clone.verifies() {
        checked_percent_by_type(clone.io_type(), clone.read_percent())
    } else {
        0
    }
}

// How many hundredths of what a verified job of this type moves are judged: what it writes, or all that it reads if it only reads.
fn checked_percent_by_type(io_type: IoType, reads: u8) -> u8
    requires { reads ≤ 100 }
    ensures value { result ≡ checked_percent_by_type io_type reads }
    ensures most { result ≤ 100 }
{
    match io_type {
        IoType::Read | IoType::RandRead | IoType::Write | IoType::RandWrite => 100,
        IoType::ReadWrite | IoType::RandRw => 100 - reads,
    }
}
