// What the jobs of a plan say of the I/O to its files.
ghost use Rattle.std.specs.Prelude.{◌≡◌};
ghost use Rattle.std.specs.List.{list_any};
ghost use Rattle.jr_plan.specs.Wishes.{says, wish_by, wish_of};

use crate::clones::SubJob;

/// What the jobs that work on a file say of its I/O.
#[derive(Clone, Copy, PartialEq, Eq)]
pub enum Wish {
    /// No job says direct=1: it goes through the system's cache.
    Cached,
    /// Each says direct=1: it goes past the cache.
    Direct,
    /// Some do.
    Mixed,
}

// What these clones say of the file of this number.
pub(crate) fn wish_of(clones: &[SubJob], file: usize) -> Wish
    ensures { result ≡ wish_of clones.now file }
{
    wish_by(one_says(clones, file, true), one_says(clones, file, false))
}

fn wish_by(some: bool, others: bool) -> Wish
    ensures { result ≡ wish_by some others }
{
    match (some, others) {
        (true, true) => Wish::Mixed,
        (true, false) => Wish::Direct,
        (false, _) => Wish::Cached,
    }
}

// Whether a clone that works on the file says direct=1, or if 0 is wanted direct=0 or nothing.
fn one_says(clones: &[SubJob], file: usize, wanted: bool) -> bool
    ensures { result ≡ list_any (says wanted file) clones.now }
{
    clones.iter().any(|job| says(job, file, wanted))
}

fn says(job: &SubJob, file: usize, wanted: bool) -> bool
    ensures { result ≡ says wanted file job.now }
{
    job.file() as usize == file && job.direct() == wanted
}
