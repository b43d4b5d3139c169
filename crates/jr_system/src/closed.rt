ghost use Rattle.std.specs.Prelude.{◌≡◌, None, vec_len};

use crate::stops::Stop;
use jr_diagnosis::Diagnosed;
use std::alloc::Global;

/// What the system said of the files of a run that has ended, and what stood in its bad blocks.
#[derive(Drop)]
pub struct Closed {
    /// Why it refused each of the run's first faults, where that is known.
    pub reasons: Vec<Option<String>>,
    /// How many reads of files that are checked its cache may have answered, where the run was over files.
    pub cached: Option<u64>,
    /// Where a job wants a file's I/O past that cache: whether that was had for each such file.
    pub direct: Option<bool>,
    /// Why the run's last sync failed, where it did: not all that the run wrote is stored.
    pub unstored: Option<Stop>,
    /// What stood in its first bad blocks.
    pub found: Vec<Diagnosed>,
}

impl Closed {
    /// Nothing: the run was over no files.
    pub fn of_no_files(alloc: Global) -> Closed
        ensures reasons { vec_len result.reasons ≡ 0 }
        ensures cached { result.cached ≡ None }
        ensures direct { result.direct ≡ None }
        ensures unstored { result.unstored ≡ None }
    {
        Closed {
            reasons: Vec::new(alloc),
            cached: None,
            direct: None,
            unstored: None,
            found: Vec::new(alloc),
        }
    }
}
