use std::alloc::{AllocError, AllocFailed};
use thiserror::Error;

/// Why the files of a plan couldn't be made or opened.
#[derive(Clone, Copy, Debug, PartialEq, Eq, Error)]
pub enum FileFault {
    /// The system refused the file at this place of the plan's list.
    #[error("cannot open the files")]
    File(usize),
    /// A request for memory was refused.
    #[error("out of memory")]
    Memory,
}

impl<T: Drop> From<AllocFailed<T>> for FileFault {
    ghost use Rattle.std.specs.Prelude.{◌≡◌};
    ghost use Rattle.jr_io_files.specs.declared.faults.FileFault.TheVariants as fault;

    ghost from_gives = { λ error made. made ≡ fault.Memory };

    fn from(_error: AllocFailed<T>) -> FileFault {
        FileFault::Memory
    }
}

impl From<AllocError> for FileFault {
    ghost use Rattle.std.specs.Prelude.{◌≡◌};
    ghost use Rattle.jr_io_files.specs.declared.faults.FileFault.TheVariants as fault;

    ghost from_gives = { λ error made. made ≡ fault.Memory };

    fn from(_error: AllocError) -> FileFault {
        FileFault::Memory
    }
}
