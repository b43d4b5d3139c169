use jr_model::Memory;
use std::alloc::{AllocError, AllocFailed};
use std::error::Error;
use std::fmt;

/// Why the files of a plan weren't judged.
#[derive(Clone, Copy, Debug, PartialEq, Eq)]
pub enum AfterFailure {
    /// A request for memory was refused.
    Memory,
    /// The engine's count of calls is at its end. No engine that is new meets it.
    Calls,
}

impl fmt::Display for AfterFailure {
    ghost use Rattle.std.specs.Prelude.{Some};
    ghost use Rattle.jr_cli_after.specs.FaultTexts.{failure_text};

    ghost output = { λ failure. Some (failure_text failure) };

    fn fmt<W: fmt::Write>(&self, f: &mut fmt::Formatter<W>) -> fmt::Result {
        match self {
            AfterFailure::Memory => f.write_str("out of memory"),
            AfterFailure::Calls => f.write_str("too many calls of the engine"),
        }
    }
}

impl Error for AfterFailure {}

impl From<Memory> for AfterFailure {
    fn from(_error: Memory) -> AfterFailure {
        AfterFailure::Memory
    }
}

impl From<AllocError> for AfterFailure {
    fn from(_error: AllocError) -> AfterFailure {
        AfterFailure::Memory
    }
}

impl<T: Drop> From<AllocFailed<T>> for AfterFailure {
    fn from(_error: AllocFailed<T>) -> AfterFailure {
        AfterFailure::Memory
    }
}
