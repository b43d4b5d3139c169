ghost use Rattle.std.specs.Prelude.{◌≡◌};

use jr_model::Memory;
use std::alloc::{AllocError, AllocFailed};
use std::error::Error;
use std::fmt;

/// Why a text isn't the trace of a whole legal run. A line is named by its number, from 1.
#[derive(Clone, Copy, Debug, PartialEq, Eq)]
pub enum TraceFault {
    /// The line isn't one of a trace.
    Line(u64),
    /// What the line says may not happen after the lines before it.
    Illegal(u64),
    /// All lines are legal, but the run goes on.
    Unfinished,
    /// A request for memory was refused, which says nothing of the text.
    Memory,
}

impl fmt::Display for TraceFault {
    ghost use Rattle.std.specs.Prelude.{Some};
    ghost use Rattle.jr_run_faults.specs.FaultTexts.{trace_fault_text};

    ghost output = { λ fault. Some (trace_fault_text fault) };

    fn fmt<W: fmt::Write>(&self, f: &mut fmt::Formatter<W>) -> fmt::Result {
        match self {
            TraceFault::Line(line) => write!(f, "trace: line {line}: not a trace line"),
            TraceFault::Illegal(line) => write!(f, "trace: line {line}: not legal here"),
            TraceFault::Unfinished => f.write_str("trace: not complete"),
            TraceFault::Memory => f.write_str("out of memory"),
        }
    }
}

impl Error for TraceFault {}

impl From<Memory> for TraceFault {
    ghost use Rattle.jr_run_faults.specs.declared.traces.TraceFault.TheVariants.{Memory as OutOfMemory};

    ghost from_gives = { λ _ fault. fault ≡ OutOfMemory };

    fn from(_error: Memory) -> TraceFault {
        TraceFault::Memory
    }
}

impl From<AllocError> for TraceFault {
    ghost use Rattle.jr_run_faults.specs.declared.traces.TraceFault.TheVariants.{Memory as OutOfMemory};

    ghost from_gives = { λ _ fault. fault ≡ OutOfMemory };

    fn from(_error: AllocError) -> TraceFault {
        TraceFault::Memory
    }
}

impl<T: Drop> From<AllocFailed<T>> for TraceFault {
    ghost use Rattle.jr_run_faults.specs.declared.traces.TraceFault.TheVariants.{Memory as OutOfMemory};

    ghost from_gives = { λ _ fault. fault ≡ OutOfMemory };

    fn from(_error: AllocFailed<T>) -> TraceFault {
        TraceFault::Memory
    }
}
