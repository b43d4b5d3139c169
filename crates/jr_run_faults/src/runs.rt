use jr_model::{DeskFault, Memory};
use std::alloc::AllocError;
use std::error::Error;
use std::fmt;

/// Why a run gave no desk.
#[derive(Clone, Copy, Debug, PartialEq, Eq)]
pub enum RunFault {
    /// A request for memory was refused.
    Memory,
    /// There is no engine to run with.
    NoEngine,
    /// A verifier couldn't be started. Workers that can't be started are carried out one after another.
    Thread,
    /// What the workers did isn't what the desk holds. No right run meets it, unless an engine's count of calls or the
    /// numbers of workers (below 2^32) are at their end.
    Books,
}

impl fmt::Display for RunFault {
    ghost use Rattle.std.specs.Prelude.{Some};
    ghost use Rattle.jr_run_faults.specs.FaultTexts.{run_fault_text};

    ghost output = { λ fault. Some (run_fault_text fault) };

    fn fmt<W: fmt::Write>(&self, f: &mut fmt::Formatter<W>) -> fmt::Result {
        match self {
            RunFault::Memory => f.write_str("out of memory"),
            RunFault::NoEngine => f.write_str("no engine"),
            RunFault::Thread => f.write_str("cannot start a thread"),
            RunFault::Books => f.write_str("books differ"),
        }
    }
}

impl Error for RunFault {}

impl From<Memory> for RunFault {
    ghost use Rattle.std.specs.Prelude.{◌≡◌};
    ghost use Rattle.jr_run_faults.specs.declared.runs.RunFault.TheVariants as fault;

    ghost from_gives = { λ error made. made ≡ fault.Memory };

    fn from(_error: Memory) -> RunFault {
        RunFault::Memory
    }
}

impl From<DeskFault> for RunFault {
    ghost use Rattle.std.specs.Prelude.{◌≡◌};
    ghost use Rattle.jr_run_faults.specs.Faults.{fault_by};

    ghost from_gives = { λ fault made. made ≡ fault_by fault };

    fn from(fault: DeskFault) -> RunFault {
        match fault {
            DeskFault::Memory => RunFault::Memory,
            _ => RunFault::Books,
        }
    }
}

impl From<AllocError> for RunFault {
    ghost use Rattle.std.specs.Prelude.{◌≡◌};
    ghost use Rattle.jr_run_faults.specs.declared.runs.RunFault.TheVariants as fault;

    ghost from_gives = { λ error made. made ≡ fault.Memory };

    fn from(_error: AllocError) -> RunFault {
        RunFault::Memory
    }
}
