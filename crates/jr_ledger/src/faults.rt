ghost use Rattle.std.specs.Prelude.{◌≡◌};

use jr_model::Memory;
use std::alloc::{AllocError, AllocFailed};
use std::error::Error;
use std::fmt;

/// Why a text isn't a ledger of this job. A line is named by its number, from 1.
#[derive(Clone, Copy, Debug, PartialEq, Eq)]
pub enum LedgerFault {
    /// The line isn't one of a ledger.
    Line(u64),
    /// It is the ledger of another job: of another plan, or of one with other seeds.
    OtherJob,
    /// A request for memory was refused, which says nothing of the text.
    Memory,
}

impl fmt::Display for LedgerFault {
    ghost use Rattle.std.specs.Prelude.{Some};
    ghost use Rattle.jr_ledger.specs.FaultTexts.{ledger_fault_text};

    ghost output = { λ fault. Some (ledger_fault_text fault) };

    fn fmt<W: fmt::Write>(&self, f: &mut fmt::Formatter<W>) -> fmt::Result {
        match self {
            LedgerFault::Line(line) => write!(f, "ledger: line {line}: not a ledger line"),
            LedgerFault::OtherJob => f.write_str("ledger: of another job"),
            LedgerFault::Memory => f.write_str("out of memory"),
        }
    }
}

impl Error for LedgerFault {}

impl From<Memory> for LedgerFault {
    ghost use Rattle.jr_ledger.specs.declared.faults.LedgerFault.TheVariants.{Memory as OutOfMemory};

    ghost from_gives = { λ _ fault. fault ≡ OutOfMemory };

    fn from(_error: Memory) -> LedgerFault {
        LedgerFault::Memory
    }
}

impl From<AllocError> for LedgerFault {
    ghost use Rattle.jr_ledger.specs.declared.faults.LedgerFault.TheVariants.{Memory as OutOfMemory};

    ghost from_gives = { λ _ fault. fault ≡ OutOfMemory };

    fn from(_error: AllocError) -> LedgerFault {
        LedgerFault::Memory
    }
}

impl<T: Drop> From<AllocFailed<T>> for LedgerFault {
    ghost use Rattle.jr_ledger.specs.declared.faults.LedgerFault.TheVariants.{Memory as OutOfMemory};

    ghost from_gives = { λ _ fault. fault ≡ OutOfMemory };

    fn from(_error: AllocFailed<T>) -> LedgerFault {
        LedgerFault::Memory
    }
}
