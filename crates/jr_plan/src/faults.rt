ghost use Rattle.std.specs.Prelude.{◌≡◌};
ghost use Rattle.jr_plan.specs.declared.faults.PlanFault.TheVariants.{Memory as OutOfMemory};

use std::alloc::{AllocError, AllocFailed};
use std::error::Error;
use std::fmt;

/// What a run may not have more of.
#[derive(Clone, Copy, Debug, PartialEq, Eq)]
pub enum Bound {
    /// 64 clones.
    Clones,
    /// An end of a region at 2^50.
    Region,
    /// 2^24 cells of a clone.
    Cells,
    /// 2^30 cells over all clones and their passes.
    Work,
}

/// Why a plan doesn't take a clone.
#[derive(Clone, Copy, Debug, PartialEq, Eq)]
pub enum PlanFault {
    /// A start or a cell that isn't whole blocks of 512 bytes, a cell past the largest block, no cells, or a
    /// size that isn't a multiple of the cell, up to the largest block.
    Block,
    /// A percentage above 100, a depth outside 1 to 256, or passes outside 1 to 1000.
    Number,
    /// Verification by a pattern without one.
    NoPattern,
    Limit(Bound),
    Memory,
}

impl fmt::Display for Bound {
    ghost use Rattle.std.specs.Prelude.{Some};
    ghost use Rattle.jr_plan.specs.FaultTexts.{bound_text};

    ghost output = { λ bound. Some (bound_text bound) };

    fn fmt<W: fmt::Write>(&self, f: &mut fmt::Formatter<W>) -> fmt::Result {
        match self {
            Bound::Clones => f.write_str("clones"),
            Bound::Region => f.write_str("region"),
            Bound::Cells => f.write_str("cells"),
            Bound::Work => f.write_str("work"),
        }
    }
}

impl fmt::Display for PlanFault {
    ghost use Rattle.std.specs.Prelude.{Some};
    ghost use Rattle.jr_plan.specs.FaultTexts.{plan_fault_text};

    ghost output = { λ fault. Some (plan_fault_text fault) };

    fn fmt<W: fmt::Write>(&self, f: &mut fmt::Formatter<W>) -> fmt::Result {
        match self {
            PlanFault::Block => f.write_str("bad block size or place"),
            PlanFault::Number => f.write_str("number out of range"),
            PlanFault::NoPattern => f.write_str("no pattern"),
            PlanFault::Limit(bound) => write!(f, "limit of {bound}"),
            PlanFault::Memory => f.write_str("out of memory"),
        }
    }
}

impl Error for PlanFault {}

impl From<AllocError> for PlanFault {
    ghost from_gives = { λ _ fault. fault ≡ OutOfMemory };

    fn from(_error: AllocError) -> PlanFault {
        PlanFault::Memory
    }
}

impl<T: Drop> From<AllocFailed<T>> for PlanFault {
    ghost from_gives = { λ _ fault. fault ≡ OutOfMemory };

    fn from(_error: AllocFailed<T>) -> PlanFault {
        PlanFault::Memory
    }
}
