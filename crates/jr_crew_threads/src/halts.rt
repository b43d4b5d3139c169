ghost use Rattle.std.specs.Prelude.{◌≡◌};
ghost use Rattle.jr_crew_threads.specs.Halts.{fault_of};

use jr_model::{DeskFault, Memory};
use jr_run_faults::RunFault;
use std::alloc::AllocError;

/// Why a run that had begun was ended before its time.
#[derive(Clone, Copy, PartialEq, Eq)]
pub enum Halt {
    /// A request for memory was refused.
    Memory,
    /// What was done isn't what the desk holds.
    Books,
}

/// What the run answers.
pub fn fault_of(halt: Halt) -> RunFault
    ensures fault { result ≡ fault_of halt }
    ensures engines { result ≡ RunFault.NoEngine → ⊥ }
    ensures thread { result ≡ RunFault.Thread → ⊥ }
{
    match halt {
        Halt::Memory => RunFault::Memory,
        Halt::Books => RunFault::Books,
    }
}

impl From<Memory> for Halt {
    ghost use Rattle.std.specs.Prelude.{◌≡◌};
    ghost use Rattle.jr_crew_threads.specs.declared.halts.Halt.TheVariants as halt;

    ghost from_gives = { λ error made. made ≡ halt.Memory };

    fn from(_error: Memory) -> Halt {
        Halt::Memory
    }
}

impl From<AllocError> for Halt {
    ghost use Rattle.std.specs.Prelude.{◌≡◌};
    ghost use Rattle.jr_crew_threads.specs.declared.halts.Halt.TheVariants as halt;

    ghost from_gives = { λ error made. made ≡ halt.Memory };

    fn from(_error: AllocError) -> Halt {
        Halt::Memory
    }
}

impl From<DeskFault> for Halt {
    ghost use Rattle.std.specs.Prelude.{◌≡◌};
    ghost use Rattle.jr_crew_threads.specs.Halts.{halt_by};

    ghost from_gives = { λ fault made. made ≡ halt_by fault };

    fn from(fault: DeskFault) -> Halt {
        match fault {
            DeskFault::Memory => Halt::Memory,
            _ => Halt::Books,
        }
    }
}

impl From<Halt> for RunFault {
    ghost use Rattle.std.specs.Prelude.{◌≡◌};
    ghost use Rattle.jr_crew_threads.specs.Halts.{fault_of};

    ghost from_gives = { λ halt made. made ≡ fault_of halt };

    fn from(halt: Halt) -> RunFault {
        fault_of(halt)
    }
}
