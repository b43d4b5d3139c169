ghost use Rattle.std.specs.Prelude.{◌≡◌};
ghost use Rattle.jr_model.specs.declared.steps.DeskFault.TheVariants.{Memory as OutOfMemory};

use crate::events::IoId;
use crate::memory::Memory;
use crate::replies::Reply;
use std::error::Error;
use std::fmt;

/// Why the desk refuses a call. A refused call changes nothing.
#[derive(Clone, Copy, Debug, PartialEq, Eq)]
pub enum DeskFault {
    /// A request for memory was refused.
    Memory,
    /// No I/O of this number was started, or its ticket is another one.
    Stranger,
    /// The I/O has ended already, or the check has its verdict already.
    Twice,
    /// A verdict on what is no check that ended whole.
    WrongKind,
    /// The desk was stopped.
    Stopped,
}

impl fmt::Display for DeskFault {
    ghost use Rattle.std.specs.Prelude.{Some};
    ghost use Rattle.jr_model.specs.FaultTexts.{desk_fault_text};

    ghost output = { λ fault. Some (desk_fault_text fault) };

    fn fmt<W: fmt::Write>(&self, f: &mut fmt::Formatter<W>) -> fmt::Result {
        match self {
            DeskFault::Memory => f.write_str("out of memory"),
            DeskFault::Stranger => f.write_str("not started here"),
            DeskFault::Twice => f.write_str("a second time"),
            DeskFault::WrongKind => f.write_str("not a check to judge"),
            DeskFault::Stopped => f.write_str("stopped"),
        }
    }
}

impl Error for DeskFault {}

impl From<Memory> for DeskFault {
    ghost from_gives = { λ _ fault. fault ≡ OutOfMemory };

    fn from(_error: Memory) -> DeskFault {
        DeskFault::Memory
    }
}

/// One call on the desk, in a list of them.
#[derive(Drop)]
pub enum Step {
    /// This worker asks for work.
    Take(u32),
    /// This I/O is carried out with this reply of the engine, and ends.
    End(IoId, Reply),
    /// This verifier judges this check.
    Judge(u32, IoId),
    Stop,
}

/// What a step is answered.
#[derive(Clone, Copy, Debug, PartialEq, Eq)]
pub enum StepReply {
    /// A read or write of this number was handed out.
    Io(IoId),
    /// A check of this number was handed out.
    Probe(IoId),
    /// Nothing may be started until something ends.
    Wait,
    /// The run is complete, or the desk was stopped.
    Finished,
    Ended,
    Judged,
    Stopped,
    Refused(DeskFault),
}
