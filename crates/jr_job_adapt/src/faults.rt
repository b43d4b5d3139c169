ghost use Rattle.std.specs.Prelude.{◌≡◌};

use jr_text::TextFault;
use std::alloc::AllocError;
use std::error::Error;
use std::fmt;

/// Why a job text wasn't adapted. All but the first and the last are mistakes of this library, which it finds before it answers.
#[derive(Clone, Copy, Debug, PartialEq, Eq)]
pub enum AdaptFault {
    /// The text is no job file.
    Text(TextFault),
    /// The adapted text is no job file.
    Unread,
    /// A line of the text isn't in the adapted one.
    Lost,
    /// A section of the text isn't in the adapted one, or verifies less there.
    Unfollowed,
    /// A job is left out that is taken as it is.
    Uncaused,
    /// A line of the adapted text is refused.
    Refused,
    Memory,
}

impl fmt::Display for AdaptFault {
    ghost use Rattle.std.specs.Prelude.{Some};
    ghost use Rattle.jr_job_adapt.specs.FaultTexts.{adapt_fault_text};

    ghost output = { λ fault. Some (adapt_fault_text fault) };

    fn fmt<W: fmt::Write>(&self, f: &mut fmt::Formatter<W>) -> fmt::Result {
        match self {
            AdaptFault::Text(fault) => write!(f, "{fault}"),
            AdaptFault::Unread => f.write_str("cannot adapt: no job file came out"),
            AdaptFault::Lost => f.write_str("cannot adapt: a line was lost"),
            AdaptFault::Unfollowed => f.write_str("cannot adapt: a section was changed"),
            AdaptFault::Uncaused => f.write_str("cannot adapt: a job was left out"),
            AdaptFault::Refused => f.write_str("cannot adapt: a line is still refused"),
            AdaptFault::Memory => f.write_str("out of memory"),
        }
    }
}

impl Error for AdaptFault {}

impl From<AllocError> for AdaptFault {
    ghost use Rattle.jr_job_adapt.specs.declared.faults.AdaptFault.TheVariants.{Memory};

    ghost from_gives = { λ _ fault. fault ≡ Memory };

    fn from(_error: AllocError) -> AdaptFault {
        AdaptFault::Memory
    }
}
