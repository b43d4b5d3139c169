ghost use Rattle.std.specs.Prelude.{◌≡◌};
ghost use Rattle.jr_job_options.specs.declared.faults.JobFault.TheVariants.{Memory as OutOfMemory};

use jr_plan::Bound;
use std::alloc::{AllocError, AllocFailed};
use std::error::Error;
use std::fmt;

/// Why sections make no plan. A number is that of a line, from 1: of the option at fault, or of the
/// line that opens the job's section.
#[derive(Clone, Copy, Debug, PartialEq, Eq)]
pub enum JobFault {
    /// There is no section but `global`.
    NoJob,
    /// There is no job of the name that was asked for.
    NoSection,
    /// A key that isn't known.
    Unknown(u32),
    BadValue(u32),
    /// A job without `size`.
    MissingSize(u32),
    /// A block size, an offset or a size that no blocks of 512 bytes fit.
    BadBlock(u32),
    /// A bad `bssplit`.
    BadSplit(u32),
    /// `verify=pattern` without `verify_pattern`.
    NoPattern(u32),
    /// Planned jobs of several kinds of engine.
    MixedEngines,
    /// A file name with a colon, which lists several files.
    SeveralFiles(u32),
    Limit(Bound),
    Memory,
}

impl fmt::Display for JobFault {
    ghost use Rattle.std.specs.Prelude.{Some};
    ghost use Rattle.jr_job_options.specs.FaultTexts.{job_fault_text};

    ghost output = { λ fault. Some (job_fault_text fault) };

    fn fmt<W: fmt::Write>(&self, f: &mut fmt::Formatter<W>) -> fmt::Result {
        write!(f, "{}", self.wording())
    }
}

// What a fault prints: a text alone, what is wrong at a line or in the job that it opens, or which limit was met.
#[derive(Clone, Copy)]
enum Wording {
    Alone(&'static str),
    Limit(Bound),
    Line(u32, &'static str),
    Job(u32, &'static str),
}

impl fmt::Display for Wording {
    ghost use Rattle.std.specs.Prelude.{Some};
    ghost use Rattle.jr_job_options.specs.Wordings.{wording_text};

    ghost output = { λ wording. Some (wording_text wording) };

    fn fmt<W: fmt::Write>(&self, f: &mut fmt::Formatter<W>) -> fmt::Result {
        match self {
            Wording::Alone(text) => write!(f, "{text}"),
            Wording::Limit(bound) => write!(f, "job file: limit of {bound}"),
            Wording::Line(line, what) => write!(f, "job file: line {line}: {what}"),
            Wording::Job(line, what) => write!(f, "job at line {line}: {what}"),
        }
    }
}

impl JobFault {
    ghost use Rattle.jr_job_options.specs.FaultTexts.{job_fault_text};
    ghost use Rattle.jr_job_options.specs.Wordings.{wording_text};

    fn wording(&self) -> Wording
        ensures { wording_text result ≡ job_fault_text self.now }
    {
        match self {
            JobFault::NoJob => Wording::Alone("job file: no job"),
            JobFault::NoSection => Wording::Alone("job file: no such section"),
            JobFault::Unknown(line) => Wording::Line(*line, "option out of scope"),
            JobFault::BadValue(line) => Wording::Line(*line, "bad value"),
            JobFault::MissingSize(line) => Wording::Job(*line, "no size"),
            JobFault::BadBlock(line) => Wording::Job(*line, "bad block size or place"),
            JobFault::BadSplit(line) => Wording::Line(*line, "bad split"),
            JobFault::NoPattern(line) => Wording::Job(*line, "no verify_pattern"),
            JobFault::MixedEngines => Wording::Alone("job file: several engine kinds"),
            JobFault::SeveralFiles(line) => Wording::Line(*line, "several files"),
            JobFault::Limit(bound) => Wording::Limit(*bound),
            JobFault::Memory => Wording::Alone("out of memory"),
        }
    }
}

impl Error for JobFault {}

impl From<AllocError> for JobFault {
    ghost from_gives = { λ _ fault. fault ≡ OutOfMemory };

    fn from(_error: AllocError) -> JobFault {
        JobFault::Memory
    }
}

impl<T: Drop> From<AllocFailed<T>> for JobFault {
    ghost from_gives = { λ _ fault. fault ≡ OutOfMemory };

    fn from(_error: AllocFailed<T>) -> JobFault {
        JobFault::Memory
    }
}
