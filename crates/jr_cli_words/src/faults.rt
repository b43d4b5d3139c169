ghost use Rattle.std.specs.Prelude.{◌≡◌};

use jr_ledger::LedgerFault;
use jr_model::Memory;
use jr_options::JobFault;
use jr_run_faults::{RunFault, TraceFault};
use jr_text::TextFault;
use std::alloc::AllocError;
use std::error::Error;
use std::fmt;

/// Why the program ends without a report, or with a cut one.
#[derive(Clone, Copy, Debug, PartialEq, Eq)]
pub enum CliFault {
    /// A word of the command line isn't text.
    Words,
    Text(TextFault),
    Job(JobFault),
    /// A list of bad blocks is wanted of several files.
    SeveralFiles,
    /// The size of its blocks isn't one that they may have.
    BlockSize,
    /// How long the job is to be run isn't a duration, or more than ten years.
    Duration,
    /// A page is wanted of rounds that go on after a bad one: a page shows one run.
    SeveralRounds,
    /// The traces of all rounds are wanted where the words ask for no rounds, or name no file for a trace.
    KeptTraces,
    /// The list of bad blocks is to have another kind of blocks too than those of faults.
    BlockKind,
    /// A job is to go on after faults and to be run again and again.
    RepeatedGoOn,
    /// A job is to go on after faults whose plan has more than one file.
    GoOnFiles,
    /// The size of jobs that have none is no number of bytes, or is named where no job file is adapted.
    JobSize,
    /// A ledger is wanted of rounds, each of which is a run of its own.
    LedgerRounds,
    /// A ledger is wanted of a job whose engine has no files.
    LedgerEngine,
    /// A ledger is wanted of a job that can't be judged by one.
    LedgerJob,
    /// The words ask for a run, and for a judgement in place of it.
    AfterRun,
    /// The ledger isn't one of the job.
    Ledger(LedgerFault),
    /// Standard input or the job file can't be read.
    Read,
    /// The files of the plan can't be made, made long enough or opened.
    Open,
    /// The job file isn't adapted: what came of it isn't what is promised.
    Unadapted,
    Run(RunFault),
    Trace(TraceFault),
    /// The trace to check can't be read.
    ReadTrace,
    /// The ledger can't be read.
    ReadLedger,
    /// Writing failed; nothing is said of how much went out.
    Write,
    Memory,
}

impl CliFault {
    ghost use Rattle.jr_cli_words.specs.OwnTexts.{IsOwnText};
    ghost use Rattle.jr_cli_words.specs.Status.{status_of_fault};

    /// The exit status of a program that ends with it: 2 if the words or the job file were
    /// refused, 3 for memory, files and threads.
    pub fn status(&self) -> u8
        ensures { result ≡ status_of_fault self.now }
    {
        match self {
            CliFault::Text(TextFault::Memory)
            | CliFault::Job(JobFault::Memory)
            | CliFault::Trace(TraceFault::Memory)
            | CliFault::Ledger(LedgerFault::Memory) => 3,
            CliFault::Words | CliFault::Text(_) | CliFault::Job(_) => 2,
            CliFault::Trace(_) | CliFault::SeveralFiles | CliFault::BlockSize => 2,
            CliFault::Duration | CliFault::SeveralRounds | CliFault::KeptTraces => 2,
            CliFault::BlockKind | CliFault::RepeatedGoOn | CliFault::GoOnFiles => 2,
            CliFault::JobSize | CliFault::LedgerRounds | CliFault::LedgerEngine => 2,
            CliFault::LedgerJob | CliFault::AfterRun | CliFault::Ledger(_) => 2,
            CliFault::Unadapted => 3,
            CliFault::Read | CliFault::ReadTrace | CliFault::Open | CliFault::Run(_) => 3,
            CliFault::ReadLedger | CliFault::Write | CliFault::Memory => 3,
        }
    }

    // The text of one that has no fault of another crate in it.
    fn own_text(&self) -> &'static str
        ensures { IsOwnText self.now result.now }
    {
        match self {
            CliFault::Words => "command line: not UTF-8",
            CliFault::SeveralFiles => "bad blocks of several files",
            CliFault::BlockSize => "command line: bad block size",
            CliFault::Duration => "command line: bad duration",
            CliFault::SeveralRounds => "page of several rounds",
            CliFault::KeptTraces => "command line: --keep-traces without --trace or rounds",
            CliFault::BlockKind => "command line: bad kind of blocks",
            CliFault::RepeatedGoOn => "command line: --go-on with --for or --repeat",
            CliFault::GoOnFiles => "--go-on over several files",
            CliFault::JobSize => "command line: bad size of jobs",
            CliFault::LedgerRounds => "command line: --ledger with --for, --repeat or --go-on",
            CliFault::LedgerEngine => "ledger: the job has no files",
            CliFault::LedgerJob => "ledger: the job cannot be judged",
            CliFault::AfterRun => "command line: --after with words of a run",
            CliFault::Read => "cannot read the job file",
            CliFault::Open => "cannot open the files",
            CliFault::Unadapted => "cannot adapt the job file",
            CliFault::ReadTrace => "cannot read the trace",
            CliFault::ReadLedger => "cannot read the ledger",
            CliFault::Write => "cannot write",
            CliFault::Memory => "out of memory",
            CliFault::Text(_) | CliFault::Job(_) | CliFault::Ledger(_) => "",
            CliFault::Run(_) | CliFault::Trace(_) => "",
        }
    }
}

impl fmt::Display for CliFault {
    ghost use Rattle.std.specs.Prelude.{Some};
    ghost use Rattle.jr_cli_words.specs.FaultTexts.{fault_text};

    ghost output = { λ fault. Some (fault_text fault) };

    fn fmt<W: fmt::Write>(&self, f: &mut fmt::Formatter<W>) -> fmt::Result {
        match self {
            CliFault::Text(fault) => write!(f, "{fault}"),
            CliFault::Job(fault) => write!(f, "{fault}"),
            CliFault::Ledger(fault) => write!(f, "{fault}"),
            CliFault::Run(fault) => write!(f, "{fault}"),
            CliFault::Trace(fault) => write!(f, "{fault}"),
            _ => f.write_str(self.own_text()),
        }
    }
}

impl Error for CliFault {}

impl From<TextFault> for CliFault {
    ghost use Rattle.jr_cli_words.specs.declared.faults.CliFault.TheVariants as fault;

    ghost from_gives = { λ text e. e ≡ fault.Text text };

    fn from(fault: TextFault) -> CliFault {
        CliFault::Text(fault)
    }
}

impl From<JobFault> for CliFault {
    ghost use Rattle.jr_cli_words.specs.declared.faults.CliFault.TheVariants as fault;

    ghost from_gives = { λ job e. e ≡ fault.Job job };

    fn from(fault: JobFault) -> CliFault {
        CliFault::Job(fault)
    }
}

impl From<RunFault> for CliFault {
    ghost use Rattle.jr_cli_words.specs.declared.faults.CliFault.TheVariants as fault;

    ghost from_gives = { λ run e. e ≡ fault.Run run };

    fn from(fault: RunFault) -> CliFault {
        CliFault::Run(fault)
    }
}

impl From<TraceFault> for CliFault {
    ghost use Rattle.jr_cli_words.specs.declared.faults.CliFault.TheVariants as fault;

    ghost from_gives = { λ trace e. e ≡ fault.Trace trace };

    fn from(fault: TraceFault) -> CliFault {
        CliFault::Trace(fault)
    }
}

impl From<LedgerFault> for CliFault {
    ghost use Rattle.jr_cli_words.specs.declared.faults.CliFault.TheVariants as fault;

    ghost from_gives = { λ ledger e. e ≡ fault.Ledger ledger };

    fn from(fault: LedgerFault) -> CliFault {
        CliFault::Ledger(fault)
    }
}

impl From<Memory> for CliFault {
    ghost use Rattle.jr_cli_words.specs.declared.faults.CliFault.TheVariants as fault;

    ghost from_gives = { λ _ e. e ≡ fault.Memory };

    fn from(_error: Memory) -> CliFault {
        CliFault::Memory
    }
}

impl From<AllocError> for CliFault {
    ghost use Rattle.jr_cli_words.specs.declared.faults.CliFault.TheVariants as fault;

    ghost from_gives = { λ _ e. e ≡ fault.Memory };

    fn from(_error: AllocError) -> CliFault {
        CliFault::Memory
    }
}
