ghost use Rattle.std.specs.Prelude.{◌≡◌, IfOk};
ghost use Rattle.jr_model.specs.Plan.{checks_reads, issued_as};
ghost use Rattle.jr_model.specs.PlanFacts.{KeepsLimits};
ghost use Rattle.jr_model.specs.Rounds.{has_rounds};
ghost use Rattle.jr_plan.specs.Seeds.{moved_seed};

use crate::splits::Split;
use crate::workloads::Workload;
use jr_model::{Dir, IoType, IssueKind, Method};
use std::alloc::{AllocError, Global};
use std::marker::Model;

/// One planned clone: one of the `numjobs` threads of a job.
#[derive(Drop)]
pub struct SubJob {
    pub(crate) job: String,
    pub(crate) clone: u32,
    pub(crate) file: u32,
    pub(crate) start: u64,
    pub(crate) workload: Workload,
}

impl Model for SubJob {
    ghost use Rattle.std.specs.Prelude.{string_bytes};
    ghost use Rattle.jr_model.specs.Plan.{SubJob as JobRecord};
    ghost use Rattle.jr_plan.specs.Clones.{planned_clone};
    ghost use Rattle.jr_model.specs.PlanFacts.{KeepsLimits};

    ghost Value = { JobRecord };

    ghost view = { λ a. planned_clone a.workload (string_bytes a.job) a.clone a.file a.start };

    ghost invariant = { λ a. KeepsLimits (planned_clone a.workload (string_bytes a.job) a.clone a.file a.start) };
}

impl SubJob {
    /// Nothing: its contract says what holds of every planned clone.
    pub fn facts(&self)
        ensures { KeepsLimits self.now }
    {
        let _ = &self.clone;
    }

    /// The name of its job.
    pub fn job(&self) -> &str
        ensures { result.now ≡ self.now.job }
    {
        self.job.as_str()
    }

    /// Its number over the run, from 0.
    pub fn clone_number(&self) -> u32
        ensures { result ≡ self.now.clone }
    {
        self.clone
    }

    /// Its phase: it waits for all clones of earlier phases.
    pub fn phase(&self) -> u32
        ensures { result ≡ self.now.phase }
    {
        self.workload.phase
    }

    /// Its file, by its place in the plan's list.
    pub fn file(&self) -> u32
        ensures { result ≡ self.now.file }
    {
        self.file
    }

    /// Where its region begins, in bytes.
    pub fn start(&self) -> u64
        ensures { result ≡ self.now.start }
    {
        self.start
    }

    /// The least of its block sizes, in bytes.
    pub fn cell(&self) -> u32
        ensures { result ≡ self.now.cell }
    {
        self.workload.cell
    }

    /// How many cells its region has.
    pub fn cells(&self) -> u32
        ensures { result ≡ self.now.cells }
    {
        self.workload.cells
    }

    /// What it reads and writes, and in which order.
    pub fn io_type(&self) -> IoType
        ensures { result ≡ self.now.io_type }
    {
        self.workload.io_type
    }

    /// The percentage of reads, if the type mixes both.
    pub fn read_percent(&self) -> u8
        ensures { result ≡ self.now.read_percent }
    {
        self.workload.read_percent
    }

    /// The sizes of its reads.
    pub fn read_split(&self) -> &Split
        ensures { result.now ≡ self.now.read_split }
    {
        &self.workload.reads
    }

    /// The sizes of its writes.
    pub fn write_split(&self) -> &Split
        ensures { result.now ≡ self.now.write_split }
    {
        &self.workload.writes
    }

    /// Whether a random pass visits each cell once.
    pub fn has_map(&self) -> bool
        ensures { result ≡ self.now.has_map }
    {
        self.workload.has_map
    }

    /// What its generator is seeded from.
    pub fn seed(&self) -> u64
        ensures { result ≡ self.now.seed }
    {
        self.workload.seed
    }

    /// How many of its I/Os may be in flight.
    pub fn depth(&self) -> u32
        ensures { result ≡ self.now.depth }
    {
        self.workload.depth
    }

    /// How often it goes over its region.
    pub fn passes(&self) -> u32
        ensures { result ≡ self.now.passes }
    {
        self.workload.passes
    }

    /// What its writes contain, and how they are checked.
    pub fn method(&self) -> Method
        ensures { result ≡ self.now.method }
    {
        self.workload.method
    }

    /// Whether its writes are read back, or if it writes nothing its reads are checked (`do_verify`).
    pub fn checks_writes(&self) -> bool
        ensures { result ≡ self.now.checks_writes }
    {
        self.workload.checks_writes
    }

    /// Whether its blocks are verified: what it writes is read back, or if it writes nothing its reads are checked.
    pub fn verifies(&self) -> bool
        ensures { result ≡ has_rounds self.now }
    {
        self.method().kind.is_verified() && self.checks_writes()
    }

    /// Whether it checks what it reads: it writes nothing, and its blocks are verified.
    pub fn checks_reads(&self) -> bool
        ensures { result ≡ checks_reads self.now }
    {
        self.verifies() && !self.io_type().has_writes()
    }

    /// What a draw of this direction is issued as.
    pub fn issued_as(&self, dir: Dir) -> IssueKind
        ensures { result ≡ issued_as self.now dir }
    {
        match dir {
            Dir::Write => IssueKind::Write,
            Dir::Read if self.checks_reads() => IssueKind::ReadCheck,
            Dir::Read => IssueKind::Read,
        }
    }

    /// After how many writes they are checked; 0 is after all of a pass.
    pub fn backlog(&self) -> u32
        ensures { result ≡ self.now.backlog }
    {
        self.workload.backlog
    }

    /// Whether a bad verdict halts it.
    pub fn is_fatal(&self) -> bool
        ensures { result ≡ self.now.is_fatal }
    {
        self.workload.is_fatal
    }

    /// Whether its I/Os wait for none that they overlap, nor others for them (`serialize_overlap=0`).
    pub fn declines(&self) -> bool
        ensures { result ≡ self.now.declines }
    {
        self.workload.declines
    }

    /// Whether its I/O is to go past the system's cache (`direct`).
    pub fn direct(&self) -> bool
        ensures { result ≡ self.now.direct }
    {
        self.workload.direct
    }

    // This clone with a seed that is so much further on.
    pub(crate) fn reseeded(&self, alloc: Global, by: u64) -> Result<SubJob, AllocError>
        ensures { IfOk result (λ job. job ≡ moved_seed by self.now) }
    {
        let mut workload = self.workload;
        workload.seed = workload.seed.wrapping_add(by);
        Ok(SubJob {
            job: String::from_str(alloc, self.job.as_str())?,
            clone: self.clone,
            file: self.file,
            start: self.start,
            workload,
        })
    }
}
