ghost use Rattle.std.specs.Prelude.{◌≡◌};
ghost use Rattle.jr_model.specs.Tickets.{has_pattern};
ghost use Rattle.jr_plan.specs.Workloads.{is_cut, numbers_fit, plain_workload, workload_fault};

use crate::faults::PlanFault;
use crate::splits::Split;
use jr_model::{IoType, LARGEST_BLOCK, MOST_DEPTH, MOST_PASSES, Method, SECTOR, VerifyKind};

/// What a clone does, and when; where it does so is its start and its file.
#[derive(Clone, Copy, PartialEq, Eq)]
pub struct Workload {
    /// It waits for all clones of earlier phases.
    pub phase: u32,
    /// The unit of its region in bytes: in a plan of a job file the least of its block sizes.
    pub cell: u32,
    /// How many cells its region has.
    pub cells: u32,
    pub io_type: IoType,
    /// The percentage of reads, if the type mixes both.
    pub read_percent: u8,
    /// The sizes of its reads.
    pub reads: Split,
    /// The sizes of its writes.
    pub writes: Split,
    /// Whether a random pass visits each cell once.
    pub has_map: bool,
    /// What its generator is seeded from.
    pub seed: u64,
    /// How many of its I/Os may be in flight, 1 to 256.
    pub depth: u32,
    /// How often it goes over its region, 1 to 1000.
    pub passes: u32,
    pub method: Method,
    /// Whether its writes are read back, or if it writes nothing its reads are checked (`do_verify`).
    pub checks_writes: bool,
    /// After how many writes they are checked; 0 is after all of a pass.
    pub backlog: u32,
    /// Whether a bad verdict halts it.
    pub is_fatal: bool,
    /// Whether its I/Os wait for none that they overlap, nor others for them (`serialize_overlap=0`).
    pub declines: bool,
    /// Whether its I/O is to go past the system's cache (`direct`).
    pub direct: bool,
}

impl Workload {
    /// What a job file plans that says no more than this: blocks of one size (in bytes), nothing verified, one I/O in
    /// flight, one pass, a map, and half of a mixed job's I/Os reads.
    pub fn plain(io_type: IoType, block: u32, cells: u32) -> Workload
        ensures { result ≡ plain_workload io_type block cells }
    {
        Workload {
            phase: 0,
            cell: block,
            cells,
            io_type,
            read_percent: 50,
            reads: Split::single(block),
            writes: Split::single(block),
            has_map: true,
            seed: 1,
            depth: 1,
            passes: 1,
            method: Method {
                kind: VerifyKind::Plain,
                pattern: None,
                interval: 0,
            },
            checks_writes: true,
            backlog: 0,
            is_fatal: false,
            declines: false,
            direct: false,
        }
    }

    // Whether its region is whole blocks, cells, fitting sizes and whole chunks.
    fn is_cut(&self, start: u64) -> bool
        ensures { result ≡ is_cut self.now start }
    {
        self.cell >= SECTOR
            && self.cell <= LARGEST_BLOCK
            && self.cell % SECTOR == 0
            && start % u64::from(SECTOR) == 0
            && self.cells >= 1
            && (!self.io_type.has_reads() || self.reads.fits(self.cell))
            && (!self.io_type.has_writes() || self.writes.fits(self.cell))
            && self
                .method
                .kind
                .fits_interval(self.method.interval, self.cell)
    }

    fn numbers_fit(&self) -> bool
        ensures { result ≡ numbers_fit self.now }
    {
        self.read_percent <= 100
            && self.depth >= 1
            && self.depth <= MOST_DEPTH
            && self.passes >= 1
            && self.passes <= MOST_PASSES
    }

    fn has_pattern(&self) -> bool
        ensures { result ≡ has_pattern self.now.method.kind self.now.method.pattern }
    {
        self.method.kind != VerifyKind::Pattern || self.method.pattern.is_some()
    }

    /// What keeps a clone that begins at `start` (in bytes) out of every plan.
    pub fn fault(&self, start: u64) -> Option<PlanFault>
        ensures { result ≡ workload_fault self.now start }
    {
        if !self.is_cut(start) {
            return Some(PlanFault::Block);
        }
        if !self.numbers_fit() {
            return Some(PlanFault::Number);
        }
        if !self.has_pattern() {
            return Some(PlanFault::NoPattern);
        }
        None
    }
}
