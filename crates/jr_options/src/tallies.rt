// What the planned jobs come to together: counted job by job, and tested at the end.
ghost use Rattle.std.specs.Prelude.{◌≡◌, ◌<◌, ◌-◌, ◌*◌, ◌^◌, Ok};
ghost use Rattle.jr_job_options.specs.Options.{AreInRange};
ghost use Rattle.jr_options.specs.Surveys.{IsCapped, start_of, empty_tally, and_job, and_shape};
ghost use Rattle.jr_options.specs.Surveys.{tally_fault, is_other_engine, engine_number};

use jr_job_options::{JobFault, JobOptions, Shape};
use jr_model::{EngineKind, LARGEST_END, MOST_CELLS, MOST_CLONES, MOST_WORK};
use jr_plan::Bound;

// What is known of the planned jobs so far.
#[derive(Clone, Copy)]
pub struct Tally {
    // The first job that is at fault.
    fault: Option<JobFault>,
    pub(crate) engine: Option<EngineKind>,
    is_mixed: bool,
    // At most one above what a run may have.
    clones: u64,
    is_far: bool,
    is_long: bool,
    // At most one above what a run may have.
    work: u128,
    pub(crate) verifiers: u32,
}

impl Tally {
    pub(crate) fn new() -> Tally
        ensures value { result ≡ empty_tally }
        ensures capped { IsCapped result }
    {
        Tally {
            fault: None,
            engine: None,
            is_mixed: false,
            clones: 0,
            is_far: false,
            is_long: false,
            work: 0,
            verifiers: 0,
        }
    }

    pub(crate) fn with_job(self, options: &JobOptions, line: u32) -> Tally
        requires range { AreInRange options.now }
        requires capped { IsCapped self }
        ensures value { result ≡ and_job self options.now line }
        ensures capped { IsCapped result }
    {
        let mut tally = self;
        tally.is_mixed = tally.is_mixed || is_other_engine(tally.engine, options.engine);
        tally.engine = Some(tally.engine.unwrap_or(options.engine));
        tally.clones = (tally.clones + u64::from(options.clones)).min(1 + MOST_CLONES as u64);
        tally.verifiers = tally.verifiers.max(options.verifiers);
        match options.shape(line) {
            Ok(shape) => tally.with_shape(options, &shape),
            Err(fault) => {
                tally.fault = tally.fault.or(Some(fault));
                tally
            }
        }
    }

    fn with_shape(self, options: &JobOptions, shape: &Shape) -> Tally
        requires range { AreInRange options.now }
        requires capped { IsCapped self }
        ensures value { result ≡ and_shape self options.now (Ok shape.now) }
        ensures capped { IsCapped result }
    {
        let mut tally = self;
        let end = furthest_start(options) + u128::from(shape.size);
        tally.is_far = tally.is_far || end > u128::from(LARGEST_END);
        tally.is_long = tally.is_long || shape.cells > u64::from(MOST_CELLS);
        tally.work = (tally.work + visits(options, shape)).min(1 + u128::from(MOST_WORK));
        tally
    }

    // The first of the faults that show only over all jobs.
    #[tactic(auto, unfolding(crate::specs::Surveys::tally_fault))]
    pub(crate) fn fault(&self) -> Option<JobFault>
        ensures { result ≡ tally_fault self.now }
    {
        if self.fault.is_some() {
            return self.fault;
        }
        if self.is_mixed {
            return Some(JobFault::MixedEngines);
        }
        if self.clones > MOST_CLONES as u64 {
            return Some(JobFault::Limit(Bound::Clones));
        }
        if self.is_far {
            return Some(JobFault::Limit(Bound::Region));
        }
        if self.is_long {
            return Some(JobFault::Limit(Bound::Cells));
        }
        if self.work > u128::from(MOST_WORK) {
            return Some(JobFault::Limit(Bound::Work));
        }
        None
    }
}

fn is_other_engine(engine: Option<EngineKind>, other: EngineKind) -> bool
    ensures { result ≡ is_other_engine engine other }
{
    match engine {
        Some(engine) => engine_number(engine) != engine_number(other),
        None => false,
    }
}

fn engine_number(engine: EngineKind) -> u8
    ensures { result ≡ engine_number engine }
{
    match engine {
        EngineKind::File => 0,
        EngineKind::Memory => 1,
        EngineKind::Null => 2,
    }
}

// Where the clone of this place within its job begins.
pub(crate) fn start_of(options: &JobOptions, index: u32) -> u128
    ensures value { result ≡ start_of options.now index }
    ensures most { result < 2 ^ 97 }
{
    let offset = u128::from(options.offset);
    let step = u128::from(options.offset_step);
    offset + step * u128::from(index)
}

// Where the last clone of a job begins.
fn furthest_start(options: &JobOptions) -> u128
    requires range { AreInRange options.now }
    ensures value { result ≡ start_of options.now (options.now.clones - 1) }
    ensures most { result < 2 ^ 97 }
{
    start_of(options, options.clones - 1)
}

// How many cells all passes of all clones of a job visit.
fn visits(options: &JobOptions, shape: &Shape) -> u128
    requires range { AreInRange options.now }
    ensures value { result ≡ shape.now.cells * options.now.passes * options.now.clones }
    ensures most { result < 2 ^ 80 }
{
    let cells = u128::from(shape.cells);
    cells * u128::from(options.passes) * u128::from(options.clones)
}
