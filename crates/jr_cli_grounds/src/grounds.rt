// What carries out the I/Os of a run.
ghost use Rattle.std.specs.Prelude.{◌≡◌, All, IfOk, vec_len};
ghost use Rattle.jr_io_files.specs.Engines.{IsFresh};
ghost use Rattle.jr_cli_grounds.specs.Grounds.{IsEngineOf, IsGroundOf};

use crate::files::{Taken, take_files};
use jr_cli_words::{Choice, CliFault};
use jr_engines::{MemoryEngine, NullEngine};
use jr_io_files::{FileEngine, Reserved, SharedFile};
use jr_model::EngineKind;
use jr_plan::Plan;
use jr_system::{Screen, Stop};
use std::alloc::AllocGlobal;
use std::fs::{File, Files};

/// What carries out the I/Os of a run, or of all its rounds: files that were taken, a memory for each run, or nothing.
#[derive(Drop)]
pub enum Ground<'a> {
    Files(Taken<'a>),
    Memory,
    Nothing,
}

/// The engine of one worker that does all.
#[derive(Drop)]
pub enum OneEngine {
    Files(FileEngine<SharedFile>),
    Memory(MemoryEngine),
    Nothing(NullEngine),
}

impl<'a> Ground<'a> {
    /// That of the plan's kind of engine. The plan's files are taken, of which none may be one that the run keeps for something else.
    pub fn of<R: Files<File = File> + AllocGlobal + Screen>(
        rt: &R,
        plan: &Plan,
        choice: &Choice<'a>,
        kept: &[Reserved<'_>],
    ) -> Result<Ground<'a>, Stop>
        ensures { IfOk result (IsGroundOf plan.now) }
    {
        match plan.engine() {
            EngineKind::File => Ok(Ground::Files(take_files(rt, plan, choice, kept)?)),
            EngineKind::Memory => Ok(Ground::Memory),
            EngineKind::Null => Ok(Ground::Nothing),
        }
    }

    /// An engine over it for one worker of a run of the plan. What the system keeps of files from before the run is dropped.
    pub fn one_engine<R: Files<File = File> + AllocGlobal + Eprint>(
        &self,
        rt: &R,
        plan: &Plan,
    ) -> Result<OneEngine, CliFault>
        ensures { IfOk result (IsEngineOf plan.now self.now) }
    {
        match self {
            Ground::Files(files) => Ok(OneEngine::Files(engine_at(rt, files, 0)?)),
            Ground::Memory => Ok(OneEngine::Memory(MemoryEngine::new(rt.alloc(), plan)?)),
            Ground::Nothing => Ok(OneEngine::Nothing(NullEngine::new())),
        }
    }
}

/// The engines of so many workers over the files, which the first of them drops from the system's cache.
pub fn crew_engines<R: Files<File = File> + AllocGlobal + Eprint>(
    rt: &R,
    files: &Taken<'_>,
    workers: u32,
) -> Result<Vec<FileEngine<SharedFile>>, CliFault>
    ensures number { IfOk result (λ engines. vec_len engines ≡ workers) }
    ensures fresh { IfOk result (λ engines. All (λ engine. IsFresh engine files.now.files.files) engines.items) }
{
    let mut engines = Vec::new(rt.alloc());
    for place in 0..workers as usize {
        let engine = engine_at(rt, files, place)?;
        match engines.push(engine) {
            Ok(()) => {}
            Err(_) => return Err(CliFault::Memory),
        }
    }
    Ok(engines)
}

// The engine of the worker of this number; the first drops what the system keeps of the files.
fn engine_at<R: Files<File = File> + AllocGlobal + Eprint>(
    rt: &R,
    files: &Taken<'_>,
    place: usize,
) -> Result<FileEngine<SharedFile>, CliFault>
    ensures { IfOk result (λ engine. IsFresh engine files.now.files.files) }
{
    let engine = files.engine(rt, place)?;
    if place == 0 {
        files.begin(rt, &engine);
    }
    Ok(engine)
}
