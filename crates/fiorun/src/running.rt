// Runs of a plan over its kind of engine.
ghost use Rattle.std.specs.Prelude.{◌≤◌, ◌^◌, IfOk};
ghost use Rattle.jr_cli_grounds.specs.Grounds.{IsGroundOf};

use crate::finished::Finished;
use jr_cli::{execute, execute_serial};
use jr_cli_ends::RunEnd;
use jr_cli_grounds::{
    Ground, OneEngine, add, asked_for, begin_ledger, boxed, crew_engines, has_one_worker,
    ledger_cut, shares_memory, unsynced_on_the_way,
};
use jr_cli_outputs::{Nowhere, TraceFile, Unfailing, Wanted};
use jr_cli_words::{Choice, CliFault, Wiping, to_output, workers_of};
use jr_engines::{Engine, NullEngine};
use jr_io_files::{FileEngine, SharedFile};
use jr_model::EngineKind;
use jr_plan::Plan;
use jr_system::{Asked, Closed, Machine, Outlet, PlanBytes, Stop, Wiper, shown};
use std::alloc::Global;
use std::io::Write;
use std::sync::{Arc, Wait};

// How far the program gets by itself: to its end with this status, to the end of a run, or to a run whose workers share a memory.
#[derive(Drop)]
pub enum Turn {
    Ended(u8),
    Ran(Finished),
    Shared(SharedRun),
}

// A run whose workers share a memory. The shares keep the runtime, so they are boxed in `main`.
#[derive(Drop)]
pub struct SharedRun {
    // The plan that it carries out.
    pub plan: Plan,
    // How many workers it has.
    pub workers: u32,
    // What is asked of it.
    asked: Arc<Asked, Global>,
    // What is told after its report.
    wanted: Option<Wanted>,
}

impl SharedRun {
    // Why the program ends where the run can't begin. Its outputs are as if it had not been asked for.
    pub fn given_up<R: Outlet>(&self, rt: &R, fault: CliFault) -> Stop {
        if let Some(wanted) = &self.wanted {
            wanted.outputs.clear(rt);
        }
        Stop::from(fault)
    }
}

// What carries out the I/Os of a run of the plan, or of all its rounds. No file of a job may be one that the run keeps for something else.
// A ledger has its first line before any file is made.
pub fn ground_of<'a, R: Outlet + Machine>(
    rt: &R,
    choice: &Choice<'a>,
    wanted: &Wanted,
    asked: &Asked,
    plan: &Plan,
) -> Result<Ground<'a>, Stop>
    ensures { IfOk result (IsGroundOf plan.now) }
{
    let kept = wanted.outputs.kept(rt)?;
    begin_recording(rt, choice, wanted, asked, plan)?;
    let ground = Ground::of(rt, plan, choice, kept.as_slice())?;
    record(rt, choice, wanted, asked, &ground)?;
    Ok(ground)
}

// Begins to record what is written to the plan's files, if the words ask for it.
fn begin_recording<R: Outlet>(
    rt: &R,
    choice: &Choice<'_>,
    wanted: &Wanted,
    asked: &Asked,
    plan: &Plan,
) -> Result<(), Stop> {
    let is_asked_for = choice.ledger.is_some() || choice.sync_every.is_some();
    if plan.engine() != EngineKind::File || !is_asked_for {
        return Ok(());
    }
    let out = wanted.outputs.ledger(rt)?;
    begin_ledger(rt.alloc(), plan, out, choice.sync_every, asked)?;
    match cut_of(rt.alloc(), choice, asked) {
        Some(stop) => Err(stop),
        None => Ok(()),
    }
}

// Has what is written to the run's files recorded, and the files synced on the way, if that has begun. The ledger takes its name.
fn record<R: Outlet>(
    rt: &R,
    choice: &Choice<'_>,
    wanted: &Wanted,
    asked: &Asked,
    ground: &Ground<'_>,
) -> Result<(), Stop> {
    let Ground::Files(files) = ground else {
        return Ok(());
    };
    files.record(rt, choice.sync_every, asked)?;
    wanted.outputs.finish_ledger(rt)
}

// Why the ledger that the words ask for couldn't be written to its end, if it couldn't.
fn cut_of(alloc: Global, choice: &Choice<'_>, asked: &Asked) -> Option<Stop> {
    ledger_cut(alloc, asked, choice.ledger?)
}

// A run that has ended, and why its ledger couldn't be written to its end, if it couldn't.
fn with_ledger(alloc: Global, choice: &Choice<'_>, asked: &Asked, ran: Finished) -> Finished {
    match cut_of(alloc, choice, asked) {
        Some(stop) => ran.and(Err(stop)),
        None => ran,
    }
}

// A run that has ended, and why it is told as one that lacked memory, if it was asked to stop for that.
pub fn with_shortage(ran: Finished, asked: &Asked) -> Finished {
    if asked.is_short() && ran.ended.is_interrupted() {
        ran.and(Err(Stop::from(CliFault::Memory)))
    } else {
        ran
    }
}

// A run over it that has ended, with what the system said of its files and what stood in its bad blocks.
pub fn close<R: Outlet + Machine>(
    rt: &R,
    ground: &Ground<'_>,
    asked: &Asked,
    ran: Finished,
) -> Result<Finished, Stop> {
    let closed = closed_after(rt, ground, asked, &ran.ended)?;
    Ok(ran.over(closed))
}

// What the system said of the files of a run that has ended, and what stood in its bad blocks.
fn closed_after<R: Outlet + Machine>(
    rt: &R,
    ground: &Ground<'_>,
    asked: &Asked,
    ended: &RunEnd,
) -> Result<Closed, Stop> {
    let mut closed = match ground {
        Ground::Files(files) => files.close(rt, &ended.faults)?,
        Ground::Memory | Ground::Nothing => Closed::of_no_files(rt.alloc()),
    };
    if closed.unstored.is_none() {
        closed.unstored = unsynced_on_the_way(rt.alloc(), ended.desk.plan(), asked);
    }
    Ok(with_found(rt, asked, closed))
}

// With what stood in the run's bad blocks.
fn with_found<R: Wait>(rt: &R, asked: &Asked, mut closed: Closed) -> Closed {
    closed.found = asked.diagnoses().take(rt);
    closed
}

// Runs the plan, but for one over a memory that several workers share, and tells where it found what.
pub fn run_plan<R: Outlet + Machine>(
    rt: &R,
    choice: &Choice<'_>,
    job: &[u8],
    plan: Plan,
) -> Result<Turn, Stop> {
    let wanted = Wanted::of(rt, choice, &plan, job)?;
    match run_wanted(rt, choice, &wanted, plan) {
        Ok(turn) => told(rt, wanted, turn),
        Err(stop) => {
            wanted.outputs.clear(rt);
            Err(stop)
        }
    }
}

// What is wanted is told of a run that has ended, and kept with one that is still to come.
fn told<R: Outlet + Machine>(rt: &R, wanted: Wanted, turn: Turn) -> Result<Turn, Stop> {
    match turn {
        Turn::Ended(status) => Ok(Turn::Ended(status)),
        Turn::Ran(ran) => Ok(Turn::Ran(ran.told(rt, &wanted))),
        Turn::Shared(mut job) => {
            job.wanted = Some(wanted);
            Ok(Turn::Shared(job))
        }
    }
}

// Runs the plan once, with its trace where one is wanted.
fn run_wanted<R: Outlet + Machine>(
    rt: &R,
    choice: &Choice<'_>,
    wanted: &Wanted,
    plan: Plan,
) -> Result<Turn, Stop> {
    let asked = asked_for(rt, choice, &plan, false)?;
    let workers = workers_of(&plan, choice.workers);
    if shares_memory(&plan, workers) {
        return Ok(shared_run(asked, plan, workers));
    }
    let ground = ground_of(rt, choice, wanted, &asked, &plan)?;
    let ran = run_traced(rt, wanted, &ground, &asked, plan, workers)?;
    let ran = with_shortage(close(rt, &ground, &asked, ran)?, &asked);
    Ok(Turn::Ran(with_ledger(rt.alloc(), choice, &asked, ran)))
}

// A run with this many workers over a memory that they share is still to come.
fn shared_run(asked: Arc<Asked, Global>, plan: Plan, workers: u32) -> Turn {
    Turn::Shared(SharedRun {
        plan,
        workers,
        asked,
        wanted: None,
    })
}

// Runs the plan, and writes the report to standard output and then the trace where one is wanted.
fn run_traced<R: Outlet + Machine>(
    rt: &R,
    wanted: &Wanted,
    ground: &Ground<'_>,
    asked: &Arc<Asked, Global>,
    plan: Plan,
    workers: u32,
) -> Result<Finished, Stop> {
    let events = wanted.outputs.trace(rt)?;
    let mut out = to_output(rt)?;
    Ok(run_once(rt, ground, asked, plan, workers, events, &mut out)?)
}

// Runs the plan with no trace, and writes its report nowhere.
pub fn run_silent<'a, R: Outlet + Machine>(
    rt: &'a R,
    ground: &Ground<'_>,
    asked: &Arc<Asked, Global>,
    plan: Plan,
    workers: u32,
) -> Result<Finished, Stop> {
    let events: Option<TraceFile<'a, R>> = None;
    Ok(run_once(rt, ground, asked, plan, workers, events, &mut Nowhere)?)
}

// One run of the plan: its report goes to `out`, and then its trace where one is asked for. Over a memory it has one worker.
fn run_once<R: Outlet + Machine, V: Write>(
    rt: &R,
    ground: &Ground<'_>,
    asked: &Arc<Asked, Global>,
    plan: Plan,
    workers: u32,
    events: Option<TraceFile<'_, R>>,
    out: &mut V,
) -> Result<Finished, CliFault> {
    match ground {
        Ground::Files(files) if !has_one_worker(&plan, workers) => {
            let engines = crew_engines(rt, files, workers)?;
            run_files(rt, asked, plan, engines, events, out)
        }
        Ground::Nothing if !has_one_worker(&plan, workers) => {
            run_nulls(rt, asked, plan, workers, events, out)
        }
        _ => run_alone(rt, ground, asked, plan, events, out),
    }
}

// Runs the plan with one worker, which judges its own checks.
fn run_alone<R: Outlet + Machine, V: Write>(
    rt: &R,
    ground: &Ground<'_>,
    asked: &Arc<Asked, Global>,
    plan: Plan,
    events: Option<TraceFile<'_, R>>,
    out: &mut V,
) -> Result<Finished, CliFault> {
    match ground.one_engine(rt, &plan)? {
        OneEngine::Files(mut engine) => run_over(rt, asked, plan, &mut engine, events, out),
        OneEngine::Memory(mut engine) => run_over(rt, asked, plan, &mut engine, events, out),
        OneEngine::Nothing(mut engine) => run_over(rt, asked, plan, &mut engine, events, out),
    }
}

// Runs the plan over this engine with one worker.
fn run_over<R: Outlet + Machine, V: Write>(
    rt: &R,
    asked: &Arc<Asked, Global>,
    plan: Plan,
    engine: &mut dyn Engine,
    events: Option<TraceFile<'_, R>>,
    out: &mut V,
) -> Result<Finished, CliFault>
    requires { (state engine.old).calls ≤ 2 ^ 63 }
{
    let alloc = rt.alloc();
    shown(
        rt,
        PlanBytes::of(&plan),
        asked,
        move |watch, meter| -> Result<Finished, CliFault>
            requires { (state engine.now).calls ≤ 2 ^ 63 }
        {
            let line = &Wiper { rt, meter };
            let mut out = Unfailing::new(Wiping { line, out });
            let mut events = events;
            let ended = execute_serial(rt, alloc, plan, engine, watch, events.as_mut(), &mut out)?;
            Ok(Finished::new(alloc, ended.into_end(), out.has_failed, events))
        },
    )
}

// Runs the plan over the system's files, with a worker for each of these engines.
fn run_files<R: Outlet + Machine, V: Write>(
    rt: &R,
    asked: &Arc<Asked, Global>,
    plan: Plan,
    shares: Vec<FileEngine<SharedFile>>,
    events: Option<TraceFile<'_, R>>,
    out: &mut V,
) -> Result<Finished, CliFault> {
    let mut engines: Vec<Box<dyn Engine + Send>> = Vec::new(rt.alloc());
    for engine in shares {
        add(&mut engines, boxed(rt.alloc(), engine)?)?;
    }
    run_with(rt, asked, plan, engines, events, out)
}

// Runs the plan over nothing, with this many workers.
fn run_nulls<R: Outlet + Machine, V: Write>(
    rt: &R,
    asked: &Arc<Asked, Global>,
    plan: Plan,
    workers: u32,
    events: Option<TraceFile<'_, R>>,
    out: &mut V,
) -> Result<Finished, CliFault> {
    let mut engines: Vec<Box<dyn Engine + Send>> = Vec::new(rt.alloc());
    for _ in 0..workers {
        add(&mut engines, boxed(rt.alloc(), NullEngine::new())?)?;
    }
    run_with(rt, asked, plan, engines, events, out)
}

// Runs the job over the shares of a memory, writes its report to standard output, and tells where it found what.
pub fn run_memory<R: Outlet + Machine>(
    rt: &R,
    job: SharedRun,
    engines: Vec<Box<dyn Engine + Send>>,
) -> Result<Finished, Stop> {
    let SharedRun {
        plan,
        workers: _,
        asked,
        wanted,
    } = job;
    let Some(wanted) = wanted else {
        return Err(Stop::from(CliFault::Memory));
    };
    match run_shares(rt, &asked, &wanted, plan, engines) {
        Ok(ran) => Ok(ran.told(rt, &wanted)),
        Err(stop) => {
            wanted.outputs.clear(rt);
            Err(stop)
        }
    }
}

// Runs the job over the shares of a memory, with its trace where one is wanted.
fn run_shares<R: Outlet + Machine>(
    rt: &R,
    asked: &Arc<Asked, Global>,
    wanted: &Wanted,
    plan: Plan,
    engines: Vec<Box<dyn Engine + Send>>,
) -> Result<Finished, Stop> {
    let events = wanted.outputs.trace(rt)?;
    let mut out = to_output(rt)?;
    let ran = run_with(rt, asked, plan, engines, events, &mut out)?;
    let closed = with_found(rt, asked, Closed::of_no_files(rt.alloc()));
    Ok(with_shortage(ran.over(closed), asked))
}

// Runs the plan with a worker for each engine.
fn run_with<R: Outlet + Machine, V: Write>(
    rt: &R,
    asked: &Arc<Asked, Global>,
    plan: Plan,
    engines: Vec<Box<dyn Engine + Send>>,
    events: Option<TraceFile<'_, R>>,
    out: &mut V,
) -> Result<Finished, CliFault> {
    let alloc = rt.alloc();
    shown(rt, PlanBytes::of(&plan), asked, move |watch, meter| {
        let line = &Wiper { rt, meter };
        let mut out = Unfailing::new(Wiping { line, out });
        let mut events = events;
        let ended = execute(rt, alloc, plan, engines, watch, events.as_mut(), &mut out)?;
        Ok(Finished::new(alloc, ended.into_end(), out.has_failed, events))
    })
}
