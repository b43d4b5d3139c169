// Desks of runs. Each function here owns little: a proof of a test that owns several things, and may end at each step, costs minutes.
use crate::plans::{checked, plan_of};
use jr_crew::{Progress, Ran, StopFlag, Watch, run, run_serial};
use jr_desk::Desk;
use jr_engines::{Engine, NullEngine, SharedMemory};
use jr_model::EngineKind;
use jr_plan::Plan;
use std::alloc::Global;
use std::sync::Wait;
use std::test::Fail;
use std::thread::Threads;
use std::time::Clock;

pub(crate) fn desk_of<R: Threads + Wait + Clock + Sync>(
    rt: &R,
    alloc: Global,
    plan: Plan,
    engines: Vec<Box<dyn Engine + Send>>,
    watch: Watch<'_>,
) -> Result<Desk, Fail> {
    let Ran { desk, .. } = run(rt, alloc, plan, engines, watch)?;
    Ok(desk)
}

// That of one worker over an engine of zeros.
pub(crate) fn desk_of_one(alloc: Global, plan: Plan, watch: Watch<'_>) -> Result<Desk, Fail> {
    Ok(run_serial(alloc, plan, &mut NullEngine::new(), watch)?)
}

// Of two workers, each over an engine of zeros.
pub(crate) fn desk_of_two<R: Threads + Wait + Clock + Sync>(
    rt: &R,
    alloc: Global,
    plan: Plan,
    watch: Watch<'_>,
) -> Result<Desk, Fail> {
    let engines = two_nulls(alloc)?;
    desk_of(rt, alloc, plan, engines, watch)
}

pub(crate) fn two_nulls(alloc: Global) -> Result<Vec<Box<dyn Engine + Send>>, Fail> {
    let mut engines: Vec<Box<dyn Engine + Send>> = Vec::new(alloc);
    for _ in 0..2 {
        engines.push(Box::new(alloc, NullEngine::new())?)?;
    }
    Ok(engines)
}

// Four blocks of 4096 bytes that are written and checked, with so many verifiers.
pub(crate) fn four_checked(alloc: Global, verifiers: u32) -> Result<Plan, Fail> {
    plan_of(alloc, &checked(4, 0), 1, EngineKind::Null, verifiers)
}

// What may stop a run, and shows nothing.
pub(crate) fn stopped_by(stop: &StopFlag) -> Watch<'_> {
    Watch {
        progress: None,
        stop: Some(stop),
        diagnoses: None,
        ledger: None,
    }
}

// What shows how far a run is, and can't stop it.
pub(crate) fn shown_by(progress: &Progress) -> Watch<'_> {
    Watch {
        progress: Some(progress),
        stop: None,
        diagnoses: None,
        ledger: None,
    }
}

// The shares of one memory for four workers.
pub(crate) fn four_shares<R: Wait + Clone + Drop>(
    rt: R,
    alloc: Global,
    plan: &Plan,
) -> Result<Vec<SharedMemory<R>>, Fail> {
    let first = SharedMemory::new(rt, alloc, plan)?;
    let mut shares = Vec::new(alloc);
    for _ in 1..4 {
        shares.push(first.share()?)?;
    }
    shares.push(first)?;
    Ok(shares)
}
