use crate::asserts::same;
use crate::plans::plan_of;
use jr_crew::{Ran, RunFault, Watch, run};
use jr_engines::{Engine, EngineFault};
use jr_model::{EngineKind, IoType, Method, Pattern, VerifyKind};
use jr_plan::{Plan, Workload};
use std::alloc::Global;
use std::sync::atomic::{AtomicU64, Ordering};
use std::sync::{Arc, Wait};
use std::test::Fail;
use std::thread::Threads;
use std::time::Clock;

// An engine of zeros that counts where it is dropped.
struct Counted {
    calls: u64,
    dropped: Arc<AtomicU64, Global>,
}

impl Drop for Counted {
    fn drop(self) {
        self.dropped.fetch_add(1, Ordering::SeqCst);
        let Counted {
            calls: _,
            dropped: _,
        } = self;
    }
}

impl Engine for Counted {
    ghost use Rattle.jr_engines.specs.States.{null_state};

    ghost state = { λ counted. null_state (record { calls = counted.calls }) };

    fn read(&mut self, _file: u32, _offset: u64, buf: &mut [u8]) -> Result<usize, EngineFault> {
        buf.fill(0);
        self.calls += 1;
        Ok(buf.len())
    }

    fn write(&mut self, _file: u32, _offset: u64, buf: &[u8]) -> Result<usize, EngineFault> {
        self.calls += 1;
        Ok(buf.len())
    }

    fn calls(&self) -> u64 {
        self.calls
    }

    fn failures(&self) -> u64 {
        0
    }
}

// Four blocks that are written and checked, with so many verifiers.
fn plan_with(alloc: Global, verifiers: u32) -> Result<Plan, Fail> {
    let checked = Workload {
        depth: 4,
        method: Method {
            kind: VerifyKind::Pattern,
            pattern: Pattern::new(&[1]),
            interval: 0,
        },
        ..Workload::plain(IoType::Write, 512, 4)
    };
    plan_of(alloc, &checked, 1, EngineKind::Null, verifiers)
}

// So many engines that were called so often before, and count in one place.
fn engines_for(
    alloc: Global,
    count: u64,
    calls: u64,
    dropped: &Arc<AtomicU64, Global>,
) -> Result<Vec<Box<dyn Engine + Send>>, Fail> {
    let mut engines: Vec<Box<dyn Engine + Send>> = Vec::new(alloc);
    for _ in 0..count {
        let counted = Counted {
            calls,
            dropped: Arc::try_clone(dropped)?,
        };
        engines.push(Box::new(alloc, counted)?)?;
    }
    Ok(engines)
}

// How many engines were dropped when the run had answered, and what it answered: no fault where each is dropped with its answer.
fn dropped_by<R: Threads + Wait + Clock + Sync>(
    rt: &R,
    alloc: Global,
    workers: u64,
    verifiers: u32,
    calls: u64,
) -> Result<(u64, Option<RunFault>), Fail> {
    let plan = plan_with(alloc, verifiers)?;
    let dropped = Arc::new(alloc, AtomicU64::new(0))?;
    let engines = engines_for(alloc, workers, calls, &dropped)?;
    let fault = fault_of(run(rt, alloc, plan, engines, Watch::none()), &dropped)?;
    Ok((dropped.load(Ordering::SeqCst), fault))
}

// The fault of a run; where it has none, no engine was dropped before its answer, which is dropped here.
fn fault_of(
    answer: Result<Ran, RunFault>,
    dropped: &Arc<AtomicU64, Global>,
) -> Result<Option<RunFault>, Fail> {
    match answer {
        Ok(_) if dropped.load(Ordering::SeqCst) != 0 => {
            Err(Fail::from("an engine was dropped before the answer"))
        }
        Ok(_) => Ok(None),
        Err(fault) => Ok(Some(fault)),
    }
}

// `checks/build/wants.py` refuses each of its requests for memory and threads. A run that is refused is a failed test, as its fault says;
// another number of engines ends it at once.
#[test]
fn a_refused_run_drops_its_engines(rt: HostRuntime) -> Result<(), Fail> {
    for (workers, verifiers) in [(1, 0), (3, 0), (2, 2)] {
        let (dropped, fault) = dropped_by(&rt, rt.alloc(), workers, verifiers, 0)?;
        same(&rt, dropped, workers);
        match fault {
            None => {}
            Some(RunFault::Memory) => return Err(Fail::from("run: out of memory")),
            Some(RunFault::Thread) => return Err(Fail::from("run: cannot start a thread")),
            Some(_) => return Err(Fail::from("run: another fault")),
        }
    }
    Ok(())
}

#[test]
fn engines_that_can_count_no_further_are_dropped(rt: HostRuntime) -> Result<(), Fail> {
    for (workers, verifiers) in [(1, 0), (3, 0), (2, 2)] {
        let (dropped, fault) = dropped_by(&rt, rt.alloc(), workers, verifiers, u64::MAX)?;
        same(&rt, dropped, workers);
        same(&rt, fault, Some(RunFault::Books));
    }
    Ok(())
}
