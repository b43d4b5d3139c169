use crate::asserts::same;
use crate::desks::{desk_of, four_shares};
use crate::gates::two_gates_of;
use crate::plans::{NOTHING, plan_of};
use jr_crew::{RunFault, Watch, run};
use jr_desk::Desk;
use jr_engines::Engine;
use jr_model::{EngineKind, IoType, Method, Totals, VerifyKind};
use jr_plan::{Plan, Workload};
use std::alloc::Global;
use std::process::Abort;
use std::sync::Wait;
use std::test::Fail;
use std::thread::Threads;
use std::time::Clock;

// A plan of two writes that may be in flight at once.
fn two_at_once(alloc: Global) -> Result<Plan, Fail> {
    let two = Workload {
        depth: 2,
        ..Workload::plain(IoType::Write, 4096, 2)
    };
    plan_of(alloc, &two, 1, EngineKind::Memory, 0)
}

// The desk of two writes, each at a gate that gives up after so many turns.
fn desk_at_gates<R: Threads + Wait + Clock + Sync>(
    rt: &R,
    alloc: Global,
    turns: u32,
) -> Result<Desk, Fail> {
    let plan = two_at_once(alloc)?;
    let engines = two_gates_of(alloc, turns)?;
    desk_of(rt, alloc, plan, engines, Watch::none())
}

#[test]
fn two_are_inside_their_engines_at_once(rt: HostRuntime) -> Result<(), Fail> {
    let desk = desk_at_gates(&rt, rt.alloc(), 20_000_000)?;
    assert_both_wrote(&rt, &desk);
    Ok(())
}

#[test]
fn a_run_wants_an_engine(rt: HostRuntime) -> Result<(), Fail> {
    let plan = two_at_once(rt.alloc())?;
    let none = Vec::new(rt.alloc());
    let refused = run(&rt, rt.alloc(), plan, none, Watch::none()).err();
    same(&rt, refused, Some(RunFault::NoEngine));
    Ok(())
}

// Two clones that each write 16 blocks of one file and check them by sha256, four at once; or one that writes so many at random.
fn digested(io_type: IoType, depth: u32, cells: u32) -> Workload {
    Workload {
        depth,
        method: Method {
            kind: VerifyKind::Sha256,
            pattern: None,
            interval: 0,
        },
        ..Workload::plain(io_type, 4096, cells)
    }
}

// Each clone wrote 16 blocks, and each of these was checked and good, or is overwritten.
fn assert_sixteen(rt: &impl Abort, desk: &Desk) {
    for totals in desk.totals() {
        let over = totals.checks.saturating_add(totals.skipped);
        let told = (totals.writes, over, totals.bad, totals.faults);
        same(rt, told, (16, 16, 0, 0));
        same(rt, totals.good, totals.checks);
    }
    same(rt, desk.totals().len(), 2);
}

// (`checks/build/wants.py` refuses its requests for memory and threads.)
#[test]
fn four_workers_write_one_file(rt: HostRuntime) -> Result<(), Fail> {
    let plan = sixteen_of_two(rt.alloc())?;
    let mut engines: Vec<Box<dyn Engine + Send>> = Vec::new(rt.alloc());
    for share in four_shares(rt.clone()?, rt.alloc(), &plan)? {
        engines.push(Box::new(rt.alloc(), share)?)?;
    }
    let desk = desk_of(&rt, rt.alloc(), plan, engines, Watch::none())?;
    assert_sixteen(&rt, &desk);
    Ok(())
}

fn sixteen_of_two(alloc: Global) -> Result<Plan, Fail> {
    let work = digested(IoType::Write, 4, 16);
    plan_of(alloc, &work, 2, EngineKind::Memory, 0)
}

// A hundred blocks were written and checked, each good.
fn assert_hundred(rt: &impl Abort, desk: &Desk) {
    let hundred = Totals {
        writes: 100,
        wbytes: 409_600,
        checks: 100,
        good: 100,
        ..NOTHING
    };
    same(rt, desk.totals(), [hundred].as_slice());
}

fn hundred(alloc: Global, verifiers: u32) -> Result<Plan, Fail> {
    let work = digested(IoType::RandWrite, 8, 100);
    plan_of(alloc, &work, 1, EngineKind::Memory, verifiers)
}

#[test]
fn a_hundred_random_writes_are_good_whoever_judges(rt: HostRuntime) -> Result<(), Fail> {
    for verifiers in [2, 0] {
        let plan = hundred(rt.alloc(), verifiers)?;
        let mut engines: Vec<Box<dyn Engine + Send>> = Vec::new(rt.alloc());
        for share in four_shares(rt.clone()?, rt.alloc(), &plan)? {
            engines.push(Box::new(rt.alloc(), share)?)?;
        }
        let desk = desk_of(&rt, rt.alloc(), plan, engines, Watch::none())?;
        assert_hundred(&rt, &desk);
    }
    Ok(())
}

// Both wrote, or what failed is told: a gate that nobody else comes to fails its call.
fn assert_told(rt: &impl Abort, desk: &Desk) {
    for totals in desk.totals() {
        let told = totals.writes.saturating_add(totals.faults);
        assert!(rt; told >= 1 && told <= 2 && (totals.faults > 0 || totals.writes == 2));
    }
}

#[test]
fn gates_that_soon_give_up_are_told(rt: HostRuntime) -> Result<(), Fail> {
    let desk = desk_at_gates(&rt, rt.alloc(), 100_000)?;
    assert_told(&rt, &desk);
    Ok(())
}

// Neither write failed.
fn assert_both_wrote(rt: &impl Abort, desk: &Desk) {
    for totals in desk.totals() {
        let told = (totals.writes, totals.wbytes, totals.faults);
        same(rt, told, (2, 8192, 0));
    }
    same(rt, desk.totals().len(), 1);
}
