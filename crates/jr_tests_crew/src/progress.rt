use crate::asserts::same;
use crate::desks::{desk_of_one, desk_of_two, shown_by};
use crate::plans::{checked, plan_of};
use jr_crew::Progress;
use jr_model::EngineKind;
use jr_plan::Plan;
use std::alloc::Global;
use std::sync::Wait;
use std::test::Fail;
use std::thread::Threads;
use std::time::Clock;

// I/Os, their bytes, checks, and bad ones.
fn told(progress: &Progress) -> (u64, u64, u64, u64) {
    (
        progress.ios(),
        progress.bytes(),
        progress.checks(),
        progress.bad(),
    )
}

// Four blocks that are written over engines of zeros and checked by a pattern of this byte.
fn four_of(alloc: Global, byte: u8, verifiers: u32) -> Result<Plan, Fail> {
    plan_of(alloc, &checked(4, byte), 1, EngineKind::Null, verifiers)
}

// What is told of a run by one worker.
fn told_of_one(alloc: Global, byte: u8) -> Result<(u64, u64, u64, u64), Fail> {
    let progress = Progress::new();
    let plan = four_of(alloc, byte, 0)?;
    let _ended = desk_of_one(alloc, plan, shown_by(&progress))?;
    Ok(told(&progress))
}

// What is told of a run by two, with so many verifiers.
fn told_of_two<R: Threads + Wait + Clock + Sync>(
    rt: &R,
    alloc: Global,
    verifiers: u32,
) -> Result<(u64, u64, u64, u64), Fail> {
    let progress = Progress::new();
    let plan = four_of(alloc, 1, verifiers)?;
    let _ended = desk_of_two(rt, alloc, plan, shown_by(&progress))?;
    Ok(told(&progress))
}

#[test]
fn nothing_is_told_before_a_run(rt: HostRuntime) {
    same(&rt, told(&Progress::new()), (0, 0, 0, 0));
}

#[test]
fn one_worker_is_watched(rt: HostRuntime) -> Result<(), Fail> {
    // (what an engine of zeros gives back is right for one pattern, and wrong for the other)
    for (byte, bad) in [(0, 0), (1, 4)] {
        same(&rt, told_of_one(rt.alloc(), byte)?, (4, 16384, 4, bad));
    }
    Ok(())
}

#[test]
fn workers_and_verifiers_are_watched(rt: HostRuntime) -> Result<(), Fail> {
    for verifiers in 0..2 {
        same(
            &rt,
            told_of_two(&rt, rt.alloc(), verifiers)?,
            (4, 16384, 4, 4),
        );
    }
    Ok(())
}
