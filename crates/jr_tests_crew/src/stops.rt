use crate::asserts::same;
use crate::desks::{desk_of_one, desk_of_two, four_checked, stopped_by, two_nulls};
use jr_crew::{StopFlag, run_booked, run_serial_asked};
use jr_desk::Desk;
use jr_engines::NullEngine;
use std::alloc::Global;
use std::process::Abort;
use std::sync::Wait;
use std::test::Fail;
use std::thread::Threads;
use std::time::Clock;

// A flag that was set twice, or not at all.
fn flag_of(is_set: bool) -> StopFlag {
    let stop = StopFlag::new();
    if is_set {
        stop.set();
        stop.set();
    }
    stop
}

// The desk of one worker that is asked to stop before it begins, or never.
fn desk_by_one(alloc: Global, is_set: bool) -> Result<Desk, Fail> {
    let stop = flag_of(is_set);
    let plan = four_checked(alloc, 0)?;
    desk_of_one(alloc, plan, stopped_by(&stop))
}

// The desk of two workers and so many verifiers that are asked to stop before they begin, or never.
fn desk_by_two<R: Threads + Wait + Clock + Sync>(
    rt: &R,
    alloc: Global,
    verifiers: u32,
    is_set: bool,
) -> Result<Desk, Fail> {
    let stop = flag_of(is_set);
    let plan = four_checked(alloc, verifiers)?;
    desk_of_two(rt, alloc, plan, stopped_by(&stop))
}

// Nothing was started, and there is more to come.
fn assert_nothing_begun(rt: &impl Abort, desk: &Desk) {
    same(rt, desk.history().is_empty(), true);
    same(rt, desk.is_complete(), false);
}

// All four blocks were written and checked, so nobody has stopped it.
fn assert_complete(rt: &impl Abort, desk: &Desk) -> Result<(), Fail> {
    let Some(totals) = desk.totals().first() else {
        return Err(Fail::from("no clone"));
    };
    same(rt, desk.is_complete(), true);
    same(rt, totals.writes, 4);
    same(rt, totals.checks, 4);
    Ok(())
}

#[test]
fn a_flag_is_set_once_it_was_asked(rt: HostRuntime) {
    same(&rt, flag_of(false).is_set(), false);
    same(&rt, flag_of(true).is_set(), true);
}

#[test]
fn one_worker_is_asked_before_it_begins(rt: HostRuntime) -> Result<(), Fail> {
    let desk = desk_by_one(rt.alloc(), true)?;
    assert_nothing_begun(&rt, &desk);
    Ok(())
}

#[test]
fn one_worker_whom_nobody_asks_to_stop_goes_on_to_the_end(rt: HostRuntime) -> Result<(), Fail> {
    let desk = desk_by_one(rt.alloc(), false)?;
    assert_complete(&rt, &desk)
}

#[test]
fn workers_whom_nobody_asks_to_stop_go_on_to_the_end(rt: HostRuntime) -> Result<(), Fail> {
    for verifiers in [0, 2] {
        let desk = desk_by_two(&rt, rt.alloc(), verifiers, false)?;
        assert_complete(&rt, &desk)?;
    }
    Ok(())
}

#[test]
fn workers_and_verifiers_are_asked_before_they_begin(rt: HostRuntime) -> Result<(), Fail> {
    for verifiers in 0..3 {
        let desk = desk_by_two(&rt, rt.alloc(), verifiers, true)?;
        assert_nothing_begun(&rt, &desk);
    }
    Ok(())
}

// Whether one worker says that it was asked to stop.
fn was_one_asked<R: Clock>(rt: &R, alloc: Global, is_set: bool) -> Result<bool, Fail> {
    let stop = flag_of(is_set);
    let plan = four_checked(alloc, 0)?;
    let ran = run_serial_asked(rt, alloc, plan, &mut NullEngine::new(), stopped_by(&stop))?;
    Ok(ran.asked.is_some())
}

// Whether two workers and a verifier say so.
fn were_two_asked<R: Threads + Wait + Clock + Sync>(
    rt: &R,
    alloc: Global,
    is_set: bool,
) -> Result<bool, Fail> {
    let stop = flag_of(is_set);
    let plan = four_checked(alloc, 1)?;
    let engines = two_nulls(alloc)?;
    let ran = run_booked(rt, alloc, plan, engines, stopped_by(&stop))?;
    Ok(ran.asked.is_some())
}

#[test]
fn workers_show_whether_they_were_asked(rt: HostRuntime) -> Result<(), Fail> {
    for is_set in [false, true] {
        same(&rt, was_one_asked(&rt, rt.alloc(), is_set)?, is_set);
        same(&rt, were_two_asked(&rt, rt.alloc(), is_set)?, is_set);
    }
    Ok(())
}
