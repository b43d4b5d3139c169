// Jobs that decline to wait (`serialize_overlap=0`): what a run says where a write overlaps another I/O in flight.
use crate::asserts::same;
use crate::desks::{desk_of, desk_of_one, shown_by};
use crate::gates::two_gates;
use crate::plans::{NOTHING, checked, plan_of_two};
use jr_crew::{Progress, Watch};
use jr_desk::Desk;
use jr_model::{IoType, Totals};
use jr_plan::{Plan, Workload};
use std::alloc::Global;
use std::process::Abort;
use std::sync::Wait;
use std::test::Fail;
use std::thread::Threads;
use std::time::Clock;

// One read of 4096 bytes.
const READ: Totals = Totals {
    reads: 1,
    rbytes: 4096,
    ..NOTHING
};

// One write of 4096 bytes.
const WROTE: Totals = Totals {
    writes: 1,
    wbytes: 4096,
    ..NOTHING
};

// One read of 4096 bytes that is checked by a pattern of ones.
fn reading() -> Workload {
    Workload {
        io_type: IoType::Read,
        ..checked(1, 1)
    }
}

// One write of 4096 bytes that isn't checked.
fn writing() -> Workload {
    Workload::plain(IoType::Write, 4096, 1)
}

fn declining(workload: Workload) -> Workload {
    Workload {
        declines: true,
        ..workload
    }
}

fn totals_of_two(desk: &Desk) -> Result<[Totals; 2], Fail> {
    match desk.totals() {
        [first, second] => Ok([*first, *second]),
        _ => Err(Fail::from("two clones")),
    }
}

// The totals of two clones, over engines of zeros where both are in flight at once; and how many verdicts were said to be bad meanwhile.
fn raced<R: Threads + Wait + Clock + Sync>(
    rt: &R,
    alloc: Global,
    first: &Workload,
    second: &Workload,
    verifiers: u32,
) -> Result<([Totals; 2], u64), Fail> {
    let progress = Progress::new();
    let plan = plan_of_two(alloc, first, second, verifiers)?;
    let engines = two_gates(alloc)?;
    let desk = desk_of(rt, alloc, plan, engines, shown_by(&progress))?;
    Ok((totals_of_two(&desk)?, progress.bad()))
}

fn assert_raced<R: Abort + Threads + Wait + Clock + Sync>(
    rt: &R,
    alloc: Global,
    first: &Workload,
    second: &Workload,
    want: [Totals; 2],
) -> Result<(), Fail> {
    for verifiers in 0..3 {
        let found = raced(rt, alloc, first, second, verifiers)?;
        same(rt, (verifiers, found), (verifiers, (want, 0)));
    }
    Ok(())
}

// What is read would be bad.
#[test]
fn a_check_that_raced_is_void(rt: HostRuntime) -> Result<(), Fail> {
    let void = Totals { void: 1, ..READ };
    for (first, second) in [
        (declining(reading()), writing()),
        (reading(), declining(writing())),
    ] {
        assert_raced(&rt, rt.alloc(), &first, &second, [void, WROTE])?;
        assert_raced(&rt, rt.alloc(), &second, &first, [WROTE, void])?;
    }
    Ok(())
}

#[test]
fn a_write_that_raced_is_skipped(rt: HostRuntime) -> Result<(), Fail> {
    let skipped = Totals {
        skipped: 1,
        ..WROTE
    };
    let first = declining(checked(1, 1));
    assert_raced(&rt, rt.alloc(), &first, &checked(1, 1), [skipped, skipped])?;
    assert_raced(&rt, rt.alloc(), &first, &writing(), [skipped, WROTE])
}

fn both_declining(alloc: Global) -> Result<Plan, Fail> {
    plan_of_two(alloc, &declining(reading()), &declining(writing()), 0)
}

#[test]
fn nothing_races_where_one_worker_runs(rt: HostRuntime) -> Result<(), Fail> {
    let plan = both_declining(rt.alloc())?;
    let desk = desk_of_one(rt.alloc(), plan, Watch::none())?;
    let judged = Totals {
        checks: 1,
        bad: 1,
        ..READ
    };
    same(&rt, totals_of_two(&desk)?, [judged, WROTE]);
    Ok(())
}
