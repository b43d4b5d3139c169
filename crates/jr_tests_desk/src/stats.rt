use crate::asserts::same;
use crate::plans::{checked, plan_of};
use jr_desk::Desk;
use jr_model::Totals;
use jr_plan::Plan;
use jr_stats::{accepted_is_a_trace, numbers_fit, report, totals_text, trace, trace_is_accepted};
use std::alloc::Global;
use std::process::Abort;
use std::test::Fail;

// Two writes of 4096 bytes that are checked by their pattern.
fn planned(alloc: Global) -> Result<Plan, Fail> {
    plan_of(alloc, &[(checked(2), "f", 0)])
}

fn done(good: u64, bad: u64) -> Totals {
    Totals {
        reads: 0,
        rbytes: 0,
        writes: 2,
        wbytes: 8192,
        checks: 2,
        good,
        bad,
        skipped: 0,
        void: 0,
        faults: 0,
    }
}

const NOTHING: &[u8] =
    b"w: clone=0 reads=0 rbytes=0 writes=0 wbytes=0 checks=0 good=0 bad=0 skipped=0 void=0 faults=0\n";

const ONE_BAD: &[u8] =
    b"w: clone=0 reads=0 rbytes=0 writes=2 wbytes=8192 checks=2 good=1 bad=1 skipped=0 void=0 faults=0\n";

fn assert_one_bad(rt: &impl Abort, alloc: Global, plan: &Plan) -> Result<(), Fail> {
    let lines = totals_text(alloc, plan, &[done(1, 1)])?;
    same(rt, lines.as_slice(), ONE_BAD);
    Ok(())
}

fn assert_traced(rt: &impl Abort, alloc: Global, desk: &Desk, text: &[u8]) -> Result<(), Fail> {
    let events = trace(alloc, desk)?;
    same(rt, events.as_slice(), text);
    Ok(())
}

// Nothing has ended.
fn assert_nothing_done(rt: &impl Abort, alloc: Global, desk: &Desk) -> Result<(), Fail> {
    let lines = report(alloc, desk)?;
    same(rt, lines.as_slice(), NOTHING);
    Ok(())
}

#[test]
fn prints_what_a_desk_has_started(rt: HostRuntime) -> Result<(), Fail> {
    let alloc = rt.alloc();
    let plan = planned(alloc)?;
    assert_one_bad(&rt, alloc, &plan)?;
    let mut desk = Desk::new(alloc, plan)?;
    assert_traced(&rt, alloc, &desk, b"")?;
    same(&rt, desk.take(3).is_ok(), true);
    assert_traced(&rt, alloc, &desk, b"I 3 0 0 0 0\n")?;
    assert_nothing_done(&rt, alloc, &desk)
}

// A law does nothing when it is called: that each can be called is all that there is to see.
#[test]
fn the_laws_can_be_called() {
    accepted_is_a_trace();
    numbers_fit();
    trace_is_accepted();
}
