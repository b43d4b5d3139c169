// The trace of a worked run of two clones that decline to wait: both write the first block at once, so neither write is checked. The
// second clone writes the second block while the first one checks it, so that check is void.
use crate::asserts::same;
use crate::plans::{checked, plan_of};
use jr_model::Totals;
use jr_plan::{Plan, Workload};
use jr_replay_traces::check_trace;
use jr_run_faults::TraceFault;
use std::alloc::Global;
use std::process::Abort;
use std::test::Fail;

// The lines before the first verdict, which is on line 11.
const BEGUN: &[u8] = b"I 0 0 0 0 0
I 1 1 1 0 0
E 0 0 whole
E 1 1 whole
I 0 2 0 0 1
E 0 2 whole
S 0 0 0 0
P 0 3 0 0 1
I 1 4 1 0 1
E 0 3 whole
";

// The lines before the second verdict, which is on line 16.
const BETWEEN: &[u8] = b"E 1 4 whole
S 0 1 0 0
P 0 5 1 0 1
E 0 5 whole
";

// The trace, with these words as its verdicts.
fn text_with(alloc: Global, first: &[u8], second: &[u8]) -> Result<Vec<u8>, Fail> {
    let parts = [
        BEGUN, b"V 1 3 ", first, b"\n", BETWEEN, b"V 0 5 ", second, b"\n",
    ];
    let mut text = Vec::new(alloc);
    for part in parts {
        text.extend_from_slice(part)?;
    }
    Ok(text)
}

// Two clones over one file, of which these decline.
fn declined(alloc: Global, first: bool, second: bool) -> Result<Plan, Fail> {
    let first = Workload {
        declines: first,
        ..checked(2)
    };
    let second = Workload {
        declines: second,
        ..checked(2)
    };
    plan_of(alloc, &[(first, "f", 0), (second, "f", 0)])
}

// Why the trace with these verdicts isn't one of the plan, if it isn't.
fn fault_of(
    alloc: Global,
    plan: &Plan,
    first: &[u8],
    second: &[u8],
) -> Result<Option<TraceFault>, Fail> {
    let text = text_with(alloc, first, second)?;
    Ok(check_trace(alloc, plan, text.as_slice()).err())
}

#[test]
fn a_check_that_raced_stands_as_void(rt: HostRuntime) -> Result<(), Fail> {
    let plan = declined(rt.alloc(), true, true)?;
    let rows: [(&[u8], &[u8], Option<TraceFault>); 5] = [
        (b"void", b"good", None),
        (b"good", b"good", Some(TraceFault::Illegal(11))),
        (b"byte 0", b"good", Some(TraceFault::Illegal(11))),
        (b"void", b"void", Some(TraceFault::Illegal(16))),
        (b"none", b"good", Some(TraceFault::Line(11))),
    ];
    for (first, second, fault) in rows {
        same(&rt, fault_of(rt.alloc(), &plan, first, second)?, fault);
    }
    Ok(())
}

#[test]
fn its_totals_count_what_is_void(rt: HostRuntime) -> Result<(), Fail> {
    let plan = declined(rt.alloc(), true, true)?;
    let text = text_with(rt.alloc(), b"void", b"good")?;
    let first = Totals {
        reads: 0,
        rbytes: 0,
        writes: 2,
        wbytes: 8192,
        checks: 0,
        good: 0,
        bad: 0,
        skipped: 1,
        void: 1,
        faults: 0,
    };
    let second = Totals {
        checks: 1,
        good: 1,
        void: 0,
        ..first
    };
    match check_trace(rt.alloc(), &plan, text.as_slice()) {
        Ok(totals) => same(&rt, totals.as_slice(), [first, second].as_slice()),
        Err(_) => return Err(Fail::from("a trace of the plan")),
    }
    Ok(())
}

// One that declines is enough; where neither does, the second write waits.
#[test]
fn one_clone_that_declines_is_enough(rt: HostRuntime) -> Result<(), Fail> {
    let waits = Some(TraceFault::Illegal(2));
    let rows = [
        (true, false, None),
        (false, true, None),
        (false, false, waits),
    ];
    for (first, second, fault) in rows {
        let plan = declined(rt.alloc(), first, second)?;
        same(&rt, fault_of(rt.alloc(), &plan, b"void", b"good")?, fault);
    }
    Ok(())
}
