// Lists of steps, with the reply to each.
use crate::asserts::same;
use crate::plans::{checked, plan_of};
use jr_desk::play;
use jr_model::{DeskFault, IoType, Reply, Step, StepReply, Totals};
use jr_plan::Workload;
use std::alloc::Global;
use std::process::Abort;
use std::test::Fail;

// Are these the replies to the steps, and the totals that they come to?
fn assert_played(
    rt: &impl Abort,
    alloc: Global,
    clones: &[(Workload, &str, u64)],
    steps: &[Step],
    replies: &[StepReply],
    totals: &[Totals],
) -> Result<(), Fail> {
    let played = play(alloc, plan_of(alloc, clones)?, steps)?;
    same(rt, played.replies.as_slice(), replies);
    same(rt, played.desk.totals(), totals);
    Ok(())
}

const NOTHING: Totals = Totals {
    reads: 0,
    rbytes: 0,
    writes: 0,
    wbytes: 0,
    checks: 0,
    good: 0,
    bad: 0,
    skipped: 0,
    void: 0,
    faults: 0,
};

// Two writes of 4096 bytes.
const WROTE: Totals = Totals {
    writes: 2,
    wbytes: 8192,
    ..NOTHING
};

#[test]
fn two_in_flight_and_a_flipped_read(rt: HostRuntime) -> Result<(), Fail> {
    let steps = [
        Step::Take(0),
        Step::Take(1),
        Step::Take(0),
        Step::End(1, Reply::Pass),
        Step::Take(1),
        Step::End(0, Reply::Pass),
        Step::Take(0),
        Step::Take(1),
        Step::End(3, Reply::Flip(0)),
        Step::Judge(1, 3),
        Step::End(2, Reply::Pass),
        Step::Take(0),
        Step::Judge(0, 2),
        Step::Take(0),
    ];
    let replies = [
        StepReply::Io(0),
        StepReply::Io(1),
        StepReply::Wait,
        StepReply::Ended,
        StepReply::Wait,
        StepReply::Ended,
        StepReply::Probe(2),
        StepReply::Probe(3),
        StepReply::Ended,
        StepReply::Judged,
        StepReply::Ended,
        StepReply::Wait,
        StepReply::Judged,
        StepReply::Finished,
    ];
    let two_deep = Workload {
        depth: 2,
        ..checked(2)
    };
    let totals = Totals {
        checks: 2,
        good: 1,
        bad: 1,
        ..WROTE
    };
    let clones = [(two_deep, "f", 0)];
    assert_played(&rt, rt.alloc(), &clones, &steps, &replies, &[totals])
}

#[test]
fn two_clones_over_one_file(rt: HostRuntime) -> Result<(), Fail> {
    let steps = [
        Step::Take(0),
        Step::Take(1),
        Step::End(0, Reply::Pass),
        Step::Take(0),
        Step::Take(1),
        Step::End(2, Reply::Pass),
        Step::End(1, Reply::Pass),
        Step::Take(0),
        Step::Take(1),
        Step::End(3, Reply::Pass),
        Step::Judge(0, 3),
        Step::Take(1),
        Step::End(4, Reply::Pass),
        Step::Take(0),
        Step::End(5, Reply::Pass),
        Step::Judge(1, 5),
        Step::Take(0),
        Step::End(6, Reply::Pass),
        Step::Judge(0, 6),
        Step::Take(0),
    ];
    let replies = [
        StepReply::Io(0),
        StepReply::Wait,
        StepReply::Ended,
        StepReply::Io(1),
        StepReply::Io(2),
        StepReply::Ended,
        StepReply::Ended,
        StepReply::Probe(3),
        StepReply::Wait,
        StepReply::Ended,
        StepReply::Judged,
        StepReply::Io(4),
        StepReply::Ended,
        StepReply::Probe(5),
        StepReply::Ended,
        StepReply::Judged,
        StepReply::Probe(6),
        StepReply::Ended,
        StepReply::Judged,
        StepReply::Finished,
    ];
    let first = Totals {
        checks: 1,
        good: 1,
        skipped: 1,
        ..WROTE
    };
    let second = Totals {
        checks: 2,
        good: 2,
        ..WROTE
    };
    let clones = [(checked(2), "f", 0), (checked(2), "f", 0)];
    let totals = [first, second];
    assert_played(&rt, rt.alloc(), &clones, &steps, &replies, &totals)
}

// Checked writes that may overlap.
fn declining(cells: u32) -> Workload {
    Workload {
        declines: true,
        ..checked(cells)
    }
}

// Both write the first block at once, so neither write is checked. The second clone writes the second block while the first one checks it,
// so that check is void.
#[test]
fn two_clones_that_decline(rt: HostRuntime) -> Result<(), Fail> {
    let steps = [
        Step::Take(0),
        Step::Take(1),
        Step::End(0, Reply::Pass),
        Step::End(1, Reply::Pass),
        Step::Take(0),
        Step::End(2, Reply::Pass),
        Step::Take(0),
        Step::Take(1),
        Step::End(3, Reply::Pass),
        Step::Judge(1, 3),
        Step::End(4, Reply::Pass),
        Step::Take(0),
        Step::End(5, Reply::Pass),
        Step::Judge(0, 5),
        Step::Take(0),
    ];
    let replies = [
        StepReply::Io(0),
        StepReply::Io(1),
        StepReply::Ended,
        StepReply::Ended,
        StepReply::Io(2),
        StepReply::Ended,
        StepReply::Probe(3),
        StepReply::Io(4),
        StepReply::Ended,
        StepReply::Judged,
        StepReply::Ended,
        StepReply::Probe(5),
        StepReply::Ended,
        StepReply::Judged,
        StepReply::Finished,
    ];
    let first = Totals {
        skipped: 1,
        void: 1,
        ..WROTE
    };
    let second = Totals {
        checks: 1,
        good: 1,
        skipped: 1,
        ..WROTE
    };
    let clones = [(declining(2), "f", 0), (declining(2), "f", 0)];
    let totals = [first, second];
    assert_played(&rt, rt.alloc(), &clones, &steps, &replies, &totals)
}

// A write of each of two clones, where the second waits for the first.
#[test]
fn a_stonewall_is_waited_for(rt: HostRuntime) -> Result<(), Fail> {
    let steps = [
        Step::Take(0),
        Step::Take(1),
        Step::End(0, Reply::Pass),
        Step::Take(1),
        Step::End(1, Reply::Pass),
        Step::Take(0),
    ];
    let replies = [
        StepReply::Io(0),
        StepReply::Wait,
        StepReply::Ended,
        StepReply::Io(1),
        StepReply::Ended,
        StepReply::Finished,
    ];
    let early = Workload::plain(IoType::Write, 4096, 1);
    let late = Workload {
        phase: 1,
        ..Workload::plain(IoType::Write, 4096, 1)
    };
    let wrote = Totals {
        writes: 1,
        wbytes: 4096,
        ..NOTHING
    };
    let clones = [(early, "a", 0), (late, "b", 0)];
    let totals = [wrote, wrote];
    assert_played(&rt, rt.alloc(), &clones, &steps, &replies, &totals)
}

#[test]
fn refusals_by_name(rt: HostRuntime) -> Result<(), Fail> {
    let steps = [
        Step::Take(0),
        Step::End(9, Reply::Pass),
        Step::Judge(0, 0),
        Step::Stop,
        Step::Take(0),
        Step::End(0, Reply::Pass),
    ];
    let replies = [
        StepReply::Io(0),
        StepReply::Refused(DeskFault::Stranger),
        StepReply::Refused(DeskFault::WrongKind),
        StepReply::Stopped,
        StepReply::Finished,
        StepReply::Refused(DeskFault::Stopped),
    ];
    let clones = [(checked(4), "f", 0)];
    assert_played(&rt, rt.alloc(), &clones, &steps, &replies, &[NOTHING])
}

#[test]
fn a_second_end_is_refused(rt: HostRuntime) -> Result<(), Fail> {
    let steps = [
        Step::Take(0),
        Step::End(0, Reply::Fail),
        Step::End(0, Reply::Pass),
    ];
    let replies = [
        StepReply::Io(0),
        StepReply::Ended,
        StepReply::Refused(DeskFault::Twice),
    ];
    let failed = Totals {
        faults: 1,
        ..NOTHING
    };
    let clones = [(checked(4), "f", 0)];
    assert_played(&rt, rt.alloc(), &clones, &steps, &replies, &[failed])
}
