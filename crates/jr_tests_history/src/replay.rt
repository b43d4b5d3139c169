use crate::asserts::same;
use crate::plans::{checked, plan_of};
use jr_model::{
    Event, IoType, IssueKind, Method, Outcome, Part, Piece, TicketKind, Verdict, VerifyKind, What,
    WriteId,
};
use jr_plan::{Plan, Workload};
use jr_replay::{allowed, choice, complete};
use jr_replay_history::{Past, is_intact, last_write, started};
use std::alloc::Global;
use std::process::Abort;
use std::test::Fail;

// Write k of a clone's first pass.
fn write(clone: u32, number: u32) -> WriteId {
    WriteId {
        clone,
        pass: 0,
        number,
    }
}

// Block x of 4096 bytes of the first file.
fn block(x: u8) -> Piece {
    Piece {
        file: 0,
        offset: 4096 * u64::from(x),
        len: 4096,
    }
}

fn issue(worker: u32, write: WriteId, piece: Piece) -> Event {
    issue_as(IssueKind::Write, worker, write, piece)
}

fn issue_as(kind: IssueKind, worker: u32, write: WriteId, piece: Piece) -> Event {
    Event::Issue {
        worker,
        kind,
        write,
        piece,
    }
}

fn probe(worker: u32, write: WriteId, piece: Piece) -> Event {
    Event::Probe {
        worker,
        write,
        piece,
    }
}

fn end(worker: u32, io: u32, outcome: Outcome) -> Event {
    Event::End {
        worker,
        io,
        outcome,
    }
}

fn good(worker: u32, io: u32) -> Event {
    said(worker, io, Verdict::Good)
}

fn said(worker: u32, io: u32, verdict: Verdict) -> Event {
    Event::Verdict {
        worker,
        io,
        verdict,
    }
}

// One worker's run of two checked writes.
fn two_checked() -> [Event; 10] {
    [
        issue(0, write(0, 0), block(0)),
        end(0, 0, Outcome::Whole),
        issue(0, write(0, 1), block(1)),
        end(0, 1, Outcome::Whole),
        probe(0, write(0, 0), block(0)),
        end(0, 2, Outcome::Whole),
        good(0, 2),
        probe(0, write(0, 1), block(1)),
        end(0, 3, Outcome::Whole),
        good(0, 3),
    ]
}

// The first events of a history, so many.
fn front(history: &[Event], count: usize) -> &[Event] {
    &history[..count.min(history.len())]
}

// The events up to the first that may not happen after those before it.
fn legal_front(alloc: Global, plan: &Plan, history: &[Event]) -> Result<usize, Fail> {
    for (i, event) in history.iter().enumerate() {
        if !allowed(alloc, plan, &history[..i], event)? {
            return Ok(i);
        }
    }
    Ok(history.len())
}

#[test]
fn a_checked_run_is_legal_and_complete(rt: HostRuntime) -> Result<(), Fail> {
    let plan = plan_of(rt.alloc(), &[(checked(2), "f", 0)])?;
    let history = two_checked();
    same(&rt, legal_front(rt.alloc(), &plan, &history)?, 10);
    same(&rt, complete(rt.alloc(), &plan, &history)?, true);
    same(&rt, complete(rt.alloc(), &plan, front(&history, 9))?, false);
    Ok(())
}

#[test]
fn each_start_of_a_run_is_the_choice(rt: HostRuntime) -> Result<(), Fail> {
    let plan = plan_of(rt.alloc(), &[(checked(2), "f", 0)])?;
    let history = two_checked();
    for start in [0, 2, 4, 7] {
        let step = choice(rt.alloc(), &plan, front(&history, start), 0)?;
        same(&rt, step, history.get(start).copied());
    }
    for start in [1, 3, 5, 8, 9] {
        let step = choice(rt.alloc(), &plan, front(&history, start), 0)?;
        same(&rt, step, None);
    }
    // A verdict to come bars nothing.
    let step = choice(rt.alloc(), &plan, front(&history, 6), 0)?;
    same(&rt, step, Some(history[7]));
    same(&rt, choice(rt.alloc(), &plan, &history, 0)?, None);
    Ok(())
}

// A read of a clone that checks its reads by headers, and then what is said of it.
#[test]
fn a_checked_read_is_said_what_its_own_headers_say(rt: HostRuntime) -> Result<(), Fail> {
    let method = Method {
        kind: VerifyKind::Md5,
        pattern: None,
        interval: 1024,
    };
    let reads = Workload {
        method,
        ..Workload::plain(IoType::Read, 4096, 1)
    };
    let plan = plan_of(rt.alloc(), &[(reads, "f", 0)])?;
    let begun = [
        issue_as(IssueKind::ReadCheck, 0, write(0, 0), block(0)),
        end(0, 0, Outcome::Whole),
    ];
    same(&rt, legal_front(rt.alloc(), &plan, &begun)?, 2);
    same(&rt, complete(rt.alloc(), &plan, &begun)?, false);
    let verdicts = [
        (Verdict::Good, true),
        (Verdict::Bad(What::Header), true),
        (Verdict::Bad(What::Chunk(7, Part::Digest)), true),
        (Verdict::Bad(What::Chunk(8, Part::Header)), false),
        (Verdict::Bad(What::Byte(3)), false),
    ];
    for (verdict, is_allowed) in verdicts {
        let found = allowed(rt.alloc(), &plan, &begun, &said(1, 0, verdict))?;
        same(&rt, (verdict, found), (verdict, is_allowed));
    }
    let plain = issue_as(IssueKind::Read, 0, write(0, 0), block(0));
    same(&rt, allowed(rt.alloc(), &plan, &[], &plain)?, false);
    let history = [begun[0], begun[1], good(0, 0)];
    same(&rt, complete(rt.alloc(), &plan, &history)?, true);
    Ok(())
}

// The rest of what isn't allowed is seen by the check of a trace, which has no pieces.
#[test]
fn another_piece_is_not_allowed(rt: HostRuntime) -> Result<(), Fail> {
    let plan = plan_of(rt.alloc(), &[(checked(2), "f", 0)])?;
    let event = issue(0, write(0, 0), block(1));
    same(&rt, allowed(rt.alloc(), &plan, &[], &event)?, false);
    Ok(())
}

#[test]
fn a_fault_halts_its_clone(rt: HostRuntime) -> Result<(), Fail> {
    let plan = plan_of(rt.alloc(), &[(checked(2), "f", 0)])?;
    let history = [issue(0, write(0, 0), block(0)), end(0, 0, Outcome::Failed)];
    same(&rt, choice(rt.alloc(), &plan, &history, 0)?, None);
    same(&rt, complete(rt.alloc(), &plan, &history)?, true);
    assert_none_written(&rt, rt.alloc(), &history)
}

fn assert_none_written(rt: &impl Abort, alloc: Global, history: &[Event]) -> Result<(), Fail> {
    let past = Past::new(alloc, history)?;
    same(rt, last_write(&past, 0, 0), None);
    Ok(())
}

// Two clones write the same two blocks of one file; the second clone's first write comes between.
fn shared() -> [Event; 6] {
    [
        issue(0, write(0, 0), block(0)),
        end(0, 0, Outcome::Whole),
        issue(0, write(0, 1), block(1)),
        issue(1, write(1, 0), block(0)),
        end(1, 2, Outcome::Whole),
        end(0, 1, Outcome::Whole),
    ]
}

#[test]
fn a_write_that_another_clone_overwrote_is_skipped(rt: HostRuntime) -> Result<(), Fail> {
    let plan = plan_of(rt.alloc(), &[(checked(2), "f", 0), (checked(2), "f", 0)])?;
    let history = shared();
    assert_skipped(&rt, rt.alloc(), &plan, &history)?;
    let past = Past::new(rt.alloc(), &history)?;
    assert_overwritten(&rt, &past);
    Ok(())
}

// The first write of the first clone can only be skipped.
fn assert_skipped(
    rt: &impl Abort,
    alloc: Global,
    plan: &Plan,
    history: &[Event; 6],
) -> Result<(), Fail> {
    same(rt, legal_front(alloc, plan, history)?, 6);
    // It would overlap.
    same(rt, choice(alloc, plan, &history[..1], 1)?, None);
    let skip = Event::Skip {
        worker: 0,
        write: write(0, 0),
    };
    same(rt, choice(alloc, plan, history, 0)?, Some(skip));
    same(rt, allowed(alloc, plan, history, &skip)?, true);
    let check = probe(0, write(0, 0), block(0));
    same(rt, allowed(alloc, plan, history, &check)?, false);
    Ok(())
}

// The second clone's write is the last one of the piece.
fn assert_overwritten(rt: &impl Abort, past: &Past) {
    same(rt, last_write(past, 0, 7), Some(write(1, 0)));
    same(rt, last_write(past, 0, 8), Some(write(0, 1)));
    same(rt, last_write(past, 0, 16), None);
    same(rt, is_intact(past, &write(0, 0), &block(0)), false);
    same(rt, is_intact(past, &write(1, 0), &block(0)), true);
}

// The first clone declines; the second one writes its block while that is written, or checked.
fn declined(alloc: Global) -> Result<Plan, Fail> {
    let declines = Workload {
        declines: true,
        ..checked(1)
    };
    plan_of(alloc, &[(declines, "f", 0), (checked(1), "f", 0)])
}

#[test]
fn writes_overlap_where_one_clone_declines(rt: HostRuntime) -> Result<(), Fail> {
    let plan = declined(rt.alloc())?;
    let history = [
        issue(0, write(0, 0), block(0)),
        issue(1, write(1, 0), block(0)),
        end(0, 0, Outcome::Whole),
        end(1, 1, Outcome::Whole),
    ];
    same(&rt, legal_front(rt.alloc(), &plan, &history)?, 4);
    let step = choice(rt.alloc(), &plan, front(&history, 1), 1)?;
    same(&rt, step, Some(history[1]));
    assert_none_written(&rt, rt.alloc(), &history)?;
    let skip = Event::Skip {
        worker: 0,
        write: write(0, 0),
    };
    same(&rt, choice(rt.alloc(), &plan, &history, 0)?, Some(skip));
    Ok(())
}

#[test]
fn a_check_is_void_exactly_where_it_raced(rt: HostRuntime) -> Result<(), Fail> {
    let plan = declined(rt.alloc())?;
    let begun = [
        issue(0, write(0, 0), block(0)),
        end(0, 0, Outcome::Whole),
        probe(0, write(0, 0), block(0)),
        issue(1, write(1, 0), block(0)),
        end(0, 1, Outcome::Whole),
    ];
    let alone = [begun[0], begun[1], begun[2], begun[4]];
    same(&rt, legal_front(rt.alloc(), &plan, &begun)?, 5);
    let verdicts = [
        (Verdict::Good, true),
        (Verdict::Bad(What::Byte(3)), true),
        (Verdict::Void, false),
    ];
    for (verdict, is_alone) in verdicts {
        let event = said(1, 1, verdict);
        let found = allowed(rt.alloc(), &plan, &alone, &event)?;
        same(&rt, (verdict, found), (verdict, is_alone));
        let found = allowed(rt.alloc(), &plan, &begun, &event)?;
        same(&rt, (verdict, found), (verdict, !is_alone));
    }
    Ok(())
}

#[test]
fn a_later_phase_waits(rt: HostRuntime) -> Result<(), Fail> {
    let early = Workload::plain(IoType::Write, 4096, 1);
    let late = Workload {
        phase: 1,
        ..Workload::plain(IoType::Write, 4096, 1)
    };
    let plan = plan_of(rt.alloc(), &[(early, "a", 0), (late, "b", 0)])?;
    let first = issue(0, write(0, 0), block(0));
    let next = issue(
        0,
        write(1, 0),
        Piece {
            file: 1,
            offset: 0,
            len: 4096,
        },
    );
    let history = [first, end(0, 0, Outcome::Whole), next];
    same(&rt, choice(rt.alloc(), &plan, &history[..1], 0)?, None);
    same(
        &rt,
        choice(rt.alloc(), &plan, &history[..2], 0)?,
        Some(next),
    );
    same(&rt, legal_front(rt.alloc(), &plan, &history)?, 3);
    Ok(())
}

#[test]
fn what_was_started(rt: HostRuntime) -> Result<(), Fail> {
    let history = two_checked();
    let ios = started(rt.alloc(), &history)?;
    same(&rt, ios.len(), 4);
    same(&rt, ios.get(1).map(|io| io.piece), Some(block(1)));
    same(&rt, ios.get(2).map(|io| io.kind), Some(TicketKind::Probe));
    same(&rt, ios.get(3).map(|io| io.write), Some(write(0, 1)));
    let past = Past::new(rt.alloc(), front(&history, 6))?;
    same(&rt, past.in_flight().len(), 0);
    same(&rt, past.awaiting().len(), 1);
    Ok(())
}
