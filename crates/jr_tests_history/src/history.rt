use crate::asserts::same;
use jr_model::{Event, IssueKind, Outcome, Piece, Verdict, What, WriteId};
use jr_replay_history::{PART, Past, is_intact, last_write, part_of};
use std::alloc::Global;
use std::process::Abort;
use std::test::Fail;

// Write k of clone 1's pass 2.
fn write(number: u32) -> WriteId {
    WriteId {
        clone: 1,
        pass: 2,
        number,
    }
}

// Block x of 1024 bytes of the first file.
fn block(x: u8) -> Piece {
    Piece {
        file: 0,
        offset: 1024 * u64::from(x),
        len: 1024,
    }
}

fn issue(number: u32, piece: Piece) -> Event {
    issue_as(IssueKind::Write, number, piece)
}

fn issue_as(kind: IssueKind, number: u32, piece: Piece) -> Event {
    Event::Issue {
        worker: 0,
        kind,
        write: write(number),
        piece,
    }
}

fn probe(number: u32, piece: Piece) -> Event {
    Event::Probe {
        worker: 0,
        write: write(number),
        piece,
    }
}

fn end(io: u32, outcome: Outcome) -> Event {
    Event::End {
        worker: 0,
        io,
        outcome,
    }
}

fn verdict(io: u32, verdict: Verdict) -> Event {
    Event::Verdict {
        worker: 0,
        io,
        verdict,
    }
}

// The history of these events, one after another.
fn past_of(alloc: Global, events: &[Event]) -> Result<Past, Fail> {
    let mut past = Past::new(alloc, &[])?;
    for event in events {
        past = past.followed_by(alloc, *event)?;
    }
    Ok(past)
}

// Two writes, the first checked and the second skipped; then a third that is in flight.
fn run() -> [Event; 9] {
    [
        issue(0, block(0)),
        end(0, Outcome::Whole),
        issue(1, block(1)),
        end(1, Outcome::Whole),
        probe(0, block(0)),
        end(2, Outcome::Whole),
        verdict(2, Verdict::Good),
        Event::Skip {
            worker: 0,
            write: write(1),
        },
        issue(2, block(2)),
    ]
}

#[test]
fn a_run_event_by_event(rt: HostRuntime) -> Result<(), Fail> {
    let events = run();
    let flying = [1, 0, 1, 0, 1, 0, 0, 0, 1];
    let waiting = [0, 0, 0, 0, 0, 1, 0, 0, 0];
    let mut past = Past::new(rt.alloc(), &[])?;
    for ((event, flies), waits) in events.iter().zip(flying).zip(waiting) {
        past = past.followed_by(rt.alloc(), *event)?;
        assert_under_way(&rt, &past, flies, waits);
    }
    assert_ran(&rt, &past, &events);
    Ok(())
}

// A checked read, and then one that isn't checked.
#[test]
fn a_checked_read_awaits_its_verdict(rt: HostRuntime) -> Result<(), Fail> {
    let events = [
        issue_as(IssueKind::ReadCheck, 0, block(0)),
        end(0, Outcome::Whole),
        issue_as(IssueKind::Read, 1, block(1)),
        end(1, Outcome::Whole),
        verdict(0, Verdict::Bad(What::Header)),
    ];
    let flying = [1, 0, 1, 0, 0];
    let waiting = [0, 1, 1, 1, 0];
    let mut past = Past::new(rt.alloc(), &[])?;
    for ((event, flies), waits) in events.iter().zip(flying).zip(waiting) {
        past = past.followed_by(rt.alloc(), *event)?;
        assert_under_way(&rt, &past, flies, waits);
    }
    same(&rt, past.ledger().is_condemned(1), true);
    Ok(())
}

// So many I/Os fly, and so many checks and checked reads wait for their verdict.
fn assert_under_way(rt: &impl Abort, past: &Past, flies: usize, waits: usize) {
    same(rt, past.in_flight().len(), flies);
    same(rt, past.awaiting().len(), waits);
}

// What was started in the run, and what flies at its end.
fn assert_ran(rt: &impl Abort, past: &Past, events: &[Event]) {
    same(rt, past.events(), events);
    same(rt, past.started().len(), 4);
    same(
        rt,
        past.in_flight().first().map(|io| io.write),
        Some(write(2)),
    );
    same(rt, past.flies(3), true);
    same(rt, past.flies(2), false);
    same(rt, past.flies(4), false);
    same(rt, past.started_at(2).map(|io| io.piece), Some(block(0)));
}

#[test]
fn what_a_run_says(rt: HostRuntime) -> Result<(), Fail> {
    let past = past_of(rt.alloc(), &run())?;
    let ledger = past.ledger();
    same(&rt, ledger.len(), 9);
    same(&rt, ledger.outcome_of(2), Some(Outcome::Whole));
    same(&rt, ledger.outcome_of(3), None);
    same(&rt, ledger.is_judged(2), true);
    same(&rt, ledger.is_judged(1), false);
    same(&rt, ledger.issued_count(1, 2), 3);
    same(&rt, ledger.issued_count(2, 1), 0);
    same(&rt, ledger.is_taken_up(&write(0)), true);
    same(&rt, ledger.is_taken_up(&write(1)), true);
    same(&rt, ledger.is_taken_up(&write(2)), false);
    same(&rt, ledger.is_settled(&write(0)), true);
    same(&rt, ledger.is_settled(&write(1)), true);
    same(&rt, ledger.is_settled(&write(2)), false);
    same(&rt, ledger.is_faulty(1), false);
    same(&rt, ledger.is_condemned(1), false);
    same(&rt, ledger.written().len(), 2);
    Ok(())
}

#[test]
fn a_check_is_taken_up_before_it_is_settled(rt: HostRuntime) -> Result<(), Fail> {
    let past = past_of(rt.alloc(), &run()[..5])?;
    let ledger = past.ledger();
    let is_open = ledger.is_taken_up(&write(0)) && !ledger.is_settled(&write(0));
    same(&rt, is_open, true);
    Ok(())
}

#[test]
fn faults_and_bad_verdicts_are_of_their_clone(rt: HostRuntime) -> Result<(), Fail> {
    let bad = Verdict::Bad(What::Byte(3));
    let past = past_of(
        rt.alloc(),
        &[
            probe(0, block(0)),
            end(0, Outcome::Short(7)),
            verdict(0, bad),
        ],
    )?;
    assert_of_clone_1(&rt, &past);
    Ok(())
}

// A fault and a bad verdict are of clone 1 alone.
fn assert_of_clone_1(rt: &impl Abort, past: &Past) {
    same(rt, past.ledger().is_faulty(1), true);
    same(rt, past.ledger().is_faulty(0), false);
    same(rt, past.ledger().is_condemned(1), true);
    same(rt, past.ledger().is_condemned(0), false);
}

// No run has such a history: the I/O ends before it is issued, and ends twice.
#[test]
fn an_end_before_its_start_counts(rt: HostRuntime) -> Result<(), Fail> {
    let past = past_of(
        rt.alloc(),
        &[
            end(0, Outcome::Whole),
            end(0, Outcome::Failed),
            issue(0, block(0)),
        ],
    )?;
    same(&rt, past.in_flight().len(), 0);
    same(&rt, past.ledger().outcome_of(0), Some(Outcome::Whole));
    same(&rt, past.ledger().is_faulty(1), true);
    same(&rt, past.ledger().written().len(), 2);
    same(&rt, last_write(&past, 0, 0), None);
    Ok(())
}

#[test]
fn the_last_write_of_a_block_is_the_one_that_ended_last(rt: HostRuntime) -> Result<(), Fail> {
    let events = [
        issue(0, block(0)),
        end(0, Outcome::Whole),
        issue(1, block(0)),
        end(1, Outcome::Whole),
    ];
    let before = past_of(rt.alloc(), &events[..3])?;
    assert_last(&rt, &before, write(0), write(1));
    let past = past_of(rt.alloc(), &events)?;
    assert_last(&rt, &past, write(1), write(0));
    Ok(())
}

// Two that are in flight at once, and which of them a write overlapped.
#[test]
fn what_a_write_overlaps_in_flight_has_raced(rt: HostRuntime) -> Result<(), Fail> {
    let rows = [
        (issue(0, block(0)), issue(1, block(0)), (true, true)),
        (probe(0, block(0)), issue(1, block(0)), (true, false)),
        (issue(0, block(0)), probe(1, block(0)), (false, true)),
        (probe(0, block(0)), probe(1, block(0)), (false, false)),
        (issue(0, block(0)), issue(1, block(1)), (false, false)),
    ];
    for (first, second, raced) in rows {
        let past = past_of(rt.alloc(), &[first, second])?;
        assert_raced(&rt, &past, raced);
    }
    let apart = [
        issue(0, block(0)),
        end(0, Outcome::Whole),
        issue(1, block(0)),
    ];
    assert_raced(&rt, &past_of(rt.alloc(), &apart)?, (false, false));
    Ok(())
}

// Of the first two I/Os these raced, and no other did.
fn assert_raced(rt: &impl Abort, past: &Past, raced: (bool, bool)) {
    same(rt, (past.has_raced(0), past.has_raced(1)), raced);
    same(rt, past.has_raced(2), false);
}

// Two writes at once, and then a third.
#[test]
fn a_write_that_raced_leaves_no_last_write(rt: HostRuntime) -> Result<(), Fail> {
    let events = [
        issue(0, block(0)),
        issue(1, block(0)),
        end(1, Outcome::Whole),
        end(0, Outcome::Whole),
        issue(2, block(0)),
        end(2, Outcome::Whole),
    ];
    for count in [3, 4, 5] {
        let before = past_of(rt.alloc(), &events[..count])?;
        same(&rt, last_write(&before, 0, 1), None);
    }
    let past = past_of(rt.alloc(), &events)?;
    assert_raced(&rt, &past, (true, true));
    assert_last(&rt, &past, write(2), write(1));
    Ok(())
}

// The first piece has this last write, which is intact as the other isn't, and nothing else is written.
fn assert_last(rt: &impl Abort, past: &Past, last: WriteId, other: WriteId) {
    same(rt, last_write(past, 0, 1), Some(last));
    same(rt, last_write(past, 0, 2), None);
    same(rt, last_write(past, 1, 1), None);
    same(rt, is_intact(past, &last, &block(0)), true);
    same(rt, is_intact(past, &other, &block(0)), false);
}

// So many bytes of the first file, from an offset on.
fn bytes(offset: u64, len: u32) -> Piece {
    Piece {
        file: 0,
        offset,
        len,
    }
}

// The first write lies over the border between the first two parts, the second behind it.
#[test]
fn a_piece_over_a_border_lies_over_both_parts(rt: HostRuntime) -> Result<(), Fail> {
    let over = bytes(64_512, 2048);
    let behind = bytes(65_536, 1024);
    let events = [
        issue(0, over),
        end(0, Outcome::Whole),
        issue(1, behind),
        end(1, Outcome::Whole),
    ];
    let before = past_of(rt.alloc(), &events[..2])?;
    let past = past_of(rt.alloc(), &events)?;
    assert_parts(&rt, &past);
    assert_border(&rt, &past);
    assert_overwritten(&rt, &before, &past, &over, &behind);
    Ok(())
}

// A part is 64 KiB, and what ended over one is known of each part.
fn assert_parts(rt: &impl Abort, past: &Past) {
    same(rt, PART, 65_536);
    same(rt, part_of(127), 0);
    same(rt, part_of(128), 1);
    same(rt, past.ledger().ends_over(0, 0).len(), 1);
    same(rt, past.ledger().ends_over(0, 1).len(), 2);
    same(rt, past.ledger().ends_over(0, 2).len(), 0);
    same(rt, past.ledger().ends_over(1, 0).len(), 0);
}

// The last writes of the blocks before and behind the border.
fn assert_border(rt: &impl Abort, past: &Past) {
    let last = [
        None,
        Some(write(0)),
        Some(write(0)),
        Some(write(1)),
        Some(write(1)),
        None,
    ];
    for (block, wanted) in (125..131).zip(last) {
        same(rt, (block, last_write(past, 0, block)), (block, wanted));
    }
}

// The first write is intact before the second alone.
fn assert_overwritten(rt: &impl Abort, before: &Past, past: &Past, over: &Piece, behind: &Piece) {
    same(rt, is_intact(before, &write(0), over), true);
    same(rt, is_intact(past, &write(0), over), false);
    same(rt, is_intact(past, &write(1), behind), true);
}

// A piece of four parts, of which a later write covers the third.
#[test]
fn a_large_piece_lies_over_each_of_its_parts(rt: HostRuntime) -> Result<(), Fail> {
    let large = bytes(0, 262_144);
    let third = bytes(131_072, 65_536);
    let events = [
        issue(0, large),
        end(0, Outcome::Whole),
        issue(1, third),
        end(1, Outcome::Whole),
    ];
    let past = past_of(rt.alloc(), &events)?;
    let last = [
        (0, write(0)),
        (128, write(0)),
        (256, write(1)),
        (384, write(0)),
    ];
    for (block, wanted) in last {
        same(
            &rt,
            (block, last_write(&past, 0, block)),
            (block, Some(wanted)),
        );
    }
    same(&rt, last_write(&past, 0, 512), None);
    same(&rt, is_intact(&past, &write(0), &large), false);
    Ok(())
}
