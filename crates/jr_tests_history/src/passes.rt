use crate::asserts::same;
use crate::plans::plan_of;
use jr_model::{
    Event, IoType, IssueKind, Method, Outcome, Pattern, Piece, Totals, Verdict, VerifyKind, What,
    WriteId,
};
use jr_plan::Workload;
use jr_replay_passes::{Agenda, PlannedClone, PlannedPass, totals};
use std::test::Fail;

const WRITE_0: WriteId = WriteId {
    clone: 0,
    pass: 0,
    number: 0,
};

const WRITE_1: WriteId = WriteId {
    clone: 0,
    pass: 0,
    number: 1,
};

const BLOCK_0: Piece = Piece {
    file: 0,
    offset: 0,
    len: 4096,
};

#[test]
fn totals_of_a_run(rt: HostRuntime) -> Result<(), Fail> {
    let history = [
        Event::Issue {
            worker: 0,
            kind: IssueKind::Write,
            write: WRITE_0,
            piece: BLOCK_0,
        },
        Event::End {
            worker: 0,
            io: 0,
            outcome: Outcome::Whole,
        },
        Event::Probe {
            worker: 0,
            write: WRITE_0,
            piece: BLOCK_0,
        },
        Event::End {
            worker: 0,
            io: 1,
            outcome: Outcome::Whole,
        },
        Event::Verdict {
            worker: 0,
            io: 1,
            verdict: Verdict::Bad(What::Byte(7)),
        },
        Event::Probe {
            worker: 0,
            write: WRITE_0,
            piece: BLOCK_0,
        },
        Event::Issue {
            worker: 0,
            kind: IssueKind::Write,
            write: WRITE_1,
            piece: BLOCK_0,
        },
        Event::End {
            worker: 0,
            io: 2,
            outcome: Outcome::Whole,
        },
        Event::Verdict {
            worker: 0,
            io: 2,
            verdict: Verdict::Void,
        },
        Event::End {
            worker: 0,
            io: 3,
            outcome: Outcome::Whole,
        },
    ];
    let want = Totals {
        reads: 0,
        rbytes: 0,
        writes: 2,
        wbytes: 8192,
        checks: 1,
        good: 0,
        bad: 1,
        skipped: 0,
        void: 1,
        faults: 0,
    };
    same(&rt, totals(rt.alloc(), &history, 0)?, want);
    Ok(())
}

// Two passes of seven writes of 4096 bytes in rounds of three, checked by their pattern.
fn in_rounds() -> Workload {
    Workload {
        backlog: 3,
        passes: 2,
        method: Method {
            kind: VerifyKind::Pattern,
            pattern: Pattern::new(&[1]),
            interval: 0,
        },
        ..Workload::plain(IoType::Write, 4096, 7)
    }
}

#[test]
fn the_parts_of_a_plan(rt: HostRuntime) -> Result<(), Fail> {
    let plan = plan_of(rt.alloc(), &[(in_rounds(), "f", 0)])?;
    let work = Agenda::new(rt.alloc(), &plan)?;
    let clone = work.clones().first().ok_or("no clone")?;
    let pass = PlannedPass::new(rt.alloc(), clone.job(), 1)?;
    let last = Piece {
        offset: 6 * 4096,
        ..BLOCK_0
    };
    same(&rt, pass.draws().len(), 7);
    same(&rt, pass.draws().last().map(|draw| draw.piece), Some(last));
    same(&rt, pass.group_count(), 3);
    same(&rt, pass.group(2).len(), 1);
    same(&rt, pass.group_index(5), 1);
    same(
        &rt,
        PlannedClone::new(rt.alloc(), clone.job())?.passes().len(),
        2,
    );
    Ok(())
}
