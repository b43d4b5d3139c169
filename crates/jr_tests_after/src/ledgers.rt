use crate::asserts::same;
use crate::folders::plan_of;
use jr_ledger::{LedgerFault, LedgerLine, Recorder, SyncId, job_digest, read_lines};
use jr_model::{Memory, Outcome, WriteId};
use jr_plan::Plan;
use std::alloc::Global;
use std::process::Abort;
use std::test::Fail;

// A write of the only clone's first pass.
pub(crate) fn write(number: u32) -> WriteId {
    WriteId {
        clone: 0,
        pass: 0,
        number,
    }
}

// The ledger of a plan with these lines behind the first.
fn ledger(alloc: Global, plan: &Plan, lines: &str) -> Result<Vec<u8>, Memory> {
    let digest = job_digest(alloc, plan)?;
    let mut text = Vec::new(alloc);
    text.extend_from_slice(b"fiorun ledger 1 ")?;
    text.extend_from_slice(digest.as_bytes())?;
    text.extend_from_slice(lines.as_bytes())?;
    Ok(text)
}

#[test]
fn what_is_recorded_is_read(rt: HostRuntime) -> Result<(), Fail> {
    let alloc = rt.alloc();
    let plan = plan_of(alloc, "f", 8)?;
    let mut recorder = Recorder::new(alloc, &plan)?;
    recorder.write_ended(&write(0), &Outcome::Whole)?;
    recorder.write_ended(&write(1), &Outcome::Failed)?;
    recorder.write_ended(&write(2), &Outcome::Short(512))?;
    same(&rt, recorder.can_begin(1), false);
    if recorder.can_begin(0) {
        let sync = recorder.sync_begins(0)?;
        recorder.sync_returned(&sync, true)?;
    }
    let lines = read_lines(alloc, &plan, recorder.text())?;
    let sync = SyncId { file: 0, number: 0 };
    same(&rt, lines.len(), 3);
    same(
        &rt,
        lines.get(0).copied(),
        Some(LedgerLine::Written(write(0))),
    );
    same(&rt, lines.get(1).copied(), Some(LedgerLine::Begun(sync)));
    same(&rt, lines.get(2).copied(), Some(LedgerLine::Returned(sync)));
    recorder.clear();
    same(&rt, recorder.text().len(), 0);
    Ok(())
}

// What these lines behind the first are refused by.
fn assert_refused(
    rt: &(impl AllocGlobal + Abort),
    plan: &Plan,
    lines: &str,
    fault: LedgerFault,
) -> Result<(), Fail> {
    let alloc = rt.alloc();
    let text = ledger(alloc, plan, lines)?;
    match read_lines(alloc, plan, text.as_slice()) {
        Ok(_) => Err(Fail::from("a faulty ledger is taken")),
        Err(found) => {
            same(rt, found, fault);
            Ok(())
        }
    }
}

#[test]
fn faulty_lines_are_refused_by_number(rt: HostRuntime) -> Result<(), Fail> {
    let plan = plan_of(rt.alloc(), "f", 8)?;
    assert_refused(&rt, &plan, "\nw 0 0\n", LedgerFault::Line(2))?;
    assert_refused(&rt, &plan, "\nw 0 0 0\nx 0 0\n", LedgerFault::Line(3))?;
    assert_refused(&rt, &plan, "\nw 0 0 00\n", LedgerFault::Line(2))?;
    assert_refused(&rt, &plan, "", LedgerFault::Line(1))?;
    assert_refused(&rt, &plan, " 1\n", LedgerFault::Line(1))
}

#[test]
fn the_ledger_of_another_job_is_refused(rt: HostRuntime) -> Result<(), Fail> {
    let alloc = rt.alloc();
    let text = ledger(alloc, &plan_of(alloc, "f", 8)?, "\n")?;
    let other = plan_of(alloc, "f", 9)?;
    match read_lines(alloc, &other, text.as_slice()) {
        Ok(_) => Err(Fail::from("the ledger of another job is taken")),
        Err(found) => {
            same(&rt, found, LedgerFault::OtherJob);
            Ok(())
        }
    }
}

#[test]
fn a_cut_line_is_left_out(rt: HostRuntime) -> Result<(), Fail> {
    let alloc = rt.alloc();
    let plan = plan_of(alloc, "f", 8)?;
    let text = ledger(alloc, &plan, "\nw 0 0 7\nb 0 0\ns 0 0\nw 0 0 ")?;
    let lines = read_lines(alloc, &plan, text.as_slice())?;
    let sync = SyncId { file: 0, number: 0 };
    same(&rt, lines.len(), 3);
    same(
        &rt,
        lines.get(0).copied(),
        Some(LedgerLine::Written(write(7))),
    );
    same(&rt, lines.get(1).copied(), Some(LedgerLine::Begun(sync)));
    same(&rt, lines.get(2).copied(), Some(LedgerLine::Returned(sync)));
    Ok(())
}
