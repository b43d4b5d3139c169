use crate::asserts::same;
use crate::folders::{fresh_folder, path_in, plan_of};
use crate::ledgers::write;
use jr_ledger::{LedgerLine, SyncId, read_lines};
use jr_ledger_run::RunLedger;
use jr_model::Outcome;
use jr_plan::Plan;
use std::alloc::Global;
use std::fs::{File, OpenOptions};
use std::io::ErrorKind;
use std::process::Abort;
use std::rt::Files;
use std::sync::Wait;
use std::test::Fail;
use std::{fs, process};

const FIRST: SyncId = SyncId { file: 0, number: 0 };

const SECOND: SyncId = SyncId { file: 0, number: 1 };

// A file that is new.
fn made<R: Files<File = File>>(rt: &R, path: &str) -> Result<File, Fail> {
    Ok(OpenOptions::new().write(true).create(true).open(rt, path)?)
}

// Three writes, of which the second failed: after each two the file is synced.
fn record<R: Wait>(rt: &R, ledger: &RunLedger) {
    ledger.write_out();
    for (number, outcome) in [
        (0, Outcome::Whole),
        (1, Outcome::Failed),
        (2, Outcome::Whole),
    ] {
        if let Some(mut lines) = ledger.lines(rt) {
            lines.write_ended(&write(number), &outcome);
            ledger.send(lines);
        }
        if ledger.count_write(0) {
            ledger.sync(0);
        }
    }
    let sync = ledger.sync_begins(0);
    ledger.sync_returned(sync, false);
    // (what a failed sync has lost isn't promised by a later one)
    let later = ledger.sync_begins(0);
    ledger.sync_returned(later, true);
}

fn assert_recorded(rt: &impl Abort, lines: &[LedgerLine]) {
    let wanted = [
        LedgerLine::Written(write(0)),
        LedgerLine::Begun(FIRST),
        LedgerLine::Returned(FIRST),
        LedgerLine::Written(write(2)),
        LedgerLine::Begun(SECOND),
    ];
    same(rt, lines.len(), wanted.len());
    for (line, wanted) in lines.iter().zip(wanted.iter()) {
        same(rt, *line, *wanted);
    }
}

// A ledger that goes to a file of this folder. (Each of these functions keeps one or two things that are given back: a test of many costs
// minutes.)
fn ledger_in<R: Files<File = File>>(
    rt: &R,
    alloc: Global,
    plan: &Plan,
    folder: &str,
    every: Option<u32>,
) -> Result<RunLedger, Fail> {
    let path = path_in(alloc, folder, "lines")?;
    let out = made(rt, path.as_str())?;
    Ok(RunLedger::new(alloc, plan, Some(out), every)?)
}

// One that syncs a file of the folder after each two of its writes.
fn syncing_in<R: Files<File = File>>(
    rt: &R,
    alloc: Global,
    plan: &Plan,
    folder: &str,
) -> Result<RunLedger, Fail> {
    let ledger = ledger_in(rt, alloc, plan, folder, Some(2))?;
    let files = one_file(rt, alloc, folder)?;
    ledger.sync_these(alloc, files)?;
    Ok(ledger)
}

fn one_file<R: Files<File = File>>(rt: &R, alloc: Global, folder: &str) -> Result<Vec<File>, Fail> {
    let path = path_in(alloc, folder, "data")?;
    let mut files = Vec::new(alloc);
    files.push(made(rt, path.as_str())?)?;
    Ok(files)
}

// What has gone out of it.
fn lines_in<R: Files<File = File> + AllocGlobal>(
    rt: &R,
    alloc: Global,
    plan: &Plan,
    folder: &str,
) -> Result<Vec<LedgerLine>, Fail> {
    let path = path_in(alloc, folder, "lines")?;
    let text = fs::read(rt, path.as_str())?;
    Ok(read_lines(alloc, plan, text.as_slice())?)
}

fn recorded_in<R: Files<File = File> + AllocGlobal + Wait + Abort>(
    rt: &R,
    alloc: Global,
    folder: &str,
) -> Result<Vec<LedgerLine>, Fail> {
    let plan = plan_of(alloc, "f", 8)?;
    let ledger = syncing_in(rt, alloc, &plan, folder)?;
    record(rt, &ledger);
    same(rt, ledger.is_cut(), false);
    same(rt, ledger.cut_by().is_some(), false);
    same(rt, ledger.unsynced().is_some(), false);
    lines_in(rt, alloc, &plan, folder)
}

#[test]
fn lines_go_out_as_it_happens(rt: HostRuntime) -> Result<(), Fail> {
    let folder = fresh_folder(&rt, process::id(rt.process()), "ledger")?;
    let recorded = recorded_in(&rt, rt.alloc(), folder.as_str())?;
    fs::remove_dir_all(&rt, folder.as_str())?;
    assert_recorded(&rt, recorded.as_slice());
    Ok(())
}

fn add_write<R: Wait>(rt: &R, ledger: &RunLedger, number: u32, outcome: Outcome) {
    if let Some(mut lines) = ledger.lines(rt) {
        lines.write_ended(&write(number), &outcome);
        ledger.send(lines);
    }
}

// A step of a run: the first line of the ledger, a write, one that failed, one more that is whole, a sync that begins, and its return.
fn take_step<R: Wait>(rt: &R, ledger: &RunLedger, step: usize) {
    match step {
        0 => ledger.write_out(),
        1 => add_write(rt, ledger, 0, Outcome::Whole),
        2 => add_write(rt, ledger, 1, Outcome::Failed),
        3 => add_write(rt, ledger, 2, Outcome::Whole),
        4 => {
            let _sync = ledger.sync_begins(0);
        }
        _ => ledger.sync_returned(Some(FIRST), true),
    }
}

// How many lines have gone out after each of these steps, the first line not counted.
fn sent_in<R: Files<File = File> + AllocGlobal + Wait>(
    rt: &R,
    alloc: Global,
    folder: &str,
) -> Result<[usize; 6], Fail> {
    let plan = plan_of(alloc, "f", 8)?;
    let ledger = ledger_in(rt, alloc, &plan, folder, None)?;
    let mut sent = [0; 6];
    for step in 0..6 {
        take_step(rt, &ledger, step);
        sent[step] = lines_in(rt, alloc, &plan, folder)?.len();
    }
    Ok(sent)
}

#[test]
fn each_line_has_gone_out_before_the_next_is_made(rt: HostRuntime) -> Result<(), Fail> {
    let folder = fresh_folder(&rt, process::id(rt.process()), "at_once")?;
    let sent = sent_in(&rt, rt.alloc(), folder.as_str())?;
    fs::remove_dir_all(&rt, folder.as_str())?;
    same(&rt, sent, [0, 1, 1, 2, 3, 4]);
    Ok(())
}

// Notes so many quick writes, which may wait.
fn keep_writes<R: Wait>(rt: &R, ledger: &RunLedger, count: u32) {
    for number in 0..count {
        if let Some(mut lines) = ledger.lines(rt) {
            lines.write_ended(&write(number), &Outcome::Whole);
            ledger.keep_for_later(lines);
        }
    }
}

// A step of a run of quick writes: fifteen of them, one more, one that waits and a sync that begins, and one that waits until the end.
fn take_quick_step<R: Wait>(rt: &R, ledger: &RunLedger, step: usize) {
    match step {
        0 => keep_writes(rt, ledger, 15),
        1 => keep_writes(rt, ledger, 1),
        2 => {
            keep_writes(rt, ledger, 1);
            let _sync = ledger.sync_begins(0);
        }
        3 => keep_writes(rt, ledger, 1),
        _ => ledger.write_out(),
    }
}

// How many lines have gone out after each of these steps.
fn quickly_sent_in<R: Files<File = File> + AllocGlobal + Wait>(
    rt: &R,
    alloc: Global,
    folder: &str,
) -> Result<[usize; 5], Fail> {
    let plan = plan_of(alloc, "f", 8)?;
    let ledger = ledger_in(rt, alloc, &plan, folder, None)?;
    ledger.write_out();
    let mut sent = [0; 5];
    for step in 0..5 {
        take_quick_step(rt, &ledger, step);
        sent[step] = lines_in(rt, alloc, &plan, folder)?.len();
    }
    Ok(sent)
}

#[test]
fn quick_writes_wait_for_the_sixteenth_and_for_a_sync(rt: HostRuntime) -> Result<(), Fail> {
    let folder = fresh_folder(&rt, process::id(rt.process()), "quick")?;
    let sent = quickly_sent_in(&rt, rt.alloc(), folder.as_str())?;
    fs::remove_dir_all(&rt, folder.as_str())?;
    same(&rt, sent, [0, 16, 18, 18, 19]);
    Ok(())
}

#[test]
fn a_ledger_that_cant_be_written_is_cut(rt: HostRuntime) -> Result<(), Fail> {
    let alloc = rt.alloc();
    let plan = plan_of(alloc, "f", 8)?;
    let full = OpenOptions::new().write(true).open(&rt, "/dev/full")?;
    let ledger = RunLedger::new(alloc, &plan, Some(full), None)?;
    ledger.write_out();
    same(&rt, ledger.is_cut(), true);
    let Some(error) = ledger.cut_by() else {
        return Err(Fail::from("no reason"));
    };
    same(&rt, error.kind(), ErrorKind::StorageFull);
    same(&rt, ledger.count_write(0), false);
    Ok(())
}

#[test]
fn nothing_is_recorded_where_only_syncs_are_wanted(rt: HostRuntime) -> Result<(), Fail> {
    let alloc = rt.alloc();
    let plan = plan_of(alloc, "f", 8)?;
    let ledger = RunLedger::new(alloc, &plan, None, Some(1))?;
    ledger.write_out();
    same(&rt, ledger.lines(&rt).is_some(), false);
    same(&rt, ledger.lines_alone().is_some(), false);
    same(&rt, ledger.sync_begins(0).is_some(), false);
    // (it has no files)
    same(&rt, ledger.count_write(0), false);
    Ok(())
}
