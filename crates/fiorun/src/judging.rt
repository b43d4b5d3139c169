// What is found of a plan's files after a cut, by the ledger of its run.
use crate::judged_outputs::{JudgedFiles, write_judged};
use jr_cli_after::{After, AfterFailure, judge_after};
use jr_cli_grounds::{Taken, refuse_judgement, take_to_read};
use jr_cli_notes::Beginning;
use jr_cli_outputs::Outputs;
use jr_cli_words::{Choice, CliFault, memory_or, read_ledger, to_output};
use jr_ledger::{LedgerLine, read_lines};
use jr_plan::Plan;
use jr_system::{Machine, Outlet, Stop};
use std::fs;
use std::io::Write;

// Judges the files of the plan that this job text makes, by the ledger of this path. The report goes to standard output, and what else is
// asked for to its files. Gives the exit status.
pub fn judge<R: Outlet + Machine>(
    rt: &R,
    choice: &Choice<'_>,
    path: &str,
    plan: &Plan,
    job: &[u8],
) -> Result<u8, Stop> {
    refuse_judgement(rt.alloc(), choice, plan)?;
    let outputs = Outputs::of(rt, choice, plan)?;
    let judged = judge_into(rt, choice, path, plan, job, &outputs);
    outputs.clear(rt);
    judged
}

fn judge_into<R: Outlet + Machine>(
    rt: &R,
    choice: &Choice<'_>,
    path: &str,
    plan: &Plan,
    job: &[u8],
    outputs: &Outputs,
) -> Result<u8, Stop> {
    let begun = Beginning::now(rt);
    let lines = ledger_lines(rt, path, plan)?;
    judge_by(rt, choice, plan, job, outputs, lines.as_slice(), &begun)
}

// Judges the files of the plan by these lines of a ledger.
fn judge_by<R: Outlet + Machine>(
    rt: &R,
    choice: &Choice<'_>,
    plan: &Plan,
    job: &[u8],
    outputs: &Outputs,
    lines: &[LedgerLine],
    begun: &Beginning,
) -> Result<u8, Stop> {
    let kept = outputs.kept(rt)?;
    let files = take_to_read(rt, plan, choice, kept.as_slice())?;
    judge_files(rt, plan, job, outputs, lines, &files, begun)
}

// Judges these files by the lines of a ledger.
fn judge_files<R: Outlet + Machine>(
    rt: &R,
    plan: &Plan,
    job: &[u8],
    outputs: &Outputs,
    lines: &[LedgerLine],
    files: &Taken<'_>,
    begun: &Beginning,
) -> Result<u8, Stop> {
    let after = judged(rt, plan, lines, files)?;
    print_report(rt, plan, &after)?;
    tell_unread(rt, plan, files, &after)?;
    let found = JudgedFiles {
        plan,
        after: &after,
        cached: files.cached_reads(),
        begun,
        job,
    };
    write_judged(rt, outputs, &found)?;
    Ok(after.status())
}

// The lines of the ledger of the plan's run.
fn ledger_lines<R: Outlet>(rt: &R, path: &str, plan: &Plan) -> Result<Vec<LedgerLine>, Stop> {
    let text = match fs::open(rt, path) {
        Ok(file) => read_ledger(rt.alloc(), file)?,
        Err(error) => return Err(Stop::unread_ledger(rt.alloc(), path, error)),
    };
    match read_lines(rt.alloc(), plan, text.as_slice()) {
        Ok(lines) => Ok(lines),
        Err(fault) => Err(Stop::from(CliFault::Ledger(fault))),
    }
}

// What is found in the files, by one engine that reads them.
fn judged<R: Outlet + Machine>(
    rt: &R,
    plan: &Plan,
    lines: &[LedgerLine],
    files: &Taken<'_>,
) -> Result<After, CliFault> {
    let mut engine = files.engine(rt, 0)?;
    files.begin(rt, &engine);
    match judge_after(rt, rt.alloc(), plan, lines, &mut engine) {
        Ok(after) => Ok(after),
        Err(AfterFailure::Memory | AfterFailure::Calls) => Err(CliFault::Memory),
    }
}

// Writes the report to standard output.
fn print_report<R: Outlet>(rt: &R, plan: &Plan, after: &After) -> Result<(), CliFault> {
    let Ok(text) = after.report(rt.alloc(), plan) else {
        return Err(CliFault::Memory);
    };
    let mut out = to_output(rt)?;
    let written = match out.write_all(text.as_slice()) {
        Ok(()) => out.flush(),
        Err(error) => Err(error),
    };
    match written {
        Ok(()) => Ok(()),
        Err(error) => Err(memory_or(&error, CliFault::Write)),
    }
}

// Says on standard error of the chunks that couldn't be read why they couldn't.
fn tell_unread<R: Outlet>(
    rt: &R,
    plan: &Plan,
    files: &Taken<'_>,
    after: &After,
) -> Result<(), CliFault> {
    let Ok(unread) = after.unread(rt.alloc()) else {
        return Err(CliFault::Memory);
    };
    files.tell_judged(rt, plan, unread.as_slice());
    Ok(())
}
