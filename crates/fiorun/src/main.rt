// Runs a fio job file, prints its plan, or checks a trace of it: the words of the command line say which.
#![tactic(auto)]

ghost use Rattle.std.specs.Prelude.{IfOk};
ghost use Rattle.jr_replay_traces.specs.Runs.{IsRunIn};

use finished::Finished;
use jr_cli::{print_check, print_stopped_totals};
use jr_cli_grounds::{PlannedJob, add, boxed, job_plan, job_size, print_adapted, shares};
use jr_cli_outputs::Wanted;
use jr_cli_words::{
    Choice, CliFault, TraceReader, answer_words, choose, memory_or, print_plan, read_text,
    read_trace, to_output, workers_of,
};
use jr_engines::Engine;
use jr_plan::Plan;
use jr_replay_traces::Checked;
use jr_system::{Machine, Outlet, Screen, Stop, tell_history, tell_notes};
use judging::judge;
use running::{SharedRun, Turn, run_memory};
use runs::run_job;
use std::alloc::Global;
use std::env::Env;
use std::fs::{File, Files};
use std::process::ExitCode;
use std::{env, fs, io};

mod course;
mod finished;
mod going_on;
mod judged_outputs;
mod judging;
mod rounds;
mod running;
mod runs;
mod series;

fn main(rt: HostRuntime) -> ExitCode {
    let _held = held(&rt);
    // The shares of a memory keep the runtime, so they are boxed here.
    let run_shared = |job: SharedRun| -> Result<Finished, Stop> {
        let mut engines: Vec<Box<dyn Engine + Send>> = Vec::new(rt.alloc());
        let Ok(shared) = rt.clone() else {
            return Err(job.given_up(&rt, CliFault::Memory));
        };
        let shares = match shares(shared, rt.alloc(), &job.plan, job.workers) {
            Ok(shares) => shares,
            Err(fault) => return Err(job.given_up(&rt, fault)),
        };
        for share in shares {
            let added = match boxed(rt.alloc(), share) {
                Ok(share) => add(&mut engines, share),
                Err(fault) => Err(fault),
            };
            if let Err(fault) = added {
                return Err(job.given_up(&rt, fault));
            }
        }
        run_memory(&rt, job, engines)
    };
    let mut has_notes = rt.is_shown();
    let status = match begin(&rt, &mut has_notes) {
        Ok(Turn::Ended(status)) => status,
        Ok(Turn::Ran(ran)) => status_of(&rt, Ok(ran), has_notes),
        Ok(Turn::Shared(job)) => status_of(&rt, run_shared(job), has_notes),
        Err(stop) => status_of(&rt, Err(stop), has_notes),
    };
    ExitCode::from(status)
}

// The exit status of a run, or of the reason why there was none. What there is to say of it is said.
fn status_of<R: Eprint>(rt: &R, ran: Result<Finished, Stop>, has_notes: bool) -> u8 {
    match ran {
        Ok(ran) => told(rt, &ran, has_notes),
        Err(stop) => stop.tell(rt, has_notes),
    }
}

// Says on standard error where a run was interrupted, and the first thing that couldn't be stored or written of it, and gives the exit
// status.
fn told<R: Eprint>(rt: &R, ran: &Finished, has_notes: bool) -> u8 {
    if ran.ended.is_interrupted() {
        let _ = eprintln!(rt; "fiorun: interrupted");
    }
    let missing = ran.missing();
    if let Some(stop) = missing {
        let _ = stop.tell(rt, has_notes);
    }
    ran.ended.status(missing.is_none())
}

// Holds the numbers of standard input, output and error where they are closed, so that no file of a job gets one of them.
fn held<R: Files>(
    rt: &R,
) -> (
    io::Result<R::File>,
    io::Result<R::File>,
    io::Result<R::File>,
) {
    (fs::open(rt, "/"), fs::open(rt, "/"), fs::open(rt, "/"))
}

// Does what the words ask for, but for a run over a shared memory. They may ask for notes.
fn begin<R: Env + Input + Outlet + Machine>(rt: &R, has_notes: &mut bool) -> Result<Turn, Stop> {
    let words = words_of(rt)?;
    match choose(rt.alloc(), words.as_slice()) {
        Ok(choice) => {
            *has_notes |= choice.notes;
            perform(rt, &choice, *has_notes)
        }
        Err(error) => Ok(Turn::Ended(answer_words(rt, words.as_slice(), &error)?)),
    }
}

fn words_of<R: Env + AllocGlobal>(rt: &R) -> Result<Vec<String>, CliFault> {
    match env::args(rt) {
        Ok(words) => Ok(words.collect(rt.alloc())?),
        Err(error) => Err(memory_or(&error, CliFault::Words)),
    }
}

fn perform<R: Input + Outlet + Machine>(
    rt: &R,
    choice: &Choice<'_>,
    has_notes: bool,
) -> Result<Turn, Stop> {
    let size = job_size(choice)?;
    let text = job_text(rt, choice.job)?;
    if choice.adapt {
        return Ok(Turn::Ended(print_adapted(rt, text.as_slice(), size)?));
    }
    let PlannedJob { plan, notes } = job_plan(rt.alloc(), text.as_slice(), choice, has_notes)?;
    if has_notes {
        tell_notes(rt, notes.as_slice());
        if choice.check_trace.is_none() && choice.after.is_none() {
            let workers = workers_of(&plan, choice.workers);
            tell_history(rt, &plan, workers, !choice.parse_only);
        }
    }
    if let Some(path) = choice.after
        && !choice.parse_only
    {
        return Ok(Turn::Ended(judge(rt, choice, path, &plan, text.as_slice())?));
    }
    if choice.parse_only || choice.check_trace.is_some() {
        show(rt, choice, text.as_slice(), &plan)?;
        return Ok(Turn::Ended(0));
    }
    run_job(rt, choice, text.as_slice(), plan, has_notes)
}

// Prints the plan, or checks a trace of it, as the words say.
fn show<R: Outlet + Machine>(
    rt: &R,
    choice: &Choice<'_>,
    text: &[u8],
    plan: &Plan,
) -> Result<(), Stop> {
    match choice.check_trace {
        Some(path) if !choice.parse_only => {
            let wanted = Wanted::of(rt, choice, plan, text)?;
            let checked = check_trace(rt, choice, path, plan, &wanted);
            wanted.outputs.clear(rt);
            checked
        }
        _ => {
            let mut out = to_output(rt)?;
            print_plan(rt.alloc(), plan, &mut out)?;
            Ok(())
        }
    }
}

// Checks a trace of the plan, and tells of its run what is wanted beside the totals.
fn check_trace<R: Outlet + Machine>(
    rt: &R,
    choice: &Choice<'_>,
    path: &str,
    plan: &Plan,
    wanted: &Wanted,
) -> Result<(), Stop> {
    let events = trace_text(rt, path, plan)?;
    let run = print_totals(rt, choice.interrupted, plan, events.as_slice())?;
    wanted.tell_trace(rt, plan, &run)
}

// Prints the totals of a trace, which may be of a run that was stopped where `--interrupted` says so, and gives the run.
fn print_totals<R: Print + AllocGlobal>(
    rt: &R,
    is_part: bool,
    plan: &Plan,
    events: &[u8],
) -> Result<Checked, CliFault>
    ensures { IfOk result (IsRunIn plan.now events.now) }
{
    let mut out = to_output(rt)?;
    if is_part {
        print_stopped_totals(rt.alloc(), plan, events, &mut out)
    } else {
        print_check(rt.alloc(), plan, events, &mut out)
    }
}

// The trace that is to be checked, or so much of it that it is refused as it would be whole.
fn trace_text<R: Files + AllocGlobal>(rt: &R, path: &str, plan: &Plan) -> Result<Vec<u8>, Stop> {
    match fs::open(rt, path) {
        Ok(file) => Ok(read_trace(rt.alloc(), TraceReader::new(file, plan))?),
        Err(error) => Err(Stop::unread_trace(rt.alloc(), path, error)),
    }
}

// The job file, or standard input where none is named.
fn job_text<R: Files + Input + AllocGlobal>(rt: &R, job: Option<&str>) -> Result<Vec<u8>, Stop> {
    match job {
        None => Ok(read_text(rt.alloc(), rt.reader())?),
        Some(path) => match fs::open(rt, path) {
            Ok(file) => Ok(read_text(rt.alloc(), file)?),
            Err(error) => Err(Stop::unread_job(rt.alloc(), path, error)),
        },
    }
}
