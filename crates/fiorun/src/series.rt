// A series of runs of one job. (Each of these functions keeps one thing that is given back: a proof of one that keeps several costs minutes.)
use crate::course::{Course, Rounds, finished};
use crate::going_on::{run_parts, tell_staying};
use crate::rounds::carry_out_rounds;
use crate::running::ground_of;
use jr_cli_grounds::asked_for;
use jr_cli_outputs::Wanted;
use jr_cli_words::Choice;
use jr_plan::Plan;
use jr_rounds::Limits;
use jr_system::{Asked, Machine, Outlet, Stop, stop_after};
use std::alloc::Global;
use std::sync::Arc;
use std::time::Duration;

// What runs follow the first one.
#[derive(Clone, Copy)]
pub enum Series {
    // The job again, each time with other data, within these limits.
    Again(Limits),
    // What is left of it after faults, until nothing is.
    Rest,
}

impl Series {
    // How long it may take, if there is a limit.
    fn time(self) -> Option<Duration> {
        match self {
            Series::Again(limits) => limits.time,
            Series::Rest => None,
        }
    }
}

// Runs the series that begins with this plan, and gives the exit status.
pub fn run_series<R: Outlet + Machine>(
    rt: &R,
    choice: &Choice<'_>,
    job: &[u8],
    series: Series,
    plan: Plan,
    has_notes: bool,
) -> Result<u8, Stop> {
    if has_notes && let Series::Rest = series {
        tell_staying(rt, &plan);
    }
    let wanted = Wanted::of(rt, choice, &plan, job)?;
    let ended = run_wanted(rt, choice, &wanted, series, &plan, has_notes);
    wanted.outputs.clear(rt);
    ended
}

fn run_wanted<R: Outlet + Machine>(
    rt: &R,
    choice: &Choice<'_>,
    wanted: &Wanted,
    series: Series,
    plan: &Plan,
    has_notes: bool,
) -> Result<u8, Stop> {
    let time = series.time();
    let asked = asked_for(rt, choice, plan, time.is_some())?;
    if let Some(time) = time {
        stop_after(rt, &asked, time)?;
    }
    run_asked(rt, choice, wanted, &asked, series, plan, has_notes)
}

// Runs it once it can be asked to stop.
fn run_asked<R: Outlet + Machine>(
    rt: &R,
    choice: &Choice<'_>,
    wanted: &Wanted,
    asked: &Arc<Asked, Global>,
    series: Series,
    plan: &Plan,
    has_notes: bool,
) -> Result<u8, Stop> {
    let ground = ground_of(rt, choice, wanted, asked, plan)?;
    let over = Rounds {
        choice,
        wanted,
        ground: &ground,
        asked,
        plan,
        has_notes,
    };
    run_over(rt, &over, series)
}

fn run_over<R: Outlet + Machine>(rt: &R, over: &Rounds<'_>, series: Series) -> Result<u8, Stop> {
    let mut course = Course::begun(rt, over.choice, over.plan, over.has_notes)?;
    run_course(rt, over, series, &mut course)
}

fn run_course<R: Outlet + Machine>(
    rt: &R,
    over: &Rounds<'_>,
    series: Series,
    course: &mut Course,
) -> Result<u8, Stop> {
    let last = match series {
        Series::Again(limits) => carry_out_rounds(rt, over, limits, course)?,
        Series::Rest => run_parts(rt, over, course)?,
    };
    Ok(finished(rt, over, &last, course))
}
