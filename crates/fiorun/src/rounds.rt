// Rounds: the job runs again and again, each time with other data, until its time is over, it ran so many times, or something stops it.
use crate::course::{Course, Rounds, or_sums, run_round, tell_line, tell_outputs};
use jr_cli_ends::RunEnd;
use jr_cli_outputs::Unfailing;
use jr_cli_words::{CliFault, to_output};
use jr_rounds::{Limits, is_bad, plan_of_round, tell_round, tell_sums};
use jr_system::{Asked, Machine, Outlet, Stop};
use std::io::Write;

// Runs the rounds, prints what is printed of them and then the sums, and gives how the last one ended.
pub fn carry_out_rounds<R: Outlet + Machine>(
    rt: &R,
    over: &Rounds<'_>,
    limits: Limits,
    course: &mut Course,
) -> Result<Option<RunEnd>, Stop> {
    let mut out = Unfailing::new(to_output(rt)?);
    for round in 0..limits.rounds {
        let ran = run_numbered(rt, over, round, course);
        let ended = or_sums(rt.alloc(), round, over.plan, ran, course, &mut out)?;
        let is_last = ends(limits, round, &ended, over.asked, course);
        tell_one(rt, over, round, &ended, is_last, course, &mut out)?;
        if is_last {
            return Ok(Some(ended));
        }
    }
    Ok(None)
}

// Runs the round of this number.
fn run_numbered<R: Outlet + Machine>(
    rt: &R,
    over: &Rounds<'_>,
    round: u32,
    course: &mut Course,
) -> Result<RunEnd, Stop> {
    match plan_of_round(rt.alloc(), over.plan, round) {
        Ok(plan) => run_round(rt, over, plan, course),
        Err(_) => Err(Stop::from(CliFault::Memory)),
    }
}

// Tells a round, and behind the last one the sums.
fn tell_one<R: Outlet + Machine, V: Write>(
    rt: &R,
    over: &Rounds<'_>,
    round: u32,
    ended: &RunEnd,
    is_last: bool,
    course: &mut Course,
    out: &mut Unfailing<V>,
) -> Result<(), Stop> {
    let wanted = over.wanted;
    tell_round(rt.alloc(), round, &ended.desk, is_last, out)?;
    course.add(&ended.desk, ended.desk.totals());
    tell_line(rt, course, round, &ended.desk, is_last);
    let told = tell_outputs(rt, wanted, course, round, ended);
    course.heed(told);
    let kept = wanted
        .outputs
        .keep_trace(rt, over.choice, round, &ended.desk);
    course.heed(kept);
    if is_last {
        tell_sums(rt.alloc(), over.plan, &course.sums, out)?;
        if out.has_failed {
            course.miss(Stop::from(CliFault::Write));
        }
    }
    Ok(())
}

// Whether no other round follows: this was as many as were wanted, something was bad and the words don't say to go on, it was stopped, its time
// is over, or something couldn't be stored or written.
fn ends(limits: Limits, round: u32, ended: &RunEnd, asked: &Asked, course: &Course) -> bool {
    round >= limits.rounds - 1
        || is_bad(&ended.desk) && !limits.is_keeping_going
        || ended.is_interrupted()
        || asked.is_time_over()
        || course.missing.is_some()
}
