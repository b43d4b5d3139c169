// Going on after faults: what is left of a job after a run in which a fault halted clones is run again, until nothing is left.
use crate::course::{Course, Rounds, or_sums, run_round, tell_line, tell_outputs};
use jr_cli_ends::RunEnd;
use jr_cli_outputs::Unfailing;
use jr_cli_words::{Choice, CliFault, to_output, write_out};
use jr_desk::Desk;
use jr_escape::Escaped;
use jr_model::EngineKind;
use jr_plan::Plan;
use jr_rounds::{is_bad, plan_of_round, seed_offset, tell_round, tell_sums, totals_by_original};
use jr_rounds_rest::{
    Task, clone_goes_on, first_tasks, next_round, parts_text, tasks_left, untried_text,
};
use jr_system::{Machine, Outlet, Stop};
use std::alloc::Global;
use std::io::Write;

// Whether the words ask to go on after faults. They may not together with rounds or a page, nor over several files.
pub fn is_going_on(choice: &Choice<'_>, plan: &Plan, has_rounds: bool) -> Result<bool, CliFault> {
    if !choice.go_on {
        return Ok(false);
    }
    if has_rounds {
        return Err(CliFault::RepeatedGoOn);
    }
    if choice.page.is_some() {
        return Err(CliFault::SeveralRounds);
    }
    if plan.files().len() > 1 {
        return Err(CliFault::GoOnFiles);
    }
    Ok(true)
}

// Says which clones don't go on.
pub fn tell_staying<R: Eprint>(rt: &R, plan: &Plan) {
    for i in 0..plan.clones() {
        let job = plan.clone_at(i);
        if !clone_goes_on(plan, job) {
            let name = job.job();
            let name = Escaped(&name);
            let _ = eprintln!(rt;
                "fiorun: {name}: clone {i} doesn't go on after a fault: it isn't in order, or another clone writes where it does"
            );
        }
    }
}

// Runs the plan and then, round by round, what is left of it after faults; prints what is printed of the rounds, and gives how the last one
// ended.
pub fn run_parts<R: Outlet + Machine>(
    rt: &R,
    over: &Rounds<'_>,
    course: &mut Course,
) -> Result<Option<RunEnd>, Stop> {
    let mut todo = ToDo::new(rt.alloc(), over.plan)?;
    let first = todo.whole(rt.alloc())?;
    let mut out = Unfailing::new(to_output(rt)?);
    run_tasks(rt, over, first, &mut todo, course, &mut out)
}

// Runs this part, and then what is still to be done, round by round, and gives how the last round ended. (There are never so many that none
// is the last.)
fn run_tasks<R: Outlet + Machine, V: Write>(
    rt: &R,
    over: &Rounds<'_>,
    first: Plan,
    todo: &mut ToDo<'_>,
    course: &mut Course,
    out: &mut Unfailing<V>,
) -> Result<Option<RunEnd>, Stop> {
    let mut part = first;
    for round in 0..u32::MAX {
        let ran = run_round(rt, over, part, course);
        let ended = or_sums(rt.alloc(), round, over.plan, ran, course, out)?;
        match next_part(rt, over, round, &ended, todo, course, out)? {
            Some(next) => part = next,
            None => return Ok(Some(ended)),
        }
    }
    Ok(None)
}

// Takes in what happened in a round, tells it, and gives the plan of the next one.
fn next_part<R: Outlet + Machine, V: Write>(
    rt: &R,
    over: &Rounds<'_>,
    round: u32,
    ended: &RunEnd,
    todo: &mut ToDo<'_>,
    course: &mut Course,
    out: &mut Unfailing<V>,
) -> Result<Option<Plan>, Stop> {
    let round_tasks = todo.take_in(rt.alloc(), &ended.desk)?;
    let next = todo.next(rt.alloc(), round, ended, course)?;
    let is_last = next.is_none();
    match tell_part(
        rt,
        over,
        round,
        ended,
        &round_tasks,
        is_last,
        todo,
        course,
        out,
    ) {
        Ok(()) => Ok(next),
        Err(stop) => Err(stop),
    }
}

// Tells a round that had these tasks, and behind the last one the sums.
fn tell_part<R: Outlet + Machine, V: Write>(
    rt: &R,
    over: &Rounds<'_>,
    round: u32,
    ended: &RunEnd,
    round_tasks: &[Task],
    is_last: bool,
    todo: &ToDo<'_>,
    course: &mut Course,
    out: &mut Unfailing<V>,
) -> Result<(), Stop> {
    let alloc = rt.alloc();
    if round > 0 && (is_last || is_bad(&ended.desk) || ended.is_interrupted()) {
        print_origins(alloc, round, round_tasks, out)?;
    }
    tell_round(alloc, round, &ended.desk, is_last, out)?;
    add_part(alloc, over.plan, round_tasks, &ended.desk, course)?;
    tell_line(rt, course, round, &ended.desk, is_last);
    let told = tell_outputs(rt, over.wanted, course, round, ended);
    course.heed(told);
    if is_last {
        todo.tell(alloc, course, out)?;
        if out.has_failed {
            course.miss(Stop::from(CliFault::Write));
        }
    }
    Ok(())
}

// Prints of which clones of the job the clones of a round are parts.
fn print_origins<V: Write>(
    alloc: Global,
    round: u32,
    round_tasks: &[Task],
    out: &mut V,
) -> Result<(), CliFault> {
    let text = parts_text(alloc, round, round_tasks)?;
    write_out(text.as_slice(), out)
}

// Adds what the clones of a round did to the sums of the job's clones that they are parts of.
fn add_part(
    alloc: Global,
    plan: &Plan,
    round_tasks: &[Task],
    desk: &Desk,
    course: &mut Course,
) -> Result<(), CliFault> {
    let originals: Vec<u32> = round_tasks.iter().map(|task| task.original).collect(alloc)?;
    let totals = desk.totals();
    // (there are as many: a round has a clone for each of its tasks)
    if originals.len() != totals.len() {
        return Ok(());
    }
    let sums = totals_by_original(alloc, plan.clones(), originals.as_slice(), totals)?;
    course.add(desk, sums.as_slice());
    Ok(())
}

// What is still to be done of a job: the tasks of the round under way come first.
#[derive(Drop)]
struct ToDo<'a> {
    plan: &'a Plan,
    tasks: Vec<Task>,
}

impl<'a> ToDo<'a> {
    // All of the plan.
    fn new(alloc: Global, plan: &'a Plan) -> Result<ToDo<'a>, CliFault> {
        Ok(ToDo {
            plan,
            tasks: first_tasks(alloc, plan)?,
        })
    }

    // The plan of the first round.
    fn whole(&self, alloc: Global) -> Result<Plan, CliFault> {
        Ok(plan_of_round(alloc, self.plan, 0)?)
    }

    // Takes in what happened in the round under way, of which this is the desk, and gives its tasks. What is left of these comes last.
    fn take_in(&mut self, alloc: Global, desk: &Desk) -> Result<Vec<Task>, CliFault> {
        let count = desk.plan().clones().min(self.tasks.len());
        let (now, later) = self.tasks.as_slice().split_at(count);
        let round_tasks = Vec::from_slice(alloc, now)?;
        let mut tasks = Vec::from_slice(alloc, later)?;
        let left = tasks_left(alloc, self.plan, desk.plan(), now, desk.history())?;
        tasks.extend_from_slice(left.as_slice())?;
        self.tasks = tasks;
        Ok(round_tasks)
    }

    // The plan of the round after this one. There is none if nothing is left, this one was interrupted, a bad verdict is to end the run, or
    // something couldn't be stored or written. Only real files have a next round: nothing else keeps its bytes.
    fn next(
        &self,
        alloc: Global,
        round: u32,
        ended: &RunEnd,
        course: &Course,
    ) -> Result<Option<Plan>, CliFault> {
        let ends = ended.is_interrupted()
            || course.missing.is_some()
            || has_fatal(&ended.desk)
            || !matches!(self.plan.engine(), EngineKind::File)
            || round >= u32::MAX - 1;
        if ends {
            return Ok(None);
        }
        Ok(next_round(
            alloc,
            self.plan,
            seed_offset(round + 1),
            self.tasks.as_slice(),
        )?)
    }

    // Prints the sums, and how many bytes were never tried.
    fn tell<V: Write>(&self, alloc: Global, course: &Course, out: &mut V) -> Result<(), CliFault> {
        tell_sums(alloc, self.plan, &course.sums, out)?;
        let text = untried_text(alloc, self.plan, self.tasks.as_slice())?;
        write_out(text.as_slice(), out)
    }
}

// Whether a bad verdict halted a clone of the desk's run.
fn has_fatal(desk: &Desk) -> bool {
    let plan = desk.plan();
    for (i, totals) in desk.totals().iter().enumerate() {
        if i < plan.clones() && plan.clone_at(i).is_fatal() && totals.bad != 0 {
            return true;
        }
    }
    false
}
