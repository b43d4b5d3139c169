// What is kept from one round of a job to the next, and what is told of each round and of all.
use crate::running::{close, run_silent};
use jr_cli_ends::{RunEnd, Storage};
use jr_cli_grounds::{Ground, Outcome};
use jr_cli_outputs::{Outputs, Wanted};
use jr_cli_words::{Choice, CliFault, workers_of};
use jr_desk::Desk;
use jr_model::Totals;
use jr_plan::Plan;
use jr_rounds::{
    Sums, add_blocks, is_bad, round_blocks, round_line, sums_json, tell_sums, total_of,
};
use jr_system::{Asked, Closed, Machine, Outlet, Pace, Stop};
use std::alloc::Global;
use std::io::Write;
use std::sync::Arc;
use std::time::{Duration, Instant};

// So long at least from one line of a round's end to the next.
const LINE_SECONDS: u64 = 1;

// What the rounds of a job run over, and what is wanted of them.
#[derive(Clone, Copy)]
pub struct Rounds<'a> {
    // The words of the command line.
    pub choice: &'a Choice<'a>,
    // What is told of the rounds.
    pub wanted: &'a Wanted,
    // What their I/Os are carried out over.
    pub ground: &'a Ground<'a>,
    // What is asked of each round.
    pub asked: &'a Arc<Asked, Global>,
    // The plan of the first round.
    pub plan: &'a Plan,
    pub has_notes: bool,
}

// What is kept from one round to the next.
#[derive(Drop)]
pub struct Course {
    has_lines: bool,
    // When the last line of a round's end was printed.
    line: Option<Instant>,
    // What the system said of the files at the end of the last round, and how many reads its cache may have answered before that round.
    closed: Closed,
    cached_before: u64,
    // The blocks that were bad in any round, ascending, where a list of them is wanted.
    blocks: Vec<u64>,
    pub sums: Sums,
    // Whether something was bad or failed in any round.
    is_bad: bool,
    // Why the first thing that couldn't be stored or written couldn't be, where there is one.
    pub missing: Option<Stop>,
}

impl Course {
    // Before the first round, with a line for each if notes are wanted, or how far it is.
    pub fn begun<R: Outlet + Machine>(
        rt: &R,
        choice: &Choice<'_>,
        plan: &Plan,
        has_notes: bool,
    ) -> Result<Course, Stop> {
        let has_lines = has_notes || !matches!(Pace::of(rt, choice.progress), Pace::Never);
        Course::new(rt.alloc(), plan, has_lines)
    }

    fn new(alloc: Global, plan: &Plan, has_lines: bool) -> Result<Course, Stop> {
        let Ok(sums) = Sums::new(alloc, plan) else {
            return Err(Stop::from(CliFault::Memory));
        };
        Ok(Course {
            has_lines,
            line: None,
            closed: Closed::of_no_files(alloc),
            cached_before: 0,
            blocks: Vec::new(alloc),
            sums,
            is_bad: false,
            missing: None,
        })
    }

    // Takes in what the system said at the end of a round.
    pub fn close(&mut self, closed: Closed) {
        self.cached_before = self.closed.cached.unwrap_or(0);
        self.closed = closed;
        if let Some(stop) = self.closed.unstored.take() {
            self.miss(stop);
        }
    }

    // Keeps the first thing that couldn't be stored or written.
    pub fn miss(&mut self, stop: Stop) {
        if self.missing.is_none() {
            self.missing = Some(stop);
        }
    }

    // Keeps why something couldn't be written, if it is the first.
    pub fn heed(&mut self, written: Result<(), Stop>) {
        if let Err(stop) = written {
            self.miss(stop);
        }
    }

    // Adds a round to what is kept: these totals to the sums.
    pub fn add(&mut self, desk: &Desk, totals: &[Totals]) {
        self.is_bad |= is_bad(desk);
        if totals.len() == self.sums.totals().len() {
            self.sums.add(totals);
        }
    }

    // What the system said of the files of the last round.
    fn storage(&self) -> Storage {
        Storage {
            cached: match self.closed.cached {
                Some(reads) => Some(reads.saturating_sub(self.cached_before)),
                None => None,
            },
            direct: self.closed.direct,
            is_stored: self.missing.is_none(),
        }
    }
}

// Runs the plan of one round, and takes in what the system said at its end.
pub fn run_round<R: Outlet + Machine>(
    rt: &R,
    over: &Rounds<'_>,
    plan: Plan,
    course: &mut Course,
) -> Result<RunEnd, Stop> {
    let workers = workers_of(&plan, over.choice.workers);
    let ran = run_silent(rt, over.ground, over.asked, plan, workers)?;
    let (ended, closed) = close(rt, over.ground, over.asked, ran)?.into_parts();
    course.close(closed);
    if over.asked.is_short() && ended.is_interrupted() {
        course.miss(Stop::from(CliFault::Memory));
    }
    Ok(ended)
}

// How a round ended. Where it couldn't be run, the sums of those before it are printed.
pub fn or_sums<V: Write>(
    alloc: Global,
    round: u32,
    plan: &Plan,
    ran: Result<RunEnd, Stop>,
    course: &Course,
    out: &mut V,
) -> Result<RunEnd, Stop> {
    if ran.is_err() && round > 0 {
        let _ = tell_sums(alloc, plan, &course.sums, out);
    }
    ran
}

// Says what came of a round: of the last one, and of those that end a second after the one that was told before.
pub fn tell_line<R: Outlet + Machine>(
    rt: &R,
    course: &mut Course,
    round: u32,
    desk: &Desk,
    is_last: bool,
) {
    let is_due = match course.line {
        Some(line) => line.elapsed(rt).unwrap_or(Duration::ZERO).as_secs() >= LINE_SECONDS,
        None => true,
    };
    if course.has_lines && (is_due || is_last) {
        let done = total_of(desk.totals());
        let _ = eprintln!(rt;
            "fiorun: round {round}: {} I/Os, {} checked, {} bad, {} faults",
            done.reads.saturating_add(done.writes),
            done.checks,
            done.bad,
            done.faults
        );
        course.line = Instant::now(rt).ok();
    }
}

// Says what stood in the round's bad blocks, keeps these, and writes its line of the JSON, where these are wanted.
pub fn tell_outputs<R: Outlet + Machine>(
    rt: &R,
    wanted: &Wanted,
    course: &mut Course,
    round: u32,
    ended: &RunEnd,
) -> Result<(), Stop> {
    wanted.tell_found(rt, ended.desk.plan(), &course.closed);
    keep_blocks(rt.alloc(), &wanted.outputs, course, ended)?;
    if wanted.outputs.has_json() {
        let text = round_text(rt, wanted, course, round, &ended.desk)?;
        wanted.outputs.add_json(rt, text.as_slice(), round == 0)?;
    }
    Ok(())
}

// Keeps the bad blocks of a round, where a list of them is wanted.
fn keep_blocks(
    alloc: Global,
    outputs: &Outputs,
    course: &mut Course,
    ended: &RunEnd,
) -> Result<(), Stop> {
    let Some(size) = outputs.list_size() else {
        return Ok(());
    };
    if ended.found == 0 {
        return Ok(());
    }
    let more = round_blocks(alloc, &ended.desk, size, outputs.lists_faults())?;
    add_blocks(&mut course.blocks, more.as_slice())?;
    Ok(())
}

// A round's line of the JSON.
fn round_text<R: Outlet + Machine>(
    rt: &R,
    wanted: &Wanted,
    course: &Course,
    round: u32,
    desk: &Desk,
) -> Result<Vec<u8>, Stop> {
    let about = wanted.surroundings(rt, desk.plan())?;
    let closed = &course.closed;
    let notes = about.notes(closed.reasons.as_slice(), closed.found.as_slice());
    match round_line(rt.alloc(), round, desk, &notes, &course.storage()) {
        Ok(text) => Ok(text),
        Err(_) => Err(Stop::from(CliFault::Memory)),
    }
}

// Tells what is told at the end of all rounds, and gives the exit status.
pub fn finished<R: Outlet + Machine>(
    rt: &R,
    over: &Rounds<'_>,
    last: &Option<RunEnd>,
    course: &mut Course,
) -> u8 {
    if let Some(ended) = last {
        tell_end(rt, over.wanted, over.plan, ended, course);
    }
    status(rt, last, over.asked, course, over.has_notes)
}

fn tell_end<R: Outlet + Machine>(
    rt: &R,
    wanted: &Wanted,
    plan: &Plan,
    ended: &RunEnd,
    course: &mut Course,
) {
    let summed = write_sums(rt, &wanted.outputs, plan, &course.sums);
    course.heed(summed);
    let told = wanted.tell_last(rt, &ended.desk, &course.closed, course.blocks.as_slice());
    course.heed(told);
}

// Writes the last line of the JSON, where it is wanted.
fn write_sums<R: Outlet>(rt: &R, outputs: &Outputs, plan: &Plan, sums: &Sums) -> Result<(), Stop> {
    if !outputs.has_json() {
        return Ok(());
    }
    let Ok(text) = sums_json(rt.alloc(), plan, sums) else {
        return Err(Stop::from(CliFault::Memory));
    };
    outputs.add_json(rt, text.as_slice(), false)
}

// Says where the last round was interrupted, and the first thing that couldn't be stored or written, and gives the exit status. The end of
// the time that the words gave is no interruption for it.
fn status<R: Eprint>(
    rt: &R,
    last: &Option<RunEnd>,
    asked: &Asked,
    course: &Course,
    has_notes: bool,
) -> u8 {
    let is_interrupted = match last {
        Some(ended) => ended.is_interrupted(),
        None => false,
    };
    if is_interrupted {
        let _ = eprintln!(rt; "fiorun: interrupted");
    }
    if let Some(stop) = &course.missing {
        let _ = stop.tell(rt, has_notes);
    }
    let outcome = Outcome {
        is_bad: course.is_bad,
        is_interrupted,
        is_time_over: asked.is_time_over(),
        is_stored: course.missing.is_none(),
    };
    outcome.status()
}
