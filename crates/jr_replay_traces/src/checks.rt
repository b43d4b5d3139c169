ghost use Rattle.std.specs.Prelude.{◌≡◌, ◌∷◌, [], ◌<◌, ◌≤◌, ◌^◌, IfErr, IfOk, MatchOption, Ok, OnOk, length, true};
ghost use Rattle.std.specs.List.{before_first, slice_split};
ghost use Rattle.jr_model.specs.History.{started};
ghost use Rattle.jr_model.specs.Legal.{is_legal};
ghost use Rattle.jr_model.specs.Report.{all_totals};
ghost use Rattle.jr_replay.specs.Courses.{IsCourse};
ghost use Rattle.jr_replay_traces.specs.Runs.{IsRunIn};
ghost use Rattle.jr_replay_traces.specs.TraceChecks.{IsRefusal, check_of, check_of_part, history_in, is_newline, line_event};

use crate::fields::read_line;
use crate::legal::legal_event;
use jr_model::{Event, Totals};
use jr_plan::Plan;
use jr_replay::{Course, is_whole_run};
use jr_replay_history::Ledger;
use jr_run_faults::TraceFault;
use std::alloc::Global;

/// Checks a trace: what each clone did, if the text is the trace of a whole legal run of the plan; else its
/// first faulty line, or that the run goes on.
pub fn check_trace(alloc: Global, plan: &Plan, text: &[u8]) -> Result<Vec<Totals>, TraceFault>
    ensures ok { IfOk result (λ totals. check_of plan.now text.now ≡ Ok totals.items) }
    ensures err { IfErr result (λ fault. IsRefusal fault (check_of plan.now text.now)) }
{
    let course = course_in(alloc, plan, text)?;
    if !is_whole_run(alloc, plan, &course)? {
        return Err(TraceFault::Unfinished);
    }
    let (_, totals) = course.into_parts();
    Ok(totals)
}

/// The totals of a run that may have been stopped: what each clone did, if each line may follow those before it, whether there
/// was more to come or not.
pub fn check_stopped_trace(
    alloc: Global,
    plan: &Plan,
    text: &[u8],
) -> Result<Vec<Totals>, TraceFault>
    ensures ok { IfOk result (λ totals. check_of_part plan.now text.now ≡ Ok totals.items) }
    ensures err { IfErr result (λ fault. IsRefusal fault (check_of_part plan.now text.now)) }
{
    let course = course_in(alloc, plan, text)?;
    let (_, totals) = course.into_parts();
    Ok(totals)
}

/// A trace that was read: the legal history that it says, what each clone did in it, and whether that is all.
#[derive(Drop)]
pub struct Checked {
    /// What happened.
    pub past: Ledger,
    /// What each clone did, in the order of the clones.
    pub totals: Vec<Totals>,
    /// Nothing was to come.
    pub is_complete: bool,
}

/// Reads the trace of a run that may have been stopped.
pub fn read_run(alloc: Global, plan: &Plan, text: &[u8]) -> Result<Checked, TraceFault>
    ensures ok { IfOk result (IsRunIn plan.now text.now) }
    ensures err { IfErr result (λ fault. IsRefusal fault (history_in plan.now text.now)) }
{
    let course = course_in(alloc, plan, text)?;
    let is_complete = is_whole_run(alloc, plan, &course)?;
    let (past, totals) = course.into_parts();
    Ok(Checked {
        past,
        totals,
        is_complete,
    })
}

// The run that a text says.
pub(crate) fn course_in<'a>(
    alloc: Global,
    plan: &'a Plan,
    text: &[u8],
) -> Result<Course<'a>, TraceFault>
    ensures ok { IfOk result (λ course. history_in plan.now text.now ≡ Ok course.history) }
    ensures course { IfOk result (λ course. IsCourse plan.now course) }
    ensures few { IfOk result (λ course. length (started course.history) ≤ 2 ^ 32) }
    ensures err { IfErr result (λ fault. IsRefusal fault (history_in plan.now text.now)) }
{
    let mut course = Course::new(alloc, plan)?;
    let mut rest = text;
    while !rest.is_empty() {
        let number = course.history.len() as u64 + 1;
        let Some((line, after)) = next_line(rest) else {
            return Err(TraceFault::Line(number));
        };
        let event = line_event(alloc, plan, &mut course, number, line)?;
        course = course.followed_by(alloc, plan, event)?;
        rest = after;
    }
    Ok(course)
}

// The first line of a text, and what follows its line feed; nothing where it has none.
fn next_line(text: &[u8]) -> Option<(&[u8], &[u8])>
    ensures { MatchOption result (slice_split is_newline text.now ≡ text.now ∷ [])
        (λ p. (slice_split is_newline text.now ≡ p.0.now ∷ slice_split is_newline p.1.now)
        × (length p.1.now < length text.now)) }
{
    let end = line_len(text);
    if end >= text.len() {
        return None;
    }
    let (line, _) = text.split_at(end);
    let (_, after) = text.split_at(end + 1);
    Some((line, after))
}

// How many bytes stand before the first line feed.
fn line_len(text: &[u8]) -> usize
    ensures value { result ≡ length (before_first is_newline text.now) }
    ensures bound { result < 2 ^ 63 }
{
    text.iter().take_while(|byte| **byte != b'\n').count()
}

// The event of a line after a legal history.
fn line_event<'a>(
    alloc: Global,
    plan: &'a Plan,
    course: &mut Course<'a>,
    number: u64,
    line: &[u8],
) -> Result<Event, TraceFault>
    requires { IsCourse plan.now course.old }
    ensures ok { IfOk result (λ event. line_event plan.now course.old.history number line.now ≡ Ok event) }
    ensures err { IfErr result (λ fault. IsRefusal fault (line_event plan.now course.old.history number line.now)) }
    ensures course { OnOk result (IsCourse plan.now course.new) }
    ensures history { course.new.history ≡ course.old.history }
{
    let Some(entry) = read_line(line) else {
        return Err(TraceFault::Line(number));
    };
    match legal_event(alloc, plan, course, &entry)? {
        Some(event) => Ok(event),
        None => Err(TraceFault::Illegal(number)),
    }
}
