ghost use Rattle.std.specs.Prelude.{◌≡◌, ◌++◌, Some, IfOk, OnOk, option_to_list};
ghost use Rattle.jr_model.specs.Pieces.{piece_end};
ghost use Rattle.jr_model.specs.Plan.{clone_of};
ghost use Rattle.jr_rounds_rest.specs.Left.{further, goes_on_at, left_at, left_of, reached, rest_from, tasks_left};

use crate::going::{clone_goes_on, region_end};
use crate::tasks::Task;
use crate::unchecked::{checks_of, unchecked};
use jr_model::{Event, Memory, Piece};
use jr_plan::{Plan, SubJob};
use jr_replay_history::Ledger;
use std::alloc::Global;

/// What is left of the job of this plan after a round of it: the plan of the round, the tasks of its clones in their order, and what
/// happened in it. First what a clone never came to, and then what it wrote that is still to be checked, clone by clone.
pub fn tasks_left(
    alloc: Global,
    plan: &Plan,
    round: &Plan,
    tasks: &[Task],
    history: &[Event],
) -> Result<Vec<Task>, Memory>
    ensures { IfOk result (λ left. left.items ≡ tasks_left plan.now round.now tasks.now history.now) }
{
    let ledger = Ledger::new(alloc, Vec::from_slice(alloc, history)?)?;
    left_after(alloc, plan, round, tasks, &ledger)
}

fn left_after(
    alloc: Global,
    plan: &Plan,
    round: &Plan,
    tasks: &[Task],
    ledger: &Ledger,
) -> Result<Vec<Task>, Memory>
    ensures { IfOk result (λ left. left.items ≡ tasks_left plan.now round.now tasks.now ledger.now) }
{
    let mut left = Vec::new(alloc);
    for (i, task) in tasks.iter().enumerate() {
        add_left(alloc, plan, round, ledger, i, task, &mut left)?;
    }
    Ok(left)
}

// Adds what is left of clone i of the round, whose task this was.
fn add_left(
    alloc: Global,
    plan: &Plan,
    round: &Plan,
    ledger: &Ledger,
    i: usize,
    task: &Task,
    left: &mut Vec<Task>,
) -> Result<(), Memory>
    ensures { OnOk result (left.new.items ≡ left.old.items ++ left_at plan.now round.now ledger.now i task.now) }
{
    if !goes_on_at(plan, task.original) {
        return Ok(());
    }
    if i >= round.clones() {
        return Ok(());
    }
    add_left_of(alloc, task, round.clone_at(i), ledger, left)
}

// Adds what is left of the clone that did a task.
fn add_left_of(
    alloc: Global,
    task: &Task,
    job: &SubJob,
    ledger: &Ledger,
    left: &mut Vec<Task>,
) -> Result<(), Memory>
    ensures { OnOk result (left.new.items ≡ left.old.items ++ left_of ledger.now task.now (Some job.now)) }
{
    let rest = rest_from(task, job, reached(ledger, job));
    let pieces = unchecked(alloc, ledger, job)?;
    let checks = checks_of(alloc, task.original, pieces.as_slice())?;
    if let Some(task) = rest {
        left.push(task)?;
    }
    left.extend_from_slice(checks.as_slice())?;
    Ok(())
}

fn goes_on_at(plan: &Plan, clone: u32) -> bool
    ensures { result ≡ goes_on_at plan.now (clone_of plan.now clone) }
{
    let place = clone as usize;
    place < plan.clones() && clone_goes_on(plan, plan.clone_at(place))
}

// The end of the last piece that the clone issued in its first pass, in bytes.
fn reached(ledger: &Ledger, job: &SubJob) -> u128
    ensures { result ≡ reached ledger.now job.now }
{
    let clone = job.clone_number();
    ledger.events().iter().fold(
        u128::from(job.start()),
        |end, event| further(clone, end, event),
    )
}

fn further(clone: u32, end: u128, event: &Event) -> u128
    ensures { result ≡ further clone end event.now }
{
    match *event {
        Event::Issue { write, piece, .. } if write.clone == clone && write.pass == 0 => {
            end.max(piece_end(&piece))
        }
        _ => end,
    }
}

// The first offset past the piece.
fn piece_end(piece: &Piece) -> u128
    ensures { result ≡ piece_end piece.now }
{
    u128::from(piece.offset) + u128::from(piece.len)
}

// What the clone that did a task never came to, if it came as far as this.
fn rest_from(task: &Task, job: &SubJob, end: u128) -> Option<Task>
    ensures { option_to_list result ≡ rest_from task.now job.now end }
{
    let all = region_end(job);
    if end >= u128::from(all) {
        return None;
    }
    let start = end as u64;
    job.facts();
    let cells = (all - start) / u64::from(job.cell());
    Some(Task {
        original: task.original,
        is_check: task.is_check,
        start,
        cell: job.cell(),
        cells: cells.min(u64::from(job.cells())) as u32,
    })
}
