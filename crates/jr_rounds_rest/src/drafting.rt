ghost use Rattle.std.specs.Prelude.{◌≡◌, ◌<◌, true, length, IfOk};
ghost use Rattle.jr_rounds_rest.specs.NextRound.{drafted, next_round, with_clone_for, with_task, workload_of};

use crate::tasks::Task;
use jr_model::{IoType, Memory};
use jr_plan::{Draft, Plan, Split, SubJob, Workload};
use std::alloc::Global;

// A plan while tasks are put into it, and whether one didn't fit.
#[derive(Drop)]
pub(crate) struct Drafting {
    draft: Draft,
    is_full: bool,
}

/// The plan of the round that goes on with these tasks of a job's plan: a clone for each, from the first on, as long as they fit into one plan.
/// Nothing if there are none. Seeds are this much further on than those of the job, modulo 2^64.
pub fn next_round(
    alloc: Global,
    plan: &Plan,
    by: u64,
    tasks: &[Task],
) -> Result<Option<Plan>, Memory>
    ensures { IfOk result (λ made. made ≡ next_round plan.now by tasks.now) }
{
    let Drafting { draft, is_full: _ } = drafted(alloc, plan, by, tasks)?;
    if draft.clones() == 0 {
        return Ok(None);
    }
    plan.facts();
    Ok(Some(draft.finish(plan.engine(), plan.verifiers())))
}

fn drafted(alloc: Global, plan: &Plan, by: u64, tasks: &[Task]) -> Result<Drafting, Memory>
    ensures { IfOk result (λ all. all ≡ drafted plan.now by tasks.now) }
{
    let mut so_far = Drafting {
        draft: Draft::new(alloc),
        is_full: false,
    };
    for task in tasks {
        so_far = with_task(alloc, plan, by, so_far, task)?;
    }
    Ok(so_far)
}

// The draft with a clone for one task more.
fn with_task(
    alloc: Global,
    plan: &Plan,
    by: u64,
    so_far: Drafting,
    task: &Task,
) -> Result<Drafting, Memory>
    ensures { IfOk result (λ more. more ≡ with_task plan.now by so_far task.now) }
{
    if so_far.is_full {
        return Ok(so_far);
    }
    let place = task.original as usize;
    if place >= plan.clones() {
        return Ok(filled(so_far));
    }
    with_clone_for(alloc, plan, by, so_far, task, plan.clone_at(place))
}

// The draft, into which no task is put any more.
fn filled(so_far: Drafting) -> Drafting
    ensures { result ≡ record so_far { is_full = true } }
{
    let Drafting { draft, is_full: _ } = so_far;
    Drafting {
        draft,
        is_full: true,
    }
}

// The draft with a clone for the task, of this clone of the job, if it fits.
fn with_clone_for(
    alloc: Global,
    plan: &Plan,
    by: u64,
    so_far: Drafting,
    task: &Task,
    job: &SubJob,
) -> Result<Drafting, Memory>
    requires { job.now.file < length plan.now.files }
    ensures { IfOk result (λ more. more ≡ with_clone_for plan.now by so_far task.now job.now) }
{
    let workload = workload_of(job, by, task);
    if so_far.draft.fault(&workload, task.start).is_some() {
        return Ok(filled(so_far));
    }
    let file = String::from_str(alloc, plan.file_name(job.file()))?;
    let Drafting { mut draft, is_full } = so_far;
    match draft.add(alloc, &workload, job.job(), file, task.start) {
        Ok(()) => Ok(Drafting { draft, is_full }),
        Err(_) => Err(Memory),
    }
}

// What a clone does for a task of this clone of a job: what that does, once; a check only reads.
fn workload_of(job: &SubJob, by: u64, task: &Task) -> Workload
    ensures { result ≡ workload_of job.now by task.now }
{
    let block = Split::single(task.cell);
    Workload {
        phase: job.phase(),
        cell: task.cell,
        cells: task.cells,
        io_type: if task.is_check {
            IoType::Read
        } else {
            job.io_type()
        },
        read_percent: job.read_percent(),
        reads: if task.is_check {
            block
        } else {
            *job.read_split()
        },
        writes: if task.is_check {
            block
        } else {
            *job.write_split()
        },
        has_map: job.has_map(),
        seed: job.seed().wrapping_add(by),
        depth: job.depth(),
        passes: 1,
        method: job.method(),
        checks_writes: job.checks_writes(),
        backlog: job.backlog(),
        is_fatal: job.is_fatal(),
        declines: job.declines(),
        direct: job.direct(),
    }
}
