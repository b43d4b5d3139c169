ghost use Rattle.std.specs.Prelude.{◌≡◌, IfOk};
ghost use Rattle.jr_rounds_rest.specs.Left.{first_tasks, task_of};

use jr_model::Memory;
use jr_plan::{Plan, SubJob};
use std::alloc::Global;

/// A part of the region of a clone of a job: it is still to be tried, or to be read back and checked.
#[derive(Clone, Copy, PartialEq, Eq)]
pub struct Task {
    /// The clone of the job that it is of.
    pub original: u32,
    /// Whether what the clone wrote there is to be read back and checked; else it never came there.
    pub is_check: bool,
    /// Where it begins in the file, in bytes.
    pub start: u64,
    /// The unit of its region in bytes; of a check the size of each block that was written.
    pub cell: u32,
    /// How many of these it has.
    pub cells: u32,
}

/// What is to be done of a plan at its start, a task for each clone: all of its region.
pub fn first_tasks(alloc: Global, plan: &Plan) -> Result<Vec<Task>, Memory>
    ensures { IfOk result (λ tasks. tasks.items ≡ first_tasks plan.now) }
{
    let mut tasks = Vec::new(alloc);
    for i in 0..plan.clones() {
        tasks.push(task_of(plan.clone_at(i)))?;
    }
    Ok(tasks)
}

fn task_of(job: &SubJob) -> Task
    ensures { result ≡ task_of job.now }
{
    Task {
        original: job.clone_number(),
        is_check: false,
        start: job.start(),
        cell: job.cell(),
        cells: job.cells(),
    }
}
