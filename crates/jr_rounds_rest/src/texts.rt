ghost use Rattle.std.specs.Prelude.{◌≡◌, ◌++◌, IfOk, OnOk};
ghost use Rattle.jr_rounds_rest.specs.Told.{bytes_line, does_word, part_line, part_lines, task_fields, untried_line, untried_text};

use crate::going::clone_goes_on;
use crate::tasks::Task;
use crate::untried::untried_bytes;
use jr_model::{Memory, push_field, push_text};
use jr_plan::{Plan, SubJob};
use std::alloc::Global;

/// A line for each clone of a round that goes on with these tasks: of which clone of the job it is, and what it does.
pub fn parts_text(alloc: Global, round: u32, tasks: &[Task]) -> Result<Vec<u8>, Memory>
    ensures { IfOk result (λ text. text.items ≡ part_lines round 0 tasks.now) }
{
    let mut text = Vec::new(alloc);
    for (clone, task) in tasks.iter().enumerate() {
        push_part(&mut text, round, clone as u64, task)?;
    }
    Ok(text)
}

fn push_part(text: &mut Vec<u8>, round: u32, clone: u64, task: &Task) -> Result<(), Memory>
    ensures { OnOk result (text.new.items ≡ text.old.items ++ part_line round clone task.now) }
{
    push_text(text, "part:")?;
    push_field(text, "round", u64::from(round))?;
    push_field(text, "clone", clone)?;
    push_task(text, task)
}

// What it does, and of which clone of the job it is.
fn push_task(text: &mut Vec<u8>, task: &Task) -> Result<(), Memory>
    ensures { OnOk result (text.new.items ≡ text.old.items ++ task_fields task.now) }
{
    push_field(text, "of", u64::from(task.original))?;
    push_text(text, does_word(task.is_check))?;
    push_field(text, "start", task.start)?;
    push_field(text, "size", u64::from(task.cells) * u64::from(task.cell))?;
    push_text(text, "\n")?;
    Ok(())
}

fn does_word(is_check: bool) -> &'static str
    ensures { result.now ≡ does_word is_check }
{
    if is_check {
        " does=check"
    } else {
        " does=rest"
    }
}

/// A line for each clone of a job that goes on after faults: how many of its bytes these tasks are still to try.
pub fn untried_text(alloc: Global, plan: &Plan, tasks: &[Task]) -> Result<Vec<u8>, Memory>
    ensures { IfOk result (λ text. text.items ≡ untried_text plan.now tasks.now) }
{
    let mut text = Vec::new(alloc);
    for i in 0..plan.clones() {
        push_untried(&mut text, plan, tasks, plan.clone_at(i))?;
    }
    Ok(text)
}

fn push_untried(text: &mut Vec<u8>, plan: &Plan, tasks: &[Task], job: &SubJob) -> Result<(), Memory>
    ensures { OnOk result (text.new.items ≡ text.old.items ++ untried_line plan.now tasks.now job.now) }
{
    if !clone_goes_on(plan, job) {
        return Ok(());
    }
    push_bytes(text, job, untried_bytes(job.clone_number(), tasks))
}

fn push_bytes(text: &mut Vec<u8>, job: &SubJob, bytes: u64) -> Result<(), Memory>
    ensures { OnOk result (text.new.items ≡ text.old.items ++ bytes_line job.now bytes) }
{
    push_text(text, "untried: ")?;
    push_text(text, job.job())?;
    push_text(text, ":")?;
    push_field(text, "clone", u64::from(job.clone_number()))?;
    push_field(text, "bytes", bytes)?;
    push_text(text, "\n")?;
    Ok(())
}
