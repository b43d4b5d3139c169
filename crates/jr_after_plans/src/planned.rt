ghost use Rattle.std.specs.Prelude.{◌≡◌, ◌∷◌, [], ◌++◌, All, Some, IfOk, OnOk};
ghost use Rattle.std.specs.Option.{option_to_list};
ghost use Rattle.jr_model.specs.declared.blocks.Dir.TheVariants as direction;
ghost use Rattle.jr_after.specs.Writes.{write_in, write_of_draw, writes_of, writes_of_clone, writes_of_pass};
ghost use Rattle.jr_after_plans.specs.Fits.{CanBeWritten};

use jr_after::PlannedWrite;
use jr_draw::Drawer;
use jr_model::{Dir, Draw, Memory, WriteId};
use jr_plan::{Plan, SubJob};
use std::alloc::Global;

/// All writes of a plan, by clone, pass and number.
pub fn planned_writes(alloc: Global, plan: &Plan) -> Result<Vec<PlannedWrite>, Memory>
    ensures value { IfOk result (λ writes. writes.items ≡ writes_of plan.now) }
    ensures fit { IfOk result (λ writes. All CanBeWritten writes.items) }
{
    // Its contract says what holds of every plan.
    plan.facts();
    all_writes(alloc, plan)
}

fn all_writes(alloc: Global, plan: &Plan) -> Result<Vec<PlannedWrite>, Memory>
    ensures { IfOk result (λ writes. writes.items ≡ writes_of plan.now) }
{
    let mut writes = Vec::new(alloc);
    for i in 0..plan.clones() {
        push_clone(alloc, &mut writes, plan.clone_at(i))?;
    }
    Ok(writes)
}

// Appends the writes of a clone.
fn push_clone(alloc: Global, writes: &mut Vec<PlannedWrite>, job: &SubJob) -> Result<(), Memory>
    ensures { OnOk result (writes.new.items ≡ writes.old.items ++ writes_of_clone job.now) }
{
    for pass in 0..job.passes() {
        push_pass(alloc, writes, job, pass)?;
    }
    Ok(())
}

// Appends the writes of one of its passes.
fn push_pass(
    alloc: Global,
    writes: &mut Vec<PlannedWrite>,
    job: &SubJob,
    pass: u32,
) -> Result<(), Memory>
    ensures { OnOk result (writes.new.items ≡ writes.old.items ++ writes_of_pass job.now pass) }
{
    let mut drawer = Drawer::of_pass(alloc, job, pass)?;
    for _ in 0..job.cells() {
        match drawer.next() {
            Some(draw) => push_draw(writes, job, pass, &draw)?,
            None => return Ok(()),
        }
    }
    Ok(())
}

// Appends a draw, if it is a write.
fn push_draw(
    writes: &mut Vec<PlannedWrite>,
    job: &SubJob,
    pass: u32,
    draw: &Draw,
) -> Result<(), Memory>
    ensures { OnOk result (writes.new.items ≡ writes.old.items ++ option_to_list (write_of_draw job.now pass draw.now)) }
{
    match draw.dir {
        Dir::Read => Ok(()),
        Dir::Write => push(writes, as_write(job, pass, draw)),
    }
}

fn push<T: Copy>(items: &mut Vec<T>, item: T) -> Result<(), Memory>
    ensures { OnOk result (items.new.items ≡ items.old.items ++ item ∷ []) }
{
    items.push(item)?;
    Ok(())
}

// A draw as a write of the plan.
fn as_write(job: &SubJob, pass: u32, draw: &Draw) -> PlannedWrite
    ensures { Some result ≡ write_in job.now pass draw.now direction.Write }
{
    PlannedWrite {
        write: WriteId {
            clone: job.clone_number(),
            pass,
            number: draw.number,
        },
        piece: draw.piece,
        seed: draw.seed,
        method: job.method(),
    }
}
