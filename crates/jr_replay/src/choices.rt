ghost use Rattle.std.specs.Prelude.{◌≡◌, IfOk};
ghost use Rattle.jr_model.specs.Choice.{choice_of_pass, choice_of_clone, choice};

use crate::legal::step_of;
use jr_model::{Event, Memory};
use jr_plan::Plan;
use jr_replay_history::Past;
use jr_replay_passes::{Agenda, PlannedClone, PlannedPass};
use std::alloc::Global;

// The least step of a pass, by number.
fn choice_of_pass(
    work: &Agenda<'_>,
    past: &Past,
    worker: u32,
    clone: &PlannedClone<'_>,
    pass: &PlannedPass<'_>,
) -> Option<Event>
    requires { pass.now.job ≡ clone.now }
    ensures { result ≡ choice_of_pass work.now past.now worker pass.now }
{
    for draw in pass.draws() {
        let step = step_of(work, past, worker, clone, pass, draw);
        if step.is_some() {
            return step;
        }
    }
    None
}

// The least step of a clone.
fn choice_of_clone(
    work: &Agenda<'_>,
    past: &Past,
    worker: u32,
    clone: &PlannedClone<'_>,
) -> Option<Event>
    ensures { result ≡ choice_of_clone work.now past.now worker clone.now }
{
    for pass in clone.passes() {
        let step = choice_of_pass(work, past, worker, clone, pass);
        if step.is_some() {
            return step;
        }
    }
    None
}

/// What is started next, if anything may be: the least step by clone, pass and number.
pub(crate) fn choice_among(work: &Agenda<'_>, past: &Past, worker: u32) -> Option<Event>
    ensures { result ≡ choice work.now past.now worker }
{
    for clone in work.clones() {
        let step = choice_of_clone(work, past, worker, clone);
        if step.is_some() {
            return step;
        }
    }
    None
}

// What a worker starts next after what a past says, if anything may be started.
fn choice_after(
    alloc: Global,
    plan: &Plan,
    past: &Past,
    worker: u32,
) -> Result<Option<Event>, Memory>
    ensures { IfOk result (λ step. step ≡ choice plan.now past.now worker) }
{
    let work = Agenda::new(alloc, plan)?;
    Ok(choice_among(&work, past, worker))
}

/// What a worker starts next after a history, if anything may be started.
pub fn choice(
    alloc: Global,
    plan: &Plan,
    history: &[Event],
    worker: u32,
) -> Result<Option<Event>, Memory>
    ensures { IfOk result (λ step. step ≡ choice plan.now history.now worker) }
{
    let past = Past::new(alloc, history)?;
    choice_after(alloc, plan, &past, worker)
}
