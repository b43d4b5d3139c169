ghost use Rattle.std.specs.Prelude.{◌≡◌, IfOk, length, map, slice_get};
ghost use Rattle.std.specs.List.{range_with_len};
ghost use Rattle.jr_model.specs.Plan.{clone_of};
ghost use Rattle.jr_model.specs.Rounds.{pass_of, passes_of};

use crate::passes::PlannedPass;
use jr_model::Memory;
use jr_plan::{Plan, SubJob};
use std::alloc::Global;
use std::marker::Model;

/// A clone of a plan with its passes. Contracts see the clone.
#[derive(Drop)]
pub struct PlannedClone<'a> {
    job: &'a SubJob,
    passes: Vec<PlannedPass<'a>>,
}

impl<'a> Model for PlannedClone<'a> {
    ghost use Rattle.jr_model.specs.Plan.{SubJob as JobRecord};
    ghost use Rattle.jr_replay_passes.specs.Agendas.{ArePasses};

    ghost Value = { JobRecord };

    ghost view = { λ c. c.job.now };

    ghost invariant = { λ c. ArePasses c.job.now c.passes.items };
}

impl<'a> PlannedClone<'a> {
    /// Works out the passes of a clone.
    pub fn new(alloc: Global, job: &'a SubJob) -> Result<PlannedClone<'a>, Memory>
        ensures { IfOk result (λ clone. clone ≡ job.now) }
    {
        let passes = passes_of(alloc, job)?;
        Ok(PlannedClone { job, passes })
    }

    /// The clone itself.
    pub fn job(&self) -> &SubJob
        ensures { result.now ≡ self.now }
    {
        self.job
    }

    /// Its passes, in order.
    pub fn passes(&self) -> &[PlannedPass<'a>]
        ensures { result.now ≡ passes_of self.now }
    {
        self.passes.as_slice()
    }
}

// All passes of a clone.
fn passes_of<'a>(alloc: Global, job: &'a SubJob) -> Result<Vec<PlannedPass<'a>>, Memory>
    ensures { IfOk result (λ passes. passes.items ≡ passes_of job.now) }
{
    let mut passes = Vec::new(alloc);
    for number in 0..job.passes() {
        passes.push(PlannedPass::new(alloc, job, number)?)?;
    }
    Ok(passes)
}

/// A plan with the passes of all its clones. Contracts see the plan.
#[derive(Drop)]
pub struct Agenda<'a> {
    plan: &'a Plan,
    clones: Vec<PlannedClone<'a>>,
}

impl<'a> Model for Agenda<'a> {
    ghost use Rattle.jr_model.specs.Plan.{Plan as PlanRecord};
    ghost use Rattle.jr_replay_passes.specs.Agendas.{AreClones};

    ghost Value = { PlanRecord };

    ghost view = { λ w. w.plan.now };

    ghost invariant = { λ w. AreClones w.plan.now w.clones.items };
}

impl<'a> Agenda<'a> {
    /// Works out the passes of all clones of a plan.
    pub fn new(alloc: Global, plan: &'a Plan) -> Result<Agenda<'a>, Memory>
        ensures { IfOk result (λ work. work ≡ plan.now) }
    {
        let clones = clones_of(alloc, plan)?;
        Ok(Agenda { plan, clones })
    }

    /// The plan itself.
    pub fn plan(&self) -> &Plan
        ensures { result.now ≡ self.now }
    {
        self.plan
    }

    /// Its clones, in order.
    pub fn clones(&self) -> &[PlannedClone<'a>]
        ensures { result.now ≡ self.now.clones }
    {
        self.clones.as_slice()
    }
}

// All clones of a plan.
fn clones_of<'a>(alloc: Global, plan: &'a Plan) -> Result<Vec<PlannedClone<'a>>, Memory>
    ensures { IfOk result (λ clones. clones.items ≡ plan.now.clones) }
{
    let mut clones = Vec::new(alloc);
    for i in 0..plan.clones() {
        clones.push(PlannedClone::new(alloc, plan.clone_at(i))?)?;
    }
    Ok(clones)
}
