ghost use Rattle.std.specs.Prelude.{◌≡◌, ◌++◌, ◌∷◌, [], nat_eq, true, is_some, ℕ, IfOk, MatchOption, OnOk, Some, None, if◌then◌else◌};
ghost use Rattle.std.specs.HashMap.{get};
ghost use Rattle.jr_model.specs.Legal.{may_happen};
ghost use Rattle.jr_model.specs.Plan.{Plan as Planned, clone_of};
ghost use Rattle.jr_model.specs.Report.{all_totals};
ghost use Rattle.jr_model.specs.Rounds.{pass_of};
ghost use Rattle.jr_replay.specs.Courses.{IsCourse, numbered};

use crate::indexes::Indexes;
use jr_model::{Event, Memory, Totals};
use jr_plan::{Plan, SubJob};
use jr_replay_history::Ledger;
use jr_replay_passes::PlannedPass;
use std::alloc::Global;
use std::collections::HashMap;

/// A legal run of a plan as far as it has come, with its indexes. Of each clone it keeps the draws of one pass, that which was asked
/// for last: a run comes back to no earlier one.
#[derive(Drop)]
pub struct Course<'a> {
    pub history: Ledger,
    pub indexes: Indexes,
    pub passes: HashMap<u32, PlannedPass<'a>>,
}

impl<'a> Course<'a> {
    /// Before anything happened.
    pub fn new(alloc: Global, plan: &'a Plan) -> Result<Course<'a>, Memory>
        ensures course { IfOk result (λ course. IsCourse plan.now course) }
        ensures empty { IfOk result (λ course. course.history ≡ []) }
    {
        plan.facts();
        let history = Ledger::new(alloc, Vec::new(alloc))?;
        Ok(Course {
            history,
            indexes: Indexes::new(alloc, plan)?,
            passes: HashMap::new(alloc),
        })
    }

    /// The run with one event more.
    pub fn followed_by(self, alloc: Global, plan: &Plan, event: Event) -> Result<Course<'a>, Memory>
        requires course { IsCourse plan.now self }
        requires may { may_happen plan.now self.history event ≡ true }
        ensures course { IfOk result (λ course. IsCourse plan.now course) }
        ensures more { IfOk result (λ course. course.history ≡ self.entry.history ++ event ∷ []) }
    {
        let Course {
            history,
            indexes,
            passes,
        } = self;
        let indexes = indexes.followed_by(plan, &history, &event)?;
        let history = history.followed_by(alloc, event)?;
        Ok(Course {
            history,
            indexes,
            passes,
        })
    }

    /// What happened, and what each clone did in it, in the order of the clones.
    pub fn into_parts(self) -> (Ledger, Vec<Totals>)
        ensures history { result.0 ≡ self.entry.history }
        ensures totals { (plan : Planned) → IsCourse plan self.entry → result.1.items ≡ all_totals plan self.entry.history }
    {
        let Course {
            history,
            indexes,
            ..
        } = self;
        let Indexes { tallies, .. } = indexes;
        (history, tallies.totals)
    }

    // The pass of this number, where it is the one that is kept of the clone.
    pub(crate) fn kept(&self, clone: u32, number: u32) -> Option<&PlannedPass<'a>>
        ensures { MatchOption result
            (numbered number (get nat_eq self.now.passes clone) ≡ None)
            (λ pass. numbered number (get nat_eq self.now.passes clone) ≡ Some pass.now) }
    {
        match self.passes.get(&clone) {
            Some(pass) if pass.number() == number => Some(pass),
            _ => None,
        }
    }

    // Whether the pass that is kept of the clone has this number.
    fn keeps(&self, clone: u32, number: u32) -> bool
        ensures { result ≡ is_some (numbered number (get nat_eq self.now.passes clone)) }
    {
        match self.passes.get(&clone) {
            None => false,
            Some(pass) => pass.number() == number,
        }
    }

    // Keeps the pass of this number of a clone in place of the one that is kept, which is given back first.
    fn replace(&mut self, alloc: Global, job: &'a SubJob, number: u32) -> Result<(), Memory>
        ensures history { self.new.history ≡ self.old.history }
        ensures indexes { self.new.indexes ≡ self.old.indexes }
        ensures passes { OnOk result ((clone : ℕ) → get nat_eq self.new.passes clone
            ≡ (if nat_eq clone job.now.clone then Some (pass_of job.now number) else get nat_eq self.old.passes clone)) }
    {
        self.passes.remove(&job.clone_number());
        let pass = PlannedPass::new(alloc, job, number)?;
        self.passes.insert(job.clone_number(), pass)?;
        Ok(())
    }

    // Keeps the pass of this number of a clone, and no other of it.
    pub(crate) fn enter(
        &mut self,
        alloc: Global,
        job: &'a SubJob,
        number: u32,
    ) -> Result<(), Memory>
        ensures history { self.new.history ≡ self.old.history }
        ensures course { OnOk result ((plan : Planned) → clone_of plan job.now.clone ≡ Some job.now
            → IsCourse plan self.old → IsCourse plan self.new) }
        ensures entered { OnOk result ((plan : Planned) → clone_of plan job.now.clone ≡ Some job.now
            → IsCourse plan self.old → get nat_eq self.new.passes job.now.clone ≡ Some (pass_of job.now number)) }
    {
        if self.keeps(job.clone_number(), number) {
            return Ok(());
        }
        self.replace(alloc, job, number)
    }
}
