ghost use Rattle.std.specs.Prelude.{◌≡◌, ◌≤◌, ◌<◌, ◌+◌, ◌*◌, [], length, string_bytes, IfOk, IfErr, IfSome, OnErr, OnOk, Err, None};
ghost use Rattle.jr_plan.specs.declared.faults.PlanFault.TheVariants.{Memory as OutOfMemory};
ghost use Rattle.jr_plan.specs.Drafts.{no_clones, with_clone, limit_fault, clone_fault};

use crate::clones::SubJob;
use crate::faults::{Bound, PlanFault};
use crate::files::{FileSpec, use_file};
use crate::plans::Plan;
use crate::workloads::Workload;
use jr_model::{EngineKind, LARGEST_END, MOST_CELLS, MOST_CLONES, MOST_VERIFIERS, MOST_WORK};
use std::alloc::Global;
use std::marker::Model;

/// The builder of a plan: its clones so far, and their files.
#[derive(Drop)]
pub struct Draft {
    pub(crate) clones: Vec<SubJob>,
    pub(crate) files: Vec<FileSpec>,
    /// The cells that all passes visit, all together.
    work: u64,
}

impl Model for Draft {
    ghost use Rattle.std.specs.Prelude.{◌≡◌};
    ghost use Rattle.jr_model.specs.PlanFacts.{AreDrafted, work_of};
    ghost use Rattle.jr_plan.specs.Drafts.{Clones};

    ghost Value = { Clones };

    ghost view = { λ a. record { clones = a.clones.items; files = a.files.items } };

    ghost invariant = { λ a. AreDrafted a.clones.items a.files.items × (a.work ≡ work_of a.clones.items) };
}

impl Draft {
    /// No clones yet.
    pub fn new(alloc: Global) -> Draft
        ensures { result ≡ no_clones }
    {
        Draft {
            clones: Vec::new(alloc),
            files: Vec::new(alloc),
            work: 0,
        }
    }

    /// How many clones it has.
    pub fn clones(&self) -> usize
        ensures { result ≡ length self.now.clones }
    {
        self.clones.len()
    }

    // The limit that one more clone would break.
    fn limit_fault(&self, workload: &Workload, start: u64) -> Option<PlanFault>
        ensures { result ≡ limit_fault self.now workload.now start }
    {
        if self.clones.len() >= MOST_CLONES {
            return Some(PlanFault::Limit(Bound::Clones));
        }
        let size = u64::from(workload.cells) * u64::from(workload.cell);
        if u128::from(start) + u128::from(size) > u128::from(LARGEST_END) {
            return Some(PlanFault::Limit(Bound::Region));
        }
        if workload.cells > MOST_CELLS {
            return Some(PlanFault::Limit(Bound::Cells));
        }
        if self.work + u64::from(workload.cells) * u64::from(workload.passes) > MOST_WORK {
            return Some(PlanFault::Limit(Bound::Work));
        }
        None
    }

    /// Why it doesn't take such a clone, want of memory aside.
    pub fn fault(&self, workload: &Workload, start: u64) -> Option<PlanFault>
        ensures { result ≡ clone_fault self.now workload.now start }
    {
        workload.fault(start).or(self.limit_fault(workload, start))
    }

    /// Adds a clone of this job that begins at `start` (in bytes) of the file of this path. Clones that name one path
    /// share the file.
    pub fn add(
        &mut self,
        alloc: Global,
        workload: &Workload,
        job: &str,
        file: String,
        start: u64,
    ) -> Result<(), PlanFault>
        ensures refused { IfSome (clone_fault self.old workload.now start) (λ fault. result ≡ Err fault) }
        ensures memory { clone_fault self.old workload.now start ≡ None → IfErr result (λ fault. fault ≡ OutOfMemory) }
        ensures added { OnOk result (self.new ≡ with_clone self.old workload.now job.now (string_bytes file) start) }
        ensures kept { OnErr result (self.new ≡ self.old) }
    {
        if let Some(fault) = self.fault(workload, start) {
            return Err(fault);
        }
        let job = String::from_str(alloc, job)?;
        self.push(workload, job, file, start)
    }

    // Adds a clone that nothing speaks against.
    fn push(
        &mut self,
        workload: &Workload,
        job: String,
        file: String,
        start: u64,
    ) -> Result<(), PlanFault>
        requires { clone_fault self.old workload.now start ≡ None }
        ensures added { OnOk result (self.new ≡ with_clone self.old workload.now (string_bytes job) (string_bytes file) start) }
        ensures kept { OnErr result (self.new ≡ self.old) }
        ensures err { IfErr result (λ fault. fault ≡ OutOfMemory) }
    {
        workload.reads.facts();
        workload.writes.facts();
        self.clones.reserve(1)?;
        let clone = self.clones.len() as u32;
        let end = start + u64::from(workload.cells) * u64::from(workload.cell);
        let file = use_file(&mut self.files, file, start, end)? as u32;
        let workload = *workload;
        self.clones.push_reserved(SubJob {
            job,
            clone,
            file,
            start,
            workload,
        });
        self.work += u64::from(workload.cells) * u64::from(workload.passes);
        Ok(())
    }

    /// The plan of these clones.
    pub fn finish(self, engine: EngineKind, verifiers: u32) -> Plan
        requires some { 1 ≤ length self.clones }
        requires verifiers { verifiers ≤ MOST_VERIFIERS }
        ensures { result ≡ record { clones = self.clones; files = self.files; engine = engine; verifiers = verifiers } }
    {
        let Draft {
            clones,
            files,
            work: _,
        } = self;
        Plan::of_parts(clones, files, engine, verifiers)
    }
}
