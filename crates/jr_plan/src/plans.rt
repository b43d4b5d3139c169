ghost use Rattle.std.specs.Prelude.{◌≡◌, ◌≤◌, ◌<◌, ◌==◌, length, map, slice_get, Some, IfOk};
ghost use Rattle.std.specs.List.{list_any};
ghost use Rattle.jr_plan.specs.Files.{are_apart};
ghost use Rattle.jr_plan.specs.Seeds.{moved_seed, reseeded};
ghost use Rattle.jr_plan.specs.Wishes.{wish_of};
ghost use Rattle.jr_model.specs.PlanFacts.{AreDrafted, IsPlanned, IsPlaced, KeepsLimits};
ghost use Rattle.jr_model.specs.Report.{file_name};

use crate::clones::SubJob;
use crate::files::{FileSpec, copied_files};
use crate::wishes::{Wish, wish_of};
use jr_model::{EngineKind, MOST_VERIFIERS};
use std::alloc::{AllocError, Global};
use std::marker::Model;

/// What a run does: its clones, their files, and how it is carried out.
#[derive(Drop)]
pub struct Plan {
    clones: Vec<SubJob>,
    files: Vec<FileSpec>,
    engine: EngineKind,
    verifiers: u32,
}

impl Model for Plan {
    ghost use Rattle.jr_model.specs.Plan.{Plan as PlanRecord};
    ghost use Rattle.jr_model.specs.PlanFacts.{IsPlanned};

    ghost Value = { PlanRecord };

    ghost view = { λ a. record { clones = a.clones.items; files = a.files.items; engine = a.engine; verifiers = a.verifiers } };

    ghost invariant = { λ a. IsPlanned (record { clones = a.clones.items; files = a.files.items; engine = a.engine; verifiers = a.verifiers }) };
}

impl Plan {
    // The plan of clones that were drafted.
    pub(crate) fn of_parts(
        clones: Vec<SubJob>,
        files: Vec<FileSpec>,
        engine: EngineKind,
        verifiers: u32,
    ) -> Plan
        requires some { 1 ≤ length clones.items }
        requires drafted { AreDrafted clones.items files.items }
        requires verifiers { verifiers ≤ MOST_VERIFIERS }
        ensures { result ≡ record { clones = clones.items; files = files.items; engine = engine; verifiers = verifiers } }
    {
        Plan {
            clones,
            files,
            engine,
            verifiers,
        }
    }

    /// Nothing: its contract says what holds of every plan.
    pub fn facts(&self)
        ensures { IsPlanned self.now }
    {
        let _ = &self.engine;
    }

    /// How many clones it has, 1 to 64.
    pub fn clones(&self) -> usize
        ensures value { result ≡ length self.now.clones }
        ensures facts { IsPlanned self.now }
    {
        self.clones.len()
    }

    /// The clone of this number.
    pub fn clone_at(&self, i: usize) -> &SubJob
        requires { i < length self.now.clones }
        ensures value { slice_get self.now.clones i ≡ Some result.now }
        ensures placed { IsPlaced self.now.files i result.now }
        ensures limited { KeepsLimits result.now }
    {
        &self.clones[i]
    }

    /// The files of its clones, in the order of their first use.
    pub fn files(&self) -> &[FileSpec]
        ensures value { result.now ≡ self.now.files }
        ensures facts { IsPlanned self.now }
    {
        self.files.as_slice()
    }

    /// The name of the file of this number; nothing if there is no such file.
    pub fn file_name(&self, file: u32) -> &str
        ensures { result.now ≡ file_name self.now file }
    {
        match self.files.get(file as usize) {
            Some(spec) => spec.name(),
            None => "",
        }
    }

    /// What carries out the I/O of all clones.
    pub fn engine(&self) -> EngineKind
        ensures { result ≡ self.now.engine }
    {
        self.engine
    }

    /// How many threads beside the workers judge checks; with 0 the workers do.
    pub fn verifiers(&self) -> u32
        ensures { result ≡ self.now.verifiers }
    {
        self.verifiers
    }

    /// Whether no file is used by two clones.
    pub fn apart(&self) -> bool
        ensures { result ≡ are_apart self.now.clones }
    {
        are_apart(&self.clones)
    }

    /// What the jobs that work on the file of this number say of its I/O.
    pub fn wish(&self, file: usize) -> Wish
        ensures { result ≡ wish_of self.now.clones file }
    {
        wish_of(&self.clones, file)
    }

    /// This plan with the seed of each clone so much further on, modulo 2^64: the same places are written with other data, and a random
    /// clone goes another way.
    pub fn reseeded(&self, alloc: Global, by: u64) -> Result<Plan, AllocError>
        ensures { IfOk result (λ plan. plan ≡ reseeded self.now by) }
    {
        let clones = reseeded_clones(alloc, &self.clones, by)?;
        let files = copied_files(alloc, &self.files)?;
        Ok(Plan::of_parts(clones, files, self.engine, self.verifiers))
    }
}

fn reseeded_clones(alloc: Global, clones: &[SubJob], by: u64) -> Result<Vec<SubJob>, AllocError>
    ensures { IfOk result (λ made. made.items ≡ map (moved_seed by) clones.now) }
{
    let mut made = Vec::new(alloc);
    for job in clones {
        made.push(job.reseeded(alloc, by)?)?;
    }
    Ok(made)
}

fn are_apart(clones: &[SubJob]) -> bool
    ensures { result ≡ are_apart clones.now }
{
    for (i, job) in clones.iter().enumerate() {
        if has_file(&clones[i + 1..], job.file()) {
            return false;
        }
    }
    true
}

fn has_file(clones: &[SubJob], file: u32) -> bool
    ensures { result ≡ list_any (λ job. job.file == file) clones.now }
{
    clones.iter().any(|job| job.file() == file)
}
