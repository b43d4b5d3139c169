ghost use Rattle.std.specs.Prelude.{◌≡◌, ◌≤◌, ◌++◌, ◌||◌, length, flat_map, List, IfOk, OnOk, if◌then◌else◌};
ghost use Rattle.std.specs.List.{list_any};
ghost use Rattle.jr_cli_after.specs.Found.{Asked, IsAfter, chunks_in, has_fault_counted, has_some, lines_in, report_after, status_after, told_of};
ghost use Rattle.jr_cli_after.specs.Readings.{FileRead};

use crate::faults::AfterFailure;
use crate::files::Unread;
use crate::judge::Judge;
use crate::walk::judge_file;
use jr_after_report::{FileReport, report};
use jr_engines::Engine;
use jr_ledger::LedgerLine;
use jr_model::{Memory, Piece};
use jr_plan::Plan;
use std::alloc::Global;
use std::marker::Model;
use std::thread::Threads;

/// What is found of a plan's files after the power was cut. Contracts see what of each file is told.
#[derive(Drop)]
pub struct After {
    found: Vec<FileReport>,
    unread: Vec<Unread>,
}

impl Model for After {
    ghost use Rattle.jr_cli_after.specs.Found.{AfterState};

    ghost Value = { AfterState };

    ghost view = { λ a. record { found = a.found.items; unread = a.unread.items } };
}

/// Has the engine read each chunk of each file of the plan, one after another, and judges those that are read whole by the ledger of
/// its run, by as many threads as there are processors.
pub fn judge_after<R: Threads + Sync>(
    rt: &R,
    alloc: Global,
    plan: &Plan,
    lines: &[LedgerLine],
    engine: &mut dyn Engine,
) -> Result<After, AfterFailure>
    ensures { IfOk result (λ told. IsAfter (record { plan = plan.now; lines = lines.now }) (state engine.old) told (state engine.new)) }
{
    let judge = Judge::new(alloc, plan, lines)?;
    judge_files(rt, alloc, &judge, engine)
}

fn judge_files<R: Threads + Sync>(
    rt: &R,
    alloc: Global,
    judge: &Judge<'_>,
    engine: &mut dyn Engine,
) -> Result<After, AfterFailure>
    ensures { IfOk result (λ told. IsAfter judge.now (state engine.old) told (state engine.new)) }
{
    let mut found = Vec::new(alloc);
    let mut unread = Vec::new(alloc);
    for file in 0..judge.plan().files().len() {
        let told = judge_file(rt, alloc, judge, file as u32, engine)?;
        found.push(told.report)?;
        unread.push(told.unread)?;
    }
    Ok(After { found, unread })
}

impl After {
    /// The report: that of the chunks that were judged, and then a line for each that couldn't be read.
    pub fn report(&self, alloc: Global, plan: &Plan) -> Result<Vec<u8>, Memory>
        ensures { IfOk result (λ text. (asked : Asked) (files : List FileRead) → asked.plan ≡ plan.now → self.now ≡ told_of asked files
            → text.items ≡ report_after asked files) }
    {
        let mut text = report(alloc, plan, self.found.as_slice())?;
        push_unread(&mut text, self.unread.as_slice())?;
        Ok(text)
    }

    /// What is found in each file, in the order of the plan.
    pub fn found(&self) -> &[FileReport]
        ensures { result.now ≡ self.now.found }
    {
        self.found.as_slice()
    }

    /// The chunks that couldn't be read.
    pub fn unread(&self, alloc: Global) -> Result<Vec<Piece>, Memory>
        ensures { IfOk result (λ chunks. chunks.items ≡ flat_map chunks_in self.now.unread) }
    {
        let mut chunks = Vec::new(alloc);
        push_chunks(&mut chunks, self.unread.as_slice())?;
        Ok(chunks)
    }

    /// The status of the program: 1 if a chunk is lost or broken, or couldn't be read; else 0.
    pub fn status(&self) -> u8
        ensures { (asked : Asked) (files : List FileRead) → self.now ≡ told_of asked files → result ≡ status_after asked files }
    {
        status_by(
            has_lost(self.found.as_slice()),
            has_unread(self.unread.as_slice()),
        )
    }
}

fn status_by(lost: bool, unread: bool) -> u8
    ensures { result ≡ (if lost || unread then 1 else 0) }
{
    if lost || unread { 1 } else { 0 }
}

// Appends the lines of all chunks that couldn't be read.
fn push_unread(text: &mut Vec<u8>, unread: &[Unread]) -> Result<(), Memory>
    ensures { OnOk result (text.new.items ≡ text.old.items ++ flat_map lines_in unread.now) }
{
    for one in unread {
        text.extend_from_slice(one.lines.as_slice())?;
    }
    Ok(())
}

// Appends the chunks themselves.
fn push_chunks(chunks: &mut Vec<Piece>, unread: &[Unread]) -> Result<(), Memory>
    ensures { OnOk result (chunks.new.items ≡ chunks.old.items ++ flat_map chunks_in unread.now) }
{
    for one in unread {
        chunks.extend_from_slice(one.chunks.as_slice())?;
    }
    Ok(())
}

// Whether a chunk of these files is lost or broken.
fn has_lost(found: &[FileReport]) -> bool
    ensures { result ≡ list_any has_fault_counted found.now }
{
    found.iter().any(|one| one.counts().have_fault())
}

// Whether one couldn't be read.
fn has_unread(unread: &[Unread]) -> bool
    ensures { result ≡ list_any has_some unread.now }
{
    unread.iter().any(|one| one.count > 0)
}
