ghost use Rattle.std.specs.Prelude.{◌≡◌, ◌+◌, ◌<◌, ◌^◌, ◌++◌, ◌∷◌, [], List, map, filter, flat_map, IfOk, OnOk};
ghost use Rattle.jr_model.specs.Plan.{Plan as PlanRecord};
ghost use Rattle.jr_after_report.specs.Counting.{is_told, total_of};
ghost use Rattle.jr_after_report.specs.Reports.{FileFound, has_fault, lines_in, report_by, report_of, state_of, totals_line};
ghost use Rattle.jr_after_report.specs.declared.lines.Judged.{Judged as JudgedRecord};

use crate::counts::Counts;
use crate::lines::{Judged, push_line};
use jr_after::Finding;
use jr_model::{Memory, push_field, push_text};
use jr_plan::Plan;
use std::alloc::Global;
use std::marker::Model;

/// What of the chunks of a file a report is made of: how many there are of each finding, and their lines. Contracts see both.
#[derive(Drop)]
pub struct FileReport {
    file: u32,
    counts: Counts,
    lines: Vec<u8>,
    told: Vec<Judged>,
}

impl Model for FileReport {
    ghost use Rattle.jr_after_report.specs.Reports.{FileState};

    ghost Value = { FileState };

    ghost view = { λ r. record { file = r.file; counts = r.counts; lines = r.lines.items; told = r.told.items } };
}

impl FileReport {
    /// Of no chunks yet.
    pub fn new(alloc: Global, file: u32) -> FileReport
        ensures { (plan : PlanRecord) → result ≡ state_of plan (record { file = file; chunks = [] }) }
    {
        FileReport {
            file,
            counts: Counts::none(),
            lines: Vec::new(alloc),
            told: Vec::new(alloc),
        }
    }

    /// Adds the next chunk of the file.
    pub fn add(&mut self, plan: &Plan, one: &Judged) -> Result<(), Memory>
        requires { total_of self.old.counts + 1 < 2 ^ 64 }
        ensures value { (file : _) (chunks : List JudgedRecord) → self.old ≡ state_of plan.now (record { file = file; chunks = chunks })
            → OnOk result (self.new ≡ state_of plan.now (record { file = file; chunks = chunks ++ one.now ∷ [] })) }
        ensures total { OnOk result (total_of self.new.counts ≡ total_of self.old.counts + 1) }
    {
        push_line(&mut self.lines, plan, one)?;
        push_told(&mut self.told, one)?;
        self.counts.add(&one.finding);
        Ok(())
    }

    /// How many chunks there are of each finding.
    pub fn counts(&self) -> Counts
        ensures { result ≡ self.now.counts }
    {
        self.counts
    }

    /// Its place among the files of its plan.
    pub fn file(&self) -> u32
        ensures { result ≡ self.now.file }
    {
        self.file
    }

    /// The chunks of which something is told: those that are lost, broken or torn.
    pub fn told(&self) -> &[Judged]
        ensures { result.now ≡ self.now.told }
    {
        self.told.as_slice()
    }

    /// Whether a chunk of the file isn't as the storage promised.
    pub fn has_fault(&self) -> bool
        ensures { (plan : PlanRecord) (found : FileFound) → self.now ≡ state_of plan found → result ≡ has_fault found }
    {
        self.counts.have_fault()
    }
}

// Appends a chunk, if something is told of it.
fn push_told(told: &mut Vec<Judged>, one: &Judged) -> Result<(), Memory>
    ensures { OnOk result (told.new.items ≡ told.old.items ++ filter is_told (one.now ∷ [])) }
{
    if is_told(one) {
        told.push(*one)?;
    }
    Ok(())
}

fn is_told(one: &Judged) -> bool
    ensures { result ≡ is_told one.now }
{
    match one.finding {
        Finding::Open | Finding::Kept => false,
        Finding::Lost(_, _) | Finding::Torn(_) | Finding::Broken(_) => true,
    }
}

/// The report of these files.
pub fn report(alloc: Global, plan: &Plan, files: &[FileReport]) -> Result<Vec<u8>, Memory>
    ensures value { IfOk result (λ text. text.items ≡ report_by plan.now files.now) }
    ensures report { IfOk result (λ text. (found : List FileFound) → files.now ≡ map (state_of plan.now) found
        → text.items ≡ report_of plan.now found) }
{
    let mut text = Vec::new(alloc);
    for file in files {
        push_totals(&mut text, plan, file)?;
    }
    push_lines(&mut text, files)?;
    Ok(text)
}

// Appends the lines of all chunks.
fn push_lines(text: &mut Vec<u8>, files: &[FileReport]) -> Result<(), Memory>
    ensures { OnOk result (text.new.items ≡ text.old.items ++ flat_map lines_in files.now) }
{
    for file in files {
        text.extend_from_slice(file.lines.as_slice())?;
    }
    Ok(())
}

// Appends the totals of a file.
fn push_totals(text: &mut Vec<u8>, plan: &Plan, file: &FileReport) -> Result<(), Memory>
    ensures { OnOk result (text.new.items ≡ text.old.items ++ totals_line plan.now file.now) }
{
    push_text(text, "file=")?;
    push_text(text, plan.file_name(file.file))?;
    push_field(text, "kept", file.counts.kept)?;
    push_field(text, "lost", file.counts.lost)?;
    push_field(text, "broken", file.counts.broken)?;
    push_field(text, "torn", file.counts.torn)?;
    push_field(text, "open", file.counts.unpromised)?;
    push_text(text, "\n")
}
