// The plan of the jobs that the words ask for.
ghost use Rattle.std.specs.Prelude.{◌≡◌, Ok, Err, None, IfOk, IfErr, IfSome};
ghost use Rattle.std.specs.Option.{option_copied};
ghost use Rattle.jr_job_options.specs.declared.faults.JobFault.TheVariants.{Memory as OutOfMemory};
ghost use Rattle.jr_options.specs.PlanOf.{plan_of};
ghost use Rattle.jr_cli_grounds.specs.JobRefusals.{IsPlanOf, IsRefusedBy, IsWantOfMemory, job_refusal, sections_refusal};

use jr_cli_words::{Choice, CliFault};
use jr_job_notes::{Note, job_notes, plan_notes, unread_notes};
use jr_options::plan;
use jr_plan::Plan;
use jr_system::Stop;
use jr_text::{Section, TextFault, sections};
use std::alloc::Global;

/// The plan of a job text, and what is worth knowing of its jobs if notes are wanted.
#[derive(Drop)]
pub struct PlannedJob {
    pub plan: Plan,
    pub notes: Vec<Note>,
}

/// The plan of a job text: of the jobs of the section that the words name, or of all. A fault comes with what is worth knowing of it if
/// notes are wanted. The text is cut into sections once.
pub fn job_plan(
    alloc: Global,
    text: &[u8],
    choice: &Choice<'_>,
    has_notes: bool,
) -> Result<PlannedJob, Stop>
    // The first fault of the text is answered, or else the first of its sections, by its name.
    ensures refused { IfSome (job_refusal text.now (option_copied choice.now.section)) (λ fault. IsRefusedBy result fault) }

    // Where there is none, only memory can be wanting, and the plan is the one that the text asks for.
    ensures memory { job_refusal text.now (option_copied choice.now.section) ≡ None → IfErr result IsWantOfMemory }
    ensures planned { IfOk result (λ job. IsPlanOf job.plan text.now (option_copied choice.now.section)) }
{
    match sections(alloc, text) {
        Ok(sections) => planned(alloc, sections.as_slice(), choice.section, has_notes),
        Err(fault) => Err(unread(alloc, text, fault, has_notes)),
    }
}

// Why a text is no job file.
fn unread(alloc: Global, text: &[u8], fault: TextFault, has_notes: bool) -> Stop
    ensures { result ≡ CliFault.Text fault }
{
    if has_notes && let Ok(notes) = unread_notes(alloc, text, fault) {
        return Stop::job(CliFault::Text(fault), notes);
    }
    Stop::from(CliFault::Text(fault))
}

// The plan of the sections of a job file.
fn planned(
    alloc: Global,
    sections: &[Section],
    only: Option<&str>,
    has_notes: bool,
) -> Result<PlannedJob, Stop>
    ensures refused { IfSome (sections_refusal (Ok sections.now) (option_copied only.entry)) (λ fault. result ≡ Err fault) }
    ensures memory { sections_refusal (Ok sections.now) (option_copied only.entry) ≡ None
        → IfErr result (λ fault. fault ≡ CliFault.Job OutOfMemory) }
    ensures planned { IfOk result (λ job. job.plan ≡ plan_of sections.now (option_copied only.entry)) }
{
    match plan(alloc, sections, only) {
        Ok(plan) => Ok(PlannedJob {
            plan,
            notes: notes_of(alloc, sections, only, has_notes),
        }),
        Err(fault) => Err(refused(alloc, sections, only, CliFault::Job(fault), has_notes)),
    }
}

// What is worth knowing of jobs that make a plan, if it is wanted and there is memory for it.
fn notes_of(alloc: Global, sections: &[Section], only: Option<&str>, has_notes: bool) -> Vec<Note> {
    if has_notes && let Ok(notes) = plan_notes(alloc, sections, only) {
        return notes;
    }
    Vec::new(alloc)
}

// Why the sections of a job file make no plan.
fn refused(
    alloc: Global,
    sections: &[Section],
    only: Option<&str>,
    fault: CliFault,
    has_notes: bool,
) -> Stop
    ensures { result ≡ fault }
{
    if has_notes && let Ok(notes) = job_notes(alloc, sections, only) {
        return Stop::job(fault, notes);
    }
    Stop::from(fault)
}
