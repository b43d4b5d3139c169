// The second walk over the sections: it builds the plan of those that the first has found sound.
ghost use Rattle.std.specs.Prelude.{◌≡◌, ◌≤◌, true, fold, IfOk, IfErr, None, Ok, option_copied};
ghost use Rattle.std.specs.List.{list_any};
ghost use Rattle.jr_job_options.specs.declared.faults.JobFault.TheVariants.{Memory as OutOfMemory};
ghost use Rattle.jr_job_options.specs.Options.{AreInRange};
ghost use Rattle.jr_job_options.specs.Shapes.{HasShape, shape_of};
ghost use Rattle.jr_options.specs.Jobs.{shaped_job};
ghost use Rattle.jr_options.specs.PlanOf.{HasRoom, clones_asked, plan_of, planned_as, with_asked};
ghost use Rattle.jr_options.specs.Sections.{asked_job};
ghost use Rattle.jr_options.specs.Surveys.{IsCapped, first_survey, is_planned, survey_from, tally_fault, tally_in};

use crate::names::Names;
use crate::planned::PlannedJob;
use crate::sections::{Reading, read_section};
use crate::tallies::{Tally, start_of};
use jr_job_options::{JobFault, JobOptions};
use jr_model::EngineKind;
use jr_plan::{Draft, Plan, PlanFault};
use jr_text::Section;
use std::alloc::Global;

// The plan of sections that the survey has found sound.
pub(crate) fn build(
    alloc: Global,
    sections: &[Section],
    only: Option<&str>,
    tally: Tally,
) -> Result<Plan, JobFault>
    requires planned { list_any (is_planned (option_copied only)) sections.now ≡ true }
    requires surveyed { tally_in (survey_from (option_copied only) (Ok first_survey) sections.now) ≡ Ok tally }
    requires sound { tally_fault tally ≡ None }
    requires capped { IsCapped tally }
    ensures ok { IfOk result (λ plan. plan ≡ plan_of sections.now (option_copied only.entry)) }
    ensures err { IfErr result (λ fault. fault ≡ OutOfMemory) }
{
    let mut draft = Draft::new(alloc);
    let mut phase = 0;
    let mut globals = JobOptions::new();
    let mut names = Names::new();
    for section in sections {
        match read_section(&globals, section, only) {
            Ok(Reading::Globals(options)) => {
                globals = options;
                names = names.with_lines(section.lines());
            }
            Ok(Reading::Job(options)) => match planned_job(phase, options, section) {
                Ok(job) => {
                    phase = job.phase;
                    let own = names.with_lines(section.lines());
                    draft = with_clones(alloc, draft, &job, section, &own)?;
                }
                Err(fault) => return Err(fault),
            },
            Ok(Reading::Skipped) => {}
            Err(fault) => return Err(fault),
        }
    }
    let engine = tally.engine.unwrap_or(EngineKind::File);
    Ok(draft.finish(engine, tally.verifiers))
}

// The job of a section with these options, after the jobs up to a phase.
fn planned_job(phase: u32, options: JobOptions, section: &Section) -> Result<PlannedJob, JobFault>
    requires phase { phase ≤ 64 }
    requires range { AreInRange options }
    ensures value { result ≡ shaped_job phase options (shape_of options section.now.line) }
    // Of what it answers: the job has these options, and is the one that they make.
    ensures options { IfOk result (λ job. job.options ≡ options) }
    ensures planned { IfOk result (λ job. Ok job ≡ shaped_job phase job.options (shape_of job.options section.now.line)) }
    ensures range { IfOk result (λ job. AreInRange job.options) }
    ensures shape { IfOk result (λ job. HasShape job.options job.shape) }
{
    match options.shape(section.line_number()) {
        Ok(shape) => Ok(PlannedJob {
            phase: phase + u32::from(options.stonewall),
            options,
            shape,
        }),
        Err(fault) => Err(fault),
    }
}

// The clones of a job, behind others.
fn with_clones(
    alloc: Global,
    draft: Draft,
    job: &PlannedJob,
    section: &Section,
    names: &Names<'_>,
) -> Result<Draft, JobFault>
    requires range { AreInRange job.now.options }
    requires shape { HasShape job.now.options job.now.shape }
    requires job { job.now ≡ planned_as (asked_job job.now section.now (option_copied names.now.file_name) (option_copied names.now.directory)) }
    requires room { HasRoom draft job.now }
    ensures ok { IfOk result (λ all. all
        ≡ fold with_asked draft (clones_asked (asked_job job.now section.now (option_copied names.now.file_name) (option_copied names.now.directory)))) }
    ensures err { IfErr result (λ fault. fault ≡ OutOfMemory) }
{
    let options = &job.options;
    let workload = job.workload();
    let mut draft = draft;
    for index in 0..options.clones {
        let start = start_of(options, index) as u64;
        let file = names.file(alloc, section.name(), index)?;
        match draft.add(alloc, &workload, section.name(), file, start) {
            Ok(()) => {}
            // The survey has found the job sound.
            Err(fault) => return Err(only_memory(fault)),
        }
    }
    Ok(draft)
}

// The fault of a plan where only memory is wanting.
fn only_memory(fault: PlanFault) -> JobFault
    requires { fault ≡ PlanFault.Memory }
    ensures { result ≡ OutOfMemory }
{
    match fault {
        PlanFault::Memory => JobFault::Memory,
        PlanFault::Block | PlanFault::Number | PlanFault::NoPattern | PlanFault::Limit(_) => {
            unreachable!()
        }
    }
}
