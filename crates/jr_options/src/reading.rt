ghost use Rattle.std.specs.Prelude.{◌≡◌, not, IfErr, IfOk, IfSome, Err, None, option_copied};
ghost use Rattle.std.specs.List.{list_any};
ghost use Rattle.jr_job_options.specs.declared.faults.JobFault.TheVariants.{Memory as OutOfMemory};
ghost use Rattle.jr_options.specs.PlanOf.{plan_of};
ghost use Rattle.jr_options.specs.Refusals.{refusal_of};
ghost use Rattle.jr_options.specs.Surveys.{is_global, is_planned};

use crate::building::build;
use crate::sections::{is_global, is_planned};
use crate::surveys::{Survey, tally_of};
use jr_job_options::JobFault;
use jr_plan::Plan;
use jr_text::Section;
use std::alloc::Global;

/// The plan of the sections of a job file: of all jobs, or of those of one name.
pub fn plan(alloc: Global, sections: &[Section], only: Option<&str>) -> Result<Plan, JobFault>
    // Each refusal of the list is answered, the first one by its name.
    ensures refused { IfSome (refusal_of sections.now (option_copied only.entry)) (λ fault. result ≡ Err fault) }
    // Where none stands, only memory can be wanting.
    ensures memory { refusal_of sections.now (option_copied only.entry) ≡ None → IfErr result (λ fault. fault ≡ OutOfMemory) }
    ensures planned { IfOk result (λ plan. plan ≡ plan_of sections.now (option_copied only.entry)) }
{
    if !has_job(sections) {
        return Err(JobFault::NoJob);
    }
    if !has_planned(sections, only) {
        return Err(JobFault::NoSection);
    }
    match tally_of(Survey::new(), sections, only) {
        Ok(tally) => match tally.fault() {
            Some(fault) => Err(fault),
            None => build(alloc, sections, only, tally),
        },
        Err(fault) => Err(fault),
    }
}

fn has_job(sections: &[Section]) -> bool
    ensures { result ≡ list_any (λ section. not (is_global section)) sections.now }
{
    sections.iter().any(|section| !is_global(section))
}

fn has_planned(sections: &[Section], only: Option<&str>) -> bool
    ensures { result ≡ list_any (is_planned (option_copied only.entry)) sections.now }
{
    sections.iter().any(|section| is_planned(section, only))
}
