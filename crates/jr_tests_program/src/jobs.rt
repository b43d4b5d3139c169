use jr_cli::CliFault;
use jr_options::plan;
use jr_plan::Plan;
use jr_text::sections;
use std::alloc::Global;

// The plan of a job text: of all its jobs, or of those of one name.
pub(crate) fn read_job(alloc: Global, text: &[u8], only: Option<&str>) -> Result<Plan, CliFault> {
    let sections = sections(alloc, text)?;
    Ok(plan(alloc, sections.as_slice(), only)?)
}
