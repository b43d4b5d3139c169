// One section of a job file: what it is to the run, and its lines read behind the options that count above it.
ghost use Rattle.std.specs.Prelude.{◌≡◌, IfOk, option_copied};
ghost use Rattle.jr_options.specs.Sections.{IsInRange, reading_of};
ghost use Rattle.jr_options.specs.Surveys.{is_global, is_planned};
ghost use Rattle.jr_job_options.specs.Options.{AreInRange};

use jr_job_options::{JobFault, JobOptions};
use jr_text::Section;

// The section's lines count for the jobs below it; it is no job.
pub(crate) fn is_global(section: &Section) -> bool
    ensures { result ≡ is_global section.now }
{
    section.name() == "global"
}

// A job that the run is to have.
pub(crate) fn is_planned(section: &Section, only: Option<&str>) -> bool
    ensures { result ≡ is_planned (option_copied only.entry) section.now }
{
    if is_global(section) {
        return false;
    }
    match only {
        Some(name) => section.name() == name,
        None => true,
    }
}

// What a section says.
#[derive(Clone, Copy)]
pub enum Reading {
    // What counts for the jobs below it.
    Globals(JobOptions),
    // The options of its job.
    Job(JobOptions),
    // Nothing: its job isn't asked for, and its lines aren't looked at.
    Skipped,
}

// Reads a section behind the global options above it, or finds the first fault in its lines.
pub(crate) fn read_section(
    globals: &JobOptions,
    section: &Section,
    only: Option<&str>,
) -> Result<Reading, JobFault>
    requires { AreInRange globals.now }
    ensures value { result ≡ reading_of (option_copied only.entry) globals.now section.now }
    ensures range { IfOk result IsInRange }
{
    let is_global = is_global(section);
    if !is_global && !is_planned(section, only) {
        return Ok(Reading::Skipped);
    }
    match globals.with_lines(section.lines()) {
        Ok(options) if is_global => Ok(Reading::Globals(options)),
        Ok(options) => Ok(Reading::Job(options)),
        Err(fault) => Err(fault),
    }
}
