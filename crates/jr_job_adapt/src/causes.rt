// Whether each job that is left out of an adapted job file has to be.
ghost use Rattle.std.specs.Prelude.{◌≡◌, IfOk, Ok};
ghost use Rattle.jr_job_options.specs.Options.{AreInRange, default_options, options_from};
ghost use Rattle.jr_job_adapt.specs.Causes.{are_caused, below, is_faulty, is_needed};

use crate::following::is_global;
use crate::marks::is_out;
use jr_job_options::{JobFault, JobOptions};
use jr_text::{Line, Section};

// The options with more lines, or the first fault in all of them.
fn with_lines(above: &Result<JobOptions, JobFault>, lines: &[Line]) -> Result<JobOptions, JobFault>
    requires { IfOk above.now AreInRange }
    ensures value { result ≡ options_from above.now lines.now }
    ensures range { IfOk result AreInRange }
{
    match above {
        Ok(options) => options.with_lines(lines),
        Err(fault) => Err(*fault),
    }
}

// What counts below a section: what counts above it, with its lines where it is a global one.
fn below(above: Result<JobOptions, JobFault>, section: &Section) -> Result<JobOptions, JobFault>
    requires { IfOk above AreInRange }
    ensures value { result ≡ below above section.now }
    ensures range { IfOk result AreInRange }
{
    if is_global(section) {
        with_lines(&above, section.lines())
    } else {
        above
    }
}

// Whether a section makes no job by itself below these global options.
fn is_faulty(above: &Result<JobOptions, JobFault>, section: &Section) -> bool
    requires { IfOk above.now AreInRange }
    ensures { result ≡ is_faulty above.now section.now }
{
    match with_lines(above, section.lines()) {
        Ok(options) => options.shape(section.line_number()).is_err(),
        Err(_) => true,
    }
}

// Whether a section is a job that may not be left out.
fn is_needed(above: &Result<JobOptions, JobFault>, section: &Section) -> bool
    requires { IfOk above.now AreInRange }
    ensures { result ≡ is_needed above.now section.now }
{
    !is_global(section) && !is_faulty(above, section)
}

// Whether each job that is left out makes none by itself.
pub(crate) fn are_caused(outs: &[bool], sections: &[Section]) -> bool
    ensures { result ≡ are_caused outs.now 0 (Ok default_options) sections.now }
{
    let mut above = Ok(JobOptions::new());
    for (i, section) in sections.iter().enumerate() {
        if is_out(outs, i) && is_needed(&above, section) {
            return false;
        }
        above = below(above, section);
    }
    true
}
