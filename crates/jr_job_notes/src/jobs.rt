ghost use Rattle.std.specs.Prelude.{IfOk};
ghost use Rattle.jr_job_options.specs.Options.{AreInRange};

use crate::lines::{is_global, is_planned, shown};
use crate::open::Open;
use crate::said::Said;
use jr_job_options::JobOptions;
use jr_text::{Line, Section};
use std::alloc::{AllocError, Global};
use std::slice;

// A planned job: its name as it is shown, the line that opens its section, and what its lines say, but for those that are refused.
#[derive(Drop)]
pub struct Job {
    pub(crate) name: String,
    pub(crate) line: u32,
    pub(crate) options: JobOptions,
    pub(crate) said: Said,
    // What the refused ones may say.
    pub(crate) open: Open,
}

// The planned jobs.
pub(crate) fn jobs(
    alloc: Global,
    sections: &[Section],
    only: Option<&str>,
) -> Result<Vec<Job>, AllocError> {
    let mut jobs = Vec::new(alloc);
    let mut globals = JobOptions::new();
    let (mut said, mut open) = (Said::new(), Open::new());
    for section in sections {
        let lines = section.lines();
        if is_global(section) {
            globals = with_lines(globals, lines);
            said = said.with_lines(lines);
            open = open.with_lines(lines);
        } else if is_planned(section, only) {
            jobs.push(Job {
                name: shown(alloc, section.name())?,
                line: section.line_number(),
                options: with_lines(globals, lines),
                said: said.with_lines(lines),
                open: open.with_lines(lines),
            })?;
        }
    }
    Ok(jobs)
}

// The options with those of more lines, but for the refused ones.
fn with_lines(options: JobOptions, lines: &[Line]) -> JobOptions
    requires { AreInRange options }
    ensures { AreInRange result }
{
    let mut all = options;
    for line in lines {
        all = with_line(all, line);
    }
    all
}

fn with_line(options: JobOptions, line: &Line) -> JobOptions
    requires { AreInRange options }
    ensures { AreInRange result }
{
    let before = options;
    match options.with_lines(slice::from_ref(line)) {
        Ok(more) => more,
        Err(_) => before,
    }
}
