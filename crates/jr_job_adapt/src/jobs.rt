// What becomes of each section: whether its job is left out, and which lines it has behind its own.
ghost use Rattle.std.specs.Prelude.{IfOk};
ghost use Rattle.jr_job_options.specs.Options.{AreInRange};

use crate::following::is_global;
use crate::settled::{Settled, settle};
use crate::state::{State, line_of, way_of};
use crate::turns::turn_line;
use jr_job_keys::Way;
use jr_job_options::{JobFault, JobOptions};
use jr_text::{Line, Section};
use std::alloc::{AllocError, Global};
use std::slice;

/// How long files are.
pub trait Lengths {
    /// The length of the file or device of this name in bytes, where it is there.
    fn length(&self, path: &str) -> Option<u64>;
}

// What becomes of a section.
#[derive(Drop)]
pub struct Draft {
    // Why it is left out, if it is.
    pub(crate) out: Option<String>,
    // The lines behind its own, comments among them.
    pub(crate) extras: Vec<String>,
}

// The options with what a line says, where it is taken.
fn with_one(options: JobOptions, line: &Line) -> JobOptions
    requires { AreInRange options }
    ensures { AreInRange result }
{
    let before = options;
    match options.with_lines(slice::from_ref(line)) {
        Ok(more) => more,
        Err(_) => before,
    }
}

fn with_all(options: JobOptions, lines: &[Line]) -> JobOptions
    requires { AreInRange options }
    ensures { AreInRange result }
{
    let mut all = options;
    for line in lines {
        all = with_one(all, line);
    }
    all
}

// These options after a line, or after what stands in its place.
fn with_line(alloc: Global, options: JobOptions, line: &Line) -> Result<JobOptions, AllocError>
    requires { AreInRange options }
    ensures { IfOk result AreInRange }
{
    match turn_line(alloc, line)? {
        Some(turned) => Ok(with_all(options, turned.lines.as_slice())),
        None => Ok(with_one(options, line)),
    }
}

// These options after the lines of a section.
fn with_section(
    alloc: Global,
    options: JobOptions,
    section: &Section,
) -> Result<JobOptions, AllocError>
    requires { AreInRange options }
    ensures { IfOk result AreInRange }
{
    let mut all = options;
    for line in section.lines() {
        all = with_line(alloc, all, line)?;
    }
    Ok(all)
}

// What becomes of each section. A job without a size has that of its file, or else the one that is given.
pub(crate) fn drafts<L: Lengths>(
    alloc: Global,
    sections: &[Section],
    size: Option<u64>,
    lengths: &L,
) -> Result<Vec<Draft>, AllocError> {
    let mut drafts = Vec::new(alloc);
    let mut globals = JobOptions::new();
    let mut above = State::new(alloc);
    for (i, section) in sections.iter().enumerate() {
        drafts.push(draft_of(alloc, sections, i, globals, &above, size, lengths)?)?;
        globals = with_global(alloc, globals, section)?;
        above.add_global(alloc, sections, i)?;
    }
    Ok(drafts)
}

// The options below a section, which counts where it is a global one.
fn with_global(
    alloc: Global,
    globals: JobOptions,
    section: &Section,
) -> Result<JobOptions, AllocError>
    requires { AreInRange globals }
    ensures { IfOk result AreInRange }
{
    if is_global(section) {
        with_section(alloc, globals, section)
    } else {
        Ok(globals)
    }
}

// What becomes of the section of a number, below what the global ones say.
fn draft_of<L: Lengths>(
    alloc: Global,
    sections: &[Section],
    number: usize,
    globals: JobOptions,
    above: &State,
    size: Option<u64>,
    lengths: &L,
) -> Result<Draft, AllocError>
    requires { AreInRange globals }
{
    let Some(section) = sections.get(number) else {
        return Ok(kept(alloc));
    };
    if is_global(section) {
        return Ok(kept(alloc));
    }
    let options = with_section(alloc, globals, section)?;
    let state = above.with(alloc, sections, number)?;
    let mut job = Job {
        number,
        line: section.line_number(),
        options,
        extras: Vec::new(alloc),
    };
    let out = job.completed(alloc, sections, &state, size, lengths)?;
    let extras = job.extras;
    Ok(Draft { out, extras })
}

fn kept(alloc: Global) -> Draft {
    Draft {
        out: None,
        extras: Vec::new(alloc),
    }
}

// A job that is adapted.
#[derive(Drop)]
struct Job {
    number: usize,
    line: u32,
    options: JobOptions,
    extras: Vec<String>,
    ghost range: { AreInRange options },
}

impl Job {
    // Adds a line, as `key=value`, behind its own ones.
    fn add(&mut self, alloc: Global, text: String) -> Result<(), AllocError> {
        let line = read_line(alloc, text.as_str(), self.line)?;
        self.options = with_one(self.options, &line);
        self.extras.push(text)?;
        Ok(())
    }

    // Does what its refused lines leave to do, and gives it a size, or says why it is left out.
    fn completed<L: Lengths>(
        &mut self,
        alloc: Global,
        sections: &[Section],
        state: &State,
        size: Option<u64>,
        lengths: &L,
    ) -> Result<Option<String>, AllocError> {
        if let Some((line, lost)) = state.yours(sections) {
            return Ok(Some(reason(alloc, line, lost)?));
        }
        for rank in 0..3u8 {
            if let Some(why) = self.settle(alloc, sections, state, rank)? {
                return Ok(Some(why));
            }
        }
        self.sized(alloc, state, size, lengths)
    }

    // Settles the lines of one rank: why the job can't be adapted, if it can't.
    fn settle(
        &mut self,
        alloc: Global,
        sections: &[Section],
        state: &State,
        rank: u8,
    ) -> Result<Option<String>, AllocError> {
        for concern in state.concerns.iter() {
            if let (Some(way), Some(line)) = (way_of(*concern), line_of(sections, *concern))
                && rank_of(way) == rank
            {
                let why = self.settle_line(alloc, sections, concern.section, way, line)?;
                if why.is_some() {
                    return Ok(why);
                }
            }
        }
        Ok(None)
    }

    // Settles a line of this section: why the job can't be adapted, if it can't.
    fn settle_line(
        &mut self,
        alloc: Global,
        sections: &[Section],
        section: usize,
        way: Way,
        line: &Line,
    ) -> Result<Option<String>, AllocError> {
        let above = job_above(sections, self.number);
        match settle(alloc, way, line, &self.options, above)? {
            Settled::Yours(lost) => Ok(Some(reason(alloc, line, lost)?)),
            Settled::Lines(lines) => {
                if section != self.number && !lines.is_empty() {
                    self.name_above(alloc, line)?;
                }
                self.add_all(alloc, lines)?;
                Ok(None)
            }
        }
    }

    // Says behind its own lines which line above the next ones come from.
    fn name_above(&mut self, alloc: Global, line: &Line) -> Result<(), AllocError> {
        let shown = shown(alloc, line)?;
        self.extras.push(format!(in alloc; "; by {shown} above:")?)?;
        Ok(())
    }

    fn add_all(&mut self, alloc: Global, texts: Vec<String>) -> Result<(), AllocError> {
        for text in texts {
            self.add(alloc, text)?;
        }
        Ok(())
    }

    // Gives it a size where it has none, or says why it is left out.
    fn sized<L: Lengths>(
        &mut self,
        alloc: Global,
        state: &State,
        size: Option<u64>,
        lengths: &L,
    ) -> Result<Option<String>, AllocError> {
        if self.options.size.is_none() {
            self.add_size(alloc, state, size, lengths)?;
        }
        match self.options.shape(self.line) {
            Ok(_) => Ok(None),
            Err(fault) => Ok(Some(String::from_str(alloc, shape_reason(fault))?)),
        }
    }

    fn add_size<L: Lengths>(
        &mut self,
        alloc: Global,
        state: &State,
        size: Option<u64>,
        lengths: &L,
    ) -> Result<(), AllocError> {
        if let Some(path) = state.path(alloc)?
            && let Some(length) = lengths.length(path.as_str())
            && length > self.options.offset
        {
            return self.add_size_of_file(alloc, path.as_str(), length);
        }
        match size {
            Some(size) => self.add_given_size(alloc, size),
            None => Ok(()),
        }
    }

    // Gives it what its file of this path and length has behind its offset.
    fn add_size_of_file(
        &mut self,
        alloc: Global,
        path: &str,
        length: u64,
    ) -> Result<(), AllocError> {
        let rest = length.saturating_sub(self.options.offset);
        self.extras.push(format!(in alloc; "; no size was given: {path} has {length} bytes")?)?;
        self.add(alloc, format!(in alloc; "size={rest}")?)
    }

    fn add_given_size(&mut self, alloc: Global, size: u64) -> Result<(), AllocError> {
        self.extras
            .push(String::from_str(alloc, "; no size was given: by --size")?)?;
        self.add(alloc, format!(in alloc; "size={size}")?)
    }
}

// The name of the last job above the section of this number.
fn job_above(sections: &[Section], number: usize) -> Option<&str> {
    let mut name = None;
    for section in sections.iter().take(number) {
        if !is_global(section) {
            name = Some(section.name());
        }
    }
    name
}

// In which order the ways are done: what is read or written first, and then how much.
fn rank_of(way: Way) -> u8 {
    match way {
        Way::FileSize => 1,
        Way::Amount | Way::Count => 2,
        _ => 0,
    }
}

// The line that a text says, as `key=value`.
fn read_line(alloc: Global, text: &str, number: u32) -> Result<Line, AllocError> {
    match text.split_once('=') {
        Some((key, value)) => {
            let value = String::from_str(alloc, value)?;
            Ok(Line::new(number, String::from_str(alloc, key)?, Some(value)))
        }
        None => Ok(Line::new(number, String::from_str(alloc, text)?, None)),
    }
}

// A line as it is named in a comment.
fn shown(alloc: Global, line: &Line) -> Result<String, AllocError> {
    let key = line.key();
    match line.value() {
        Some(value) => format!(in alloc; "{key}={value}"),
        None => String::from_str(alloc, key),
    }
}

// Why a job is left out that this line counts for.
fn reason(alloc: Global, line: &Line, lost: &str) -> Result<String, AllocError> {
    let shown = shown(alloc, line)?;
    format!(in alloc; "{shown}: {lost}")
}

fn shape_reason(fault: JobFault) -> &'static str {
    match fault {
        JobFault::MissingSize(_) => "it has no size: a line size=N, or the word --size=N",
        JobFault::NoPattern(_) => "verify=pattern without verify_pattern",
        _ => "its blocks, places and intervals are no multiples of 512, or don't fit each other",
    }
}
