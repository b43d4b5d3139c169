ghost use Rattle.std.specs.Prelude.{◌≡◌, ℕ, List, Option, true, IfOk, IsErr, OnOk, option_copied};
ghost use Rattle.jr_job_notes.specs.Notes.{AreFirst, is_want, noted, sections_noted};

use crate::jobs::jobs;
use crate::lines::line_notes;
use crate::unread::add_unread;
use crate::whole::{add_joint, add_own, add_unplanned, plan_texts};
use jr_text::{Section, TextFault};
use std::alloc::{AllocError, Global};
use std::fmt;

/// What a job file's writer is told: of a line, from 1, or of the file.
#[derive(Drop)]
pub struct Note {
    pub(crate) line: Option<u32>,
    pub(crate) text: String,
}

impl fmt::Display for Note {
    ghost use Rattle.std.specs.Prelude.{Some};
    ghost use Rattle.jr_job_notes.specs.Notes.{note_text};

    ghost output = { λ note. Some (note_text note) };

    fn fmt<W: fmt::Write>(&self, f: &mut fmt::Formatter<W>) -> fmt::Result {
        let text = self.text.as_str();
        match self.line {
            Some(line) => write!(f, "line {line}: {text}"),
            None => write!(f, "{text}"),
        }
    }
}

/// What is said of a text that is no job file: the line that is at fault. Nothing if it is the whole text's fault.
pub fn unread_notes(alloc: Global, text: &[u8], fault: TextFault) -> Result<Vec<Note>, AllocError>
    // Where memory was wanting there is nothing to say.
    ensures { is_want fault ≡ true → IsErr result }
{
    if is_want(fault) {
        return Err(AllocError);
    }
    let mut notes = Vec::new(alloc);
    add_unread(alloc, &mut notes, text, fault)?;
    Ok(notes)
}

// Whether sections weren't read for want of memory.
fn is_want(fault: TextFault) -> bool
    ensures { result ≡ is_want fault }
{
    matches!(fault, TextFault::Memory)
}

/// What is wrong with the sections of a job file that is refused: each line that is refused by itself, and then each job at fault and what
/// is wrong with all jobs together, as far as that doesn't hang on a refused line.
pub fn job_notes(
    alloc: Global,
    sections: &[Section],
    only: Option<&str>,
) -> Result<Vec<Note>, AllocError>
    // The notes of lines are of those that are refused, and stand before all others.
    ensures { IfOk result (λ notes. AreFirst (sections_noted (option_copied only.entry) sections.now) (noted notes.items)) }
{
    let mut notes = line_notes(alloc, sections, only)?;
    let texts = whole_texts(alloc, sections, only)?;
    add_texts(&mut notes, texts)?;
    Ok(notes)
}

// Adds notes that are of no line.
fn add_texts(notes: &mut Vec<Note>, texts: Vec<String>) -> Result<(), AllocError>
    ensures { OnOk result ((lines : List (Option ℕ)) → AreFirst lines (noted notes.old.items) → AreFirst lines (noted notes.new.items)) }
{
    for text in texts {
        notes.push(Note { line: None, text })?;
    }
    Ok(())
}

// What is wrong with jobs, each by itself and all together.
fn whole_texts(
    alloc: Global,
    sections: &[Section],
    only: Option<&str>,
) -> Result<Vec<String>, AllocError> {
    let mut texts = Vec::new(alloc);
    let jobs = jobs(alloc, sections, only)?;
    if jobs.is_empty() {
        add_unplanned(alloc, &mut texts, sections)?;
    }
    add_own(alloc, &mut texts, jobs.as_slice())?;
    add_joint(alloc, &mut texts, jobs.as_slice())?;
    Ok(texts)
}

/// What is worth knowing of the sections of a job file that is taken: that a job has a pattern or a backlog and checks nothing, or only
/// reads and checks nothing; that fio means something else by its lines.
pub fn plan_notes(
    alloc: Global,
    sections: &[Section],
    only: Option<&str>,
) -> Result<Vec<Note>, AllocError> {
    let jobs = jobs(alloc, sections, only)?;
    let mut notes = Vec::new(alloc);
    add_texts(&mut notes, plan_texts(alloc, jobs.as_slice())?)?;
    Ok(notes)
}
