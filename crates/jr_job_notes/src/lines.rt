ghost use Rattle.std.specs.Prelude.{◌≡◌, ◌++◌, ◌∷◌, [], IfOk, OnOk, is_some, option_copied};
ghost use Rattle.jr_options.specs.Refusals.{counts, line_fault};
ghost use Rattle.jr_options.specs.Surveys.{is_global, is_planned};
ghost use Rattle.jr_job_notes.specs.Notes.{is_refused, lines_noted, noted, sections_noted};

use crate::notes::Note;
use crate::others::example;
use jr_job_keys::{Told, key_told, value_told};
use jr_job_options::JobOptions;
use jr_options::JobFault;
use jr_text::{Line, Section};
use std::alloc::{AllocError, Global};
use std::slice;

// The most characters of a name that a note has.
const MOST_SHOWN: usize = 26;

// The most characters of a key, and of a line.
const LONGEST_SHOWN: usize = 200;

// The section's lines count for the jobs below it; it is no job.
pub(crate) fn is_global(section: &Section) -> bool
    ensures { result ≡ is_global section.now }
{
    section.name() == "global"
}

// A job that the run is to have.
pub(crate) fn is_planned(section: &Section, only: Option<&str>) -> bool
    ensures { result ≡ is_planned (option_copied only.entry) section.now }
{
    if is_global(section) {
        return false;
    }
    match only {
        Some(name) => section.name() == name,
        None => true,
    }
}

// Whether a section's lines are looked at.
fn counts(section: &Section, only: Option<&str>) -> bool
    ensures { result ≡ counts (option_copied only.entry) section.now }
{
    is_global(section) || is_planned(section, only)
}

/// A note for each line that is refused by itself, in the order of the lines. Those of jobs that aren't planned are left out.
pub fn line_notes(
    alloc: Global,
    sections: &[Section],
    only: Option<&str>,
) -> Result<Vec<Note>, AllocError>
    ensures { IfOk result (λ notes. noted notes.items ≡ sections_noted (option_copied only.entry) sections.now) }
{
    let mut notes = Vec::new(alloc);
    for section in sections {
        add_section(alloc, &mut notes, section, only)?;
    }
    Ok(notes)
}

// Adds the notes of a section's lines, where these are looked at.
fn add_section(
    alloc: Global,
    notes: &mut Vec<Note>,
    section: &Section,
    only: Option<&str>,
) -> Result<(), AllocError>
    ensures { OnOk result (noted notes.new.items
        ≡ noted notes.old.items ++ sections_noted (option_copied only.entry) (section.now ∷ [])) }
{
    if counts(section, only) {
        add_lines(alloc, notes, section.lines())
    } else {
        Ok(())
    }
}

// Adds a note for each of these lines that is refused.
fn add_lines(alloc: Global, notes: &mut Vec<Note>, lines: &[Line]) -> Result<(), AllocError>
    ensures { OnOk result (noted notes.new.items ≡ noted notes.old.items ++ lines_noted lines.now) }
{
    for line in lines {
        add_line(alloc, notes, line)?;
    }
    Ok(())
}

// Adds a note of a line that is refused.
fn add_line(alloc: Global, notes: &mut Vec<Note>, line: &Line) -> Result<(), AllocError>
    ensures { OnOk result (noted notes.new.items ≡ noted notes.old.items ++ lines_noted (line.now ∷ [])) }
{
    match fault_of(line) {
        Some(fault) => {
            notes.push(note_of(alloc, line, fault)?)?;
            Ok(())
        }
        None => Ok(()),
    }
}

// What is wrong with a line by itself.
#[tactic(auto, using(crate::proofs::NoteLemmas::alone))]
fn fault_of(line: &Line) -> Option<JobFault>
    ensures { result ≡ line_fault line.now }
{
    match JobOptions::new().with_lines(slice::from_ref(line)) {
        Ok(_) => None,
        Err(fault) => Some(fault),
    }
}

// Whether a line is refused by itself.
pub(crate) fn is_refused(line: &Line) -> bool
    ensures { result ≡ is_refused line.now }
{
    fault_of(line).is_some()
}

/// What is said of a line that is refused by itself; nothing of one that is taken.
pub fn told_of(line: &Line) -> Option<Told>
    ensures { is_some result ≡ is_some (line_fault line.now) }
{
    match fault_of(line) {
        Some(fault) => Some(told_as(line, fault)),
        None => None,
    }
}

// What is said of a line that is refused so.
fn told_as(line: &Line, fault: JobFault) -> Told {
    match fault {
        JobFault::Unknown(_) => key_told(line),
        _ => value_told(line),
    }
}

// The note of a line that is refused so.
fn note_of(alloc: Global, line: &Line, fault: JobFault) -> Result<Note, AllocError>
    ensures { IfOk result (λ note. note.line ≡ Some line.now.line) }
{
    let text = line_text(alloc, line, told_as(line, fault))?;
    Ok(Note {
        line: Some(line.number()),
        text,
    })
}

fn line_text(alloc: Global, line: &Line, told: Told) -> Result<String, AllocError> {
    let key = first_letters(alloc, line.key(), LONGEST_SHOWN)?;
    let fate = told.fate.text(alloc)?;
    let (why, instead) = (told.why, told.instead);
    if let Some(word) = told.meant {
        return format!(in alloc; "{key}: {why}; did you mean `{word}`? ({fate})");
    }
    match example(alloc, line, told.fate)? {
        Some(here) => format!(in alloc; "{key}: {why}; instead: {instead}, here {here} ({fate})"),
        None => format!(in alloc; "{key}: {why}; instead: {instead} ({fate})"),
    }
}

// The first characters of a name.
pub(crate) fn shown(alloc: Global, name: &str) -> Result<String, AllocError> {
    first_letters(alloc, name, MOST_SHOWN)
}

// So much of a line as a note has.
pub(crate) fn shown_line(alloc: Global, line: &str) -> Result<String, AllocError> {
    first_letters(alloc, line, LONGEST_SHOWN)
}

fn first_letters(alloc: Global, name: &str, most: usize) -> Result<String, AllocError> {
    let mut text = String::new(alloc);
    for letter in name.chars().take(most) {
        text.push(letter)?;
    }
    Ok(text)
}
