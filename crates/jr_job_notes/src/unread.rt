// What is said of a line that makes a text no job file.

use crate::lines::shown_line;
use crate::notes::Note;
use jr_text::TextFault;
use std::alloc::{AllocError, Global};

// Adds a note of the line that a fault names, with the line itself.
pub(crate) fn add_unread(
    alloc: Global,
    notes: &mut Vec<Note>,
    text: &[u8],
    fault: TextFault,
) -> Result<(), AllocError> {
    match fault {
        TextFault::Outside(line) => add(
            alloc,
            notes,
            text,
            line,
            "stands above all headings; instead: [NAME] above it, or [global] for all jobs",
        ),
        TextFault::OpenBracket(line) => add(
            alloc,
            notes,
            text,
            line,
            "has no closing bracket; instead: a heading [NAME]",
        ),
        TextFault::EmptyName(line) => add(
            alloc,
            notes,
            text,
            line,
            "names no job; instead: a heading [NAME]",
        ),
        TextFault::TooLong | TextFault::NotUtf8 | TextFault::Memory => Ok(()),
    }
}

fn add(
    alloc: Global,
    notes: &mut Vec<Note>,
    text: &[u8],
    line: u32,
    why: &'static str,
) -> Result<(), AllocError> {
    let found = shown_line(alloc, line_of(text, line))?;
    let text = format!(in alloc; "`{found}` {why}")?;
    notes.push(Note {
        line: Some(line),
        text,
    })?;
    Ok(())
}

// The line of this number, from 1, without blanks around it.
fn line_of(text: &[u8], number: u32) -> &str {
    let Ok(text) = str::from_utf8(text) else {
        return "";
    };
    let mut count = 0u32;
    for line in text.split('\n') {
        count = count.saturating_add(1);
        if count == number {
            return line.trim();
        }
    }
    ""
}
