ghost use Rattle.std.specs.Prelude.{◌≡◌, ◌≤◌, length, Ok, Err, None, IfErr, IfOk, IfSome, OnOk};
ghost use Rattle.std.specs.List.{slice_split};
ghost use Rattle.std.specs.Result.{result_err};
ghost use Rattle.jr_text.specs.JobText.{content_of, is_newline, is_skipped, lines_of, read_lines, sections_of};
ghost use Rattle.jr_text.specs.declared.faults.TextFault.TheVariants.{Memory as OutOfMemory};
ghost use Rattle.jr_text.specs.Reading.{and_line, and_option, open_below, IsRefusal};
ghost use Rattle.jr_text.specs.Refusals.{refusal_of};

use crate::cuts::{before_comment, content};
use crate::entries::{Line, Section, section_name};
use crate::faults::TextFault;
use jr_model::LONGEST_TEXT;
use std::alloc::Global;

/// The sections of a job file: each opened by a line `[name]`, with the option lines up to the next.
/// Any bytes are taken; the first fault is named, a text that is too long before one that isn't UTF-8,
/// and this before a faulty line. Time grows with the length alone.
pub fn sections(alloc: Global, text: &[u8]) -> Result<Vec<Section>, TextFault>
    // The first fault is answered by its name, whatever memory there is.
    ensures refused { IfSome (refusal_of text.now) (λ fault. result ≡ Err fault) }
    // Where there is none, only memory can be wanting.
    ensures memory { refusal_of text.now ≡ None → IfErr result (λ fault. fault ≡ OutOfMemory) }
    ensures read { IfOk result (λ sections. sections_of text.now ≡ Ok sections.items) }
{
    if text.len() > LONGEST_TEXT {
        return Err(TextFault::TooLong);
    }
    match str::from_utf8(text) {
        Ok(text) => read_text(alloc, text),
        Err(_) => Err(TextFault::NotUtf8),
    }
}

fn read_text(alloc: Global, text: &str) -> Result<Vec<Section>, TextFault>
    requires { length text.now ≤ LONGEST_TEXT }
    ensures refused { IfSome (result_err (read_lines (lines_of text.now))) (λ fault. result ≡ Err fault) }
    ensures memory { result_err (read_lines (lines_of text.now)) ≡ None → IfErr result (λ fault. fault ≡ OutOfMemory) }
    ensures read { IfOk result (λ sections. read_lines (lines_of text.now) ≡ Ok sections.items) }
{
    match first_fault(text) {
        Some(fault) => Err(fault),
        None => read_lines(alloc, text),
    }
}

// Goes over all lines once, without memory.
fn first_fault(text: &str) -> Option<TextFault>
    requires { length text.now ≤ LONGEST_TEXT }
    ensures { result ≡ result_err (read_lines (lines_of text.now)) }
{
    let mut is_open = false;
    let mut number = 0;
    for line in text.split('\n') {
        number += 1;
        match is_open_below(is_open, number, line) {
            Ok(below) => is_open = below,
            Err(fault) => return Some(fault),
        }
    }
    None
}

// Whether a section is open below a line, where one is above it or not.
fn is_open_below(is_open: bool, number: u32, line: &str) -> Result<bool, TextFault>
    ensures { result ≡ open_below is_open (number, content_of line.now) }
{
    let content = content(line);
    match content.strip_prefix('[') {
        Some(rest) => section_name(number, rest).map(|_| true),
        None if is_skipped(content) => Ok(is_open),
        None if is_open => Ok(true),
        None => Err(TextFault::Outside(number)),
    }
}

fn read_lines(alloc: Global, text: &str) -> Result<Vec<Section>, TextFault>
    requires { length text.now ≤ LONGEST_TEXT }
    ensures ok { IfOk result (λ sections. read_lines (lines_of text.now) ≡ Ok sections.items) }
    ensures err { IfErr result (λ fault. IsRefusal fault (read_lines (lines_of text.now))) }
{
    let mut found = Vec::new(alloc);
    let mut number = 0;
    for line in text.split('\n') {
        number += 1;
        read_line(alloc, &mut found, number, line)?;
    }
    Ok(found)
}

fn read_line(
    alloc: Global,
    found: &mut Vec<Section>,
    number: u32,
    line: &str,
) -> Result<(), TextFault>
    ensures ok { OnOk result
        (and_line found.old.items (number, content_of line.now) ≡ Ok found.new.items) }
    ensures err { IfErr result
        (λ fault. IsRefusal fault (and_line found.old.items (number, content_of line.now))) }
{
    let content = content(line);
    match content.strip_prefix('[') {
        Some(rest) => Ok(found.push(Section::open(alloc, number, rest)?)?),
        None if is_skipped(content) => Ok(()),
        None => add_option(alloc, found, number, content),
    }
}

// A line that says nothing: an empty one, or a comment.
fn is_skipped(content: &str) -> bool
    ensures { result ≡ is_skipped content.now }
{
    matches!(content.as_bytes(), [] | [b';' | b'#', ..])
}

fn add_option(
    alloc: Global,
    found: &mut Vec<Section>,
    number: u32,
    content: &str,
) -> Result<(), TextFault>
    ensures ok { OnOk result
        (and_option found.old.items (number, content.now) ≡ Ok found.new.items) }
    ensures err { IfErr result
        (λ fault. IsRefusal fault (and_option found.old.items (number, content.now))) }
{
    let Some(section) = found.last_mut() else {
        return Err(TextFault::Outside(number));
    };
    section.push(Line::read(alloc, number, before_comment(content))?)?;
    Ok(())
}
