// Whether each line of a job file stands in an adapted one, as it is or as a comment.
ghost use Rattle.std.specs.Prelude.{◌≡◌, length, option_copied, option_map, take_while, IfOk};
ghost use Rattle.jr_job_adapt.specs.Keeping.{are_kept, before_return, begins, behind, is_left, is_no_return, is_said, lines_in, mark_at, marks_below, stands};

use crate::marks::Mark;
use std::alloc::{AllocError, Global};
use std::marker::Model;

/// A line of a text, without its line feed.
#[derive(Drop)]
pub struct RawLine {
    bytes: Vec<u8>,
}

impl Model for RawLine {
    ghost use Rattle.std.specs.Prelude.{ℕ, List};

    ghost Value = { List ℕ };

    ghost view = { λ l. l.bytes.items };
}

impl RawLine {
    pub(crate) fn new(alloc: Global, text: &str) -> Result<RawLine, AllocError>
        ensures { IfOk result (λ line. line ≡ text.now) }
    {
        Ok(RawLine {
            bytes: Vec::from_slice(alloc, text.as_bytes())?,
        })
    }

    pub(crate) fn bytes(&self) -> &[u8]
        ensures { result.now ≡ self.now }
    {
        self.bytes.as_slice()
    }
}

// The lines of a text.
pub(crate) fn lines_of(alloc: Global, text: &str) -> Result<Vec<RawLine>, AllocError>
    ensures { IfOk result (λ lines. lines.items ≡ lines_in text.now) }
{
    let mut lines = Vec::new(alloc);
    for line in text.split('\n') {
        let own = RawLine::new(alloc, line)?;
        lines.push(own)?;
    }
    Ok(lines)
}

// A line up to its carriage return.
pub(crate) fn before_return(line: &[u8]) -> &[u8]
    ensures { result.now ≡ before_return line.now }
{
    let end = return_at(line);
    &line[..end]
}

// Where the carriage return of a line is, or else its end.
fn return_at(line: &[u8]) -> usize
    ensures { result ≡ length (take_while is_no_return line.now) }
{
    line.iter().take_while(|byte| **byte != b'\r').count()
}

// Whether a line is the comment of one that is refused.
fn is_said(line: &[u8], other: &[u8]) -> bool
    ensures { result ≡ is_said line.now other.now }
{
    other.starts_with(b"; was: ") && other[7..].starts_with(before_return(line))
}

// Whether a line is another one as a comment.
fn is_left(line: &[u8], other: &[u8]) -> bool
    ensures { result ≡ is_left line.now other.now }
{
    other.starts_with(b"; ") && &other[2..] == line
}

// Whether a line stands as another one, by its mark.
fn stands(mark: Option<Mark>, line: &[u8], other: &[u8]) -> bool
    ensures { result ≡ stands mark line.now other.now }
{
    match mark {
        None => other == line,
        Some(mark) if mark.is_refused => is_said(line, other),
        Some(_) => is_left(line, other),
    }
}

// What follows the first line that a line stands as.
fn behind<'a>(mark: Option<Mark>, line: &[u8], others: &'a [RawLine]) -> Option<&'a [RawLine]>
    ensures { option_map (λ rest. rest.now) result ≡ behind mark line.now others.entry.now }
{
    for (i, other) in others.iter().enumerate() {
        if stands(mark, line, other.bytes()) {
            return Some(&others[i + 1..]);
        }
    }
    None
}

// The mark of the line of this number, if the first mark is one.
fn mark_at(number: usize, marks: &[Mark]) -> Option<Mark>
    ensures { result ≡ mark_at number marks.now }
{
    match marks.first() {
        Some(mark) if mark.line as usize == number => Some(*mark),
        _ => None,
    }
}

// The marks of later lines.
fn marks_below(number: usize, marks: &[Mark]) -> &[Mark]
    ensures { result.now ≡ marks_below number marks.now }
{
    match marks {
        [first, rest @ ..] if first.line as usize == number => rest,
        _ => marks,
    }
}

// Whether each line stands among others in its order, as its mark says, and no mark is left over.
pub(crate) fn are_kept(marks: &[Mark], lines: &[RawLine], others: &[RawLine]) -> bool
    ensures { result ≡ are_kept 1 marks.entry.now lines.now others.entry.now }
{
    let mut marks = marks;
    let mut others = others;
    for (i, line) in lines.iter().enumerate() {
        let number = i + 1;
        match behind(mark_at(number, marks), line.bytes(), others) {
            Some(rest) => others = rest,
            None => return false,
        }
        marks = marks_below(number, marks);
    }
    marks.is_empty()
}
