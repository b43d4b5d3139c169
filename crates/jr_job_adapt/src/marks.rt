// Which lines of a job file don't stand as they are once it is adapted.
ghost use Rattle.std.specs.Prelude.{◌≡◌, ◌++◌, ◌∷◌, [], IfOk, OnOk};
ghost use Rattle.jr_job_adapt.specs.Keeping.{is_out, mark, line_marks, lines_marks, marks_from, section_marks};

use jr_job_notes::told_of;
use jr_text::{Line, Section};
use std::alloc::{AllocError, Global};

/// A line that doesn't stand as it is, by its number from 1.
#[derive(Clone, Copy)]
pub struct Mark {
    pub(crate) line: u32,
    // Whether it is refused by itself. Others are lines of a section that is left out.
    pub(crate) is_refused: bool,
}

// Whether the section of this number, from 0, is left out.
pub(crate) fn is_out(outs: &[bool], section: usize) -> bool
    ensures { result ≡ is_out outs.now section }
{
    outs.get(section).copied().unwrap_or(false)
}

// The marks of a job file's lines, in their order.
pub(crate) fn marks(
    alloc: Global,
    sections: &[Section],
    outs: &[bool],
) -> Result<Vec<Mark>, AllocError>
    ensures { IfOk result (λ marks. marks.items ≡ marks_from outs.now 0 sections.now) }
{
    let mut marks = Vec::new(alloc);
    for (i, section) in sections.iter().enumerate() {
        add_section(&mut marks, section, is_out(outs, i))?;
    }
    Ok(marks)
}

fn add_section(marks: &mut Vec<Mark>, section: &Section, out: bool) -> Result<(), AllocError>
    ensures { OnOk result (marks.new.items ≡ marks.old.items ++ section_marks out section.now) }
{
    if out {
        add(marks, section.line_number(), false)?;
    }
    add_lines(marks, section.lines(), out)
}

fn add_lines(marks: &mut Vec<Mark>, lines: &[Line], out: bool) -> Result<(), AllocError>
    ensures { OnOk result (marks.new.items ≡ marks.old.items ++ lines_marks out lines.now) }
{
    for line in lines {
        add_line(marks, line, out)?;
    }
    Ok(())
}

fn add_line(marks: &mut Vec<Mark>, line: &Line, out: bool) -> Result<(), AllocError>
    ensures { OnOk result (marks.new.items ≡ marks.old.items ++ line_marks out line.now) }
{
    if told_of(line).is_some() {
        return add(marks, line.number(), true);
    }
    if out {
        return add(marks, line.number(), false);
    }
    Ok(())
}

fn add(marks: &mut Vec<Mark>, line: u32, is_refused: bool) -> Result<(), AllocError>
    ensures { OnOk result (marks.new.items ≡ marks.old.items ++ mark line is_refused ∷ []) }
{
    marks.push(Mark { line, is_refused })?;
    Ok(())
}
