ghost use Rattle.std.specs.Prelude.{◌≡◌, ◌++◌, OnOk};
ghost use Rattle.jr_after.specs.declared.findings.Finding.TheVariants.{Lost};
ghost use Rattle.jr_after_report.specs.Lines.{line_of, place_text, told_text, write_name};

use jr_after::Finding;
use jr_model::{Memory, Piece, WriteId, push_field, push_number, push_text};
use jr_plan::Plan;

/// A chunk with what is found in it.
#[derive(Clone, Copy, PartialEq, Eq)]
pub struct Judged {
    pub chunk: Piece,
    pub finding: Finding,
}

/// Appends the line of a chunk; nothing, if it is kept or open.
pub fn push_line(text: &mut Vec<u8>, plan: &Plan, one: &Judged) -> Result<(), Memory>
    ensures { OnOk result (text.new.items ≡ text.old.items ++ line_of plan.now one.now) }
{
    push_told(text, plan, &one.chunk, &one.finding)
}

fn push_told(
    text: &mut Vec<u8>,
    plan: &Plan,
    chunk: &Piece,
    finding: &Finding,
) -> Result<(), Memory>
    ensures { OnOk result (text.new.items ≡ text.old.items ++ told_text plan.now chunk.now finding.now) }
{
    match finding {
        Finding::Open | Finding::Kept => Ok(()),
        Finding::Lost(kept, found) => push_lost(text, plan, chunk, kept, found),
        Finding::Torn(kept) => {
            push_text(text, "torn:")?;
            push_place(text, plan, chunk, kept)?;
            push_text(text, "\n")
        }
        Finding::Broken(kept) => {
            push_text(text, "broken:")?;
            push_place(text, plan, chunk, kept)?;
            push_text(text, "\n")
        }
    }
}

fn push_lost(
    text: &mut Vec<u8>,
    plan: &Plan,
    chunk: &Piece,
    kept: &WriteId,
    found: &WriteId,
) -> Result<(), Memory>
    ensures { OnOk result (text.new.items ≡ text.old.items ++ told_text plan.now chunk.now (Lost kept.now found.now)) }
{
    push_text(text, "lost:")?;
    push_place(text, plan, chunk, kept)?;
    push_text(text, " found=")?;
    push_write(text, found)?;
    push_text(text, "\n")
}

// Where the chunk is, and which write is kept there.
fn push_place(text: &mut Vec<u8>, plan: &Plan, chunk: &Piece, kept: &WriteId) -> Result<(), Memory>
    ensures { OnOk result (text.new.items ≡ text.old.items ++ place_text plan.now chunk.now kept.now) }
{
    push_text(text, " file=")?;
    push_text(text, plan.file_name(chunk.file))?;
    push_field(text, "offset", chunk.offset)?;
    push_field(text, "length", u64::from(chunk.len))?;
    push_text(text, " kept=")?;
    push_write(text, kept)
}

// Which write it is.
fn push_write(text: &mut Vec<u8>, write: &WriteId) -> Result<(), Memory>
    ensures { OnOk result (text.new.items ≡ text.old.items ++ write_name write.now) }
{
    push_number(text, u64::from(write.clone))?;
    push_text(text, "/")?;
    push_number(text, u64::from(write.pass))?;
    push_text(text, "/")?;
    push_number(text, u64::from(write.number))
}
