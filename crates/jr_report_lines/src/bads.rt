ghost use Rattle.std.specs.Prelude.{◌≡◌, ◌++◌, IfOk, OnOk, flat_map, map};
ghost use Rattle.jr_model.specs.Plan.{clone_of};
ghost use Rattle.jr_model.specs.Report.{found_word, in_order, what_text};
ghost use Rattle.jr_desk_totals.specs.Bads.{miscompare_of};
ghost use Rattle.jr_report_lines.specs.Miscompares.{AreOfRun, bad_line, named_fields, place_fields};

use jr_desk_totals::Bad;
use jr_model::{Memory, Part, Piece, What, WriteId, push_field, push_number, push_text};
use jr_plan::Plan;
use std::alloc::Global;

/// The bad verdicts of a run by clone, pass and number, as its report has them.
pub fn bads_in_order(alloc: Global, plan: &Plan, bads: &[Bad]) -> Result<Vec<Bad>, Memory>
    requires { AreOfRun plan.now (map miscompare_of bads.now) }
    ensures { IfOk result (λ sorted. map miscompare_of sorted.items ≡ in_order plan.now (map miscompare_of bads.now)) }
{
    // Its contract says what holds of every plan.
    plan.facts();
    let mut sorted = Vec::from_slice(alloc, bads)?;
    sorted.sort_unstable_by_key(|bad| bad.write);
    Ok(sorted)
}

/// Appends the lines of bad verdicts, one after another; each ends in a line feed.
pub fn push_bads(text: &mut Vec<u8>, plan: &Plan, bads: &[Bad]) -> Result<(), Memory>
    ensures { OnOk result (text.new.items ≡ text.old.items ++ flat_map (bad_line plan.now) bads.now) }
{
    for bad in bads {
        push_bad(text, plan, bad)?;
    }
    Ok(())
}

// The line of a bad verdict.
fn push_bad(text: &mut Vec<u8>, plan: &Plan, bad: &Bad) -> Result<(), Memory>
    ensures { OnOk result (text.new.items ≡ text.old.items ++ bad_line plan.now bad.now) }
{
    push_found(text, plan, bad.write.clone)?;
    push_named(text, &bad.write)?;
    push_place(text, plan, &bad.piece)?;
    push_text(text, " what=")?;
    push_what(text, bad.what)?;
    push_text(text, "\n")?;
    Ok(())
}

// What its line begins with, by whether its clone checks its reads.
fn push_found(text: &mut Vec<u8>, plan: &Plan, clone: u32) -> Result<(), Memory>
    ensures { OnOk result (text.new.items ≡ text.old.items ++ found_word (clone_of plan.now clone)) }
{
    let i = clone as usize;
    if i < plan.clones() && plan.clone_at(i).checks_reads() {
        return push_text(text, "badread:");
    }
    push_text(text, "miscompare:")
}

// Which write it is.
fn push_named(text: &mut Vec<u8>, write: &WriteId) -> Result<(), Memory>
    ensures { OnOk result (text.new.items ≡ text.old.items ++ named_fields write.now) }
{
    push_field(text, "clone", u64::from(write.clone))?;
    push_field(text, "pass", u64::from(write.pass))?;
    push_field(text, "number", u64::from(write.number))
}

// Where it is.
fn push_place(text: &mut Vec<u8>, plan: &Plan, piece: &Piece) -> Result<(), Memory>
    ensures { OnOk result (text.new.items ≡ text.old.items ++ place_fields plan.now piece.now) }
{
    push_text(text, " file=")?;
    push_text(text, plan.file_name(piece.file))?;
    push_field(text, "offset", piece.offset)?;
    push_field(text, "length", u64::from(piece.len))
}

fn push_what(text: &mut Vec<u8>, what: What) -> Result<(), Memory>
    ensures { OnOk result (text.new.items ≡ text.old.items ++ what_text what) }
{
    match what {
        What::Header => push_text(text, Part::Header.word()),
        What::Digest => push_text(text, Part::Digest.word()),
        What::DataArea => push_text(text, Part::DataArea.word()),
        What::Byte(place) => {
            push_text(text, "byte:")?;
            push_number(text, u64::from(place))
        }
        What::Chunk(chunk, part) => {
            push_text(text, part.word())?;
            push_text(text, ":")?;
            push_number(text, u64::from(chunk))
        }
    }
}
