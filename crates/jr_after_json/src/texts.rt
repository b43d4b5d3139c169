// The text of a judgement, row by row.
ghost use Rattle.std.specs.Prelude.{◌≡◌, ◌++◌, IfOk, OnOk, codes, flat_map, map};
ghost use Rattle.serde_json.specs.Written.{compact_text};
ghost use Rattle.jr_report_json.specs.Rows.{array_text, item_text};
ghost use Rattle.jr_after_json.specs.Json.{file_json, judgement_json, told_in, told_json, unread_json};
ghost use Rattle.jr_after_json.specs.Written.{about_of, back_text, front_text, middle_text};

use crate::rows::{file_row, told_row, unread_row};
use jr_after_report::{FileReport, Judged};
use jr_model::{Memory, Piece, push_number, push_text};
use jr_plan::Plan;
use jr_report_json::{push_item, push_string};
use std::alloc::Global;

/// What the program says of itself, and of the files that it judged.
#[derive(Clone, Copy)]
pub struct Judgement<'a> {
    /// Its version.
    pub version: &'a str,
    /// The program logic in which it is proved.
    pub logic: &'a str,
    /// How many reads of the files the system's cache may have answered.
    pub cached: u64,
    /// Its exit status.
    pub status: u8,
}

/// What is found in these files as one line of JSON, where these chunks couldn't be read.
pub fn judgement_text(
    alloc: Global,
    plan: &Plan,
    found: &[FileReport],
    unread: &[Piece],
    judgement: &Judgement<'_>,
) -> Result<Vec<u8>, Memory>
    ensures { IfOk result (λ text. text.items
        ≡ compact_text (judgement_json (about_of judgement.now) plan.now found.now unread.now) ++ codes "\n") }
{
    let mut text = Vec::new(alloc);
    push_front(&mut text, alloc, plan, found, judgement)?;
    push_middle(&mut text, alloc, plan, found, unread, judgement)?;
    push_back(&mut text, alloc, plan, unread, judgement)?;
    push_text(&mut text, "\n")?;
    Ok(text)
}

// The chunks of which something is told, and how many reads the cache may have answered.
fn push_front(
    text: &mut Vec<u8>,
    alloc: Global,
    plan: &Plan,
    found: &[FileReport],
    judgement: &Judgement<'_>,
) -> Result<(), Memory>
    ensures { OnOk result (text.new.items ≡ text.old.items ++ front_text (about_of judgement.now) plan.now found.now) }
{
    let told = told_in(alloc, found)?;
    push_text(text, "{\"after\":")?;
    push_told(text, alloc, plan, told.as_slice())?;
    push_text(text, ",\"cached\":")?;
    push_number(text, judgement.cached)?;
    Ok(())
}

// The files, and what the program says of itself.
fn push_middle(
    text: &mut Vec<u8>,
    alloc: Global,
    plan: &Plan,
    found: &[FileReport],
    unread: &[Piece],
    judgement: &Judgement<'_>,
) -> Result<(), Memory>
    ensures { OnOk result (text.new.items ≡ text.old.items ++ middle_text (about_of judgement.now) plan.now found.now unread.now) }
{
    push_text(text, ",\"files\":")?;
    push_files(text, alloc, plan, unread, found)?;
    push_text(text, ",\"fiorun\":")?;
    push_string(text, alloc, judgement.version)?;
    push_text(text, ",\"logic\":")?;
    push_string(text, alloc, judgement.logic)?;
    Ok(())
}

// The status, and the chunks that couldn't be read.
fn push_back(
    text: &mut Vec<u8>,
    alloc: Global,
    plan: &Plan,
    unread: &[Piece],
    judgement: &Judgement<'_>,
) -> Result<(), Memory>
    ensures { OnOk result (text.new.items ≡ text.old.items ++ back_text (about_of judgement.now) plan.now unread.now) }
{
    push_text(text, ",\"status\":")?;
    push_number(text, u64::from(judgement.status))?;
    push_text(text, ",\"unread\":")?;
    push_unread(text, alloc, plan, unread)?;
    push_text(text, "}")?;
    Ok(())
}

/// The chunks of all files of which something is told.
pub fn told_in(alloc: Global, found: &[FileReport]) -> Result<Vec<Judged>, Memory>
    ensures { IfOk result (λ told. told.items ≡ flat_map told_in found.now) }
{
    let mut told = Vec::new(alloc);
    for one in found {
        told.extend_from_slice(one.told())?;
    }
    Ok(told)
}

// The array of these chunks.
fn push_told(text: &mut Vec<u8>, alloc: Global, plan: &Plan, told: &[Judged]) -> Result<(), Memory>
    ensures { OnOk result (text.new.items ≡ text.old.items ++ array_text (map (told_json plan.now) told.now)) }
{
    push_text(text, "[")?;
    for (i, one) in told.iter().enumerate() {
        push_one(text, alloc, plan, i, one)?;
    }
    push_text(text, "]")?;
    Ok(())
}

fn push_one(
    text: &mut Vec<u8>,
    alloc: Global,
    plan: &Plan,
    place: usize,
    one: &Judged,
) -> Result<(), Memory>
    ensures { OnOk result (text.new.items ≡ text.old.items ++ item_text place (told_json plan.now one.now)) }
{
    let row = told_row(alloc, plan, one)?;
    push_item(text, alloc, place, &row)
}

// The array of the files.
fn push_files(
    text: &mut Vec<u8>,
    alloc: Global,
    plan: &Plan,
    unread: &[Piece],
    found: &[FileReport],
) -> Result<(), Memory>
    ensures { OnOk result (text.new.items ≡ text.old.items ++ array_text (map (file_json plan.now unread.now) found.now)) }
{
    push_text(text, "[")?;
    for (i, one) in found.iter().enumerate() {
        push_file(text, alloc, plan, unread, i, one)?;
    }
    push_text(text, "]")?;
    Ok(())
}

fn push_file(
    text: &mut Vec<u8>,
    alloc: Global,
    plan: &Plan,
    unread: &[Piece],
    place: usize,
    found: &FileReport,
) -> Result<(), Memory>
    ensures { OnOk result (text.new.items ≡ text.old.items ++ item_text place (file_json plan.now unread.now found.now)) }
{
    let row = file_row(alloc, plan, unread, found)?;
    push_item(text, alloc, place, &row)
}

// The array of the chunks that couldn't be read.
fn push_unread(
    text: &mut Vec<u8>,
    alloc: Global,
    plan: &Plan,
    unread: &[Piece],
) -> Result<(), Memory>
    ensures { OnOk result (text.new.items ≡ text.old.items ++ array_text (map (unread_json plan.now) unread.now)) }
{
    push_text(text, "[")?;
    for (i, chunk) in unread.iter().enumerate() {
        push_chunk(text, alloc, plan, i, chunk)?;
    }
    push_text(text, "]")?;
    Ok(())
}

fn push_chunk(
    text: &mut Vec<u8>,
    alloc: Global,
    plan: &Plan,
    place: usize,
    chunk: &Piece,
) -> Result<(), Memory>
    ensures { OnOk result (text.new.items ≡ text.old.items ++ item_text place (unread_json plan.now chunk.now)) }
{
    let row = unread_row(alloc, plan, chunk)?;
    push_item(text, alloc, place, &row)
}
