ghost use Rattle.std.specs.Prelude.{◌≡◌, ◌++◌, OnOk, map, string_bytes};
ghost use Rattle.jr_diagnosis.specs.Rulings.{told};
ghost use Rattle.jr_diagnosis.specs.Texts.{told_of_write};
ghost use Rattle.jr_model.specs.Report.{file_name, what_text};
ghost use Rattle.jr_report_page.specs.Rows.{bad_row, end_cell, fault_row, found_cell, judged_cells, moved_cells};
ghost use Rattle.jr_report_page.specs.Rows.{number_cell, piece_cells, text_cell, totals_row, what_cell, write_cells};
ghost use Rattle.jr_report_faults.specs.Faults.{named};

use crate::escapes::push_escaped;
use jr_desk_totals::Bad;
use jr_diagnosis::{Diagnosed, found_of, text_of};
use jr_model::{Outcome, Piece, TicketKind, Totals, What, WriteId};
use jr_plan::{Plan, SubJob};
use jr_report_faults::{FaultNote, kind_word};
use std::alloc::{AllocError, Global};

// The row of a clone's totals.
pub(crate) fn push_totals(
    page: &mut String,
    job: &SubJob,
    totals: &Totals,
) -> Result<(), AllocError>
    ensures { OnOk result (string_bytes page.new ≡ string_bytes page.old ++ totals_row job.now totals.now) }
{
    page.push_str("<tr>")?;
    push_text_cell(page, job.job())?;
    push_number_cell(page, u64::from(job.clone_number()))?;
    push_moved(page, totals)?;
    push_judged(page, totals)?;
    page.push_str("</tr>\n")
}

fn push_moved(page: &mut String, totals: &Totals) -> Result<(), AllocError>
    ensures { OnOk result (string_bytes page.new ≡ string_bytes page.old ++ moved_cells totals.now) }
{
    push_number_cell(page, totals.reads)?;
    push_number_cell(page, totals.rbytes)?;
    push_number_cell(page, totals.writes)?;
    push_number_cell(page, totals.wbytes)
}

fn push_judged(page: &mut String, totals: &Totals) -> Result<(), AllocError>
    ensures { OnOk result (string_bytes page.new ≡ string_bytes page.old ++ judged_cells totals.now) }
{
    push_number_cell(page, totals.checks)?;
    push_number_cell(page, totals.good)?;
    push_number_cell(page, totals.bad)?;
    push_number_cell(page, totals.skipped)?;
    push_number_cell(page, totals.void)?;
    push_number_cell(page, totals.faults)
}

// The row of a bad verdict.
pub(crate) fn push_bad(
    alloc: Global,
    page: &mut String,
    plan: &Plan,
    found: &[Diagnosed],
    bad: &Bad,
) -> Result<(), AllocError>
    ensures { OnOk result (string_bytes page.new ≡ string_bytes page.old ++ bad_row plan.now (map told found.now) bad.now) }
{
    page.push_str("<tr>")?;
    push_write(page, &bad.write)?;
    push_file(page, plan, bad.piece.file)?;
    push_piece(page, &bad.piece)?;
    push_what_cell(page, bad.what)?;
    push_found(alloc, page, found, &bad.write)?;
    page.push_str("</tr>\n")
}

// What stands in the block of this write, where that was looked into.
fn push_found(
    alloc: Global,
    page: &mut String,
    found: &[Diagnosed],
    write: &WriteId,
) -> Result<(), AllocError>
    ensures { OnOk result (string_bytes page.new ≡ string_bytes page.old ++ found_cell (told_of_write (map told found.now) write.now)) }
{
    match found_of(found, write) {
        None => push_text_cell(page, ""),
        Some(one) => {
            let text = text_of(alloc, one)?;
            push_text_cell(page, text.as_str())
        }
    }
}

// The row of an I/O or check that failed or ended short.
pub(crate) fn push_fault(page: &mut String, note: &FaultNote) -> Result<(), AllocError>
    ensures { OnOk result (string_bytes page.new ≡ string_bytes page.old ++ fault_row (named note.now)) }
{
    page.push_str("<tr>")?;
    push_end(page, note.fault.kind, note.fault.outcome)?;
    push_write(page, &note.fault.write)?;
    push_text_cell(page, note.name.as_str())?;
    push_piece(page, &note.fault.piece)?;
    page.push_str("</tr>\n")
}

// Which write it is.
fn push_write(page: &mut String, write: &WriteId) -> Result<(), AllocError>
    ensures { OnOk result (string_bytes page.new ≡ string_bytes page.old ++ write_cells write.now) }
{
    push_number_cell(page, u64::from(write.clone))?;
    push_number_cell(page, u64::from(write.pass))?;
    push_number_cell(page, u64::from(write.number))
}

/// Appends two cells with which bytes of its file a piece is.
pub fn push_piece(page: &mut String, piece: &Piece) -> Result<(), AllocError>
    ensures { OnOk result (string_bytes page.new ≡ string_bytes page.old ++ piece_cells piece.now) }
{
    push_number_cell(page, piece.offset)?;
    push_number_cell(page, u64::from(piece.len))
}

/// Appends a cell with the name of the file of this place in the plan.
pub fn push_file(page: &mut String, plan: &Plan, file: u32) -> Result<(), AllocError>
    ensures { OnOk result (string_bytes page.new ≡ string_bytes page.old ++ text_cell (file_name plan.now file)) }
{
    push_text_cell(page, plan.file_name(file))
}

fn push_what_cell(page: &mut String, what: What) -> Result<(), AllocError>
    ensures { OnOk result (string_bytes page.new ≡ string_bytes page.old ++ what_cell what) }
{
    page.push_str("<td>")?;
    push_what(page, what)?;
    page.push_str("</td>")
}

// What is wrong with the bytes, as a report says it.
pub(crate) fn push_what(page: &mut String, what: What) -> Result<(), AllocError>
    ensures { OnOk result (string_bytes page.new ≡ string_bytes page.old ++ what_text what) }
{
    write!(page, "{what}")
}

// What it was, and how it ended.
fn push_end(page: &mut String, kind: TicketKind, outcome: Outcome) -> Result<(), AllocError>
    ensures { OnOk result (string_bytes page.new ≡ string_bytes page.old ++ end_cell kind outcome) }
{
    let word = kind_word(kind);
    match outcome {
        Outcome::Whole => write!(page, "<td>{word} ended</td>"),
        Outcome::Failed => write!(page, "<td>{word} failed</td>"),
        Outcome::Short(moved) => write!(page, "<td>{word} ended after {moved} bytes</td>"),
    }
}

/// Appends a cell with a number.
#[tactic(auto, unfolding(crate::specs::Rows::number_cell))]
pub fn push_number_cell(page: &mut String, n: u64) -> Result<(), AllocError>
    ensures { OnOk result (string_bytes page.new ≡ string_bytes page.old ++ number_cell n) }
{
    write!(page, "<td>{n}</td>")
}

/// Appends a cell with a text, which may be of a job file.
pub fn push_text_cell(page: &mut String, text: &str) -> Result<(), AllocError>
    ensures { OnOk result (string_bytes page.new ≡ string_bytes page.old ++ text_cell text.now) }
{
    page.push_str("<td>")?;
    push_escaped(page, text)?;
    page.push_str("</td>")
}
