ghost use Rattle.std.specs.Prelude.{◌≡◌, ◌++◌, OnOk, string_bytes};
ghost use Rattle.jr_after_page.specs.Rows.{count_cells, file_row, found_of, kept_of, told_row, unread_row, write_cell};

use jr_after::Finding;
use jr_after_json::{count_of, word_of};
use jr_after_report::{Counts, FileReport, Judged};
use jr_model::{Piece, WriteId};
use jr_plan::Plan;
use jr_report_page::{push_file, push_number_cell, push_piece, push_text_cell};
use std::alloc::AllocError;

// The row of a chunk of which something is told.
pub(crate) fn push_told(page: &mut String, plan: &Plan, one: &Judged) -> Result<(), AllocError>
    ensures { OnOk result (string_bytes page.new ≡ string_bytes page.old ++ told_row plan.now one.now) }
{
    page.push_str("<tr>")?;
    push_text_cell(page, word_of(&one.finding))?;
    push_file(page, plan, one.chunk.file)?;
    push_piece(page, &one.chunk)?;
    push_write(page, kept_of(&one.finding))?;
    push_write(page, found_of(&one.finding))?;
    page.push_str("</tr>\n")
}

// The write that is kept.
fn kept_of(finding: &Finding) -> Option<WriteId>
    ensures { result ≡ kept_of finding.now }
{
    match finding {
        Finding::Open | Finding::Kept => None,
        Finding::Lost(kept, _) => Some(*kept),
        Finding::Torn(kept) | Finding::Broken(kept) => Some(*kept),
    }
}

// The write that is found in its place.
fn found_of(finding: &Finding) -> Option<WriteId>
    ensures { result ≡ found_of finding.now }
{
    match finding {
        Finding::Lost(_, found) => Some(*found),
        Finding::Open | Finding::Kept | Finding::Torn(_) | Finding::Broken(_) => None,
    }
}

fn push_write(page: &mut String, write: Option<WriteId>) -> Result<(), AllocError>
    ensures { OnOk result (string_bytes page.new ≡ string_bytes page.old ++ write_cell write) }
{
    let Some(write) = write else {
        return push_text_cell(page, "");
    };
    let (clone, pass, number) = (write.clone, write.pass, write.number);
    write!(page, "<td>{clone}/{pass}/{number}</td>")
}

// The row of a chunk that couldn't be read.
pub(crate) fn push_unread(page: &mut String, plan: &Plan, chunk: &Piece) -> Result<(), AllocError>
    ensures { OnOk result (string_bytes page.new ≡ string_bytes page.old ++ unread_row plan.now chunk.now) }
{
    page.push_str("<tr>")?;
    push_file(page, plan, chunk.file)?;
    push_piece(page, chunk)?;
    page.push_str("</tr>\n")
}

// The row of a file, where these chunks couldn't be read.
pub(crate) fn push_totals(
    page: &mut String,
    plan: &Plan,
    unread: &[Piece],
    found: &FileReport,
) -> Result<(), AllocError>
    ensures { OnOk result (string_bytes page.new ≡ string_bytes page.old ++ file_row plan.now unread.now found.now) }
{
    page.push_str("<tr>")?;
    push_file(page, plan, found.file())?;
    push_counts(page, &found.counts())?;
    push_number_cell(page, count_of(unread, found.file()))?;
    page.push_str("</tr>\n")
}

fn push_counts(page: &mut String, counts: &Counts) -> Result<(), AllocError>
    ensures { OnOk result (string_bytes page.new ≡ string_bytes page.old ++ count_cells counts.now) }
{
    push_number_cell(page, counts.kept)?;
    push_number_cell(page, counts.lost)?;
    push_number_cell(page, counts.broken)?;
    push_number_cell(page, counts.torn)?;
    push_number_cell(page, counts.unpromised)
}
