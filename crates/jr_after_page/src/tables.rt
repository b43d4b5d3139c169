ghost use Rattle.std.specs.Prelude.{◌≡◌, ◌-◌, ◌++◌, OnOk, flat_map, length, take, string_bytes};
ghost use Rattle.jr_report_page.specs.declared.tables.TheConstants.{MOST_ROWS};
ghost use Rattle.jr_after_page.specs.Page.{told_rows, told_table, totals_table, unread_rows, unread_table};
ghost use Rattle.jr_after_page.specs.Rows.{file_row, told_row, unread_row};

use crate::rows::{push_told, push_totals, push_unread};
use jr_after_report::{FileReport, Judged};
use jr_model::Piece;
use jr_plan::Plan;
use jr_report_page::{MOST_ROWS, push_more};
use std::alloc::AllocError;

// The totals of these files, where these chunks couldn't be read.
#[tactic(auto, unfolding(crate::specs::Page::totals_table))]
pub(crate) fn push_totals_table(
    page: &mut String,
    plan: &Plan,
    found: &[FileReport],
    unread: &[Piece],
) -> Result<(), AllocError>
    ensures { OnOk result (string_bytes page.new ≡ string_bytes page.old ++ totals_table plan.now found.now unread.now) }
{
    page.push_str(
        "<h2>Totals</h2>\n<div class=\"table\"><table class=\"totals\">\n<tr><th>file</th><th>kept</th><th>lost</th>",
    )?;
    page.push_str("<th>broken</th><th>torn</th><th>open</th><th>unread</th></tr>\n")?;
    push_all_totals(page, plan, unread, found)?;
    page.push_str("</table></div>\n")
}

fn push_all_totals(
    page: &mut String,
    plan: &Plan,
    unread: &[Piece],
    found: &[FileReport],
) -> Result<(), AllocError>
    ensures { OnOk result (string_bytes page.new ≡ string_bytes page.old ++ flat_map (file_row plan.now unread.now) found.now) }
{
    for one in found {
        push_totals(page, plan, unread, one)?;
    }
    Ok(())
}

// The first of these chunks, of which something is told, and how many more there are; nothing, if there are none.
pub(crate) fn push_told_table(
    page: &mut String,
    plan: &Plan,
    told: &[Judged],
) -> Result<(), AllocError>
    ensures { OnOk result (string_bytes page.new ≡ string_bytes page.old ++ told_table plan.now told.now) }
{
    if told.is_empty() {
        return Ok(());
    }
    push_told_rows(page, plan, told)
}

fn push_told_rows(page: &mut String, plan: &Plan, told: &[Judged]) -> Result<(), AllocError>
    ensures { OnOk result (string_bytes page.new ≡ string_bytes page.old ++ told_rows plan.now told.now) }
{
    page.push_str(
        "<h2>Lost, broken and torn chunks</h2>\n<div class=\"table\"><table class=\"chunks\">\n<tr><th>found</th><th>file</th>",
    )?;
    page.push_str("<th>offset</th><th>length</th><th>write kept</th><th>write found</th></tr>\n")?;
    push_all_told(page, plan, first_of(told))?;
    page.push_str("</table></div>\n")?;
    push_more(page, rest_of(told))?;
    Ok(())
}

fn push_all_told(page: &mut String, plan: &Plan, told: &[Judged]) -> Result<(), AllocError>
    ensures { OnOk result (string_bytes page.new ≡ string_bytes page.old ++ flat_map (told_row plan.now) told.now) }
{
    for one in told {
        push_told(page, plan, one)?;
    }
    Ok(())
}

// The first of these chunks, which couldn't be read, and how many more there are; nothing, if there are none.
pub(crate) fn push_unread_table(
    page: &mut String,
    plan: &Plan,
    unread: &[Piece],
) -> Result<(), AllocError>
    ensures { OnOk result (string_bytes page.new ≡ string_bytes page.old ++ unread_table plan.now unread.now) }
{
    if unread.is_empty() {
        return Ok(());
    }
    push_unread_rows(page, plan, unread)
}

fn push_unread_rows(page: &mut String, plan: &Plan, unread: &[Piece]) -> Result<(), AllocError>
    ensures { OnOk result (string_bytes page.new ≡ string_bytes page.old ++ unread_rows plan.now unread.now) }
{
    page.push_str(
        "<h2>Chunks that can't be read</h2>\n<div class=\"table\"><table class=\"unread\">\n<tr><th>file</th>",
    )?;
    page.push_str("<th>offset</th><th>length</th></tr>\n")?;
    push_all_unread(page, plan, first_of(unread))?;
    page.push_str("</table></div>\n")?;
    push_more(page, rest_of(unread))?;
    Ok(())
}

fn push_all_unread(page: &mut String, plan: &Plan, unread: &[Piece]) -> Result<(), AllocError>
    ensures { OnOk result (string_bytes page.new ≡ string_bytes page.old ++ flat_map (unread_row plan.now) unread.now) }
{
    for chunk in unread {
        push_unread(page, plan, chunk)?;
    }
    Ok(())
}

// Those of them that have a row.
fn first_of<X>(all: &[X]) -> &[X]
    ensures { result.now ≡ take MOST_ROWS all.now }
{
    if all.len() <= MOST_ROWS {
        return all;
    }
    &all[..MOST_ROWS]
}

// How many of them have none.
fn rest_of<X>(all: &[X]) -> u64
    ensures { result ≡ length all.now - MOST_ROWS }
{
    all.len().saturating_sub(MOST_ROWS) as u64
}
