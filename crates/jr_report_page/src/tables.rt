ghost use Rattle.std.specs.Prelude.{◌≡◌, ◌++◌, ◌-◌, flat_map, length, map, take, OnOk, string_bytes};
ghost use Rattle.jr_diagnosis.specs.Rulings.{told};
ghost use Rattle.jr_report_page.specs.Rows.{bad_row, fault_row, more_text, totals_rows};
ghost use Rattle.jr_report_faults.specs.Faults.{named};

use crate::rows::{push_bad, push_fault, push_totals};
use jr_desk_totals::Bad;
use jr_diagnosis::Diagnosed;
use jr_model::Totals;
use jr_plan::Plan;
use jr_report_faults::FaultNote;
use std::alloc::{AllocError, Global};

/// So many bad verdicts have a row of their own in a page at most. Of the others it is said how many they are.
pub const MOST_ROWS: usize = 1000;

// The rows of all clones' totals (there is one for each).
pub(crate) fn push_all_totals(
    page: &mut String,
    plan: &Plan,
    totals: &[Totals],
) -> Result<(), AllocError>
    ensures { OnOk result (string_bytes page.new ≡ string_bytes page.old ++ totals_rows plan.now.clones totals.now) }
{
    let count = plan.clones().min(totals.len());
    for i in 0..count {
        push_totals(page, plan.clone_at(i), &totals[i])?;
    }
    Ok(())
}

// The rows of the first of these bad verdicts.
pub(crate) fn push_first(
    alloc: Global,
    page: &mut String,
    plan: &Plan,
    found: &[Diagnosed],
    bads: &[Bad],
) -> Result<(), AllocError>
    ensures { OnOk result (string_bytes page.new ≡ string_bytes page.old
        ++ flat_map (bad_row plan.now (map told found.now)) (take MOST_ROWS bads.now)) }
{
    if bads.len() <= MOST_ROWS {
        return push_bads(alloc, page, plan, found, bads);
    }
    push_bads(alloc, page, plan, found, &bads[..MOST_ROWS])
}

fn push_bads(
    alloc: Global,
    page: &mut String,
    plan: &Plan,
    found: &[Diagnosed],
    bads: &[Bad],
) -> Result<(), AllocError>
    ensures { OnOk result (string_bytes page.new ≡ string_bytes page.old ++ flat_map (bad_row plan.now (map told found.now)) bads.now) }
{
    for bad in bads {
        push_bad(alloc, page, plan, found, bad)?;
    }
    Ok(())
}

// How many bad verdicts have no row.
pub(crate) fn rest_of(bads: &[Bad]) -> u64
    ensures { result ≡ length bads.now - MOST_ROWS }
{
    bads.len().saturating_sub(MOST_ROWS) as u64
}

pub(crate) fn push_faults(page: &mut String, notes: &[FaultNote]) -> Result<(), AllocError>
    ensures { OnOk result (string_bytes page.new ≡ string_bytes page.old ++ flat_map fault_row (map named notes.now)) }
{
    for note in notes {
        push_fault(page, note)?;
    }
    Ok(())
}

/// Appends how many more there are than have a row.
pub fn push_more(page: &mut String, more: u64) -> Result<(), AllocError>
    ensures { OnOk result (string_bytes page.new ≡ string_bytes page.old ++ more_text more) }
{
    if more == 0 {
        return Ok(());
    }
    write!(page, "<p>and {more} more</p>\n")
}
