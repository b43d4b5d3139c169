ghost use Rattle.std.specs.Prelude.{◌≤◌};

use crate::cells::{Cell, cells_of};
use crate::escapes::push_escaped;
use crate::heads::{push_head, push_tail};
use crate::maps::{push_legend, push_map};
use crate::plans::push_plan_table;
use crate::settings::{push_setting, push_surroundings};
use crate::status::{Status, push_status};
use crate::tables::{push_all_totals, push_faults, push_first, push_more, rest_of};
use jr_desk_totals::Bad;
use jr_diagnosis::Diagnosed;
use jr_model::{Event, LARGEST_END, Memory, Totals};
use jr_plan::{FileSpec, Plan};
use jr_report_faults::Faults;
use jr_report_json::{KnownFile, RunSetting};
use jr_report_maps::{FileMarks, marks_of};
use std::alloc::{AllocError, Global};

// The maps of a page have so many cells at most, all together, but for a row of each; and one of them half of them.
const MOST_CELLS: u32 = 4096;

const LEAST_CELLS: u32 = 64;

/// What came of a run.
#[derive(Clone, Copy)]
pub struct PageFindings<'a> {
    /// What was run.
    pub plan: &'a Plan,
    /// All that happened, the oldest first.
    pub history: &'a [Event],
    /// What each clone did, in the order of the clones.
    pub totals: &'a [Totals],
    /// The bad verdicts by clone, pass and number, as a report has them.
    pub bads: &'a [Bad],
    /// The faults: the first of them, and how many more.
    pub faults: &'a Faults,
    /// It was stopped before it was complete.
    pub is_interrupted: bool,
    /// What stands in its first bad blocks.
    pub found: &'a [Diagnosed],
    pub setting: &'a RunSetting,
    pub files: &'a [KnownFile],
}

/// A page that shows a run. Of its text no more is said than its parts' contracts say.
pub fn page(alloc: Global, found: &PageFindings<'_>) -> Result<Vec<u8>, Memory> {
    let mut page = String::new(alloc);
    push_all(alloc, &mut page, found)?;
    Ok(page.into_bytes())
}

fn push_all(alloc: Global, page: &mut String, found: &PageFindings<'_>) -> Result<(), Memory> {
    push_title(alloc, page, &Status::of(found.totals, found.is_interrupted))?;
    push_setting(page, found.setting)?;
    push_maps(alloc, page, found)?;
    push_tables(alloc, page, found)?;
    push_surroundings(page, found.files, found.setting)?;
    push_tail(page)?;
    Ok(())
}

// What the page begins with, up to where the maps are.
fn push_title(alloc: Global, page: &mut String, status: &Status) -> Result<(), AllocError> {
    let mut title = String::new(alloc);
    push_status(&mut title, status)?;
    let has_found = status.bad != 0 || status.faults != 0;
    push_head(page, title.as_str(), has_found)?;
    if status.is_interrupted {
        page.push_str(
            "<p>The run was stopped before its end. This page is partial: it has what was done until then.</p>\n",
        )?;
    }
    Ok(())
}

// The legend, and the map of each file.
fn push_maps(alloc: Global, page: &mut String, found: &PageFindings<'_>) -> Result<(), Memory> {
    push_legend(page)?;
    let marks = marks_of(alloc, found.plan, found.history)?;
    let files = found.plan.files();
    let most = most_cells(files.len());
    for (index, file) in files.iter().enumerate() {
        push_file(
            alloc,
            page,
            found.plan,
            &marks,
            found.bads,
            index as u32,
            file,
            most,
        )?;
    }
    Ok(())
}

// How many cells the map of one of so many files has at most: whole rows of 64.
fn most_cells(files: usize) -> u32
    ensures { 1 ≤ result }
{
    let rows = MOST_CELLS / LEAST_CELLS / (files.clamp(2, 64) as u32);
    LEAST_CELLS * rows
}

fn push_file(
    alloc: Global,
    page: &mut String,
    plan: &Plan,
    marks: &FileMarks,
    bads: &[Bad],
    index: u32,
    file: &FileSpec,
    most: u32,
) -> Result<(), Memory>
    requires { 1 ≤ most }
{
    // (no region of a plan ends behind that)
    let end = file.high().min(LARGEST_END);
    let cells = cells_of(alloc, plan, marks, bads, index, end, most)?;
    push_named_map(page, file.name(), end, cells.as_slice())?;
    Ok(())
}

// The map of these cells, under the name of the file, of which so many bytes are shown.
fn push_named_map(
    page: &mut String,
    name: &str,
    end: u64,
    cells: &[Cell],
) -> Result<(), AllocError> {
    page.push_str("<h2>")?;
    push_escaped(page, name)?;
    page.push_str("</h2>\n")?;
    push_map(page, cells)?;
    if let Some(cell) = cells.first() {
        let bytes = cell.end.saturating_sub(cell.begin);
        write!(page, "<p>{end} bytes, {bytes} a cell</p>\n")?;
    }
    Ok(())
}

fn push_tables(
    alloc: Global,
    page: &mut String,
    found: &PageFindings<'_>,
) -> Result<(), AllocError> {
    push_totals_table(page, found)?;
    if !found.bads.is_empty() {
        push_bads_table(alloc, page, found)?;
    }
    if !found.faults.first.is_empty() {
        push_faults_table(page, found.faults)?;
    }
    push_plan_table(page, found.plan)
}

fn push_totals_table(page: &mut String, found: &PageFindings<'_>) -> Result<(), AllocError> {
    page.push_str(
        "<h2>Totals</h2>\n<div class=\"table\"><table class=\"totals\">\n<tr><th>job</th><th>clone</th><th>reads</th>\
        <th>rbytes</th><th>writes</th><th>wbytes</th><th>checks</th><th>good</th><th>bad</th><th>skipped</th>\
        <th>void</th><th>faults</th></tr>\n",
    )?;
    push_all_totals(page, found.plan, found.totals)?;
    page.push_str("</table></div>\n")
}

fn push_bads_table(
    alloc: Global,
    page: &mut String,
    found: &PageFindings<'_>,
) -> Result<(), AllocError> {
    page.push_str(
        "<h2>Miscompares and bad reads</h2>\n<div class=\"table\"><table class=\"miscompares\">\n<tr><th>clone</th><th>pass</th>\
        <th>number</th><th>file</th><th>offset</th><th>length</th><th>what</th><th>found</th></tr>\n",
    )?;
    push_first(alloc, page, found.plan, found.found, found.bads)?;
    page.push_str("</table></div>\n")?;
    push_more(page, rest_of(found.bads))
}

fn push_faults_table(page: &mut String, faults: &Faults) -> Result<(), AllocError> {
    page.push_str(
        "<h2>Faults</h2>\n<div class=\"table\"><table class=\"faults\">\n<tr><th>what</th><th>clone</th><th>pass</th>\
        <th>number</th><th>file</th><th>offset</th><th>length</th></tr>\n",
    )?;
    push_faults(page, faults.first.as_slice())?;
    page.push_str("</table></div>\n")?;
    push_more(page, faults.more)
}
