ghost use Rattle.std.specs.Prelude.{◌≡◌, ◌++◌, ◌<◌, flat_map, length, slice_get, OnOk, string_bytes};
ghost use Rattle.jr_report_page.specs.Rows.{clone_row, place_cells, plan_table, size_cells, work_cells};
ghost use Rattle.jr_plan.specs.PlanText.{name_of};

use crate::rows::{push_number_cell, push_text_cell};
use jr_plan::{FileSpec, Plan, SubJob, io_type_word, verify_word};
use std::alloc::AllocError;

/// Appends the table of a plan: a row for each clone.
#[tactic(auto, unfolding(crate::specs::Rows::plan_table))]
pub fn push_plan_table(page: &mut String, plan: &Plan) -> Result<(), AllocError>
    ensures { OnOk result (string_bytes page.new ≡ string_bytes page.old ++ plan_table plan.now) }
{
    page.push_str(
        "<h2>Plan</h2>\n<div class=\"table\"><table class=\"plan\">\n<tr><th>job</th><th>clone</th><th>phase</th>\
        <th>file</th><th>start</th><th>size</th><th>cell</th><th>cells</th><th>rw</th><th>iodepth</th><th>loops</th>\
        <th>verify</th></tr>\n",
    )?;
    push_clones(page, plan)?;
    page.push_str("</table></div>\n")
}

// The rows of all clones of a plan.
fn push_clones(page: &mut String, plan: &Plan) -> Result<(), AllocError>
    ensures { OnOk result (string_bytes page.new ≡ string_bytes page.old ++ flat_map (clone_row plan.now.files) plan.now.clones) }
{
    for i in 0..plan.clones() {
        push_clone(page, plan.files(), plan.clone_at(i))?;
    }
    Ok(())
}

fn push_clone(page: &mut String, files: &[FileSpec], job: &SubJob) -> Result<(), AllocError>
    requires { job.now.file < length files.now }
    ensures { OnOk result (string_bytes page.new ≡ string_bytes page.old ++ clone_row files.now job.now) }
{
    page.push_str("<tr>")?;
    push_place(page, files, job)?;
    push_size(page, job)?;
    push_work(page, job)?;
    page.push_str("</tr>\n")
}

// Who the clone is, and where it works.
fn push_place(page: &mut String, files: &[FileSpec], job: &SubJob) -> Result<(), AllocError>
    requires { job.now.file < length files.now }
    ensures { OnOk result (string_bytes page.new ≡ string_bytes page.old ++ place_cells files.now job.now) }
{
    push_text_cell(page, job.job())?;
    push_number_cell(page, u64::from(job.clone_number()))?;
    push_number_cell(page, u64::from(job.phase()))?;
    push_text_cell(page, file_name(files, job))?;
    push_number_cell(page, job.start())
}

// The name of its file.
fn file_name<'a>(files: &'a [FileSpec], job: &SubJob) -> &'a str
    requires { job.now.file < length files.now }
    ensures { result.now ≡ name_of (slice_get files.now job.now.file) }
{
    files[job.file() as usize].name()
}

// How much of it there is.
fn push_size(page: &mut String, job: &SubJob) -> Result<(), AllocError>
    ensures { OnOk result (string_bytes page.new ≡ string_bytes page.old ++ size_cells job.now) }
{
    job.facts();
    let cell = job.cell();
    let cells = job.cells();
    push_number_cell(page, u64::from(cells) * u64::from(cell))?;
    push_number_cell(page, u64::from(cell))?;
    push_number_cell(page, u64::from(cells))
}

// What the clone does there.
fn push_work(page: &mut String, job: &SubJob) -> Result<(), AllocError>
    ensures { OnOk result (string_bytes page.new ≡ string_bytes page.old ++ work_cells job.now) }
{
    push_text_cell(page, io_type_word(job.io_type()))?;
    push_number_cell(page, u64::from(job.depth()))?;
    push_number_cell(page, u64::from(job.passes()))?;
    push_text_cell(page, verify_word(job.method().kind))
}
