ghost use Rattle.std.specs.Prelude.{◌≡◌, ◌++◌, IfOk, OnOk, map, string_bytes};
ghost use Rattle.jr_report_json.specs.Rows.{facts_of, setting_of};
ghost use Rattle.jr_after_page.specs.Page.{page_text, tables_text, title_text};

use crate::status::{Status, push_status};
use crate::tables::{push_told_table, push_totals_table, push_unread_table};
use jr_after_json::told_in;
use jr_after_report::FileReport;
use jr_model::{Memory, Piece};
use jr_plan::Plan;
use jr_report_json::{KnownFile, RunSetting};
use jr_report_page::{push_head, push_plan_table, push_setting, push_surroundings, push_tail};
use std::alloc::{AllocError, Global};

/// A page that shows what is found in these files of the plan, where these chunks couldn't be read, with when and where that was, and what
/// is known of the files.
#[tactic(auto, unfolding(crate::specs::Page::page_text))]
pub fn judgement_page(
    alloc: Global,
    plan: &Plan,
    found: &[FileReport],
    unread: &[Piece],
    setting: &RunSetting,
    files: &[KnownFile],
) -> Result<Vec<u8>, Memory>
    ensures { IfOk result (λ page. page.items
        ≡ page_text plan.now found.now unread.now (setting_of setting.now) (map facts_of files.now)) }
{
    let mut page = String::new(alloc);
    push_title(alloc, &mut page, found, unread)?;
    push_setting(&mut page, setting)?;
    push_tables(alloc, &mut page, plan, found, unread)?;
    push_surroundings(&mut page, files, setting)?;
    push_tail(&mut page)?;
    Ok(page.into_bytes())
}

// What the page begins with.
#[tactic(auto, unfolding(crate::specs::Page::title_text))]
fn push_title(
    alloc: Global,
    page: &mut String,
    found: &[FileReport],
    unread: &[Piece],
) -> Result<(), AllocError>
    ensures { OnOk result (string_bytes page.new ≡ string_bytes page.old ++ title_text found.now unread.now) }
{
    let status = Status::of(found, unread);
    let mut title = String::new(alloc);
    push_status(&mut title, &status)?;
    push_head(page, title.as_str(), status.has_fault())?;
    page.push_str("<p>These files were judged after a cut, by the ledger of their run.</p>\n")
}

#[tactic(auto, unfolding(crate::specs::Page::tables_text))]
fn push_tables(
    alloc: Global,
    page: &mut String,
    plan: &Plan,
    found: &[FileReport],
    unread: &[Piece],
) -> Result<(), Memory>
    ensures { OnOk result (string_bytes page.new ≡ string_bytes page.old ++ tables_text plan.now found.now unread.now) }
{
    let told = told_in(alloc, found)?;
    push_totals_table(page, plan, found, unread)?;
    push_told_table(page, plan, told.as_slice())?;
    push_unread_table(page, plan, unread)?;
    push_plan_table(page, plan)?;
    Ok(())
}
