// When, where, over what and by what text a run was: nothing of a text comes raw.
ghost use Rattle.std.specs.Prelude.{◌≡◌, ◌++◌, OnOk, flat_map, map, string_bytes};
ghost use Rattle.std.specs.Option.{option_map};
ghost use Rattle.jr_report_json.specs.Rows.{facts_of, setting_of};
ghost use Rattle.jr_report_page.specs.Settings.{ended_text, file_row, files_table, files_text, host_text, job_char, job_lines, job_text};
ghost use Rattle.jr_report_page.specs.Settings.{known_job_text, said_cell, setting_text, size_cell};
ghost use Rattle.jr_report_page.specs.Settings.{surroundings_text, times_text, took_text};

use crate::escapes::{push_char, push_escaped};
use crate::rows::{push_number_cell, push_text_cell};
use jr_report_json::{KnownFile, RunSetting};
use std::alloc::AllocError;

/// Appends when a run was, how long it took, and on which host.
#[tactic(auto, unfolding(crate::specs::Settings::setting_text))]
pub fn push_setting(page: &mut String, setting: &RunSetting) -> Result<(), AllocError>
    ensures { OnOk result (string_bytes page.new ≡ string_bytes page.old ++ setting_text (setting_of setting.now)) }
{
    match &setting.began {
        None => Ok(()),
        Some(began) => push_times(page, setting, began.as_str()),
    }
}

fn push_times(page: &mut String, setting: &RunSetting, began: &str) -> Result<(), AllocError>
    ensures { OnOk result (string_bytes page.new ≡ string_bytes page.old ++ times_text (setting_of setting.now) (Some began.now)) }
{
    page.push_str("<p>From ")?;
    push_escaped(page, began)?;
    push_ended(page, &setting.ended)?;
    push_took(page, setting.milliseconds)?;
    push_host(page, &setting.host)?;
    page.push_str("</p>\n")
}

fn push_ended(page: &mut String, ended: &Option<String>) -> Result<(), AllocError>
    ensures { OnOk result (string_bytes page.new ≡ string_bytes page.old ++ ended_text (option_map string_bytes ended.now)) }
{
    match ended {
        None => Ok(()),
        Some(time) => {
            page.push_str(" to ")?;
            push_escaped(page, time.as_str())
        }
    }
}

fn push_took(page: &mut String, took: Option<u64>) -> Result<(), AllocError>
    ensures { OnOk result (string_bytes page.new ≡ string_bytes page.old ++ took_text took) }
{
    let Some(took) = took else {
        return Ok(());
    };
    let seconds = took / 1000;
    let tenths = took % 1000 / 100;
    let hundredths = took % 100 / 10;
    let thousandths = took % 10;
    write!(page, ", {seconds}.{tenths}{hundredths}{thousandths} s")
}

fn push_host(page: &mut String, host: &Option<String>) -> Result<(), AllocError>
    ensures { OnOk result (string_bytes page.new ≡ string_bytes page.old ++ host_text (option_map string_bytes host.now)) }
{
    match host {
        None => Ok(()),
        Some(host) => {
            page.push_str(", on ")?;
            push_escaped(page, host.as_str())
        }
    }
}

/// Appends the devices of the files, and the text of the job.
#[tactic(auto, unfolding(crate::specs::Settings::surroundings_text))]
pub fn push_surroundings(
    page: &mut String,
    files: &[KnownFile],
    setting: &RunSetting,
) -> Result<(), AllocError>
    ensures { OnOk result (string_bytes page.new ≡ string_bytes page.old
        ++ surroundings_text (map facts_of files.now) (setting_of setting.now)) }
{
    push_known(page, files)?;
    push_known_job(page, &setting.job)
}

fn push_known(page: &mut String, files: &[KnownFile]) -> Result<(), AllocError>
    ensures { OnOk result (string_bytes page.new ≡ string_bytes page.old ++ files_text (map facts_of files.now)) }
{
    if files.is_empty() {
        return Ok(());
    }
    push_files(page, files)
}

fn push_files(page: &mut String, files: &[KnownFile]) -> Result<(), AllocError>
    ensures { OnOk result (string_bytes page.new ≡ string_bytes page.old ++ files_table (map facts_of files.now)) }
{
    page.push_str(
        "<h2>Files</h2>\n<div class=\"table\"><table class=\"files\">\n<tr><th>file</th>\
        <th>model</th><th>serial</th><th>device size</th></tr>\n",
    )?;
    push_file_rows(page, files)?;
    page.push_str("</table></div>\n")?;
    Ok(())
}

fn push_file_rows(page: &mut String, files: &[KnownFile]) -> Result<(), AllocError>
    ensures { OnOk result (string_bytes page.new ≡ string_bytes page.old ++ flat_map file_row (map facts_of files.now)) }
{
    for file in files {
        push_known_file(page, file)?;
    }
    Ok(())
}

fn push_known_file(page: &mut String, file: &KnownFile) -> Result<(), AllocError>
    ensures { OnOk result (string_bytes page.new ≡ string_bytes page.old ++ file_row (facts_of file.now)) }
{
    page.push_str("<tr>")?;
    push_text_cell(page, file.name.as_str())?;
    push_said(page, &file.model)?;
    push_said(page, &file.serial)?;
    push_size(page, file.size)?;
    page.push_str("</tr>\n")
}

fn push_said(page: &mut String, text: &Option<String>) -> Result<(), AllocError>
    ensures { OnOk result (string_bytes page.new ≡ string_bytes page.old ++ said_cell (option_map string_bytes text.now)) }
{
    match text {
        None => push_text_cell(page, ""),
        Some(text) => push_text_cell(page, text.as_str()),
    }
}

fn push_size(page: &mut String, size: Option<u64>) -> Result<(), AllocError>
    ensures { OnOk result (string_bytes page.new ≡ string_bytes page.old ++ size_cell size) }
{
    match size {
        None => push_text_cell(page, ""),
        Some(size) => push_number_cell(page, size),
    }
}

fn push_known_job(page: &mut String, job: &Option<String>) -> Result<(), AllocError>
    ensures { OnOk result (string_bytes page.new ≡ string_bytes page.old ++ known_job_text (option_map string_bytes job.now)) }
{
    match job {
        None => Ok(()),
        Some(job) => push_job(page, job.as_str()),
    }
}

#[tactic(auto, unfolding(crate::specs::Settings::job_text))]
fn push_job(page: &mut String, job: &str) -> Result<(), AllocError>
    ensures { OnOk result (string_bytes page.new ≡ string_bytes page.old ++ job_text job.now) }
{
    page.push_str("<h2>Job</h2>\n<pre>")?;
    push_job_lines(page, job)?;
    page.push_str("\n</pre>\n")
}

fn push_job_lines(page: &mut String, job: &str) -> Result<(), AllocError>
    ensures { OnOk result (string_bytes page.new ≡ string_bytes page.old ++ job_lines job.now) }
{
    for c in job.chars() {
        push_job_char(page, c)?;
    }
    Ok(())
}

fn push_job_char(page: &mut String, c: char) -> Result<(), AllocError>
    ensures { OnOk result (string_bytes page.new ≡ string_bytes page.old ++ job_char c) }
{
    match c {
        '\n' => page.push_str("\n"),
        _ => push_char(page, c),
    }
}
