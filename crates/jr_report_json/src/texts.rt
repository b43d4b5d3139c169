// The text of a report, row by row.
ghost use Rattle.std.specs.Prelude.{◌≡◌, ◌++◌, IfOk, OnOk, codes, false, map, slice_get};
ghost use Rattle.jr_report_faults.specs.Faults.{named};
ghost use Rattle.jr_diagnosis.specs.Rulings.{told};
ghost use Rattle.jr_report_json.specs.Json.{asked_json, clone_json, clones_json, count_json, fault_json, faults_json, file_json, flag_json, miscompare_json, report_json};
ghost use Rattle.jr_report_json.specs.Json.{setting_json};
ghost use Rattle.jr_report_json.specs.Rows.{array_text, bads_json, cache_text, end_text, ending_of, facts_of, found_text, head_text, is_wanted, item_text, notes_of};
ghost use Rattle.jr_report_json.specs.Rows.{plan_text, reads_text, setting_of, text_of, texts_of, told_by};
ghost use Rattle.jr_desk_totals.specs.Bads.{miscompare_of};
ghost use Rattle.serde_json.specs.Data.{boolean, string};
ghost use Rattle.serde_json.specs.View.{view};
ghost use Rattle.serde_json.specs.Written.{compact_text, has_float};

use crate::asked::asked_row;
use crate::endings::{KnownFile, RunNotes, RunSetting, RunStatus};
use crate::rows::{clone_row, fault_row, file_row, is_bad_read, miscompare_row, setting_row};
use jr_desk_totals::Bad;
use jr_diagnosis::Diagnosed;
use jr_model::{Memory, Totals, push_number, push_text};
use jr_plan::{Plan, SubJob};
use jr_report_faults::{FaultNote, Faults};
use serde_json::Value;
use std::alloc::Global;

/// The report as one line of JSON: of these totals, one for each clone, these bad verdicts, and these faults, with what else is known of
/// the run.
pub fn json_text(
    alloc: Global,
    plan: &Plan,
    totals: &[Totals],
    bads: &[Bad],
    faults: &Faults,
    notes: &RunNotes<'_>,
    ending: &RunStatus<'_>,
) -> Result<Vec<u8>, Memory>
    ensures { IfOk result (λ text. text.items ≡ compact_text (report_json (ending_of ending.now) plan.now totals.now
        (map miscompare_of bads.now) (map named faults.now.first.items) (notes_of notes.now) faults.now.more) ++ codes "\n") }
{
    let mut text = Vec::new(alloc);
    push_reads(&mut text, alloc, plan, notes.found, bads)?;
    push_head(&mut text, alloc, faults.first.as_slice(), notes, ending)?;
    push_found(&mut text, alloc, plan, totals, notes.found, bads, ending)?;
    push_planned(&mut text, alloc, plan, notes.setting, faults.more)?;
    push_end(&mut text, ending)?;
    push_text(&mut text, "\n")?;
    Ok(text)
}

// The first member: the bad reads.
fn push_reads(
    text: &mut Vec<u8>,
    alloc: Global,
    plan: &Plan,
    found: &[Diagnosed],
    bads: &[Bad],
) -> Result<(), Memory>
    ensures { OnOk result (text.new.items ≡ text.old.items ++ reads_text plan.now (map told found.now) (map miscompare_of bads.now)) }
{
    push_text(text, "{\"badreads\":")?;
    push_bads(text, alloc, plan, found, bads, true)?;
    Ok(())
}

// The members behind it, before those of the run's other lines.
fn push_head(
    text: &mut Vec<u8>,
    alloc: Global,
    faults: &[FaultNote],
    notes: &RunNotes<'_>,
    ending: &RunStatus<'_>,
) -> Result<(), Memory>
    ensures { OnOk result (text.new.items ≡ text.old.items
        ++ head_text (ending_of ending.now) (map named faults.now) (notes_of notes.now)) }
{
    push_cache(text, ending)?;
    push_text(text, ",\"faults\":")?;
    push_faults(text, alloc, faults, notes.reasons)?;
    push_text(text, ",\"files\":")?;
    push_files(text, alloc, notes.files)?;
    push_text(text, ",\"fiorun\":")?;
    push_string(text, alloc, ending.version)?;
    push_text(text, ",\"interrupted\":")?;
    push_flag(text, ending.is_interrupted)?;
    Ok(())
}

// What is known of the system's cache.
fn push_cache(text: &mut Vec<u8>, ending: &RunStatus<'_>) -> Result<(), Memory>
    ensures { OnOk result (text.new.items ≡ text.old.items ++ cache_text (ending_of ending.now)) }
{
    push_text(text, ",\"cached\":")?;
    push_count(text, ending.cached)?;
    push_text(text, ",\"direct\":")?;
    push_flag_of(text, ending.direct)?;
    Ok(())
}

// A flag, where there is one.
fn push_flag_of(text: &mut Vec<u8>, flag: Option<bool>) -> Result<(), Memory>
    ensures { OnOk result (text.new.items ≡ text.old.items ++ compact_text (flag_json flag)) }
{
    match flag {
        None => push_text(text, "null"),
        Some(flag) => push_flag(text, flag),
    }
}

fn push_flag(text: &mut Vec<u8>, flag: bool) -> Result<(), Memory>
    ensures { OnOk result (text.new.items ≡ text.old.items ++ compact_text (boolean flag)) }
{
    push_text(text, if flag { "true" } else { "false" })
}

// A number, where there is one.
fn push_count(text: &mut Vec<u8>, count: Option<u64>) -> Result<(), Memory>
    ensures { OnOk result (text.new.items ≡ text.old.items ++ compact_text (count_json count)) }
{
    match count {
        None => push_text(text, "null"),
        Some(count) => push_number(text, count),
    }
}

// What the other lines of the report say.
fn push_found(
    text: &mut Vec<u8>,
    alloc: Global,
    plan: &Plan,
    totals: &[Totals],
    found: &[Diagnosed],
    bads: &[Bad],
    ending: &RunStatus<'_>,
) -> Result<(), Memory>
    ensures { OnOk result (text.new.items ≡ text.old.items
        ++ found_text (ending_of ending.now) plan.now totals.now (map told found.now) (map miscompare_of bads.now)) }
{
    push_text(text, ",\"jobs\":")?;
    push_clones(text, alloc, plan, totals)?;
    push_text(text, ",\"logic\":")?;
    push_string(text, alloc, ending.logic)?;
    push_text(text, ",\"miscompares\":")?;
    push_bads(text, alloc, plan, found, bads, false)?;
    Ok(())
}

// How many faults there are more, the plan, and the run's setting.
fn push_planned(
    text: &mut Vec<u8>,
    alloc: Global,
    plan: &Plan,
    setting: &RunSetting,
    more: u64,
) -> Result<(), Memory>
    ensures { OnOk result (text.new.items ≡ text.old.items ++ plan_text plan.now (setting_of setting.now) more) }
{
    push_text(text, ",\"more_faults\":")?;
    push_number(text, more)?;
    push_text(text, ",\"plan\":")?;
    push_asked(text, alloc, plan)?;
    push_text(text, ",\"run\":")?;
    push_setting(text, alloc, setting)?;
    Ok(())
}

// The run's setting.
fn push_setting(text: &mut Vec<u8>, alloc: Global, setting: &RunSetting) -> Result<(), Memory>
    ensures { OnOk result (text.new.items ≡ text.old.items ++ compact_text (setting_json (setting_of setting.now))) }
{
    let row = setting_row(alloc, setting)?;
    push_item(text, alloc, 0, &row)
}

// The array of the files.
fn push_files(text: &mut Vec<u8>, alloc: Global, files: &[KnownFile]) -> Result<(), Memory>
    ensures { OnOk result (text.new.items ≡ text.old.items ++ array_text (map file_json (map facts_of files.now))) }
{
    push_text(text, "[")?;
    for (i, file) in files.iter().enumerate() {
        push_file(text, alloc, i, file)?;
    }
    push_text(text, "]")?;
    Ok(())
}

fn push_file(
    text: &mut Vec<u8>,
    alloc: Global,
    place: usize,
    file: &KnownFile,
) -> Result<(), Memory>
    ensures { OnOk result (text.new.items ≡ text.old.items ++ item_text place (file_json (facts_of file.now))) }
{
    let row = file_row(alloc, file)?;
    push_item(text, alloc, place, &row)
}

// The array of what the clones are to do.
fn push_asked(text: &mut Vec<u8>, alloc: Global, plan: &Plan) -> Result<(), Memory>
    ensures { OnOk result (text.new.items ≡ text.old.items ++ array_text (map (asked_json plan.now) plan.now.clones)) }
{
    push_text(text, "[")?;
    for i in 0..plan.clones() {
        push_job(text, alloc, i, plan, plan.clone_at(i))?;
    }
    push_text(text, "]")?;
    Ok(())
}

fn push_job(
    text: &mut Vec<u8>,
    alloc: Global,
    place: usize,
    plan: &Plan,
    job: &SubJob,
) -> Result<(), Memory>
    ensures { OnOk result (text.new.items ≡ text.old.items ++ item_text place (asked_json plan.now job.now)) }
{
    let row = asked_row(alloc, plan, job)?;
    push_item(text, alloc, place, &row)
}

// The members behind them.
fn push_end(text: &mut Vec<u8>, ending: &RunStatus<'_>) -> Result<(), Memory>
    ensures { OnOk result (text.new.items ≡ text.old.items ++ end_text (ending_of ending.now)) }
{
    push_text(text, ",\"status\":")?;
    push_number(text, u64::from(ending.status))?;
    push_text(text, ",\"stored\":")?;
    push_flag(text, ending.is_stored)?;
    push_text(text, "}")?;
    Ok(())
}

/// Appends the array of the clones, by their totals, as a report has it.
pub fn push_clones(
    text: &mut Vec<u8>,
    alloc: Global,
    plan: &Plan,
    totals: &[Totals],
) -> Result<(), Memory>
    ensures { OnOk result (text.new.items ≡ text.old.items ++ array_text (clones_json plan.now.clones totals.now)) }
{
    push_text(text, "[")?;
    let count = plan.clones().min(totals.len());
    for i in 0..count {
        push_clone(text, alloc, i, plan.clone_at(i), &totals[i])?;
    }
    push_text(text, "]")?;
    Ok(())
}

fn push_clone(
    text: &mut Vec<u8>,
    alloc: Global,
    place: usize,
    job: &SubJob,
    totals: &Totals,
) -> Result<(), Memory>
    ensures { OnOk result (text.new.items ≡ text.old.items ++ item_text place (clone_json job.now totals.now)) }
{
    let row = clone_row(alloc, job, totals)?;
    push_item(text, alloc, place, &row)
}

// The array of the bad reads, or of the other bad verdicts.
fn push_bads(
    text: &mut Vec<u8>,
    alloc: Global,
    plan: &Plan,
    found: &[Diagnosed],
    bads: &[Bad],
    of_reads: bool,
) -> Result<(), Memory>
    ensures { OnOk result (text.new.items ≡ text.old.items
        ++ array_text (bads_json plan.now (map told found.now) of_reads (map miscompare_of bads.now))) }
{
    push_text(text, "[")?;
    let mut place = 0;
    for bad in bads {
        if is_wanted(plan, bad, of_reads) {
            push_bad(text, alloc, place, plan, found, bad)?;
            place += 1;
        }
    }
    push_text(text, "]")?;
    Ok(())
}

// Whether a bad verdict is a bad read, where these are wanted, or isn't, where the others are.
fn is_wanted(plan: &Plan, bad: &Bad, of_reads: bool) -> bool
    ensures { result ≡ is_wanted plan.now of_reads (miscompare_of bad.now) }
{
    is_bad_read(plan, bad) == of_reads
}

fn push_bad(
    text: &mut Vec<u8>,
    alloc: Global,
    place: usize,
    plan: &Plan,
    found: &[Diagnosed],
    bad: &Bad,
) -> Result<(), Memory>
    ensures { OnOk result (text.new.items ≡ text.old.items
        ++ item_text place (miscompare_json plan.now (map told found.now) (miscompare_of bad.now))) }
{
    let row = miscompare_row(alloc, plan, found, bad)?;
    push_item(text, alloc, place, &row)
}

// The array of the faults.
fn push_faults(
    text: &mut Vec<u8>,
    alloc: Global,
    faults: &[FaultNote],
    reasons: &[Option<String>],
) -> Result<(), Memory>
    ensures { OnOk result (text.new.items ≡ text.old.items ++ array_text (faults_json (map named faults.now) (texts_of reasons.now))) }
{
    push_text(text, "[")?;
    for (i, fault) in faults.iter().enumerate() {
        push_fault(text, alloc, i, fault, reasons)?;
    }
    push_text(text, "]")?;
    Ok(())
}

fn push_fault(
    text: &mut Vec<u8>,
    alloc: Global,
    place: usize,
    fault: &FaultNote,
    reasons: &[Option<String>],
) -> Result<(), Memory>
    ensures { OnOk result (text.new.items ≡ text.old.items
        ++ item_text place (fault_json (named fault.now) (told_by (slice_get reasons.now place)))) }
{
    let row = fault_row(alloc, fault, reason_at(reasons, place))?;
    push_item(text, alloc, place, &row)
}

// The reason of the fault at this place.
fn reason_at(reasons: &[Option<String>], place: usize) -> Option<&String>
    ensures { text_of result ≡ told_by (slice_get reasons.now place) }
{
    match reasons.get(place) {
        Some(reason) => reason.as_ref(),
        None => None,
    }
}

/// Appends a text as JSON has it: in quotes, with what needs it escaped.
pub fn push_string(text: &mut Vec<u8>, alloc: Global, told: &str) -> Result<(), Memory>
    ensures { OnOk result (text.new.items ≡ text.old.items ++ compact_text (string told.now)) }
{
    let value = Value::try_from_str(alloc, told)?;
    push_item(text, alloc, 0, &value)
}

/// Appends the item of this place in an array: a comma comes before each but the first.
pub fn push_item(
    text: &mut Vec<u8>,
    alloc: Global,
    place: usize,
    value: &Value,
) -> Result<(), Memory>
    ensures { OnOk result (has_float (view value.now) ≡ false → text.new.items ≡ text.old.items ++ item_text place (view value.now)) }
{
    if place != 0 {
        push_text(text, ",")?;
    }
    let item = value.to_string(alloc)?;
    push_text(text, item.as_str())
}
