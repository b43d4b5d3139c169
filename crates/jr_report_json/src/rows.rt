// The objects of a report, one at a time.
ghost use Rattle.std.specs.Prelude.{◌≡◌, IfOk, Option, String, codes, if◌then◌else◌, map, string_bytes};
ghost use Rattle.std.specs.Option.{option_map};
ghost use Rattle.jr_model.specs.Plan.{clone_of};
ghost use Rattle.jr_model.specs.Report.{found_word};
ghost use Rattle.jr_report_faults.specs.Faults.{named};
ghost use Rattle.jr_diagnosis.specs.Rulings.{told};
ghost use Rattle.jr_diagnosis.specs.Texts.{told_of_write, told_text};
ghost use Rattle.jr_report_json.specs.Json.{clone_json, count_json, fault_json, file_json, is_bad_read, miscompare_json, moved_json, outcome_word, setting_json};
ghost use Rattle.jr_report_json.specs.Json.{text_json, unchecked};
ghost use Rattle.jr_report_json.specs.Rows.{bad_json, facts_of, scalar_json, setting_of, text_of};
ghost use Rattle.jr_desk_totals.specs.Bads.{miscompare_of};
ghost use Rattle.serde_json.specs.View.{view};

use crate::endings::{KnownFile, RunSetting};
use crate::objects::{Scalar, object_of};
use jr_desk_totals::Bad;
use jr_diagnosis::{Diagnosed, found_of, text_of};
use jr_model::{Outcome, Totals};
use jr_plan::{Plan, SubJob};
use jr_report_faults::{FaultNote, kind_word};
use serde_json::Value;
use std::alloc::{AllocError, Global};

// The object of a clone.
pub(crate) fn clone_row(alloc: Global, job: &SubJob, totals: &Totals) -> Result<Value, AllocError>
    ensures { IfOk result (λ value. view value ≡ clone_json job.now totals.now) }
{
    let members = [
        ("bad", Scalar::Count(totals.bad)),
        ("checks", Scalar::Count(totals.checks)),
        ("clone", Scalar::Count(u64::from(job.clone_number()))),
        ("faults", Scalar::Count(totals.faults)),
        ("good", Scalar::Count(totals.good)),
        ("job", Scalar::Text(job.job())),
        ("rbytes", Scalar::Count(totals.rbytes)),
        ("reads", Scalar::Count(totals.reads)),
        ("skipped", Scalar::Count(totals.skipped)),
        ("unchecked", Scalar::Count(unchecked(totals))),
        ("void", Scalar::Count(totals.void)),
        ("wbytes", Scalar::Count(totals.wbytes)),
        ("writes", Scalar::Count(totals.writes)),
    ];
    object_of(alloc, &members)
}

// How many writes ended whole and were neither checked nor skipped.
fn unchecked(totals: &Totals) -> u64
    ensures { result ≡ unchecked totals.now }
{
    let unsaid = totals.writes.saturating_sub(totals.checks);
    unsaid
        .saturating_sub(totals.void)
        .saturating_sub(totals.skipped)
}

// Whether a bad verdict is on a read that was checked: its clone checks its reads.
pub(crate) fn is_bad_read(plan: &Plan, bad: &Bad) -> bool
    ensures value { result ≡ is_bad_read plan.now (miscompare_of bad.now) }
    ensures word { found_word (clone_of plan.now bad.now.write.clone)
        ≡ (if result then codes "badread:" else codes "miscompare:") }
{
    let clone = bad.write.clone as usize;
    clone < plan.clones() && plan.clone_at(clone).checks_reads()
}

// The object of a bad verdict.
pub(crate) fn miscompare_row(
    alloc: Global,
    plan: &Plan,
    found: &[Diagnosed],
    bad: &Bad,
) -> Result<Value, AllocError>
    ensures { IfOk result (λ value. view value ≡ miscompare_json plan.now (map told found.now) (miscompare_of bad.now)) }
{
    let what = format!(in alloc; "{}", bad.what)?;
    let found = found_text(alloc, found_of(found, &bad.write))?;
    bad_object(alloc, plan, bad, found.as_ref(), what.as_str())
}

// Its object, with the text of what stands there, and of what was refused.
fn bad_object<'a>(
    alloc: Global,
    plan: &'a Plan,
    bad: &Bad,
    found: Option<&'a String>,
    what: &'a str,
) -> Result<Value, AllocError>
    ensures { IfOk result (λ value. view value ≡ bad_json plan.now (miscompare_of bad.now) (text_of found.entry) what.now) }
{
    let members = [
        ("clone", Scalar::Count(u64::from(bad.write.clone))),
        ("file", Scalar::Text(plan.file_name(bad.piece.file))),
        ("found", text_or_null(found)),
        ("length", Scalar::Count(u64::from(bad.piece.len))),
        ("number", Scalar::Count(u64::from(bad.write.number))),
        ("offset", Scalar::Count(bad.piece.offset)),
        ("pass", Scalar::Count(u64::from(bad.write.pass))),
        ("what", Scalar::Text(what)),
    ];
    object_of(alloc, &members)
}

// What stands in a bad block, where that was looked into.
fn found_text(alloc: Global, found: Option<&Diagnosed>) -> Result<Option<String>, AllocError>
    ensures { IfOk result (λ text. option_map string_bytes text ≡ option_map told_text (option_map (λ one. told one.now) found.entry)) }
{
    match found {
        None => Ok(None),
        Some(found) => Ok(Some(text_of(alloc, found)?)),
    }
}

// The object of a fault, with the system's reason where there is one.
pub(crate) fn fault_row<'a>(
    alloc: Global,
    note: &'a FaultNote,
    reason: Option<&'a String>,
) -> Result<Value, AllocError>
    ensures { IfOk result (λ value. view value ≡ fault_json (named note.now) (text_of reason.entry)) }
{
    let fault = &note.fault;
    let members = [
        ("clone", Scalar::Count(u64::from(fault.write.clone))),
        ("file", Scalar::Text(note.name.as_str())),
        ("kind", Scalar::Text(kind_word(fault.kind))),
        ("length", Scalar::Count(u64::from(fault.piece.len))),
        ("moved", moved(fault.outcome)),
        ("number", Scalar::Count(u64::from(fault.write.number))),
        ("offset", Scalar::Count(fault.piece.offset)),
        ("outcome", Scalar::Text(outcome_word(fault.outcome))),
        ("pass", Scalar::Count(u64::from(fault.write.pass))),
        ("reason", text_or_null(reason)),
    ];
    object_of(alloc, &members)
}

// A text that may not be there.
fn text_or_null(text: Option<&String>) -> Scalar<'_>
    ensures { scalar_json result ≡ text_json (text_of text.entry) }
{
    match text {
        None => Scalar::Null,
        Some(text) => Scalar::Text(text.as_str()),
    }
}

fn count_or_null(count: Option<u64>) -> Scalar<'static>
    ensures { scalar_json result ≡ count_json count }
{
    match count {
        None => Scalar::Null,
        Some(count) => Scalar::Count(count),
    }
}

// The object of a file.
pub(crate) fn file_row(alloc: Global, file: &KnownFile) -> Result<Value, AllocError>
    ensures { IfOk result (λ value. view value ≡ file_json (facts_of file.now)) }
{
    let members = [
        ("device_size", count_or_null(file.size)),
        ("model", text_or_null(file.model.as_ref())),
        ("name", Scalar::Text(file.name.as_str())),
        ("serial", text_or_null(file.serial.as_ref())),
    ];
    object_of(alloc, &members)
}

// The object of a run's setting.
pub(crate) fn setting_row(alloc: Global, setting: &RunSetting) -> Result<Value, AllocError>
    ensures { IfOk result (λ value. view value ≡ setting_json (setting_of setting.now)) }
{
    let members = [
        ("began", text_or_null(setting.began.as_ref())),
        ("ended", text_or_null(setting.ended.as_ref())),
        ("host", text_or_null(setting.host.as_ref())),
        ("job", text_or_null(setting.job.as_ref())),
        ("milliseconds", count_or_null(setting.milliseconds)),
    ];
    object_of(alloc, &members)
}

// After how many bytes an I/O ended, where it ended short.
fn moved(outcome: Outcome) -> Scalar<'static>
    ensures { scalar_json result ≡ moved_json outcome }
{
    match outcome {
        Outcome::Whole | Outcome::Failed => Scalar::Null,
        Outcome::Short(moved) => Scalar::Count(u64::from(moved)),
    }
}

fn outcome_word(outcome: Outcome) -> &'static str
    ensures { result.now ≡ outcome_word outcome }
{
    match outcome {
        Outcome::Whole => "whole",
        Outcome::Failed => "failed",
        Outcome::Short(_) => "short",
    }
}
