// The objects of a judgement, one at a time.
ghost use Rattle.std.specs.Prelude.{◌≡◌, IfOk, count_by};
ghost use Rattle.serde_json.specs.View.{view};
ghost use Rattle.jr_after_json.specs.Json.{file_json, found_json, is_of, kept_json, told_json, unread_json, word_of, write_json};

use jr_after::Finding;
use jr_after_report::{FileReport, Judged};
use jr_model::{Piece, WriteId};
use jr_plan::Plan;
use serde_json::{Value, json};
use std::alloc::{AllocError, Global};

// The object of a chunk of which something is told.
pub(crate) fn told_row(alloc: Global, plan: &Plan, one: &Judged) -> Result<Value, AllocError>
    ensures { IfOk result (λ value. view value ≡ told_json plan.now one.now) }
{
    json!(in alloc; {
        "file": plan.file_name(one.chunk.file),
        "found": found_value(alloc, &one.finding)?,
        "kept": kept_value(alloc, &one.finding)?,
        "length": one.chunk.len,
        "offset": one.chunk.offset,
        "word": word_of(&one.finding)
    })
}

// The write that is kept.
fn kept_value(alloc: Global, finding: &Finding) -> Result<Value, AllocError>
    ensures { IfOk result (λ value. view value ≡ kept_json finding.now) }
{
    match finding {
        Finding::Open | Finding::Kept => Ok(Value::Null),
        Finding::Lost(kept, _) => write_row(alloc, kept),
        Finding::Torn(kept) | Finding::Broken(kept) => write_row(alloc, kept),
    }
}

// The write that is found in its place.
fn found_value(alloc: Global, finding: &Finding) -> Result<Value, AllocError>
    ensures { IfOk result (λ value. view value ≡ found_json finding.now) }
{
    match finding {
        Finding::Lost(_, found) => write_row(alloc, found),
        Finding::Open | Finding::Kept | Finding::Torn(_) | Finding::Broken(_) => Ok(Value::Null),
    }
}

fn write_row(alloc: Global, write: &WriteId) -> Result<Value, AllocError>
    ensures { IfOk result (λ value. view value ≡ write_json write.now) }
{
    json!(in alloc; {
        "clone": write.clone,
        "number": write.number,
        "pass": write.pass
    })
}

/// The word of a finding.
pub fn word_of(finding: &Finding) -> &'static str
    ensures { result.now ≡ word_of finding.now }
{
    match finding {
        Finding::Open => "open",
        Finding::Kept => "kept",
        Finding::Lost(_, _) => "lost",
        Finding::Torn(_) => "torn",
        Finding::Broken(_) => "broken",
    }
}

// The object of a file, where these chunks couldn't be read.
pub(crate) fn file_row(
    alloc: Global,
    plan: &Plan,
    unread: &[Piece],
    found: &FileReport,
) -> Result<Value, AllocError>
    ensures { IfOk result (λ value. view value ≡ file_json plan.now unread.now found.now) }
{
    let counts = found.counts();
    json!(in alloc; {
        "broken": counts.broken,
        "kept": counts.kept,
        "lost": counts.lost,
        "name": plan.file_name(found.file()),
        "open": counts.unpromised,
        "torn": counts.torn,
        "unread": count_of(unread, found.file())
    })
}

/// How many of these chunks are of the file.
pub fn count_of(unread: &[Piece], file: u32) -> u64
    ensures { result ≡ count_by (is_of file) unread.now }
{
    unread.iter().filter(|chunk| is_of(chunk, file)).count() as u64
}

fn is_of(chunk: &Piece, file: u32) -> bool
    ensures { result ≡ is_of file chunk.now }
{
    chunk.file == file
}

// The object of a chunk that couldn't be read.
pub(crate) fn unread_row(alloc: Global, plan: &Plan, chunk: &Piece) -> Result<Value, AllocError>
    ensures { IfOk result (λ value. view value ≡ unread_json plan.now chunk.now) }
{
    json!(in alloc; {
        "file": plan.file_name(chunk.file),
        "length": chunk.len,
        "offset": chunk.offset
    })
}
