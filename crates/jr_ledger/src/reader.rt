ghost use Rattle.std.specs.Prelude.{◌≡◌, ◌∷◌, [], ◌<◌, ◌^◌, IfErr, IfOk, MatchOption, OnErr, OnOk, Ok, length};
ghost use Rattle.std.specs.Prelude.{◌++◌, drop, true};
ghost use Rattle.std.specs.List.{before_first, slice_split};
ghost use Rattle.jr_fields.specs.Fields.{field_is};
ghost use Rattle.jr_ledger.specs.Reading.{IsRefusal, is_newline, is_head, lines_read, lines_by, lines_in};

use crate::faults::LedgerFault;
use crate::fields::read_line;
use crate::identity::job_digest;
use crate::lines::LedgerLine;
use jr_plan::Plan;
use std::alloc::Global;

// What the first line of a ledger begins with.
const HEAD: &[u8] = b"fiorun ledger 1 ";

/// Reads the text of a ledger of this plan: its lines without the first, or the first fault. What stands behind the last line feed is
/// left out.
pub fn read_lines(alloc: Global, plan: &Plan, text: &[u8]) -> Result<Vec<LedgerLine>, LedgerFault>
    ensures ok { IfOk result (λ lines. lines_in plan.now text.now ≡ Ok lines.items) }
    ensures err { IfErr result (λ fault. IsRefusal fault (lines_in plan.now text.now)) }
{
    let digest = job_digest(alloc, plan)?;
    lines_by(alloc, digest.as_bytes(), text)
}

// The lines of the ledger of the job with this digest.
fn lines_by(alloc: Global, digest: &[u8], text: &[u8]) -> Result<Vec<LedgerLine>, LedgerFault>
    ensures ok { IfOk result (λ lines. lines_by digest.now text.now ≡ Ok lines.items) }
    ensures err { IfErr result (λ fault. IsRefusal fault (lines_by digest.now text.now)) }
{
    let Some((head, rest)) = next_line(text) else {
        return Err(LedgerFault::Line(1));
    };
    if !is_head(head) {
        return Err(LedgerFault::Line(1));
    }
    if !names_job(head, digest) {
        return Err(LedgerFault::OtherJob);
    }
    lines_below(alloc, rest)
}

// Whether a line is the first one of a ledger, of whatever job.
fn is_head(head: &[u8]) -> bool
    ensures { result ≡ is_head head.now }
{
    head.len() == 80 && &head[..16] == HEAD
}

// Whether a first line names the job with this digest.
fn names_job(head: &[u8], digest: &[u8]) -> bool
    requires { is_head head.now ≡ true }
    ensures { result ≡ field_is (drop 16 head.now) digest.now }
{
    &head[16..] == digest
}

// The lines of a text that begins below the first line of a ledger.
fn lines_below(alloc: Global, text: &[u8]) -> Result<Vec<LedgerLine>, LedgerFault>
    ensures ok { IfOk result (λ lines. lines_read [] 2 (slice_split is_newline text.now) ≡ Ok lines.items) }
    ensures err { IfErr result (λ fault. IsRefusal fault (lines_read [] 2 (slice_split is_newline text.now))) }
{
    let mut lines = Vec::new(alloc);
    let mut rest = text;
    while let Some((line, after)) = next_line(rest) {
        let number = lines.len() as u64 + 2;
        let Some(found) = read_line(line) else {
            return Err(LedgerFault::Line(number));
        };
        lines.push(found)?;
        rest = after;
    }
    Ok(lines)
}

// The first line of a text, and what follows its line feed; nothing where it has none.
fn next_line(text: &[u8]) -> Option<(&[u8], &[u8])>
    ensures { MatchOption result (slice_split is_newline text.now ≡ text.now ∷ [])
        (λ p. (slice_split is_newline text.now ≡ p.0.now ∷ slice_split is_newline p.1.now)
        × (length p.1.now < length text.now)) }
{
    let end = line_len(text);
    if end >= text.len() {
        return None;
    }
    let (line, _) = text.split_at(end);
    let (_, after) = text.split_at(end + 1);
    Some((line, after))
}

// How many bytes stand before the first line feed.
fn line_len(text: &[u8]) -> usize
    ensures value { result ≡ length (before_first is_newline text.now) }
    ensures bound { result < 2 ^ 63 }
{
    text.iter().take_while(|byte| **byte != b'\n').count()
}
