ghost use Rattle.std.specs.Prelude.{◌≡◌, ◌≤◌, ◌<◌, ◌+◌, ◌*◌, ◌^◌, ◌++◌, List, ℕ, Option, length, take, MatchResult, IfOk, IfErr};
ghost use Rattle.std.specs.Prelude.{IfSome, All, count_by, Ok, Err};
ghost use Rattle.std.specs.List.{slice_split};
ghost use Rattle.jr_text.specs.Number.{number_of};
ghost use Rattle.jr_plan.specs.SplitEntries.{padded};
ghost use Rattle.jr_sizes.specs.Splits.{is_colon, small_size, percent_in, entry_with, entry_of, entries_of, given_total};
ghost use Rattle.jr_sizes.specs.Splits.{blank_count, share, share_step};

use crate::faults::SplitFault;
use jr_text::number;

/// The most entries that a split may have.
pub const MOST_ENTRIES: usize = 64;

// A size and a percent, which may be left open.
pub type SplitEntry = (u32, Option<u8>);

// The entries of a text, in an array of which only the first ones count.
#[derive(Clone, Copy)]
pub struct Entries {
    pub(crate) entries: [SplitEntry; 64],
    pub(crate) count: usize,
}

fn size_in(text: &str) -> Result<u32, SplitFault>
    ensures { result ≡ small_size (number_of text.now) }
{
    match number(text) {
        Ok(size) if size <= 0xffff_ffff => Ok(size as u32),
        _ => Err(SplitFault::BadSize),
    }
}

fn percent_in(text: &str) -> Result<Option<u8>, SplitFault>
    ensures value { result ≡ percent_in text.now }
    ensures most { IfOk result (λ percent. IfSome percent (λ n. n ≤ 100)) }
{
    if text.is_empty() {
        return Ok(None);
    }
    match number(text) {
        Ok(percent) if percent <= 100 => Ok(Some(percent as u8)),
        _ => Err(SplitFault::BadPercent),
    }
}

fn entry_with(size: &str, percent: &str) -> Result<SplitEntry, SplitFault>
    ensures value { result ≡ entry_with (small_size (number_of size.now)) (percent_in percent.now) }
    ensures most { IfOk result (λ entry. IfSome entry.1 (λ n. n ≤ 100)) }
{
    let size = size_in(size)?;
    let percent = percent_in(percent)?;
    Ok((size, percent))
}

fn entry_of(text: &str) -> Result<SplitEntry, SplitFault>
    ensures value { result ≡ entry_of text.now }
    ensures most { IfOk result (λ entry. IfSome entry.1 (λ n. n ≤ 100)) }
{
    match text.split_once('/') {
        Some((size, percent)) => entry_with(size, percent),
        None => entry_with(text, ""),
    }
}

pub(crate) fn colon_count(text: &[u8]) -> usize
    ensures { result ≡ count_by is_colon text.now }
{
    text.iter().filter(|byte| **byte == b':').count()
}

// The entries of a text, or the first fault in them.
pub(crate) fn entries_of(text: &str) -> Result<Entries, SplitFault>
    requires { length (slice_split is_colon text.now) ≤ 64 }
    ensures ok { IfOk result (λ found. entries_of (slice_split is_colon text.now) ≡ Ok (take found.count found.entries)) }
    ensures most { IfOk result (λ found. All (λ entry. IfSome entry.1 (λ n. n ≤ 100)) (take found.count found.entries)) }
    ensures count { IfOk result (λ found. found.count ≡ length (slice_split is_colon text.now)) }
    ensures size { IfOk result (λ found. length found.entries ≡ 64) }
    ensures err { IfErr result (λ fault. entries_of (slice_split is_colon text.now) ≡ Err fault) }
{
    let mut entries = [(0, None); 64];
    let mut count = 0;
    for part in text.split(':') {
        entries[count] = entry_of(part)?;
        count += 1;
    }
    Ok(Entries { entries, count })
}

// The percents that are given, all together.
pub(crate) fn given_total(entries: &[SplitEntry]) -> u32
    requires count { length entries.now ≤ 64 }
    requires most { All (λ entry. IfSome entry.1 (λ n. n ≤ 100)) entries.now }
    ensures { result ≡ given_total entries.now }
{
    let mut total = 0;
    for (_, percent) in entries {
        total += u32::from(percent.unwrap_or(0));
    }
    total
}

// How many percents are left open.
pub(crate) fn blank_count(entries: &[SplitEntry]) -> usize
    ensures { result ≡ blank_count entries.now }
{
    entries.iter().filter(|entry| entry.1.is_none()).count()
}

// The percent of an entry, where a blank one gets `each` and, while some are left over, one more; and
// what is then left.
fn share_step(each: u8, extra: u8, percent: Option<u8>) -> (u8, u8)
    requires { each ≤ 100 }
    ensures { result ≡ share_step each extra percent }
{
    match percent {
        Some(percent) => (percent, extra),
        None if extra == 0 => (each, 0),
        None => (each + 1, extra - 1),
    }
}

// The entries with their percents: each blank one gets `each`, and the first `extra` of them one more.
pub(crate) fn shared(entries: &[SplitEntry], each: u8, extra: u8) -> [(u32, u8); 64]
    requires count { length entries.now ≤ 64 }
    requires most { each ≤ 100 }
    ensures { result ≡ padded (share each extra entries.now) }
{
    let mut all = [(0, 0); 64];
    let mut left = extra;
    for (i, (size, percent)) in entries.iter().enumerate() {
        let (percent, next) = share_step(each, left, *percent);
        all[i] = (*size, percent);
        left = next;
    }
    all
}
