// Words of 64 bits in a row, whose bits are numbered on from the lowest bit of the first word. A word
// that isn't there counts as full.
ghost use Rattle.std.specs.Prelude.{◌≡◌, ℕ, ◌+◌, ◌*◌, ◌/◌, ◌^◌, ◌<◌, ◌≤◌, false, length, IfOk, replicate};
ghost use Rattle.std.specs.Int.{bit_at};
ghost use Rattle.jr_map.specs.Words.{is_set, is_full, Adds, IsSetFrom, IsLeastClear, NextInWord, IsClearRun};
ghost use Rattle.jr_map.specs.Levels.{words_for};

use jr_model::Memory;
use std::alloc::Global;

/// How many bits a word has.
pub const BITS: usize = 64;

/// Words with so many bits, all clear; what the last word has beyond them is set.
pub(crate) fn clear_words(alloc: Global, count: usize) -> Result<Vec<u64>, Memory>
    ensures bits { IfOk result (λ words. IsSetFrom count words.items) }
    ensures len { IfOk result (λ words. length words.items ≡ words_for count) }
{
    let mut words = vec![in alloc; 0; count.div_ceil(BITS)]?;
    set_spare(&mut words, count);
    Ok(words)
}

/// Clears so many bits; what the last word has beyond them is set.
pub(crate) fn clear_all(words: &mut [u64], count: usize)
    requires { length words.old ≡ words_for count }
    ensures bits { IsSetFrom count words.new }
    ensures len { length words.new ≡ length words.old }
{
    words.fill(0);
    set_spare(words, count);
}

// Sets the bits from `count` on of words that are all clear.
fn set_spare(words: &mut [u64], count: usize)
    requires { words.old ≡ replicate (words_for count) 0 }
    ensures bits { IsSetFrom count words.new }
    ensures len { length words.new ≡ length words.old }
{
    let used = count % BITS;
    if used != 0 {
        words[count / BITS] = u64::MAX << used;
    }
}

/// The least clear bit from `from` on in the word of bit `from`.
pub(crate) fn next_in_word(words: &[u64], from: usize) -> Option<usize>
    ensures { NextInWord words.now from result }
{
    if from / BITS >= words.len() {
        return None;
    }
    let clear = !words[from / BITS] >> (from % BITS);
    if clear == 0 {
        return None;
    }
    Some(from + clear.trailing_zeros() as usize)
}

/// The least clear bit of a word that isn't full.
pub(crate) fn least_clear_in(words: &[u64], word: usize) -> usize
    requires few { 64 * length words.now < 2 ^ 64 }
    requires clear { is_full words.now word ≡ false }
    ensures bit { IsLeastClear words.now (64 * word) result }
    ensures within { result / 64 ≡ word }
{
    BITS * word + words[word].trailing_ones() as usize
}

/// How many bits from the clear bit `from` on are clear without a gap, at most `want`.
pub(crate) fn clear_run(words: &[u64], from: usize, want: usize) -> usize
    requires few { 64 * length words.now < 2 ^ 64 }
    requires clear { is_set words.now from ≡ false }
    ensures { IsClearRun words.now from want result }
{
    for i in from / BITS..words.len() {
        let start = from.max(BITS * i);
        let set = words[i] >> (start - BITS * i);
        if set != 0 {
            return want.min(start - from + set.trailing_zeros() as usize);
        }
        if want <= BITS * (i + 1) - from {
            return want;
        }
    }
    BITS * words.len() - from
}

/// Sets the bits from `start` up to `end`. The words from the first number given up to the second are
/// full now; every other word is full if it was.
pub(crate) fn mark(words: &mut [u64], start: usize, end: usize) -> (usize, usize)
    requires { start < end → end ≤ 64 * length words.old }
    ensures set { Adds is_set words.old words.new start end }
    ensures full { Adds is_full words.old words.new result.0 result.1 }
    ensures ends { result.1 ≤ length words.new }
    ensures len { length words.new ≡ length words.old }
{
    if end <= start {
        return (0, 0);
    }
    set_bits(words, start, end);
    let first = start / BITS;
    let last = (end - 1) / BITS;
    let from = if words[first] == u64::MAX {
        first
    } else {
        first + 1
    };
    let to = if words[last] == u64::MAX {
        last + 1
    } else {
        last
    };
    (from, to)
}

// Sets the bits from `start` up to `end`.
fn set_bits(words: &mut [u64], start: usize, end: usize)
    requires some { start < end }
    requires within { end ≤ 64 * length words.old }
    ensures { Adds is_set words.old words.new start end }
{
    for i in start / BITS..end.div_ceil(BITS) {
        let low = start.max(BITS * i) - BITS * i;
        let high = (end - BITS * i).min(BITS);
        words[i] |= mask(low, high);
    }
}

// A word whose bits from `low` up to `high` are set, and no others.
fn mask(low: usize, high: usize) -> u64
    requires low { low < 64 }
    requires some { 0 < high }
    requires high { high ≤ 64 }
    ensures inside { (k : ℕ) → low ≤ k → k < high → bit_at result k ≡ 1 }
    ensures below { (k : ℕ) → k < low → bit_at result k ≡ 0 }
    ensures above { (k : ℕ) → high ≤ k → bit_at result k ≡ 0 }
{
    (u64::MAX << low) & (u64::MAX >> (BITS - high))
}
