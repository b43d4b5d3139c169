// Numbers, times and patterns as fio writes them.

use jr_model::all_digits;
use jr_text::number;
use std::alloc::{AllocError, Global};

// A letter of a unit in both cases, its power of 1000 and its power of 1024.
static UNITS: [(char, char, u64, u64); 5] = [
    ('k', 'K', 1000, 1024),
    ('m', 'M', 1_000_000, 1_048_576),
    ('g', 'G', 1_000_000_000, 1_073_741_824),
    ('t', 'T', 1_000_000_000_000, 1_099_511_627_776),
    ('p', 'P', 1_000_000_000_000_000, 1_125_899_906_842_624),
];

// The seconds of a unit of time.
static TIMES: [(&str, u64); 6] = [
    ("s", 1),
    ("m", 60),
    ("h", 3600),
    ("d", 86400),
    ("S", 1),
    ("M", 60),
];

// A text without this letter at its end.
fn without(text: &str, lower: char, upper: char) -> Option<&str> {
    match text.strip_suffix(lower) {
        Some(front) => Some(front),
        None => text.strip_suffix(upper),
    }
}

// A number of plain digits.
fn plain(text: &str) -> Option<u64> {
    if all_digits(text.as_bytes()) {
        number(text).ok()
    } else {
        None
    }
}

// A number whose unit has an `i`: of `kib` fio makes 1000, and of `ki` 1024.
fn with_i(text: &str) -> Option<u64> {
    let bytes = without(text, 'b', 'B');
    let front = without(bytes.unwrap_or(text), 'i', 'I')?;
    for (lower, upper, thousands, binary) in &UNITS {
        if let Some(digits) = without(front, *lower, *upper) {
            let scale = if bytes.is_some() { *thousands } else { *binary };
            return plain(digits)?.checked_mul(scale);
        }
    }
    None
}

fn hexadecimal(text: &str) -> Option<u64> {
    let digits = match text.strip_prefix("0x") {
        Some(digits) => digits,
        None => text.strip_prefix("0X")?,
    };
    u64::from_str_radix(digits, 16).ok()
}

/// A number of fio's, in bytes; none where a text is no number.
pub fn fio_number(text: &str) -> Option<u64> {
    if let Ok(number) = number(text) {
        return Some(number);
    }
    match hexadecimal(text) {
        Some(number) => Some(number),
        None => with_i(text),
    }
}

/// A time of fio's, in whole seconds; none where a text is no time.
pub fn fio_seconds(text: &str) -> Option<u64> {
    if let Some(seconds) = plain(text) {
        return Some(seconds);
    }
    if text.ends_with("ms") || text.ends_with("us") {
        return Some(1);
    }
    for (unit, seconds) in &TIMES {
        if let Some(digits) = text.strip_suffix(*unit) {
            return plain(digits)?.checked_mul(*seconds);
        }
    }
    None
}

// A text with each of its numbers in bytes; what stands between them stays.
pub(crate) fn in_bytes(alloc: Global, text: &str) -> Result<String, AllocError> {
    let mut made = String::new(alloc);
    let mut word = String::new(alloc);
    for letter in text.chars() {
        if matches!(letter, ',' | ':' | '/') {
            push_number(&mut made, word.as_str())?;
            made.push(letter)?;
            word = String::new(alloc);
        } else {
            word.push(letter)?;
        }
    }
    push_number(&mut made, word.as_str())?;
    Ok(made)
}

// Adds a word, in bytes where it is a number that isn't read here.
fn push_number(made: &mut String, word: &str) -> Result<(), AllocError> {
    match fio_number(word) {
        Some(bytes) if number(word).is_err() => write!(made, "{bytes}"),
        _ => made.push_str(word),
    }
}

// A pattern of fio's as a number, or else in hexadecimal digits.
pub(crate) fn pattern(alloc: Global, text: &str) -> Result<String, AllocError> {
    let Some(front) = text.strip_prefix('"') else {
        return String::from_str(alloc, text);
    };
    let letters = front.strip_suffix('"').unwrap_or(front);
    let mut made = String::from_str(alloc, "0x")?;
    for byte in letters.as_bytes() {
        let byte = *byte;
        write!(made, "{byte:02x}")?;
    }
    Ok(made)
}

// The sizes of a range that are its least one times a power of two, with equal shares.
pub(crate) fn range_split(alloc: Global, least: u64, most: u64) -> Result<String, AllocError> {
    let mut sizes = Vec::new(alloc);
    let mut size = least.max(1);
    for _ in 0..32u8 {
        if size > most {
            break;
        }
        sizes.push(size)?;
        size = size.saturating_mul(2);
    }
    shared(alloc, sizes.as_slice())
}

// Sizes with equal shares; the first ones have what is over.
fn shared(alloc: Global, sizes: &[u64]) -> Result<String, AllocError> {
    let mut made = String::new(alloc);
    let count = sizes.len().max(1);
    let (share, over) = (100 / count, 100 % count);
    for (i, size) in sizes.iter().enumerate() {
        let percent = if i < over {
            share.saturating_add(1)
        } else {
            share
        };
        let mark = if i == 0 { "" } else { ":" };
        write!(made, "{mark}{size}/{percent}")?;
    }
    Ok(made)
}
