// The line that says the same as a refused one, or nearly, by a line of its own.

use crate::lines::is_refused;
use crate::numbers::{fio_number, fio_seconds, in_bytes, pattern, range_split};
use jr_job_keys::{Fate, Way};
use jr_text::Line;
use std::alloc::{AllocError, Global};

/// The key and the value that stand in place of a line's. They may be refused too.
pub fn other_words(
    alloc: Global,
    line: &Line,
    way: Way,
) -> Result<(String, Option<String>), AllocError> {
    let value = line.value().unwrap_or("");
    let (key, value) = match way {
        Way::Value(word) => (line.key(), String::from_str(alloc, word)?),
        Way::Most(most) => (line.key(), at_most(alloc, value, most)?),
        Way::Bytes => (line.key(), in_bytes(alloc, value)?),
        Way::Number(key) => (key, in_bytes(alloc, value)?),
        Way::Front => (line.key(), front(alloc, value)?),
        Way::Pattern => ("verify_pattern", pattern(alloc, value)?),
        Way::Range => return range(alloc, value),
        _ => (line.key(), String::from_str(alloc, value)?),
    };
    Ok((String::from_str(alloc, key)?, Some(value)))
}

// A number, or the most that it may be.
fn at_most(alloc: Global, value: &str, most: u64) -> Result<String, AllocError> {
    match fio_number(value) {
        Some(number) => {
            let number = number.min(most);
            format!(in alloc; "{number}")
        }
        None => String::from_str(alloc, value),
    }
}

// What stands before the first colon.
fn front(alloc: Global, value: &str) -> Result<String, AllocError> {
    match value.split_once(':') {
        Some((front, _)) => String::from_str(alloc, front),
        None => String::from_str(alloc, value),
    }
}

// The one size of a range, or several with equal shares.
fn range(alloc: Global, value: &str) -> Result<(String, Option<String>), AllocError> {
    let ends = value.split_once('-').or(value.split_once(':'));
    if let Some((least, most)) = ends
        && let (Some(least), Some(most)) = (fio_number(least), fio_number(most))
    {
        if least == most {
            let size = format!(in alloc; "{least}")?;
            return Ok((String::from_str(alloc, "bs")?, Some(size)));
        }
        let split = range_split(alloc, least, most)?;
        return Ok((String::from_str(alloc, "bssplit")?, Some(split)));
    }
    Ok((String::from_str(alloc, "bs")?, Some(String::new(alloc))))
}

// What to write for this very line, where that has a number or a text of the line's own.
pub(crate) fn example(
    alloc: Global,
    line: &Line,
    fate: Fate,
) -> Result<Option<String>, AllocError> {
    match fate {
        Fate::Yours(_) => Ok(None),
        Fate::Dropped(way) | Fate::Same(way) | Fate::Nearly(way, _) => by_way(alloc, line, way),
    }
}

fn by_way(alloc: Global, line: &Line, way: Way) -> Result<Option<String>, AllocError> {
    let value = line.value().unwrap_or("");
    match way {
        Way::Time => match fio_seconds(value) {
            Some(seconds) => Ok(Some(format!(in alloc; "--for={seconds}s")?)),
            None => Ok(None),
        },
        Way::FileSize | Way::Amount => match fio_number(value) {
            Some(bytes) => Ok(Some(format!(in alloc; "size={bytes}")?)),
            None => Ok(None),
        },
        Way::Most(_) | Way::Bytes | Way::Number(_) | Way::Front | Way::Pattern | Way::Range =>
            in_other_words(alloc, line, way),
        _ => Ok(None),
    }
}

// The line in other words, where these are taken.
fn in_other_words(alloc: Global, line: &Line, way: Way) -> Result<Option<String>, AllocError> {
    let (key, value) = other_words(alloc, line, way)?;
    let made = Line::new(line.number(), key, value);
    if is_refused(&made) {
        return Ok(None);
    }
    let (key, value) = (made.key(), made.value().unwrap_or(""));
    Ok(Some(format!(in alloc; "{key}={value}")?))
}
