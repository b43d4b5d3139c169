// What a refused line comes to in a job that it counts for.

use jr_job_keys::Way;
use jr_job_notes::fio_number;
use jr_job_options::JobOptions;
use jr_model::MOST_PASSES;
use jr_text::Line;
use std::alloc::{AllocError, Global};

// These lines behind its own; or the job is left out, since this would be lost.
#[derive(Drop)]
pub enum Settled {
    Lines(Vec<String>),
    Yours(&'static str),
}

// How much a job does: so many bytes, so often.
#[derive(Clone, Copy)]
enum Amount {
    Size(u64),
    Passes(u64),
    As,
    Unknown(&'static str),
}

// What a line comes to in a job with these options, below the job of a name.
pub(crate) fn settle(
    alloc: Global,
    way: Way,
    line: &Line,
    options: &JobOptions,
    last: Option<&str>,
) -> Result<Settled, AllocError> {
    let value = line.value().unwrap_or("");
    match way {
        Way::Line(text) => lines(alloc, text, ""),
        Way::Lines(text, second) => lines(alloc, text, second),
        Way::Wait => match last {
            Some(name) if name == value => lines(alloc, "stonewall", ""),
            _ => Ok(Settled::Yours("which jobs it waits for")),
        },
        Way::FileSize => amount_lines(alloc, file_size(value, options)),
        Way::Amount => amount_lines(alloc, in_all(fio_number(value), options)),
        Way::Count => amount_lines(alloc, in_all(counted(value, options), options)),
        _ => lines(alloc, "", ""),
    }
}

// One line or two.
fn lines(alloc: Global, text: &str, second: &str) -> Result<Settled, AllocError> {
    let mut lines = Vec::new(alloc);
    for text in [text, second] {
        if !text.is_empty() {
            lines.push(String::from_str(alloc, text)?)?;
        }
    }
    Ok(Settled::Lines(lines))
}

fn amount_lines(alloc: Global, amount: Amount) -> Result<Settled, AllocError> {
    let mut lines = Vec::new(alloc);
    match amount {
        Amount::Size(size) => lines.push(format!(in alloc; "size={size}")?)?,
        Amount::Passes(passes) => lines.push(format!(in alloc; "loops={passes}")?)?,
        Amount::As => {}
        Amount::Unknown(lost) => return Ok(Settled::Yours(lost)),
    }
    Ok(Settled::Lines(lines))
}

// The size of a job whose file has a size.
fn file_size(value: &str, options: &JobOptions) -> Amount {
    match (fio_number(value), options.size) {
        (Some(length), None) => Amount::Size(length),
        (Some(length), Some(size)) if size <= length => Amount::As,
        (Some(_), Some(_)) => Amount::Unknown("a size above the file's"),
        (None, _) => Amount::Unknown("files of several sizes"),
    }
}

// So many bytes in all.
fn in_all(bytes: Option<u64>, options: &JobOptions) -> Amount {
    let Some(bytes) = bytes else {
        return Amount::Unknown("how much it does");
    };
    match options.size {
        Some(size) if size < bytes && size > 0 => repeated(bytes, size),
        _ => Amount::Size(bytes),
    }
}

// As often over the size as the bytes need.
fn repeated(bytes: u64, size: u64) -> Amount {
    let passes = bytes.div_ceil(size.max(1));
    if passes <= MOST_PASSES as u64 {
        Amount::Passes(passes)
    } else {
        Amount::Unknown("how much it does")
    }
}

// The bytes of so many blocks of one size.
fn counted(value: &str, options: &JobOptions) -> Option<u64> {
    let count = fio_number(value)?;
    let size = if options.io_type.has_reads() {
        options.read_size
    } else {
        options.write_size
    };
    let splits = options.read_split.is_some() || options.write_split.is_some();
    if splits || (options.io_type.has_writes() && size != options.write_size) {
        return None;
    }
    count.checked_mul(u64::from(size))
}
