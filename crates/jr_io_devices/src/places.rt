// Where a mount stands, as a path.
use std::alloc::{AllocError, Global};

/// The path that a field of the kernel's table of mounts says: some bytes stand there as a backslash and three octal digits.
pub(crate) fn path_of(alloc: Global, field: &[u8]) -> Result<Vec<u8>, AllocError> {
    let mut path = Vec::new(alloc);
    for (place, part) in field.split(|byte| *byte == b'\\').enumerate() {
        if place == 0 {
            path.extend_from_slice(part)?;
        } else {
            add_escaped(&mut path, part)?;
        }
    }
    Ok(path)
}

// Adds the byte that the first three digits say, and what is behind them.
fn add_escaped(path: &mut Vec<u8>, part: &[u8]) -> Result<(), AllocError> {
    match part {
        [first, second, third, rest @ ..] => {
            path.push(*first % 4 * 64 + *second % 8 * 8 + *third % 8)?;
            path.extend_from_slice(rest)
        }
        _ => path.extend_from_slice(part),
    }
}
