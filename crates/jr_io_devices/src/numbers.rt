// Numbers in texts that the kernel makes.
ghost use Rattle.std.specs.Prelude.{◌≡◌, ◌<◌, ◌^◌, ℕ, Some, decimal};

use crate::tables::text_of;
use std::alloc::Global;
use std::io;
use std::rt::Files;

/// The number that stands alone in this file of a folder, if it can be read there.
pub(crate) fn number_at<R: Files>(
    rt: &R,
    alloc: Global,
    folder: &str,
    file: &str,
) -> io::Result<Option<u64>> {
    match line_at(rt, alloc, folder, file) {
        Ok(line) => Ok(number_in(line.as_str())),
        Err(error) => Err(error),
    }
}

/// The one line of this file of a folder, or nothing if it isn't there.
pub(crate) fn line_at<R: Files>(
    rt: &R,
    alloc: Global,
    folder: &str,
    file: &str,
) -> io::Result<String> {
    let text = text_of(rt, alloc, folder, file)?;
    Ok(String::from_utf8_lossy(alloc, without_end(text.as_slice()))?)
}

// The text without the end of its line.
fn without_end(text: &[u8]) -> &[u8] {
    match text {
        [line @ .., b'\n'] => line,
        line => line,
    }
}

/// The number that these digits are.
fn number_in(digits: &str) -> Option<u64>
    ensures { (n : ℕ) → n < 2 ^ 64 → digits.now ≡ decimal n → result ≡ Some n }
{
    match digits.parse::<u64>() {
        Ok(number) => Some(number),
        Err(_) => None,
    }
}

/// The decimal number of 32 bits that stands there, if one does.
pub(crate) fn small_number_in(digits: &str) -> Option<u32>
    ensures { (n : ℕ) → n < 2 ^ 32 → digits.now ≡ decimal n → result ≡ Some n }
{
    match digits.parse::<u32>() {
        Ok(number) => Some(number),
        Err(_) => None,
    }
}
