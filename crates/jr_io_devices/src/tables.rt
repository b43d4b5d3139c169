// Texts that the kernel makes: of mounts (/proc/self/mountinfo), of swap (/proc/swaps), and the names in a folder.
ghost use Rattle.std.specs.Prelude.{◌≡◌, ◌==◌, ◌≤◌, ◌↔◌, IsTrue, IfSome, length, position};
ghost use Rattle.std.specs.List.{slice_split};
ghost use Rattle.std.specs.Option.{option_map};
ghost use Rattle.jr_io_devices.specs.Devices.{IsMountOf, field_of, is_anonymous, is_driverless, is_hyphen, source_of};

use std::alloc::Global;
use std::fs::File;
use std::io;
use std::io::{ErrorKind, Read};
use std::rt::Files;

// The fields of a mount: its device's numbers, and where it stands.
const DEVICE: usize = 2;

const MOUNT_POINT: usize = 4;

// More than any such text has: a system has 100,000 mounts at most, unless it was told otherwise.
const MOST_READ: u64 = 1 << 28;

// What the system answers for a device that has gone while its folder was looked at.
const ENODEV: i32 = 19;

/// All that the system answers for this file of a folder, or nothing if it isn't there. An error is want of memory, or says that its
/// end wasn't seen.
pub(crate) fn text_of<R: Files>(
    rt: &R,
    alloc: Global,
    folder: &str,
    file: &str,
) -> io::Result<Vec<u8>> {
    let path = format!(in alloc; "{folder}/{file}")?;
    match File::open(rt, path.as_str()) {
        Ok(file) => taken(alloc, file),
        Err(error) => nothing_there(alloc, error),
    }
}

/// The names in this folder of another, each ended by a NUL, or nothing if it isn't there. A link is followed if the path ends in a
/// slash. An error is want of memory, or says that not all were seen.
pub(crate) fn names_of<R: Files>(
    rt: &R,
    alloc: Global,
    place: &str,
    folder: &str,
) -> io::Result<Vec<u8>> {
    let path = format!(in alloc; "{place}/{folder}")?;
    match rt.open_dir(path.as_str()) {
        Ok(folder) => taken(alloc, folder),
        Err(error) => nothing_there(alloc, error),
    }
}

// All that comes of a source.
fn taken<S: Read + Drop>(alloc: Global, source: S) -> io::Result<Vec<u8>> {
    let mut text = Vec::new(alloc);
    match source.take(MOST_READ).read_to_end(&mut text) {
        Ok(_) if text.len() as u64 >= MOST_READ => Err(io::Error::from(ErrorKind::FileTooLarge)),
        Ok(_) => Ok(text),
        Err(error) => nothing_there(alloc, error),
    }
}

// No text, where the error says that there is none.
fn nothing_there(alloc: Global, error: io::Error) -> io::Result<Vec<u8>> {
    if error.kind() == ErrorKind::NotFound || error.raw_os_error() == Some(ENODEV) {
        Ok(Vec::new(alloc))
    } else {
        Err(error)
    }
}

/// Whether a name in such a folder ends here.
pub(crate) fn is_nul(byte: &u8) -> bool {
    *byte == 0
}

/// Whether a line of such a table ends here.
pub(crate) fn is_newline(byte: &u8) -> bool {
    *byte == b'\n'
}

/// The first line of a table of mounts that has these numbers.
pub(crate) fn mount_of<'a>(mounts: &'a [u8], device: &[u8]) -> Option<&'a [u8]>
    ensures { IfSome result (λ line. IsMountOf device.now line.now) }
{
    for line in mounts.split(is_newline) {
        if is_mount_of(line, device) {
            return Some(line);
        }
    }
    None
}

/// Where a mount stands.
pub(crate) fn place_of(line: &[u8]) -> Option<&[u8]>
    ensures { option_map (λ field. field.now) result ≡ field_of line.now 4 }
{
    field_of(line, MOUNT_POINT)
}

// Whether the line of a mount has these numbers.
fn is_mount_of(line: &[u8], device: &[u8]) -> bool
    ensures { IsTrue result ↔ IsMountOf device.now line.now }
{
    match field_of(line, DEVICE) {
        Some(field) => field == device,
        None => false,
    }
}

/// Whether a mount is of a file system that has no device of its own, as one of btrfs.
pub(crate) fn is_anonymous(line: &[u8]) -> bool
    ensures { result ≡ is_anonymous line.now }
{
    match field_of(line, DEVICE) {
        Some(numbers) => is_driverless(numbers),
        None => false,
    }
}

// Whether these numbers are `0:MINOR`.
fn is_driverless(numbers: &[u8]) -> bool
    ensures { result ≡ is_driverless numbers.now }
{
    match numbers {
        [driver, colon, ..] => *driver == b'0' && *colon == b':',
        _ => false,
    }
}

/// What is mounted, as the mount names it: a device, if the file system is on one.
pub(crate) fn source_of(line: &[u8]) -> Option<&[u8]>
    ensures { option_map (λ field. field.now) result ≡ source_of line.now }
{
    match hyphen_of(line) {
        Some(hyphen) => field_of(line, hyphen + 2),
        None => None,
    }
}

// The place of the hyphen behind which a mount says what is mounted.
fn hyphen_of(line: &[u8]) -> Option<usize>
    ensures value { result ≡ position is_hyphen (slice_split (λ b. b == 32) line.now) }
    ensures few { IfSome result (λ place. place ≤ length line.now) }
{
    line.split(|byte| *byte == b' ')
        .position(|field| is_hyphen(field))
}

fn is_hyphen(field: &[u8]) -> bool
    ensures { result ≡ is_hyphen field.now }
{
    match field {
        [byte] => *byte == b'-',
        _ => false,
    }
}

/// The field at this place of a line, if it has so many.
pub(crate) fn field_of(line: &[u8], place: usize) -> Option<&[u8]>
    ensures { option_map (λ field. field.now) result ≡ field_of line.now place }
{
    line.split(|byte| *byte == b' ').nth(place)
}
