// The sectors of a device, and whether a plan keeps to whole ones.
ghost use Rattle.std.specs.Prelude.{◌≡◌, ◌<◌, length, is_some, IfSome, IfOk};
ghost use Rattle.std.specs.List.{list_any};
ghost use Rattle.jr_io_blocks.specs.Sectors.{is_ragged, is_whole};

use jr_io_devices::{DeviceNumbers, FileNumbers};
use jr_plan::{Plan, SubJob};
use std::alloc::Global;
use std::fs::File;
use std::io;
use std::io::{ErrorKind, Read};
use std::rt::Files;

// A sector where the system doesn't say how long one is.
const LEAST: u64 = 512;

// The most digits that are read of the length of a sector.
const MOST_DIGITS: usize = 16;

/// The bytes of a sector of the device that the file is, or else of the one that its file system lies on. The one error is want of
/// memory.
pub fn sector_of<R: Files>(rt: &R, alloc: Global, numbers: FileNumbers) -> io::Result<u64>
    ensures { IfOk result (λ sector. 0 < sector) }
{
    let device = DeviceNumbers::of(if numbers.is_block_device {
        numbers.device
    } else {
        numbers.file_system
    });
    let name = device.text(alloc)?;
    let name = name.as_str();
    // (a partition has no queue of its own: its disk's stands above it)
    for above in ["", "/.."] {
        let path = format!(in alloc; "/sys/dev/block/{name}{above}/queue/logical_block_size")?;
        if let Some(sector) = number_in(rt, path.as_str())?
            && sector > 0
        {
            return Ok(sector);
        }
    }
    Ok(LEAST)
}

// The number that stands in a small file of the kernel's, if it can be read.
fn number_in<R: Files>(rt: &R, path: &str) -> io::Result<Option<u64>> {
    let Ok(mut file) = File::open(rt, path) else {
        return Ok(None);
    };
    let mut text = [0; MOST_DIGITS];
    match file.read(&mut text) {
        Ok(_) => Ok(number_of(&text)),
        Err(error) if error.kind() == ErrorKind::OutOfMemory => Err(error),
        Err(_) => Ok(None),
    }
}

// The number of the digits that a text begins with; 0 where it has none.
fn number_of(text: &[u8]) -> Option<u64> {
    let mut number: u64 = 0;
    for byte in text {
        if !byte.is_ascii_digit() {
            return Some(number);
        }
        number = number
            .checked_mul(10)?
            .checked_add(u64::from(byte.wrapping_sub(b'0')))?;
    }
    Some(number)
}

/// Whether a number of bytes is whole sectors of so many.
pub fn is_whole(sector: u64, bytes: u64) -> bool
    ensures { result ≡ is_whole sector bytes }
{
    sector != 0 && bytes % sector == 0
}

/// The first clone of the plan that works on this file by parts of sectors.
pub fn first_ragged(plan: &Plan, file: usize, sector: u64) -> Option<usize>
    ensures some { is_some result ≡ list_any (is_ragged file sector) plan.now.clones }
    ensures within { IfSome result (λ i. i < length plan.now.clones) }
{
    for i in 0..plan.clones() {
        if is_ragged(plan.clone_at(i), file, sector) {
            return Some(i);
        }
    }
    None
}

fn is_ragged(job: &SubJob, file: usize, sector: u64) -> bool
    ensures { result ≡ is_ragged file sector job.now }
{
    job.file() as usize == file
        && !(is_whole(sector, job.start()) && is_whole(sector, u64::from(job.cell())))
}
