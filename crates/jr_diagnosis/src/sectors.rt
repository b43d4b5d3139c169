// Which 512 bytes of a block are those that were written.
ghost use Rattle.std.specs.Prelude.{◌≡◌, ◌≤◌, ◌+◌, ◌*◌, ◌^◌, IfOk, length};
ghost use Rattle.jr_diagnosis.specs.Sectors.{first_sectors, is_right, right_at, right_sectors, told_sectors};

use jr_model::{Memory, SECTOR};
use std::alloc::Global;

// So many sectors at the beginning of a block are told one by one.
const MOST_SECTORS: usize = 64;

// Of each of the first 64 sectors that were read whether it is the one that was written there.
pub(crate) fn first_sectors(alloc: Global, written: &[u8], read: &[u8]) -> Result<Vec<bool>, Memory>
    requires same { length written.now ≡ length read.now }
    requires most { length read.now ≤ 2 ^ 24 }
    ensures { IfOk result (λ sectors. sectors.items ≡ first_sectors written.now read.now) }
{
    let mut sectors = Vec::new(alloc);
    let count = told_sectors(read.len() / SECTOR as usize);
    for i in 0..count {
        let right = is_right(written, read, i);
        sectors.push(right)?;
    }
    Ok(sectors)
}

// How many of so many sectors are told.
fn told_sectors(count: usize) -> usize
    ensures value { result ≡ told_sectors count }
    ensures within { result ≤ count }
{
    if count < MOST_SECTORS {
        count
    } else {
        MOST_SECTORS
    }
}

// How many 512 bytes of those that were read are the ones that were written there.
pub(crate) fn right_sectors(written: &[u8], read: &[u8]) -> u32
    requires same { length written.now ≡ length read.now }
    requires most { length read.now ≤ 2 ^ 24 }
    ensures { result ≡ right_sectors written.now read.now }
{
    let mut right = 0;
    for i in 0..read.len() / SECTOR as usize {
        right += right_at(written, read, i);
    }
    right
}

// 1 if the 512 bytes of this number are those that were written, else 0.
fn right_at(written: &[u8], read: &[u8], i: usize) -> u32
    requires same { length written.now ≡ length read.now }
    requires within { i * 512 + 512 ≤ length read.now }
    ensures value { result ≡ right_at written.now read.now i }
    ensures most { result ≤ 1 }
{
    if is_right(written, read, i) { 1 } else { 0 }
}

fn is_right(written: &[u8], read: &[u8], i: usize) -> bool
    requires same { length written.now ≡ length read.now }
    requires within { i * 512 + 512 ≤ length read.now }
    ensures { result ≡ is_right written.now read.now i }
{
    let start = i * SECTOR as usize;
    let end = start + SECTOR as usize;
    read[start..end] == written[start..end]
}
