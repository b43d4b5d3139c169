ghost use Rattle.std.specs.Prelude.{◌≡◌, ◌+◌, ◌<◌, ◌≤◌, IsTrue, IsOk, IfOk, length};
ghost use Rattle.jr_io_blocks.specs.Parts.{GetsPart, after_part};

use crate::droppers::Dropper;
use crate::positioned::Positioned;
use std::alloc::{AllocError, Global};
use std::io;

// The largest sector, and so the furthest that a right place of a block can be from the next one.
const LARGEST_SECTOR: usize = 4096;

// Memory is given from multiples of so many bytes on, and so places are tried.
const STEP: usize = 16;

const MOST_PLACES: usize = LARGEST_SECTOR / STEP;

/// Memory of an engine through which blocks go between a caller and files that are direct: the device takes them from some places of
/// memory alone. From the begin of a page each device takes them, and some that take others too write past what they were given.
///
/// No address is known here, so the launcher is asked where a page begins. Where it can't say that, the place is found by trying: one that
/// the device refuses is left for the next, until a first call has gone well. Blocks are copied there and back.
#[derive(Drop)]
pub struct Room {
    bytes: Option<Vec<u8>>,
    place: usize,
    // How many places may still be tried: none once one was taken.
    left: usize,
}

impl Room {
    /// No room: all calls go by the caller's own buffers.
    pub fn none() -> Room {
        Room {
            bytes: None,
            place: 0,
            left: 0,
        }
    }

    /// Room for blocks of at most so many bytes, which begins on a page where this can find one.
    pub fn new(alloc: Global, most: usize, asked: Option<&Dropper>) -> Result<Room, AllocError> {
        let mut bytes = vec![in alloc; 0; most.saturating_add(LARGEST_SECTOR)]?;
        let found = match asked {
            Some(asked) => asked.bytes_to_page(bytes.as_mut_slice()),
            None => None,
        };
        Ok(Room {
            bytes: Some(bytes),
            place: found.unwrap_or(0),
            left: if found.is_some() { 0 } else { MOST_PLACES },
        })
    }

    /// Whether it begins where the device takes it only by trial.
    pub fn is_tried(&self) -> bool {
        self.bytes.is_some() && self.left > 0
    }

    /// One read of the file: by the room if the file is direct, and the block fits.
    pub(crate) fn read<F: Positioned>(
        &mut self,
        file: &mut F,
        buf: &mut [u8],
        offset: u64,
    ) -> io::Result<usize>
        ensures most { IfOk result (λ n. n ≤ length buf.old) }
        ensures known { F.view file.new ≡ F.view file.old }
        ensures sound { IsTrue (F.view file.old).is_sound → IsOk result }
        ensures part { IsTrue (F.view file.old).is_known → GetsPart (F.view file.old).bytes offset buf.old result buf.new }
    {
        let start = self.place;
        if let Some(bytes) = &mut self.bytes
            && file.is_direct()
            && start <= bytes.len()
            && buf.len() <= bytes.len() - start
        {
            let end = start + buf.len();
            let got = read_by(file, &mut bytes.as_mut_slice()[start..end], buf, offset)?;
            self.left = 0;
            return Ok(got);
        }
        file.read_at(buf, offset)
    }

    /// One write to the file: by the room if the file is direct, and the block fits.
    pub(crate) fn write<F: Positioned>(
        &mut self,
        file: &mut F,
        buf: &[u8],
        offset: u64,
    ) -> io::Result<usize>
        ensures most { IfOk result (λ n. n ≤ length buf.now) }
        ensures known { (F.view file.new).is_known ≡ (F.view file.old).is_known }
        ensures stays { (F.view file.new).is_sound ≡ (F.view file.old).is_sound }
        ensures named { (F.view file.new).name ≡ (F.view file.old).name }
        ensures sound { IsTrue (F.view file.old).is_sound → IsOk result }
        ensures takes { IsTrue (F.view file.old).is_sound → IfOk result (λ n. 0 < length buf.now → 0 < n) }
        ensures part { IsTrue (F.view file.old).is_known → offset + length buf.now ≤ length (F.view file.old).bytes
            → (F.view file.new).bytes ≡ after_part (F.view file.old).bytes offset buf.now result }
    {
        let start = self.place;
        if let Some(bytes) = &mut self.bytes
            && file.is_direct()
            && start <= bytes.len()
            && buf.len() <= bytes.len() - start
        {
            let end = start + buf.len();
            let taken = write_by(file, &mut bytes.as_mut_slice()[start..end], buf, offset)?;
            self.left = 0;
            return Ok(taken);
        }
        file.write_at(buf, offset)
    }

    /// Goes on to the next place, if one is left that may be tried.
    pub(crate) fn try_next_place(&mut self) -> bool {
        if self.left == 0 {
            return false;
        }
        self.left -= 1;
        self.place = self.place.saturating_add(STEP) % LARGEST_SECTOR;
        true
    }
}

// One read by a part of the room that is as long as the buffer: what was read is copied out of its front.
fn read_by<F: Positioned>(
    file: &mut F,
    part: &mut [u8],
    buf: &mut [u8],
    offset: u64,
) -> io::Result<usize>
    requires { length part.old ≡ length buf.old }
    ensures most { IfOk result (λ n. n ≤ length buf.old) }
    ensures known { F.view file.new ≡ F.view file.old }
    ensures sound { IsTrue (F.view file.old).is_sound → IsOk result }
    ensures part { IsTrue (F.view file.old).is_known → GetsPart (F.view file.old).bytes offset buf.old result buf.new }
{
    let got = file.read_at(part, offset)?;
    buf[..got].copy_from_slice(&part[..got]);
    Ok(got)
}

// One write by such a part, into which the whole buffer is copied before.
fn write_by<F: Positioned>(
    file: &mut F,
    part: &mut [u8],
    buf: &[u8],
    offset: u64,
) -> io::Result<usize>
    requires { length part.old ≡ length buf.now }
    ensures most { IfOk result (λ n. n ≤ length buf.now) }
    ensures known { (F.view file.new).is_known ≡ (F.view file.old).is_known }
    ensures stays { (F.view file.new).is_sound ≡ (F.view file.old).is_sound }
    ensures named { (F.view file.new).name ≡ (F.view file.old).name }
    ensures sound { IsTrue (F.view file.old).is_sound → IsOk result }
    ensures takes { IsTrue (F.view file.old).is_sound → IfOk result (λ n. 0 < length buf.now → 0 < n) }
    ensures part { IsTrue (F.view file.old).is_known → offset + length buf.now ≤ length (F.view file.old).bytes
        → (F.view file.new).bytes ≡ after_part (F.view file.old).bytes offset buf.now result }
{
    part.copy_from_slice(buf);
    file.write_at(part, offset)
}
