ghost use Rattle.std.specs.Prelude.{◌≡◌, ◌+◌, ◌≤◌, IsTrue, IsOk, IfOk, IfErr, length};
ghost use Rattle.jr_io_blocks.specs.Moves.{GetsAll, Stores};

use crate::failures::FailedCall;
use crate::positioned::Positioned;
use crate::rooms::Room;
use jr_engines::EngineFault;
use jr_model::Dir;
use std::io;
use std::io::ErrorKind;

/// The largest offset that the system can name; no byte stands there.
pub const LARGEST_OFFSET: u64 = 9_223_372_036_854_775_807;

// A transfer of which so many calls were interrupted isn't signals any more: the device answers so.
const MOST_INTERRUPTED: u32 = 1000;

/// Reads the file's bytes from `offset` on, and goes on until the buffer is full or the file ends.
///
/// A file that is direct is read by the room. An interrupted call is made again. After an error nothing is known of the buffer but
/// its length.
pub fn read_whole<F: Positioned>(
    file: &mut F,
    room: &mut Room,
    offset: u64,
    buf: &mut [u8],
) -> Result<usize, EngineFault>
    requires { offset + length buf.old ≤ LARGEST_OFFSET }
    ensures most { IfOk result (λ n. n ≤ length buf.old) }
    ensures device { IfErr result (λ fault. fault ≡ EngineFault.Device) }
    ensures known { F.view file.new ≡ F.view file.old }
    ensures sound { IsTrue (F.view file.old).is_sound → IsOk result }
    ensures bytes { IsTrue (F.view file.old).is_known
        → GetsAll (F.view file.old).bytes offset buf.old result buf.new }
{
    let mut interrupted = 0;
    let mut done = 0;
    for _ in 0..u64::MAX {
        if done == buf.len() {
            return Ok(done);
        }
        match room.read(file, &mut buf[done..], offset + done as u64) {
            Ok(0) => return Ok(done),
            Ok(got) => done += got,
            Err(error) if is_made_again(room, &mut interrupted, &error) => {}
            Err(error) => return Err(refused(file, Dir::Read, offset, buf.len(), error)),
        }
    }
    Err(EngineFault::Device)
}

/// Writes the buffer over the file's bytes from `offset` on, and goes on until all of it stands there or a call takes nothing.
///
/// A file that is direct is written by the room. An interrupted call is made again. An error may come after some bytes were written.
pub fn write_whole<F: Positioned>(
    file: &mut F,
    room: &mut Room,
    offset: u64,
    buf: &[u8],
) -> Result<usize, EngineFault>
    requires { offset + length buf.now ≤ LARGEST_OFFSET }
    ensures most { IfOk result (λ n. n ≤ length buf.now) }
    ensures device { IfErr result (λ fault. fault ≡ EngineFault.Device) }
    ensures known { (F.view file.new).is_known ≡ (F.view file.old).is_known }
    ensures stays { (F.view file.new).is_sound ≡ (F.view file.old).is_sound }
    ensures named { (F.view file.new).name ≡ (F.view file.old).name }
    ensures sound { IsTrue (F.view file.old).is_sound → result ≡ Ok (length buf.now) }
    ensures bytes { IsTrue (F.view file.old).is_known → offset + length buf.now ≤ length (F.view file.old).bytes
        → Stores (F.view file.old).bytes offset buf.now result (F.view file.new).bytes }
{
    let mut interrupted = 0;
    let mut done = 0;
    for _ in 0..u64::MAX {
        if done == buf.len() {
            return Ok(done);
        }
        match room.write(file, &buf[done..], offset + done as u64) {
            Ok(0) => return Ok(done),
            Ok(taken) => done += taken,
            Err(error) if is_made_again(room, &mut interrupted, &error) => {}
            Err(error) => return Err(refused(file, Dir::Write, offset, buf.len(), error)),
        }
    }
    Err(EngineFault::Device)
}

// Whether a call that failed so is made again: one that was interrupted, if not too many of this transfer were, and one whose place in
// the room the device may have refused.
fn is_made_again(room: &mut Room, interrupted: &mut u32, error: &io::Error) -> bool {
    match error.kind() {
        ErrorKind::Interrupted => {
            *interrupted = interrupted.saturating_add(1);
            *interrupted < MOST_INTERRUPTED
        }
        ErrorKind::InvalidInput => room.try_next_place(),
        _ => false,
    }
}

// The fault of a whole read or write of so many bytes that the system refused, which the file is told of.
fn refused<F: Positioned>(
    file: &F,
    dir: Dir,
    offset: u64,
    len: usize,
    error: io::Error,
) -> EngineFault
    ensures { result ≡ EngineFault.Device }
{
    file.failed(FailedCall {
        dir,
        offset,
        len: len as u64,
        error,
    });
    EngineFault::Device
}
