ghost use Rattle.std.specs.Prelude.{◌≡◌, ◌+◌, ◌≤◌, length};
ghost use Rattle.jr_model.specs.Replies.{flipped, placed, reply_to_write};
ghost use Rattle.jr_engines.specs.Calls.{RepliesToRead, answer_of};

use crate::faults::EngineFault;
use jr_model::Reply;

// Writes the bytes over those of a slice from `start` on.
pub(crate) fn copy_at(all: &mut [u8], start: usize, bytes: &[u8])
    requires { start + length bytes.now ≤ length all.old }
    ensures { all.new ≡ placed all.old start bytes.now }
{
    all[start..start + bytes.len()].copy_from_slice(bytes);
}

// Inverts the byte at this place, if there is one.
pub(crate) fn flip(bytes: &mut [u8], place: usize)
    ensures { bytes.new ≡ flipped bytes.old place }
{
    if place < bytes.len() {
        bytes[place] ^= 0xff;
    }
}

// Reads these stored bytes by a reply.
pub(crate) fn read_by(reply: &Reply, stored: &[u8], buf: &mut [u8]) -> Result<usize, EngineFault>
    requires { length stored.now ≡ length buf.old }
    ensures { RepliesToRead reply.now stored.now buf.old result buf.new }
{
    match reply {
        Reply::Pass | Reply::Drop => {
            buf.copy_from_slice(stored);
            Ok(stored.len())
        }
        Reply::Fail | Reply::Torn(_) => Err(EngineFault::Device),
        Reply::Short(n) => {
            let count = (*n as usize).min(stored.len());
            copy_at(buf, 0, &stored[..count]);
            Ok(count)
        }
        Reply::Flip(place) => {
            buf.copy_from_slice(stored);
            flip(buf, *place as usize);
            Ok(stored.len())
        }
        Reply::Bytes(bytes) => {
            buf.copy_from_slice(stored);
            let given = bytes.as_slice();
            let count = stored.len().min(given.len());
            copy_at(buf, 0, &given[..count]);
            Ok(stored.len())
        }
    }
}

// Writes the bytes over those of a slice from `start` on, by a reply.
pub(crate) fn write_by(
    reply: &Reply,
    all: &mut [u8],
    start: usize,
    bytes: &[u8],
) -> Result<usize, EngineFault>
    requires { start + length bytes.now ≤ length all.old }
    ensures answer { result ≡ answer_of (reply_to_write reply.now bytes.now).count }
    ensures bytes { all.new ≡ placed all.old start (reply_to_write reply.now bytes.now).stored }
{
    match reply {
        Reply::Pass | Reply::Bytes(_) => {
            copy_at(all, start, bytes);
            Ok(bytes.len())
        }
        Reply::Fail => Err(EngineFault::Device),
        Reply::Torn(n) => {
            let count = (*n as usize).min(bytes.len());
            copy_at(all, start, &bytes[..count]);
            Err(EngineFault::Device)
        }
        Reply::Short(n) => {
            let count = (*n as usize).min(bytes.len());
            copy_at(all, start, &bytes[..count]);
            Ok(count)
        }
        Reply::Flip(place) => {
            copy_at(all, start, bytes);
            let place = *place as usize;
            if place < bytes.len() {
                flip(all, start + place);
            }
            Ok(bytes.len())
        }
        Reply::Drop => Ok(bytes.len()),
    }
}
