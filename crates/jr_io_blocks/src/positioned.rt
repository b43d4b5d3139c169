ghost use Rattle.std.specs.Prelude.{◌≡◌, ◌+◌, ◌<◌, ◌≤◌, IsTrue, IsOk, IfOk, length};
ghost use Rattle.jr_io_blocks.specs.Parts.{FileView, GetsPart, after_part};

use crate::failures::FailedCall;
use std::fs::File;
use std::io;
use std::os::unix::fs::FileExt;

/// An open file whose bytes are read and written by their offsets. A call may move a part of what was asked for.
///
/// Contracts see its bytes if they are known, and the name by which it was opened (`FileView`). Of a file of the system the bytes aren't.
pub trait Positioned: Drop {
    ghost view: { Self → FileView };

    /// Reads bytes from `offset` on into the buffer, and answers how many: none at the file's end.
    fn read_at(&mut self, buf: &mut [u8], offset: u64) -> io::Result<usize>
        ensures most { IfOk result (λ n. n ≤ length buf.old) }
        ensures known { view self.new ≡ view self.old }
        ensures sound { IsTrue (view self.old).is_sound → IsOk result }
        ensures part { IsTrue (view self.old).is_known → GetsPart (view self.old).bytes offset buf.old result buf.new };

    /// Writes the front of the buffer over the bytes from `offset` on, and answers how many it took.
    fn write_at(&mut self, buf: &[u8], offset: u64) -> io::Result<usize>
        ensures most { IfOk result (λ n. n ≤ length buf.now) }
        ensures known { (view self.new).is_known ≡ (view self.old).is_known }
        ensures stays { (view self.new).is_sound ≡ (view self.old).is_sound }
        ensures named { (view self.new).name ≡ (view self.old).name }
        ensures sound { IsTrue (view self.old).is_sound → IsOk result }
        ensures takes { IsTrue (view self.old).is_sound → IfOk result (λ n. 0 < length buf.now → 0 < n) }
        ensures part { IsTrue (view self.old).is_known → offset + length buf.now ≤ length (view self.old).bytes
            → (view self.new).bytes ≡ after_part (view self.old).bytes offset buf.now result };

    /// Whether its calls go past the system's cache, so that memory, offset and length have to be whole sectors.
    fn is_direct(&self) -> bool {
        false
    }

    /// Takes in that a whole read or write ended so. What is made of it is the file's.
    fn failed(&self, _call: FailedCall) {}
}

impl Positioned for File {
    ghost use Rattle.jr_io_blocks.specs.Parts.{unknown_view};

    ghost view = { λ _. unknown_view };

    fn read_at(&mut self, buf: &mut [u8], offset: u64) -> io::Result<usize> {
        FileExt::read_at(self, buf, offset)
    }

    fn write_at(&mut self, buf: &[u8], offset: u64) -> io::Result<usize> {
        FileExt::write_at(self, buf, offset)
    }
}
