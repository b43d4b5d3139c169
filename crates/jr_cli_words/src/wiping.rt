use std::io;
use std::io::Write;

/// What stands where a report goes, as a line on the same terminal, and has to go before it.
pub trait Wipe {
    /// Takes it away, if it is still there. It doesn't come back.
    fn wipe(&self);
}

/// Writes to `out`, and has the line wiped before the first byte.
#[derive(Drop)]
pub struct Wiping<'a, L: Wipe, W: Write> {
    pub line: &'a L,
    pub out: W,
}

impl<'a, L: Wipe, W: Write> Write for Wiping<'a, L, W> {
    ghost contents = { λ wiping. W.contents wiping.out };

    fn write(&mut self, text: &[u8]) -> io::Result<usize> {
        self.line.wipe();
        self.out.write(text)
    }

    fn flush(&mut self) -> io::Result<()> {
        self.out.flush()
    }

    fn write_all(&mut self, text: &[u8]) -> io::Result<()> {
        self.line.wipe();
        self.out.write_all(text)
    }
}
