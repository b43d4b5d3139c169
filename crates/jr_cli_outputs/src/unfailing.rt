// Writers that never fail.
use std::io;
use std::io::Write;

/// Writes to `out` until that fails. Then it keeps that it has failed, and drops the rest, so that whoever writes goes on.
#[derive(Drop)]
pub struct Unfailing<W: Write> {
    out: W,
    /// Whether something couldn't be written.
    pub has_failed: bool,
}

impl<W: Write> Unfailing<W> {
    /// A writer to `out`, to which nothing was written yet.
    pub fn new(out: W) -> Unfailing<W> {
        Unfailing {
            out,
            has_failed: false,
        }
    }
}

impl<W: Write> Write for Unfailing<W> {
    fn write(&mut self, text: &[u8]) -> io::Result<usize> {
        if !self.has_failed {
            self.has_failed = self.out.write_all(text).is_err();
        }
        Ok(text.len())
    }

    fn flush(&mut self) -> io::Result<()> {
        if !self.has_failed {
            self.has_failed = self.out.flush().is_err();
        }
        Ok(())
    }
}

/// Takes all that is written, and keeps nothing.
#[derive(Clone, Copy)]
pub struct Nowhere;

impl Write for Nowhere {
    fn write(&mut self, text: &[u8]) -> io::Result<usize> {
        Ok(text.len())
    }

    fn flush(&mut self) -> io::Result<()> {
        Ok(())
    }
}
