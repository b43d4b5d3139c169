// Files of the system with the names by which they were opened.
ghost use Rattle.std.specs.Prelude.{◌≡◌, string_bytes, IfOk};

use jr_io_blocks::Positioned;
use std::fs::{File, OpenOptions};
use std::io;
use std::marker::Model;
use std::rt::Files;

/// An open file of the system, with the name by which it was opened. Contracts see the name.
#[derive(Drop)]
pub struct NamedFile {
    file: File,
    name: String,
}

impl Model for NamedFile {
    ghost use Rattle.std.specs.Prelude.{ℕ, List, string_bytes};

    ghost Value = { List ℕ };

    ghost view = { λ a. string_bytes a.name };
}

impl NamedFile {
    // Opens the file of this name, which is there, for reading alone where it isn't written.
    pub(crate) fn open<R: Files<File = File>>(
        rt: &R,
        name: String,
        is_written: bool,
    ) -> io::Result<NamedFile>
        ensures { IfOk result (λ opened. opened ≡ string_bytes name) }
    {
        let file = OpenOptions::new()
            .read(true)
            .write(is_written)
            .open(rt, name.as_str())?;
        Ok(NamedFile { file, name })
    }

    // The name.
    pub(crate) fn name(&self) -> &str
        ensures { result.now ≡ self.now }
    {
        self.name.as_str()
    }

    // The open file itself.
    pub(crate) fn file(&self) -> &File {
        &self.file
    }
}

impl Positioned for NamedFile {
    ghost use Rattle.jr_io_blocks.specs.Parts.{named_view};

    ghost view = { λ name. named_view name };

    fn read_at(&mut self, buf: &mut [u8], offset: u64) -> io::Result<usize> {
        self.file.read_at(buf, offset)
    }

    fn write_at(&mut self, buf: &[u8], offset: u64) -> io::Result<usize> {
        self.file.write_at(buf, offset)
    }
}
