ghost use Rattle.std.specs.Prelude.{◌≡◌, length, IfOk, IsTrue, OnErr, OnOk};
ghost use Rattle.jr_model.specs.Replies.{covers, covers_range, range_of, file_with, stored};
ghost use Rattle.jr_model.specs.Replies.{memory_with, zeros, fresh_memory, reply_to_write};
ghost use Rattle.jr_engines.specs.Calls.{RepliesToRead, answer_of};
ghost use Rattle.jr_engines.specs.Files.{Gets, IsMemoryRead, all_or_outside, count_read, write_answer};

use crate::faults::EngineFault;
use crate::slices::{copy_at, read_by, write_by};
use jr_model::{Memory, Reply};
use jr_plan::FileSpec;
use std::alloc::Global;
use std::marker::Model;

/// The bytes of one file from the least start of a clone's region up to the greatest end.
#[derive(Drop)]
pub struct MemoryFile {
    low: u64,
    high: u64,
    bytes: Vec<u8>,
}

impl Model for MemoryFile {
    ghost use Rattle.std.specs.Prelude.{◌≡◌, ◌-◌, vec_len};
    ghost use Rattle.jr_model.specs.Replies.{FileBytes};

    ghost Value = { FileBytes };

    ghost view = { λ a. record { low = a.low; high = a.high; bytes = a.bytes.items } };

    ghost invariant = { λ a. vec_len a.bytes ≡ a.high - a.low };
}

impl MemoryFile {
    // The file with zeros from `low` up to `high`.
    pub fn new(alloc: Global, low: u64, high: u64) -> Result<MemoryFile, Memory>
        ensures { IfOk result (λ file. file ≡ zeros low high) }
    {
        let count = high.saturating_sub(low) as usize;
        let bytes = vec![in alloc; 0; count]?;
        Ok(MemoryFile { low, high, bytes })
    }

    // Whether the file has all of these bytes, `len` of them from `offset` on.
    pub fn has(&self, offset: u64, len: usize) -> bool
        ensures { result ≡ covers_range self.now offset len }
    {
        let _bytes = &self.bytes;
        offset >= self.low && offset <= self.high && len as u64 <= self.high - offset
    }

    // Reads from `offset` on: as many bytes as there are up to `high`, and none below `low`.
    pub fn read(&self, offset: u64, buf: &mut [u8]) -> Result<usize, EngineFault>
        ensures answer { result ≡ count_read self.now offset (length buf.old) }
        ensures bytes { Gets (range_of self.now offset (length buf.old)) buf.old result buf.new }
    {
        if offset < self.low {
            return Err(EngineFault::Outside);
        }
        if offset >= self.high {
            return Ok(0);
        }
        let start = (offset - self.low) as usize;
        let stored = &self.bytes[start..];
        let count = buf.len().min(stored.len());
        copy_at(buf, 0, &stored[..count]);
        Ok(count)
    }

    // Writes all of the buffer from `offset` on, where the file has all of these bytes, else nothing.
    pub fn write(&mut self, offset: u64, buf: &[u8]) -> Result<usize, EngineFault>
        ensures answer { let n = length buf.now in result ≡ all_or_outside (covers_range self.old offset n) n }
        ensures bytes { OnOk result (self.new ≡ file_with self.old offset buf.now) }
        ensures err { OnErr result (self.new ≡ self.old) }
    {
        if !self.has(offset, buf.len()) {
            return Err(EngineFault::Outside);
        }
        let start = (offset - self.low) as usize;
        copy_at(self.bytes.as_mut_slice(), start, buf);
        Ok(buf.len())
    }

    // Reads from `offset` on by a reply.
    pub fn read_by(&self, reply: &Reply, offset: u64, buf: &mut [u8]) -> Result<usize, EngineFault>
        requires { IsTrue (covers_range self.now offset (length buf.old)) }
        ensures { RepliesToRead reply.now (range_of self.now offset (length buf.old)) buf.old result buf.new }
    {
        let start = (offset - self.low) as usize;
        let stored = &self.bytes[start..start + buf.len()];
        read_by(reply, stored, buf)
    }

    // Writes the buffer from `offset` on by a reply.
    pub fn write_by(&mut self, reply: &Reply, offset: u64, buf: &[u8]) -> Result<usize, EngineFault>
        requires { IsTrue (covers_range self.old offset (length buf.now)) }
        ensures answer { result ≡ answer_of (reply_to_write reply.now buf.now).count }
        ensures bytes { self.new ≡ file_with self.old offset (reply_to_write reply.now buf.now).stored }
    {
        let start = (offset - self.low) as usize;
        write_by(reply, self.bytes.as_mut_slice(), start, buf)
    }
}

// The files of a plan, with zeros.
pub(crate) fn fresh_files(alloc: Global, specs: &[FileSpec]) -> Result<Vec<MemoryFile>, Memory>
    ensures { IfOk result (λ files. files.items ≡ fresh_memory specs.now) }
{
    let mut files = Vec::new(alloc);
    for spec in specs {
        files.push(MemoryFile::new(alloc, spec.low(), spec.high())?)?;
    }
    Ok(files)
}

// Reads of the files: none where there is no such file.
pub(crate) fn read_files(
    files: &[MemoryFile],
    file: u32,
    offset: u64,
    buf: &mut [u8],
) -> Result<usize, EngineFault>
    ensures { IsMemoryRead files.now file offset buf.old result buf.new }
{
    let index = file as usize;
    if index >= files.len() {
        return Err(EngineFault::Outside);
    }
    let bytes = &files[index];
    bytes.read(offset, buf)
}

// Whether the memory has this file, and all of these bytes of it.
pub(crate) fn has_range(files: &[MemoryFile], file: u32, offset: u64, len: usize) -> bool
    ensures { result ≡ covers files.now file offset len }
{
    let index = file as usize;
    if index >= files.len() {
        return false;
    }
    let bytes = &files[index];
    bytes.has(offset, len)
}

// Reads from the files by a reply.
pub(crate) fn read_files_by(
    reply: &Reply,
    files: &[MemoryFile],
    file: u32,
    offset: u64,
    buf: &mut [u8],
) -> Result<usize, EngineFault>
    requires { IsTrue (covers files.now file offset (length buf.old)) }
    ensures { RepliesToRead reply.now (stored files.now file offset (length buf.old)) buf.old result buf.new }
{
    let bytes = &files[file as usize];
    bytes.read_by(reply, offset, buf)
}

// Writes to the files by a reply.
#[tactic(auto, using(crate::proofs::MemoryLemmas::memory_after_set, crate::proofs::MemoryLemmas::file_of_covered))]
pub(crate) fn write_files_by(
    reply: &Reply,
    files: &mut [MemoryFile],
    file: u32,
    offset: u64,
    buf: &[u8],
) -> Result<usize, EngineFault>
    requires { IsTrue (covers files.old file offset (length buf.now)) }
    ensures answer { result ≡ answer_of (reply_to_write reply.now buf.now).count }
    ensures bytes { files.new ≡ memory_with files.old file offset (reply_to_write reply.now buf.now).stored }
{
    let bytes = &mut files[file as usize];
    bytes.write_by(reply, offset, buf)
}

// Writes to the files: all of the buffer or, where a byte of it has no place, none.
#[tactic(auto, using(crate::proofs::MemoryLemmas::memory_after_set))]
pub(crate) fn write_files(
    files: &mut [MemoryFile],
    file: u32,
    offset: u64,
    buf: &[u8],
) -> Result<usize, EngineFault>
    ensures answer { result ≡ write_answer files.old file offset (length buf.now) }
    ensures bytes { OnOk result (files.new ≡ memory_with files.old file offset buf.now) }
    ensures err { OnErr result (files.new ≡ files.old) }
{
    let index = file as usize;
    if index >= files.len() {
        return Err(EngineFault::Outside);
    }
    let bytes = &mut files[index];
    bytes.write(offset, buf)
}
