ghost use Rattle.std.specs.Prelude.{◌≡◌, ◌-◌, ◌^◌, ◌<◌, ◌≤◌, ◌↔◌, false, length, map, IsTrue, IfOk, IfErr};
ghost use Rattle.jr_engines.specs.Calls.{Counts, ReadsInside, WritesInside};
ghost use Rattle.jr_io_files.specs.Engines.{IsFresh, IsOpenFault, ReadsKnown, WritesKnown, files_state, has_place, opened_view, opened_views};
ghost use Rattle.jr_io_blocks.specs.Parts.{named_view};

use crate::faults::FileFault;
use crate::names::NamedFile;
use crate::uses::is_written;
use jr_engines::{CallCounts, Engine, EngineFault};
use jr_io_blocks::{LARGEST_OFFSET, Positioned, Room, read_whole, write_whole};
use jr_plan::{FileSpec, Plan};
use std::alloc::Global;
use std::fs::File;
use std::marker::Model;
use std::rt::Files;

/// An engine over open files, those of the system if nothing else is said.
///
/// Bytes go between the caller's buffer and the file with no copy between, unless the file is direct. Of a file of the system nothing
/// is claimed of them: others may change it too.
#[derive(Drop)]
pub struct FileEngine<F: Positioned = NamedFile> {
    files: Vec<F>,
    counts: CallCounts,
    room: Room,
}

impl<F: Positioned> Model for FileEngine<F> {
    ghost use Rattle.std.specs.Prelude.{map};
    ghost use Rattle.jr_io_files.specs.Engines.{FilesState};

    ghost Value = { FilesState };

    ghost view = { λ a. record { calls = a.counts.calls; failures = a.counts.failures; files = map F.view a.files.items } };
}

impl<F: Positioned> FileEngine<F> {
    /// The engine over these files, which are numbered in their order.
    pub fn over(files: Vec<F>) -> FileEngine<F>
        ensures { result ≡ record { calls = 0; failures = 0; files = map F.view files.items } }
    {
        FileEngine::by_room(files, Room::none())
    }

    /// The engine over these files, with room for the blocks of those that are direct.
    pub fn by_room(files: Vec<F>, room: Room) -> FileEngine<F>
        ensures { result ≡ record { calls = 0; failures = 0; files = map F.view files.items } }
    {
        FileEngine {
            files,
            counts: CallCounts::new(),
            room,
        }
    }

    /// Whether it goes to files that are direct by memory whose place is found by trial.
    pub fn tries_places(&self) -> bool {
        self.room.is_tried()
    }

    // Its files, in their order.
    pub(crate) fn files(&self) -> &[F]
        ensures { map F.view result.now ≡ self.now.files }
    {
        self.files.as_slice()
    }
}

impl FileEngine<NamedFile> {
    /// Opens the plan's files, which have to be there (`lay_out` makes them), each for this engine alone.
    pub fn new<R: Files<File = File>>(
        rt: &R,
        alloc: Global,
        plan: &Plan,
    ) -> Result<FileEngine, FileFault>
        ensures ok { IfOk result (λ engine. IsFresh engine (opened_views plan.now.files)) }
        ensures err { IfErr result (λ fault. IsOpenFault fault (length plan.now.files)) }
    {
        let mut files = Vec::new(alloc);
        for (index, spec) in plan.files().iter().enumerate() {
            files.push(opened_file(rt, alloc, plan, index, spec)?)?;
        }
        Ok(FileEngine::over(files))
    }
}

// Opens this file of the plan, which has this number.
fn opened_file<R: Files<File = File>>(
    rt: &R,
    alloc: Global,
    plan: &Plan,
    index: usize,
    spec: &FileSpec,
) -> Result<NamedFile, FileFault>
    requires { index < length plan.now.files }
    ensures ok { IfOk result (λ file. named_view file ≡ opened_view spec.now) }
    ensures err { IfErr result (λ fault. IsOpenFault fault (length plan.now.files)) }
{
    let name = String::from_str(alloc, spec.name())?;
    match NamedFile::open(rt, name, is_written(plan, index)) {
        Ok(file) => Ok(file),
        Err(_) => Err(FileFault::File(index)),
    }
}

impl<F: Positioned> Engine for FileEngine<F> {
    ghost state = { files_state };

    fn read(&mut self, file: u32, offset: u64, buf: &mut [u8]) -> Result<usize, EngineFault>
        requires { self.old.calls < 2 ^ 64 - 1 }
        ensures outside { (result ≡ Err EngineFault.Outside) ↔ (has_place (length self.old.files) file offset (length buf.old) ≡ false) }
        ensures bytes { IsTrue (has_place (length self.old.files) file offset (length buf.old))
            → ReadsKnown self.old.files file offset buf.old result buf.new }
        ensures unchanged { has_place (length self.old.files) file offset (length buf.old) ≡ false → buf.new ≡ buf.old }
        ensures files { self.new.files ≡ self.old.files }
        ensures counts { Counts (files_state self.old) result (files_state self.new) }
        ensures few { (files_state self.new).failures ≤ (files_state self.new).calls }
        ensures most { IfOk result (λ n. n ≤ length buf.old) }
        ensures replies { ReadsInside (files_state self.old) file offset buf.old result (files_state self.new) buf.new }
    {
        let result = read_files(self.files.as_mut_slice(), &mut self.room, file, offset, buf);
        self.counts.note(&result);
        result
    }

    fn write(&mut self, file: u32, offset: u64, buf: &[u8]) -> Result<usize, EngineFault>
        requires { self.old.calls < 2 ^ 64 - 1 }
        ensures outside { (result ≡ Err EngineFault.Outside) ↔ (has_place (length self.old.files) file offset (length buf.now) ≡ false) }
        ensures bytes { IsTrue (has_place (length self.old.files) file offset (length buf.now))
            → WritesKnown self.old.files file offset buf.now result self.new.files }
        ensures unchanged { has_place (length self.old.files) file offset (length buf.now) ≡ false
            → self.new.files ≡ self.old.files }
        ensures counts { Counts (files_state self.old) result (files_state self.new) }
        ensures few { (files_state self.new).failures ≤ (files_state self.new).calls }
        ensures most { IfOk result (λ n. n ≤ length buf.now) }
        ensures replies { WritesInside (files_state self.old) file offset buf.now result (files_state self.new) }
    {
        let result = write_files(self.files.as_mut_slice(), &mut self.room, file, offset, buf);
        self.counts.note(&result);
        result
    }

    fn calls(&self) -> u64 {
        self.counts.calls()
    }

    fn failures(&self) -> u64 {
        self.counts.failures()
    }
}

// Whether there is this file, and the system can name all of these bytes of it.
fn has_place(count: usize, file: u32, offset: u64, len: usize) -> bool
    ensures { result ≡ has_place count file offset len }
{
    (file as usize) < count && offset <= LARGEST_OFFSET && len as u64 <= LARGEST_OFFSET - offset
}

// Reads from the files: none where there is no such place.
fn read_files<F: Positioned>(
    files: &mut [F],
    room: &mut Room,
    file: u32,
    offset: u64,
    buf: &mut [u8],
) -> Result<usize, EngineFault>
    ensures outside { (result ≡ Err EngineFault.Outside) ↔ (has_place (length files.old) file offset (length buf.old) ≡ false) }
    ensures bytes { IsTrue (has_place (length files.old) file offset (length buf.old))
        → ReadsKnown (map F.view files.old) file offset buf.old result buf.new }
    ensures unchanged { has_place (length files.old) file offset (length buf.old) ≡ false → buf.new ≡ buf.old }
    ensures files { map F.view files.new ≡ map F.view files.old }
    ensures most { IfOk result (λ n. n ≤ length buf.old) }
{
    if !has_place(files.len(), file, offset, buf.len()) {
        return Err(EngineFault::Outside);
    }
    read_whole(&mut files[file as usize], room, offset, buf)
}

// Writes to the files: nothing where there is no such place.
fn write_files<F: Positioned>(
    files: &mut [F],
    room: &mut Room,
    file: u32,
    offset: u64,
    buf: &[u8],
) -> Result<usize, EngineFault>
    ensures outside { (result ≡ Err EngineFault.Outside) ↔ (has_place (length files.old) file offset (length buf.now) ≡ false) }
    ensures bytes { IsTrue (has_place (length files.old) file offset (length buf.now))
        → WritesKnown (map F.view files.old) file offset buf.now result (map F.view files.new) }
    ensures unchanged { has_place (length files.old) file offset (length buf.now) ≡ false
        → map F.view files.new ≡ map F.view files.old }
    ensures most { IfOk result (λ n. n ≤ length buf.now) }
{
    if !has_place(files.len(), file, offset, buf.len()) {
        return Err(EngineFault::Outside);
    }
    write_whole(&mut files[file as usize], room, offset, buf)
}
