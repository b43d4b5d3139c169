ghost use Rattle.std.specs.Prelude.{◌≡◌, ◌<◌, ◌≤◌, length, map, IfOk, IfErr, IfSome};
ghost use Rattle.std.specs.Arc.{arc_value};
ghost use Rattle.jr_io_files.specs.Engines.{IsFresh, IsOpenFault, NamesFile};
ghost use Rattle.jr_io_files.specs.Opened.{files_to_begin, shared_view};
ghost use Rattle.jr_io_blocks.specs.Failures.{IsCallFor};

use crate::faults::FileFault;
use crate::file_engine::FileEngine;
use crate::opened::OpenedFile;
use crate::refusals::{Act, Refusal};
use jr_io_blocks::{Dropper, FailedCall, Positioned, Room};
use jr_io_devices::{FileNumbers, Identity};
use jr_ledger_run::RunLedger;
use jr_model::Dir;
use std::alloc::{AllocError, AllocFailed, Global};
use std::fs::File;
use std::rt::Files;
use std::sync::Arc;
use std::{fs, io};

/// An open file that several engines read and write, each call by its own offset.
#[derive(Drop)]
pub struct SharedFile {
    file: Arc<OpenedFile>,
    dropper: Option<Arc<Dropper>>,
}

impl Positioned for SharedFile {
    ghost use Rattle.jr_io_files.specs.Opened.{shared_view};

    ghost view = { shared_view };

    fn read_at(&mut self, buf: &mut [u8], offset: u64) -> io::Result<usize> {
        self.file.read_at(buf, offset, self.dropper.as_deref())
    }

    fn write_at(&mut self, buf: &[u8], offset: u64) -> io::Result<usize> {
        self.file.write_at(buf, offset)
    }

    fn is_direct(&self) -> bool {
        self.goes_direct()
    }

    fn failed(&self, call: FailedCall) {
        self.file.failures().keep(call);
    }
}

/// A file that the system couldn't sync.
#[derive(Drop)]
pub struct Unsynced {
    /// Which it is.
    pub fault: FileFault,
    /// The system's reason.
    pub error: io::Error,
}

/// What is read of a file that a clone checks.
#[derive(Clone, Copy, PartialEq, Eq)]
pub enum Reads {
    /// What was synced since it was written.
    Synced,
    /// Whatever the system has of it.
    Cached,
}

impl SharedFile {
    /// The open file, to be shared.
    pub(crate) fn new(
        alloc: Global,
        file: OpenedFile,
    ) -> Result<SharedFile, AllocFailed<OpenedFile>>
        ensures { IfOk result (λ shared. arc_value shared.file ≡ file) }
    {
        let file = Arc::new(alloc, file)?;
        Ok(SharedFile {
            file,
            dropper: None,
        })
    }

    // The same open file for one more engine, with this dropper.
    fn share_with(&self, dropper: Option<&Arc<Dropper>>) -> Result<SharedFile, AllocError>
        ensures { IfOk result (λ shared. shared_view shared ≡ shared_view self.now) }
    {
        let file = Arc::try_clone(&self.file)?;
        let dropper = shared_dropper(dropper)?;
        Ok(SharedFile { file, dropper })
    }

    /// The numbers by which the system knows it.
    pub(crate) fn numbers(&self) -> FileNumbers
        ensures { result ≡ (arc_value self.now.file).numbers }
    {
        self.file.numbers()
    }

    /// The open file itself.
    pub(crate) fn file(&self) -> &File {
        self.file.file()
    }

    /// Whether its calls go past the system's cache.
    pub(crate) fn goes_direct(&self) -> bool {
        self.file.direct().is_some()
    }

    /// Whether it is still at its path.
    pub(crate) fn is_there<R: Files>(&self, rt: &R) -> bool {
        self.is_at(rt, self.file.name())
    }

    /// Whether this file is the one at the path.
    pub(crate) fn is_at<R: Files>(&self, rt: &R, path: &str) -> bool {
        fs::metadata(rt, path).is_ok_and(|there| FileNumbers::of(&there).identity()
            == self.identity())
    }

    /// Whether it is a plain file, and no device or pipe.
    pub(crate) fn is_plain(&self) -> bool {
        self.file.is_plain()
    }

    /// How many bytes it has, if it is a block device: those can't be extended.
    pub(crate) fn device_length(&self) -> Option<u64> {
        if self.numbers().is_block_device {
            self.file.length().ok()
        } else {
            None
        }
    }

    /// What it is, whatever its name.
    pub(crate) fn identity(&self) -> Identity {
        self.numbers().identity()
    }

    /// Locks it for as long as it is open, for this run alone or among others that share it. Whether no other run has locked it.
    pub(crate) fn lock(&self, alone: bool) -> bool {
        self.file.lock(alone)
    }

    /// How many bytes it has.
    pub(crate) fn length(&self) -> io::Result<u64> {
        self.file.length()
    }

    /// Lets it have so many bytes, and no more.
    pub(crate) fn shorten<R: Files>(&self, rt: &R, length: u64) -> io::Result<()> {
        self.file.shorten(rt, length)
    }

    /// Lets it have at least so many bytes.
    pub(crate) fn lengthen(&self, high: u64) -> io::Result<()> {
        self.file.lengthen(high)
    }

    /// Lengthens one that is open for reading alone: it is opened anew by its name, and only if it is too short.
    pub(crate) fn lengthen_by_name<R: Files>(&self, rt: &R, high: u64) -> io::Result<()> {
        self.file.lengthen_by_name(rt, high)
    }
}

impl FileEngine<SharedFile> {
    /// One more engine over the same open files, with counts of its own.
    pub fn share(&self, alloc: Global) -> Result<FileEngine<SharedFile>, FileFault>
        ensures ok { IfOk result (λ engine. IsFresh engine self.now.files) }
        ensures err { IfErr result (λ fault. fault ≡ FileFault.Memory) }
    {
        self.share_with(alloc, None)
    }

    /// One more engine. By this dropper what a check reads is dropped from the system's cache before, and memory for direct files begins on
    /// a page. No other engine may have it.
    pub fn share_with(
        &self,
        alloc: Global,
        dropper: Option<Arc<Dropper>>,
    ) -> Result<FileEngine<SharedFile>, FileFault>
        ensures ok { IfOk result (λ engine. IsFresh engine self.now.files) }
        ensures err { IfErr result (λ fault. fault ≡ FileFault.Memory) }
    {
        let files = shared_files(alloc, self.files(), dropper.as_ref())?;
        let room = room_for(alloc, self.files(), dropper.as_deref())?;
        Ok(FileEngine::by_room(files, room))
    }

    /// How many reads of files that are checked the system's cache may have answered, by all engines that share them.
    pub fn cached_reads(&self) -> u64 {
        let mut reads: u64 = 0;
        for shared in self.files() {
            reads = reads.saturating_add(shared.file.cached_reads());
        }
        reads
    }

    /// Whether the calls of the file at this place go past the system's cache.
    pub fn is_direct(&self, index: usize) -> bool {
        self.files()
            .get(index)
            .is_some_and(|shared| shared.goes_direct())
    }

    /// Syncs each file, and drops what the system keeps of it, before anything of it is read or written; if checks read what the system
    /// has, nothing is done.
    ///
    /// A fault names the first file of which the system can't store what was written before.
    pub fn begin(&self, reads: Reads) -> Result<(), Unsynced>
        ensures { IfErr result (λ failed. NamesFile failed.fault (length self.now.files)) }
    {
        let mut begun = Ok(());
        for (index, shared) in files_to_begin(self.files(), reads).iter().enumerate() {
            if let Err(error) = shared.file.begin(shared.dropper.as_deref())
                && begun.is_ok()
            {
                begun = Err(failed_sync(index, error));
            }
        }
        begun
    }

    /// Opens each file once more, to be synced.
    ///
    /// Refused is the first that can't be.
    pub fn opened_to_sync<R: Files<File = File>>(
        &self,
        rt: &R,
        alloc: Global,
    ) -> Result<Vec<File>, Refusal>
        ensures { IfErr result (λ refusal. IsOpenFault refusal.fault (length self.now.files)) }
    {
        let mut opened = Vec::new(alloc);
        for (index, shared) in self.files().iter().enumerate() {
            match shared.file.opened_to_sync(rt) {
                Ok(file) => opened.push(file)?,
                Err(error) => {
                    let name = shared.file.name();
                    return Err(Refusal::of_system(alloc, index, Act::Open, name, error));
                }
            }
        }
        Ok(opened)
    }

    /// Has the syncs of all files recorded from now on in this ledger, by their places.
    pub fn record(&self, ledger: &Arc<RunLedger>) -> Result<(), AllocError> {
        for (index, shared) in self.files().iter().enumerate() {
            let ledger = Arc::try_clone(ledger)?;
            if let Ok(number) = u32::try_from(index) {
                shared.file.record(ledger, number);
            }
        }
        Ok(())
    }

    /// Syncs each file that was written, by any engine that shares it, since it was synced last.
    ///
    /// A fault names the first file of which the system can't store all that was written, if no read has failed for that.
    pub fn sync_written(&self) -> Result<(), Unsynced>
        ensures { IfErr result (λ failed. NamesFile failed.fault (length self.now.files)) }
    {
        let mut settled = Ok(());
        for (index, shared) in self.files().iter().enumerate() {
            if let Err(error) = shared.file.sync_written()
                && settled.is_ok()
            {
                settled = Err(failed_sync(index, error));
            }
        }
        settled
    }

    /// The read or write of these bytes of a file that the system refused, by any engine that shares it, with its reason. Some of the
    /// first are kept of each file; none is of what ended short.
    pub fn failed_call(&self, file: u32, dir: Dir, offset: u64, len: u32) -> Option<FailedCall>
        ensures { IfSome result (IsCallFor dir offset len) }
    {
        match self.files().get(file as usize) {
            Some(shared) => shared.file.failures().found(dir, offset, u64::from(len)),
            None => None,
        }
    }
}

// The files that are synced and dropped before a run.
fn files_to_begin(files: &[SharedFile], reads: Reads) -> &[SharedFile]
    ensures which { result.now ≡ files_to_begin reads files.now }
    ensures few { length result.now ≤ length files.now }
{
    match reads {
        Reads::Synced => files,
        Reads::Cached => &[],
    }
}

fn failed_sync(index: usize, error: io::Error) -> Unsynced
    ensures { result.fault ≡ FileFault.File index }
{
    Unsynced {
        fault: FileFault::File(index),
        error,
    }
}

// The same open files for one more engine.
fn shared_files(
    alloc: Global,
    files: &[SharedFile],
    dropper: Option<&Arc<Dropper>>,
) -> Result<Vec<SharedFile>, AllocError>
    ensures { IfOk result (λ shared. map shared_view shared.items ≡ map shared_view files.now) }
{
    let mut shared = Vec::new(alloc);
    for file in files {
        shared.push(file.share_with(dropper)?)?;
    }
    Ok(shared)
}

// One more handle of the dropper.
fn shared_dropper(dropper: Option<&Arc<Dropper>>) -> Result<Option<Arc<Dropper>>, AllocError> {
    match dropper {
        Some(dropper) => Ok(Some(Arc::try_clone(dropper)?)),
        None => Ok(None),
    }
}

// Room for the largest block of the files that are direct, if any is. This finds where a page begins in it.
fn room_for(
    alloc: Global,
    files: &[SharedFile],
    asked: Option<&Dropper>,
) -> Result<Room, AllocError> {
    let mut most = None;
    for shared in files {
        if let Some(sectors) = shared.file.direct() {
            most = Some(sectors.most.max(most.unwrap_or(0)));
        }
    }
    match most {
        Some(most) => Room::new(alloc, most, asked),
        None => Ok(Room::none()),
    }
}
