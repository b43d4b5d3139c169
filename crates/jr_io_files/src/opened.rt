ghost use Rattle.std.specs.Prelude.{◌≡◌, ◌≤◌, IfOk, length};
ghost use Rattle.jr_io_files.specs.Opened.{has_cache, name_of};

use crate::layouts::lengthen;
use crate::names::NamedFile;
use crate::shares::Reads;
use jr_io_blocks::{Cached, Dropper, Failures, FileSync, SyncMarks, SyncStage, is_whole};
use jr_io_devices::FileNumbers;
use jr_ledger_run::RunLedger;
use std::alloc::Global;
use std::fs::{File, OpenFile, OpenOptions, TryLockError};
use std::io;
use std::io::{ErrorKind, Seek, SeekFrom};
use std::os::unix::fs::FileExt;
use std::rt::Files;
use std::sync::atomic::{AtomicBool, AtomicU64, Ordering};
use std::sync::{Arc, OnceLock};

// How often what is cached is synced and dropped before a read that goes on to see it.
const MOST_DROPS: u32 = 4;

/// An open file of the system, as several engines share it: where it was written, and whether the system lost any of it.
///
/// A read of one that is checked comes from the device if a `Dropper` is given, and sees that nothing of it is cached. One that the system
/// may have answered out of its own cache is counted.
#[derive(Drop)]
pub struct OpenedFile {
    file: NamedFile,
    numbers: FileNumbers,
    marks: SyncMarks,
    is_plain: bool,
    uses: FileUses,
    is_lost: AtomicBool,
    lost_by: OnceLock<io::Error>,
    failures: Failures,
    direct: Option<Sectors>,
    // Whether its file system keeps every file in memory; and whether what is cached of this one can't be seen, or dropped.
    stays: AtomicBool,
    is_unseen: AtomicBool,
    cached_reads: AtomicU64,
    // The ledger that has its syncs, and the file's number there.
    ledger: OnceLock<(Arc<RunLedger>, u32)>,
}

/// What the clones of a plan do with a file.
#[derive(Clone, Copy)]
pub struct FileUses {
    /// A clone writes it.
    pub is_written: bool,
    /// What is read of it, if a clone checks that.
    pub checked: Option<Reads>,
}

/// How a file is direct: in what its calls are counted, and how long they are.
#[derive(Clone, Copy)]
pub struct Sectors {
    /// The bytes of a sector of its device: all calls are of whole ones.
    pub sector: u64,
    /// The most bytes of a block.
    pub most: usize,
}

impl OpenedFile {
    /// The file with marks up to this offset, no call of which has failed.
    pub fn new(
        alloc: Global,
        file: NamedFile,
        marked: u64,
        uses: FileUses,
    ) -> io::Result<OpenedFile>
        ensures { IfOk result (λ opened. name_of opened ≡ file) }
    {
        let metadata = file.file().metadata()?;
        let numbers = FileNumbers::of(&metadata);
        let failures = Failures::new(alloc)?;
        let marks = SyncMarks::new(alloc, marked)?;
        Ok(OpenedFile {
            file,
            numbers,
            marks,
            is_plain: metadata.is_file(),
            uses,
            is_lost: AtomicBool::new(false),
            lost_by: OnceLock::new(),
            failures,
            direct: None,
            stays: AtomicBool::new(false),
            is_unseen: AtomicBool::new(false),
            cached_reads: AtomicU64::new(0),
            ledger: OnceLock::new(),
        })
    }

    /// This file, whose calls go past the system's cache now. Those of a device do; some file systems take such a call and go by their
    /// cache all the same, so a plain file is looked at before it is read, as any other.
    pub fn past_cache(self, sectors: Sectors) -> OpenedFile
        ensures { name_of result ≡ name_of self }
    {
        OpenedFile {
            direct: Some(sectors),
            ..self
        }
    }

    /// How it is direct, if it is.
    pub fn direct(&self) -> Option<Sectors> {
        self.direct
    }

    /// The open file itself.
    pub fn file(&self) -> &File {
        self.file.file()
    }

    /// The name by which it was opened.
    pub fn name(&self) -> &str
        ensures { result.now ≡ name_of self.now }
    {
        self.file.name()
    }

    /// The calls on it that the system refused.
    pub fn failures(&self) -> &Failures {
        &self.failures
    }

    /// The numbers by which the system knows the file.
    pub fn numbers(&self) -> FileNumbers
        ensures { result ≡ self.now.numbers }
    {
        self.numbers
    }

    /// How many reads of it, if a clone checks it, the system's cache may have answered.
    pub fn cached_reads(&self) -> u64 {
        self.cached_reads.load(Ordering::Relaxed)
    }

    /// Whether it is a plain file, and no device or pipe.
    pub fn is_plain(&self) -> bool {
        self.is_plain
    }

    /// Has its syncs recorded from now on in this ledger, under this number.
    pub fn record(&self, ledger: Arc<RunLedger>, number: u32) {
        let _ = self.ledger.try_set((ledger, number));
    }

    /// How many bytes it has.
    pub fn length(&self) -> io::Result<u64> {
        self.file().seek(SeekFrom::End(0))
    }

    /// Locks the file for as long as it is open, alone or among others that share it. Whether no other handle has locked it
    /// otherwise: if its file system has no locks none has.
    pub fn lock(&self, alone: bool) -> bool {
        let locked = if alone {
            self.file().try_lock()
        } else {
            self.file().try_lock_shared()
        };
        !matches!(locked, Err(TryLockError::WouldBlock))
    }

    /// Lets the file have at least so many bytes.
    pub fn lengthen(&self, high: u64) -> io::Result<()> {
        lengthen(&mut self.file(), high)
    }

    /// Lengthens one that is open for reading alone: it is opened anew by its name, and only if it is too short. Another file that has that
    /// name by now isn't lengthened.
    pub fn lengthen_by_name<R: Files>(&self, rt: &R, high: u64) -> io::Result<()> {
        if self.length()? >= high {
            return Ok(());
        }
        lengthen(&mut self.opened_anew(rt)?, high)
    }

    /// Lets the file have so many bytes, and no more.
    pub fn shorten<R: Files>(&self, rt: &R, length: u64) -> io::Result<()> {
        if self.uses.is_written {
            self.file().set_len(length)
        } else {
            self.opened_anew(rt)?.set_len(length)
        }
    }

    // The file, opened by its name to be written. It is an error that another one has the name.
    fn opened_anew<R: Files>(&self, rt: &R) -> io::Result<R::File> {
        self.opened_by(rt, OpenOptions::new().read(true).write(true))
    }

    /// The file, opened once more by its name, to be synced. It is an error that another one has the name.
    pub fn opened_to_sync<R: Files>(&self, rt: &R) -> io::Result<R::File> {
        self.opened_by(rt, OpenOptions::new().read(true))
    }

    fn opened_by<R: Files>(&self, rt: &R, options: &OpenOptions) -> io::Result<R::File> {
        let file = options.open(rt, self.name())?;
        let there = FileNumbers::of(&file.metadata()?);
        if there.identity() != self.numbers.identity() {
            return Err(io::Error::from(ErrorKind::NotFound));
        }
        Ok(file)
    }

    /// Reads bytes from `offset` on, and of a file that is checked none that weren't synced, and then dropped, since they were
    /// written; if they can't be dropped, the read is counted. Of one that is direct it reads whole sectors alone.
    pub fn read_at(
        &self,
        buf: &mut [u8],
        offset: u64,
        dropper: Option<&Dropper>,
    ) -> io::Result<usize>
        ensures { IfOk result (λ n. n ≤ length buf.old) }
    {
        if self.is_broken(offset, buf.len()) {
            return Ok(0);
        }
        if self.uses_cache() {
            self.leave_cache(offset, buf.len(), dropper)?;
        }
        FileExt::read_at(self.file(), buf, offset)
    }

    /// Writes bytes from `offset` on, and notes it once the call has ended, whatever it answers. To one that is direct it writes whole
    /// sectors alone.
    pub fn write_at(&self, buf: &[u8], offset: u64) -> io::Result<usize>
        ensures { IfOk result (λ n. n ≤ length buf.now) }
    {
        if self.is_broken(offset, buf.len()) {
            return Ok(0);
        }
        let result = FileExt::write_at(self.file(), buf, offset);
        self.marks.note(offset, buf.len());
        result
    }

    /// Syncs the file if it was written since it was synced last. A sync that failed before was the failure of the read that
    /// asked for it, and is none here.
    pub fn sync_written(&self) -> io::Result<()> {
        if self.has_cache() && self.keeps().is_ok() && self.marks.is_any_unsynced() {
            self.sync(self.marks.begin())?;
        }
        Ok(())
    }

    /// Has the system store and drop what it keeps of the file from before the run. An error says that it can't store all of
    /// it; what this run writes is judged by the syncs of its own.
    pub fn begin(&self, dropper: Option<&Dropper>) -> io::Result<()> {
        if !self.has_cache() {
            return Ok(());
        }
        let synced = self.sync_data();
        if self.drop_cached(0, 0, dropper) == Cached::These && self.uses.checked.is_some() {
            self.marks.note_all();
        }
        synced
    }

    // Whether the system keeps its bytes in a cache, as those of a plain file and of a block device.
    fn has_cache(&self) -> bool
        ensures { result ≡ has_cache self.now }
    {
        self.is_plain || self.numbers.is_block_device
    }

    // Whether what is read of the file may come from the system's cache.
    fn uses_cache(&self) -> bool {
        self.has_cache() && !(self.numbers.is_block_device && self.direct.is_some())
    }

    // Whether these bytes of a direct file aren't whole sectors, as what is left of a block of which the device took a part.
    fn is_broken(&self, offset: u64, len: usize) -> bool {
        self.direct.is_some_and(|it| !is_whole(it.sector, offset)
            || !is_whole(it.sector, len as u64))
    }

    // Sees to it that the device answers a read of these bytes, if a clone checks the file. One that the cache may answer is counted.
    fn leave_cache(&self, offset: u64, len: usize, dropper: Option<&Dropper>) -> io::Result<()> {
        let Some(reads) = self.uses.checked else {
            return Ok(());
        };
        let is_left = reads == Reads::Synced && self.has_left_cache(offset, len, dropper)?;
        if !is_left || self.is_unseen.load(Ordering::SeqCst) {
            self.cached_reads.fetch_add(1, Ordering::Relaxed);
        }
        Ok(())
    }

    // Whether these bytes were synced and dropped since they were written. It is an error that a sync has failed.
    fn has_left_cache(
        &self,
        offset: u64,
        len: usize,
        dropper: Option<&Dropper>,
    ) -> io::Result<bool> {
        self.keeps()?;
        let is_left = !self.marks.is_stale(offset, len)
            || self.direct.is_some() && self.is_spared(offset, len, dropper)
            || self.is_dropped(offset, len, dropper)?;
        self.keeps()?;
        Ok(is_left)
    }

    // Whether nothing of these bytes is cached, without a sync: what was written to a direct file doesn't go there.
    fn is_spared(&self, offset: u64, len: usize, dropper: Option<&Dropper>) -> bool {
        let begun = self.marks.begin();
        let left = self.drop_cached(offset, len, dropper);
        match left {
            Cached::Nothing => {
                self.marks.end(begun.spared(left));
                true
            }
            Cached::Others => true,
            Cached::These | Cached::All | Cached::Unseen => false,
        }
    }

    // Syncs and drops the file until nothing of these bytes is seen to be cached any more, and no more than so many times. Where nothing
    // can be seen of it, that is the end of it too.
    fn is_dropped(&self, offset: u64, len: usize, dropper: Option<&Dropper>) -> io::Result<bool> {
        for time in 0..MOST_DROPS {
            let synced = self.synced(offset, len, time > 0)?;
            let left = self.drop_cached(offset, len, dropper);
            match left {
                Cached::Nothing | Cached::All | Cached::Unseen => {
                    self.marks.end(synced.ended(left));
                    return Ok(true);
                }
                Cached::Others => return Ok(true),
                Cached::These => {}
            }
        }
        Ok(false)
    }

    // A sync that has stored these bytes as they were last written: the last one if it has, and if no new one is wanted.
    fn synced(&self, offset: u64, len: usize, is_wanted: bool) -> io::Result<FileSync>
        ensures { IfOk result (λ sync. sync.stage ≡ SyncStage.Synced) }
    {
        if is_wanted || self.marks.is_unsynced(offset, len) {
            self.sync(self.marks.begin())
        } else {
            Ok(self.marks.last_synced())
        }
    }

    // Has what is cached of the file dropped, and answers what is left of these bytes; of all of it where there are none.
    fn drop_cached(&self, offset: u64, len: usize, dropper: Option<&Dropper>) -> Cached {
        let left = match dropper {
            Some(_) if self.stays.load(Ordering::SeqCst) => Cached::All,
            Some(dropper) => dropper.drop_cached(self.file(), offset, len),
            None => Cached::Unseen,
        };
        if left == Cached::All {
            self.stays.store(true, Ordering::SeqCst);
        }
        if left == Cached::All || left == Cached::Unseen {
            self.is_unseen.store(true, Ordering::SeqCst);
        }
        left
    }

    // The error of the sync that has failed, if one has: what the system has lost then it doesn't report twice.
    fn keeps(&self) -> io::Result<()> {
        if self.is_lost.load(Ordering::SeqCst) {
            let by = self.lost_by.get().copied();
            return Err(by.unwrap_or(io::Error::from(ErrorKind::Other)));
        }
        Ok(())
    }

    // Has the system write to the device what it keeps of the file.
    fn sync(&self, begun: FileSync) -> io::Result<FileSync>
        requires { begun.stage ≡ SyncStage.Begun }
        ensures { IfOk result (λ sync. sync.stage ≡ SyncStage.Synced) }
    {
        if let Err(error) = self.sync_data() {
            let _ = self.lost_by.try_set(error);
            self.is_lost.store(true, Ordering::SeqCst);
            return Err(error);
        }
        let synced = begun.synced();
        self.marks.store(&synced);
        Ok(synced)
    }

    // Syncs it, with its lines in the run's ledger.
    fn sync_data(&self) -> io::Result<()> {
        let Some((ledger, number)) = self.ledger.get() else {
            return self.sync_system();
        };
        let begun = ledger.sync_begins(*number);
        let synced = self.sync_system();
        ledger.sync_returned(begun, synced.is_ok());
        synced
    }

    // Syncs it, with no lines. A file that no clone writes may lie where there are no syncs: nothing has to be stored there.
    fn sync_system(&self) -> io::Result<()> {
        match self.file().sync_data() {
            Err(error) if !self.uses.is_written && is_no_sync(&error) => Ok(()),
            synced => synced,
        }
    }
}

fn is_no_sync(error: &io::Error) -> bool {
    matches!(
        error.kind(),
        ErrorKind::InvalidInput | ErrorKind::ReadOnlyFilesystem
    )
}
