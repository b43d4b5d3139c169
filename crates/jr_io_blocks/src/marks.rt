ghost use Rattle.std.specs.Prelude.{◌≡◌, ◌<◌, true, vec_len, IfOk};
ghost use Rattle.jr_io_blocks.specs.Cached.{is_over};

use crate::droppers::Cached;
use crate::regions::Regions;
use std::alloc::{AllocError, Global};
use std::sync::atomic::{AtomicU64, Ordering};

/// Where a file was written, and up to when it was synced and dropped from the system's cache, as all of its handles share it. No call of
/// it waits.
///
/// Syncs are numbered from 1 in the order that they begin. The mark of a region is the number of the first sync
/// that began once its last write had ended.
#[derive(Drop)]
pub struct SyncMarks {
    regions: Regions,
    marks: Vec<AtomicU64>,
    // The number of the last sync that has begun.
    begun: AtomicU64,
    // The highest number of a sync that has stored all that was written before it.
    synced: AtomicU64,
    // And of one behind which nothing of that was cached any more.
    ended: AtomicU64,
    ghost sized: { 0 < regions.size },
    ghost some: { 0 < regions.count },
    ghost all: { vec_len marks ≡ regions.count },
}

/// How far a sync of a file has come.
#[derive(Clone, Copy, PartialEq, Eq)]
pub enum SyncStage {
    /// It is to begin.
    Begun,
    /// The system has stored what it kept of the file.
    Synced,
    /// And nothing of what was written before it is in the system's cache, as far as that can be had.
    Ended,
}

/// A sync of a file, by its number, with the drop behind it.
#[derive(Drop)]
pub struct FileSync {
    number: u64,
    stage: SyncStage,
}

impl FileSync {
    fn begun(number: u64) -> FileSync
        ensures { result.stage ≡ SyncStage.Begun }
    {
        FileSync {
            number,
            stage: SyncStage::Begun,
        }
    }

    /// The sync once the system has stored what it kept.
    pub fn synced(self) -> FileSync
        requires { self.stage ≡ SyncStage.Begun }
        ensures stage { result.stage ≡ SyncStage.Synced }
        ensures number { result.number ≡ self.number }
    {
        FileSync {
            stage: SyncStage::Synced,
            ..self
        }
    }

    /// The sync once nothing of what it stored is in the system's cache any more, as far as that can be had: so much is left there.
    pub fn ended(self, left: Cached) -> FileSync
        requires stage { self.stage ≡ SyncStage.Synced }
        requires over { is_over left ≡ true }
        ensures stage { result.stage ≡ SyncStage.Ended }
        ensures number { result.number ≡ self.number }
    {
        FileSync {
            stage: SyncStage::Ended,
            ..self
        }
    }

    /// In place of a sync, where what was written before it went past the system's cache, in which nothing of the file was seen since.
    pub fn spared(self, left: Cached) -> FileSync
        requires stage { self.stage ≡ SyncStage.Begun }
        requires nothing { left ≡ Cached.Nothing }
        ensures stage { result.stage ≡ SyncStage.Ended }
        ensures number { result.number ≡ self.number }
    {
        self.synced().ended(left)
    }
}

impl SyncMarks {
    /// The marks of a file that is used up to `high`, and was not written.
    pub fn new(alloc: Global, high: u64) -> Result<SyncMarks, AllocError> {
        let regions = Regions::of(high);
        Ok(SyncMarks {
            regions,
            marks: unmarked(alloc, regions.count)?,
            begun: AtomicU64::new(0),
            synced: AtomicU64::new(0),
            ended: AtomicU64::new(0),
        })
    }

    /// Notes that a write of these bytes has ended.
    pub fn note(&self, offset: u64, len: usize) {
        let needed = self.begun.load(Ordering::SeqCst).saturating_add(1);
        for mark in self.over(offset, len) {
            raise(mark, needed);
        }
    }

    /// Notes that any byte may be cached from before.
    pub fn note_all(&self) {
        for mark in self.marks.as_slice() {
            raise(mark, 1);
        }
    }

    /// Whether the system's cache may have what a write left of these bytes: one has ended since the last sync began that has ended.
    pub fn is_stale(&self, offset: u64, len: usize) -> bool {
        has_newer(self.over(offset, len), self.ended.load(Ordering::SeqCst))
    }

    /// Whether a write of these bytes has ended since the last sync began that has stored all.
    pub fn is_unsynced(&self, offset: u64, len: usize) -> bool {
        has_newer(self.over(offset, len), self.synced.load(Ordering::SeqCst))
    }

    /// Whether any write has ended since then.
    pub fn is_any_unsynced(&self) -> bool {
        has_newer(self.marks.as_slice(), self.synced.load(Ordering::SeqCst))
    }

    /// A sync of the file that is to begin.
    pub fn begin(&self) -> FileSync
        ensures { result.stage ≡ SyncStage.Begun }
    {
        FileSync::begun(self.begun.fetch_add(1, Ordering::SeqCst).saturating_add(1))
    }

    /// The last sync that has stored all that was written before it.
    pub fn last_synced(&self) -> FileSync
        ensures { result.stage ≡ SyncStage.Synced }
    {
        FileSync::begun(self.synced.load(Ordering::SeqCst)).synced()
    }

    /// Notes that a sync has stored all that was written before it began.
    pub fn store(&self, sync: &FileSync)
        requires { sync.now.stage ≡ SyncStage.Synced }
    {
        raise(&self.synced, sync.number);
    }

    /// Notes that a sync has ended: what was written before it began is on the device now, and no longer cached.
    pub fn end(&self, sync: FileSync)
        requires { sync.stage ≡ SyncStage.Ended }
    {
        raise(&self.ended, sync.number);
    }

    // The marks of the regions of these bytes.
    fn over(&self, offset: u64, len: usize) -> &[AtomicU64] {
        let (first, end) = self.regions.span(offset, len);
        &self.marks[first..end]
    }
}

fn unmarked(alloc: Global, count: usize) -> Result<Vec<AtomicU64>, AllocError>
    ensures { IfOk result (λ marks. vec_len marks ≡ count) }
{
    let mut marks = Vec::new(alloc);
    for _ in 0..count {
        marks.push(AtomicU64::new(0))?;
    }
    Ok(marks)
}

fn has_newer(marks: &[AtomicU64], ended: u64) -> bool {
    marks.iter().any(|mark| mark.load(Ordering::SeqCst) > ended)
}

// Raises the word to this number, where it stands below it.
fn raise(word: &AtomicU64, number: u64) {
    word.fetch_max(number, Ordering::SeqCst);
}
