ghost use Rattle.std.specs.Prelude.{◌≡◌};
ghost use Rattle.jr_ledger_run.specs.Syncing.{is_nth};

use crate::lines::{Held, Lines};
use jr_ledger::{Recorder, SyncId};
use jr_model::Memory;
use jr_plan::Plan;
use std::alloc::Global;
use std::fs::File;
use std::sync::atomic::{AtomicBool, AtomicU64, Ordering};
use std::sync::{Mutex, OnceLock, Wait};
use std::time::Duration;
use std::{io, thread};

/// What is written down of a run while it goes on, and what of its files is synced on the way. Any thread may add to it.
#[derive(Drop)]
pub struct RunLedger {
    lines: Option<Mutex<Held>>,
    every: Option<u32>,
    files: OnceLock<Vec<LedgerFile>>,
    recorded_nanos: AtomicU64,
    is_cut: AtomicBool,
    cut_by: OnceLock<io::Error>,
    unsynced: OnceLock<(u32, io::Error)>,
}

// A file of the plan, opened to be synced, and how many of its writes have ended: counted without the lock, since most such runs keep no
// ledger.
#[derive(Drop)]
struct LedgerFile {
    file: File,
    writes: AtomicU64,
}

impl RunLedger {
    /// That of a run of the plan: its lines go there, if anywhere. A file that it syncs is synced each time that so many of its writes have
    /// ended, if that is asked for.
    pub fn new(
        alloc: Global,
        plan: &Plan,
        out: Option<File>,
        every: Option<u32>,
    ) -> Result<RunLedger, Memory> {
        let lines = match out {
            Some(out) => Some(Mutex::new(Held::new(alloc, Recorder::new(alloc, plan)?, out))),
            None => None,
        };
        Ok(RunLedger {
            lines,
            every,
            files: OnceLock::new(),
            recorded_nanos: AtomicU64::new(0),
            is_cut: AtomicBool::new(false),
            cut_by: OnceLock::new(),
            unsynced: OnceLock::new(),
        })
    }

    /// Has these files, which are the plan's in their order, synced on the way. It is called once at most, before the run.
    pub fn sync_these(&self, alloc: Global, files: Vec<File>) -> Result<(), Memory> {
        let mut counted = Vec::new(alloc);
        for file in files {
            counted.push(LedgerFile {
                file,
                writes: AtomicU64::new(0),
            })?;
        }
        let _ = self.files.try_set(counted);
        Ok(())
    }

    /// Writes out what hasn't gone out yet: the first line, before anything is done to the plan's files, and what waits at the run's end.
    pub fn write_out(&self) {
        if let Some(lines) = self.lines_alone() {
            self.send(lines);
        }
    }

    /// What lines are added to, if any are wanted. The caller waits until nobody else adds any.
    pub fn lines<R: Wait>(&self, rt: &R) -> Option<Lines<'_>> {
        match &self.lines {
            Some(lines) => Some(Lines::new(lines.lock(rt))),
            None => None,
        }
    }

    /// The lines for a caller that can't sleep: it looks again and again.
    pub fn lines_alone(&self) -> Option<Lines<'_>> {
        let lines = self.lines.as_ref()?;
        for _ in 0..u64::MAX {
            if let Some(held) = lines.try_lock() {
                return Some(Lines::new(held));
            }
            thread::yield_now();
        }
        None
    }

    /// Writes these lines out. Where that fails nothing more is written, and the run is to stop.
    pub fn send(&self, lines: Lines<'_>) {
        if let Some(error) = lines.send() {
            let _ = self.cut_by.try_set(error);
            self.is_cut.store(true, Ordering::SeqCst);
        }
    }

    /// Lets these lines wait for the next that go out, unless as many wait by now as may, or the ledger couldn't be written before: whether
    /// they have gone out. They aren't needed before a sync of their file begins, whose line goes out at once, and they with it.
    pub fn keep_for_later(&self, lines: Lines<'_>) -> bool {
        let must_go = lines.must_go();
        if must_go {
            self.send(lines);
        }
        must_go
    }

    /// Whether lines are wanted.
    pub fn has_lines(&self) -> bool {
        self.lines.is_some()
    }

    /// When an I/O was last recorded, by a run of one thread, which keeps no time of its own.
    pub fn recorded_at(&self) -> Option<Duration> {
        match self.recorded_nanos.load(Ordering::Relaxed) {
            0 => None,
            nanos => Some(Duration::from_nanos(nanos)),
        }
    }

    /// One has been recorded now.
    pub fn note_time(&self, now: Option<Duration>) {
        let nanos = match now {
            Some(now) => u64::try_from(now.as_nanos()).unwrap_or(0),
            None => 0,
        };
        self.recorded_nanos.store(nanos, Ordering::Relaxed);
    }

    /// Whether the ledger couldn't be written any more.
    pub fn is_cut(&self) -> bool {
        self.is_cut.load(Ordering::SeqCst)
    }

    /// Why it couldn't be, if it couldn't.
    pub fn cut_by(&self) -> Option<io::Error> {
        self.cut_by.get().copied()
    }

    /// The first file that couldn't be synced on the way, by its place in the plan, with the system's reason.
    pub fn unsynced(&self) -> Option<(u32, io::Error)> {
        self.unsynced.get().copied()
    }

    /// Counts a write of this file that has ended. Whether the file is to be synced now.
    pub fn count_write(&self, file: u32) -> bool {
        match (self.every, self.file(file)) {
            (Some(every), Some(one)) => is_nth(one.count(), every),
            _ => false,
        }
    }

    fn file(&self, file: u32) -> Option<&LedgerFile> {
        self.files.get()?.get(file as usize)
    }

    /// Syncs this file, with its lines.
    pub fn sync(&self, file: u32) {
        let Some(one) = self.file(file) else {
            return;
        };
        let begun = self.sync_begins(file);
        let synced = one.file.sync_data();
        self.sync_returned(begun, synced.is_ok());
        if let Err(error) = synced {
            let _ = self.unsynced.try_set((file, error));
        }
    }

    /// A sync of this file is about to be asked for. What it answers is handed back when that has returned. No sync is recorded once one of
    /// the file has failed: the system tells of what it lost once, and a later sync may return well.
    pub fn sync_begins(&self, file: u32) -> Option<SyncId> {
        let mut lines = self.lines_alone()?;
        let sync = lines.sync_begins(file);
        self.send(lines);
        sync
    }

    /// It has returned, well or with a failure. It is recorded if it returned well, once all of its file that were under way then have
    /// returned, and if none of these has failed: it isn't known which of them the system tells of what it lost.
    pub fn sync_returned(&self, sync: Option<SyncId>, is_well: bool) {
        if let Some(sync) = sync
            && let Some(mut lines) = self.lines_alone()
        {
            lines.sync_returned(&sync, is_well);
            self.send(lines);
        }
    }
}

impl LedgerFile {
    // Counts one more write that has ended: how many they are now.
    fn count(&self) -> u64 {
        self.writes.fetch_add(1, Ordering::Relaxed).wrapping_add(1)
    }
}

// Whether this many writes are once, twice or more often as many as that.
fn is_nth(writes: u64, every: u32) -> bool
    ensures { result ≡ is_nth writes every }
{
    writes.checked_rem(u64::from(every)) == Some(0)
}
