ghost use Rattle.std.specs.Prelude.{◌≡◌, IsTrue, None, Some, IsSome};
ghost use Rattle.std.specs.Option.{option_or};
ghost use Rattle.jr_ledger.specs.SyncSteps.{has_failed};

use jr_ledger::{Recorder, SyncId, Syncs};
use jr_model::{Memory, Outcome, WriteId};
use std::alloc::Global;
use std::fs::File;
use std::io;
use std::io::{ErrorKind, Write};
use std::sync::MutexGuard;

// So many lines of writes wait at most for the next that go out.
const MOST_WAITING: u32 = 16;

// What lies under the ledger's lock: what is recorded and hasn't gone out yet, which syncs may be recorded, where the text goes, how many
// writes were noted since text went out last, and the first error, if there was one. After that nothing goes out any more: what arrives of a
// ledger is its front.
#[derive(Drop)]
pub(crate) struct Held {
    alloc: Global,
    recorder: Recorder,
    syncs: Syncs,
    out: File,
    waiting: u32,
    failed: Option<io::Error>,
}

impl Held {
    pub(crate) fn new(alloc: Global, recorder: Recorder, out: File) -> Held {
        Held {
            alloc,
            recorder,
            syncs: Syncs::new(alloc),
            out,
            waiting: 0,
            failed: None,
        }
    }

    // The first error, if there was one.
    pub(crate) fn failed(&self) -> Option<io::Error> {
        self.failed
    }

    // Adds the end of a write.
    fn write_ended(&mut self, write: &WriteId, outcome: &Outcome)
        ensures first { IsSome self.old.failed → self.new.failed ≡ self.old.failed }
    {
        let added = self.recorder.write_ended(write, outcome);
        self.heed(added);
        self.waiting = self.waiting.saturating_add(1);
    }

    // Adds the begin of a sync, if it can be recorded. None of a file is once one has failed.
    fn sync_begins(&mut self, file: u32) -> Option<SyncId>
        ensures failed { IsTrue (has_failed self.old.syncs file) → result ≡ None }
        ensures first { IsSome self.old.failed → self.new.failed ≡ self.old.failed }
    {
        if self.syncs.has_failed(file) {
            return None;
        }
        if !self.recorder.can_begin(file) {
            self.fail(io::Error::from(ErrorKind::InvalidInput));
            return None;
        }
        match self.recorder.sync_begins(file) {
            Ok(sync) => {
                let begun = self.syncs.begins(&sync);
                self.heed(begun);
                Some(sync)
            }
            Err(Memory) => {
                self.fail(io::Error::from(ErrorKind::OutOfMemory));
                None
            }
        }
    }

    // Adds the returns of all syncs that may be recorded now that this one has returned.
    fn sync_returned(&mut self, sync: &SyncId, is_well: bool)
        ensures first { IsSome self.old.failed → self.new.failed ≡ self.old.failed }
    {
        match self.syncs.returned(self.alloc, sync, is_well) {
            Ok(recorded) => {
                for one in recorded.iter() {
                    let added = self.recorder.sync_returned(one, true);
                    self.heed(added);
                }
            }
            Err(Memory) => self.fail(io::Error::from(ErrorKind::OutOfMemory)),
        }
    }

    // Writes out what was added.
    fn send(&mut self)
        ensures first { IsSome self.old.failed → self.new.failed ≡ self.old.failed }
    {
        if self.failed.is_none()
            && let Err(error) = self.out.write_all(self.recorder.text())
        {
            self.fail(error);
        }
        self.recorder.clear();
        self.waiting = 0;
    }

    fn heed(&mut self, added: Result<(), Memory>)
        ensures first { IsSome self.old.failed → self.new.failed ≡ self.old.failed }
    {
        if added.is_err() {
            self.fail(io::Error::from(ErrorKind::OutOfMemory));
        }
    }

    // The first error is the one that is told.
    fn fail(&mut self, error: io::Error)
        ensures told { self.new.failed ≡ option_or self.old.failed (Some error) }
        ensures first { IsSome self.old.failed → self.new.failed ≡ self.old.failed }
    {
        if self.failed.is_none() {
            self.failed = Some(error);
        }
    }
}

/// Some lines of a ledger, which go out together, and with them those that wait from before. Nobody else adds any meanwhile.
#[derive(Drop)]
pub struct Lines<'a> {
    held: MutexGuard<'a, Held>,
}

impl<'a> Lines<'a> {
    pub(crate) fn new(held: MutexGuard<'a, Held>) -> Lines<'a> {
        Lines { held }
    }

    /// A write has ended so: one line if it is whole, and else none.
    pub fn write_ended(&mut self, write: &WriteId, outcome: &Outcome) {
        self.held.write_ended(write, outcome);
    }

    // Whether they can't wait: as many do as may, or something went wrong.
    pub(crate) fn must_go(&self) -> bool {
        self.held.waiting >= MOST_WAITING || self.held.failed.is_some()
    }

    // A sync is about to be asked for.
    pub(crate) fn sync_begins(&mut self, file: u32) -> Option<SyncId> {
        self.held.sync_begins(file)
    }

    // It has returned.
    pub(crate) fn sync_returned(&mut self, sync: &SyncId, is_well: bool) {
        self.held.sync_returned(sync, is_well);
    }

    // Writes them out, and answers the ledger's first error, if there was one.
    pub(crate) fn send(mut self) -> Option<io::Error> {
        self.held.send();
        self.held.failed()
    }
}
