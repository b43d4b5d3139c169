ghost use Rattle.std.specs.Prelude.{◌≡◌, ◌++◌, ◌∷◌, [], false, filter, map, IfOk, OnErr, OnOk};
ghost use Rattle.jr_ledger.specs.SyncSteps.{no_syncs, has_failed, is_of, begun, is_other, is_other_hold, without, is_elsewhere};
ghost use Rattle.jr_ledger.specs.SyncSteps.{spoilt, hold_of, awaiting, ended, is_hold_of, is_held, is_free, recorded, settled};

use crate::lines::SyncId;
use jr_model::Memory;
use std::alloc::Global;
use std::marker::Model;

// A sync that returned well waits for another one of its file, which was under way then.
#[derive(Clone, Copy)]
pub(crate) struct Hold {
    waiting: SyncId,
    other: SyncId,
}

/// The syncs of a run: which are under way, and which may be recorded once they have returned well. The system tells of what it lost once
/// for each open file: of two syncs of a file at once one may be told of it, and the other returns well. So one that returned well is
/// recorded once all of its file that were under way then have returned, and none of a file is recorded once one of it has failed.
#[derive(Drop)]
pub struct Syncs {
    under_way: Vec<SyncId>,
    waiting: Vec<SyncId>,
    holds: Vec<Hold>,
    failed: Vec<u32>,
}

impl Model for Syncs {
    ghost use Rattle.jr_ledger.specs.SyncSteps.{SyncsState};

    ghost Value = { SyncsState };

    ghost view = { λ s. record {
      under_way = s.under_way.items;
      waiting = s.waiting.items;
      holds = s.holds.items;
      failed = s.failed.items;
    } };
}

impl Syncs {
    /// None was asked for yet.
    pub fn new(alloc: Global) -> Syncs
        ensures { result ≡ no_syncs }
    {
        Syncs {
            under_way: Vec::new(alloc),
            waiting: Vec::new(alloc),
            holds: Vec::new(alloc),
            failed: Vec::new(alloc),
        }
    }

    /// Whether a sync of this file has failed. No sync of it is recorded any more.
    pub fn has_failed(&self, file: u32) -> bool
        ensures { result ≡ has_failed self.now file }
    {
        self.failed.iter().any(|other| file == *other)
    }

    /// A sync is about to be asked for, of a file of which none has failed.
    pub fn begins(&mut self, sync: &SyncId) -> Result<(), Memory>
        requires { has_failed self.old sync.now.file ≡ false }
        ensures begun { OnOk result (self.new ≡ begun self.old sync.now) }
        ensures unchanged { OnErr result (self.new ≡ self.old) }
    {
        self.under_way.push(*sync)?;
        Ok(())
    }

    /// A sync has returned, well or with a failure. Answers which syncs may be recorded now: this one, others that waited for it, or none.
    pub fn returned(
        &mut self,
        alloc: Global,
        sync: &SyncId,
        well: bool,
    ) -> Result<Vec<SyncId>, Memory>
        ensures recorded { IfOk result (λ syncs. syncs.items ≡ recorded (ended self.old sync.now well)) }
        ensures settled { OnOk result (self.new ≡ settled (ended self.old sync.now well)) }
        ensures unchanged { OnErr result (self.new ≡ self.old) }
    {
        let ended = self.ended(alloc, sync, well)?;
        let syncs = ended.recorded(alloc)?;
        *self = ended.settled(alloc)?;
        Ok(syncs)
    }

    // The syncs once this one has returned, with those that may be recorded now.
    fn ended(&self, alloc: Global, sync: &SyncId, well: bool) -> Result<Syncs, Memory>
        ensures { IfOk result (λ syncs. syncs ≡ ended self.now sync.now well) }
    {
        let left = self.without(alloc, sync)?;
        if !well {
            return left.spoilt(alloc, sync.file);
        }
        if left.has_failed(sync.file) {
            return Ok(left);
        }
        left.awaiting(alloc, sync)
    }

    // The syncs without this one among those under way; none waits for it.
    fn without(&self, alloc: Global, sync: &SyncId) -> Result<Syncs, Memory>
        ensures { IfOk result (λ syncs. syncs ≡ without self.now sync.now) }
    {
        let mut left = Syncs::new(alloc);
        left.under_way = others(alloc, sync, self.under_way.as_slice())?;
        left.waiting.extend_from_slice(self.waiting.as_slice())?;
        left.holds = other_holds(alloc, sync, self.holds.as_slice())?;
        left.failed.extend_from_slice(self.failed.as_slice())?;
        Ok(left)
    }

    // The syncs after one of this file has failed: none of it that waits is recorded.
    fn spoilt(mut self, alloc: Global, file: u32) -> Result<Syncs, Memory>
        ensures { IfOk result (λ syncs. syncs ≡ spoilt self file) }
    {
        self.waiting = those_elsewhere(alloc, file, self.waiting.as_slice())?;
        self.failed.push(file)?;
        Ok(self)
    }

    // The syncs with this one that returned well, which waits for those of its file that are under way.
    fn awaiting(mut self, alloc: Global, sync: &SyncId) -> Result<Syncs, Memory>
        ensures { IfOk result (λ syncs. syncs ≡ awaiting self sync.now) }
    {
        let holds = holds_of(alloc, sync, self.under_way.as_slice())?;
        self.holds.extend_from_slice(holds.as_slice())?;
        self.waiting.push(*sync)?;
        Ok(self)
    }

    // Those that wait for nothing.
    fn recorded(&self, alloc: Global) -> Result<Vec<SyncId>, Memory>
        ensures { IfOk result (λ syncs. syncs.items ≡ recorded self.now) }
    {
        those_free(alloc, self.holds.as_slice(), self.waiting.as_slice())
    }

    // The syncs without those that wait for nothing.
    fn settled(mut self, alloc: Global) -> Result<Syncs, Memory>
        ensures { IfOk result (λ syncs. syncs ≡ settled self) }
    {
        self.waiting = those_held(alloc, self.holds.as_slice(), self.waiting.as_slice())?;
        Ok(self)
    }
}

// Those of these that aren't this one.
fn others(alloc: Global, sync: &SyncId, syncs: &[SyncId]) -> Result<Vec<SyncId>, Memory>
    ensures { IfOk result (λ v. v.items ≡ filter (is_other sync.now) syncs.now) }
{
    let found: Vec<SyncId> = syncs
        .iter()
        .filter(|other| is_other(sync, other))
        .copied()
        .collect(alloc)?;
    Ok(found)
}

// Those of these by which none waits for this sync.
fn other_holds(alloc: Global, sync: &SyncId, holds: &[Hold]) -> Result<Vec<Hold>, Memory>
    ensures { IfOk result (λ v. v.items ≡ filter (is_other_hold sync.now) holds.now) }
{
    let found: Vec<Hold> = holds
        .iter()
        .filter(|hold| is_other_hold(sync, hold))
        .copied()
        .collect(alloc)?;
    Ok(found)
}

// Those of these that aren't of this file.
fn those_elsewhere(alloc: Global, file: u32, syncs: &[SyncId]) -> Result<Vec<SyncId>, Memory>
    ensures { IfOk result (λ v. v.items ≡ filter (is_elsewhere file) syncs.now) }
{
    let found: Vec<SyncId> = syncs
        .iter()
        .filter(|sync| is_elsewhere(file, sync))
        .copied()
        .collect(alloc)?;
    Ok(found)
}

// What this sync waits for: those of these that are of its file.
fn holds_of(alloc: Global, sync: &SyncId, syncs: &[SyncId]) -> Result<Vec<Hold>, Memory>
    ensures { IfOk result (λ v. v.items ≡ map (hold_of sync.now) (filter (is_of sync.now.file) syncs.now)) }
{
    let found: Vec<Hold> = syncs
        .iter()
        .filter(|other| is_of(sync.file, other))
        .map(|other| hold_of(sync, other))
        .collect(alloc)?;
    Ok(found)
}

// Those of these that wait for nothing.
fn those_free(alloc: Global, holds: &[Hold], syncs: &[SyncId]) -> Result<Vec<SyncId>, Memory>
    ensures { IfOk result (λ v. v.items ≡ filter (is_free holds.now) syncs.now) }
{
    let found: Vec<SyncId> = syncs
        .iter()
        .filter(|sync| is_free(holds, sync))
        .copied()
        .collect(alloc)?;
    Ok(found)
}

// Those of these that wait for others.
fn those_held(alloc: Global, holds: &[Hold], syncs: &[SyncId]) -> Result<Vec<SyncId>, Memory>
    ensures { IfOk result (λ v. v.items ≡ filter (is_held holds.now) syncs.now) }
{
    let found: Vec<SyncId> = syncs
        .iter()
        .filter(|sync| is_held(holds, sync))
        .copied()
        .collect(alloc)?;
    Ok(found)
}

fn is_of(file: u32, sync: &SyncId) -> bool
    ensures { result ≡ is_of file sync.now }
{
    sync.file == file
}

fn is_elsewhere(file: u32, sync: &SyncId) -> bool
    ensures { result ≡ is_elsewhere file sync.now }
{
    file != sync.file
}

fn is_other(sync: &SyncId, other: &SyncId) -> bool
    ensures { result ≡ is_other sync.now other.now }
{
    sync != other
}

fn is_other_hold(sync: &SyncId, hold: &Hold) -> bool
    ensures { result ≡ is_other_hold sync.now hold.now }
{
    *sync != hold.other
}

fn hold_of(sync: &SyncId, other: &SyncId) -> Hold
    ensures { result ≡ hold_of sync.now other.now }
{
    Hold {
        waiting: *sync,
        other: *other,
    }
}

// Whether a sync waits for another one.
fn is_held(holds: &[Hold], sync: &SyncId) -> bool
    ensures { result ≡ is_held holds.now sync.now }
{
    holds.iter().any(|hold| is_hold_of(sync, hold))
}

fn is_free(holds: &[Hold], sync: &SyncId) -> bool
    ensures { result ≡ is_free holds.now sync.now }
{
    !is_held(holds, sync)
}

fn is_hold_of(sync: &SyncId, hold: &Hold) -> bool
    ensures { result ≡ is_hold_of sync.now hold.now }
{
    *sync == hold.waiting
}
