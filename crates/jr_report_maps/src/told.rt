ghost use Rattle.std.specs.Prelude.{◌≡◌, ◌||◌, IfOk, OnOk};
ghost use Rattle.std.specs.HashSet.{contains};
ghost use Rattle.std.specs.List.{list_any};
ghost use Rattle.jr_model.specs.declared.events.WriteId.{WriteId as Name};
ghost use Rattle.jr_report_maps.specs.Maps.{is_io_on, judges, skips};
ghost use Rattle.jr_model.specs.History.{same_write};
ghost use Rattle.jr_replay_history.specs.Marks.{is_given, same_name};
ghost use Rattle.jr_report_maps.specs.Told.{IsTold};

use jr_model::{Event, Memory, Started, WriteId};
use jr_replay_history::started;
use std::alloc::Global;
use std::collections::HashSet;

// What is looked up of a history while a map is made.
#[derive(Drop)]
pub(crate) struct Lookups {
    // All I/Os and checks that were started, each at the place of its number.
    pub ios: Vec<Started>,
    // The writes that were skipped.
    pub skipped: HashSet<WriteId>,
    // The writes that a verdict was given on.
    pub judged: HashSet<WriteId>,
}

impl Lookups {
    pub(crate) fn new(alloc: Global, history: &[Event]) -> Result<Lookups, Memory>
        ensures { IfOk result (IsTold history.now) }
    {
        let ios = started(alloc, history)?;
        let skipped = skipped_in(alloc, history)?;
        let judged = judged_in(alloc, ios.as_slice(), history)?;
        Ok(Lookups {
            ios,
            skipped,
            judged,
        })
    }
}

// The writes that are skipped.
fn skipped_in(alloc: Global, history: &[Event]) -> Result<HashSet<WriteId>, Memory>
    ensures { IfOk result (λ writes. (write : Name) → contains same_name writes write ≡ list_any (skips write) history.now) }
{
    let mut writes = HashSet::new(alloc);
    for event in history {
        add_skipped(&mut writes, event)?;
    }
    Ok(writes)
}

// The writes that are judged, where these I/Os are started.
fn judged_in(alloc: Global, ios: &[Started], history: &[Event]) -> Result<HashSet<WriteId>, Memory>
    ensures { IfOk result (λ writes. (write : Name) → contains same_name writes write ≡ list_any (judges ios.now write) history.now) }
{
    let mut writes = HashSet::new(alloc);
    for event in history {
        add_judged(&mut writes, ios, event)?;
    }
    Ok(writes)
}

fn add_skipped(writes: &mut HashSet<WriteId>, event: &Event) -> Result<(), Memory>
    ensures { OnOk result ((write : Name) → contains same_name writes.new write
        ≡ (contains same_name writes.old write || skips write event.now)) }
{
    let write = skipped_by(event);
    add(writes, write)
}

fn add_judged(writes: &mut HashSet<WriteId>, ios: &[Started], event: &Event) -> Result<(), Memory>
    ensures { OnOk result ((write : Name) → contains same_name writes.new write
        ≡ (contains same_name writes.old write || judges ios.now write event.now)) }
{
    let write = judged_by(ios, event);
    add(writes, write)
}

// The write that an event skips.
fn skipped_by(event: &Event) -> Option<WriteId>
    ensures { (write : Name) → skips write event.now ≡ is_given same_write result write }
{
    match *event {
        Event::Skip { write, .. } => Some(write),
        _ => None,
    }
}

// The write that an event is a verdict on.
fn judged_by(ios: &[Started], event: &Event) -> Option<WriteId>
    ensures { (write : Name) → judges ios.now write event.now ≡ is_given same_write result write }
{
    match *event {
        Event::Verdict { io, .. } => write_of(ios.get(io as usize).copied()),
        _ => None,
    }
}

fn write_of(io: Option<Started>) -> Option<WriteId>
    ensures { (write : Name) → is_io_on write io ≡ is_given same_write result write }
{
    match io {
        None => None,
        Some(io) => Some(io.write),
    }
}

fn add(writes: &mut HashSet<WriteId>, write: Option<WriteId>) -> Result<(), Memory>
    ensures { OnOk result ((other : Name) → contains same_name writes.new other
        ≡ (contains same_name writes.old other || is_given same_write write other)) }
{
    if let Some(write) = write {
        writes.insert(write)?;
    }
    Ok(())
}
