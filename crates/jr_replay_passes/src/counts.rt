ghost use Rattle.std.specs.Prelude.{◌≡◌, ◌^◌, ◌||◌, IfOk, not, length, filter_map, count_by, ◌≤◌};
ghost use Rattle.jr_model.specs.History.{is_write};
ghost use Rattle.jr_model.specs.Legal.{is_bad, is_void};
ghost use Rattle.jr_replay_passes.specs.Counts.{totals_by};
ghost use Rattle.jr_model.specs.Totals.{is_read, if_wanted, moved_by, moved, bytes_of, is_verdict_of, is_skip_of, is_fault_of, totals_of};

use jr_model::{Event, Memory, Started, TicketKind, Totals};
use jr_replay_history::{
    Past, ended_whole, is_bad, is_fault, is_io_of, is_of_clone, is_void, is_write,
};
use std::alloc::Global;

// Whether a ticket of this kind is a read of a job, checked or not.
fn is_read(kind: TicketKind) -> bool
    ensures { result ≡ is_read kind }
{
    matches!(kind, TicketKind::Read | TicketKind::ReadCheck)
}

// This I/O, where it is there, a read of the clone, and ended with all its bytes.
fn if_read(clone: u32, whole: bool, io: Option<Started>) -> Option<Started>
    ensures { result ≡ if_wanted is_read clone whole io }
{
    match io {
        Some(io) if whole && is_read(io.kind) && is_of_clone(clone, &io) => Some(io),
        _ => None,
    }
}

// The clone's write that an event ends with all its bytes.
fn if_write(clone: u32, whole: bool, io: Option<Started>) -> Option<Started>
    ensures { result ≡ if_wanted is_write clone whole io }
{
    match io {
        Some(io) if whole && is_write(io.kind) && is_of_clone(clone, &io) => Some(io),
        _ => None,
    }
}

// The clone's read that an event ends with all its bytes.
fn read_by(ios: &[Started], clone: u32, event: &Event) -> Option<Started>
    ensures { result ≡ moved_by ios.now is_read clone event.now }
{
    match *event {
        Event::End { io, outcome, .. } => if_read(
            clone,
            ended_whole(Some(outcome)),
            ios.get(io as usize).copied(),
        ),
        _ => None,
    }
}

// The clone's write that an event ends with all its bytes.
fn write_by(ios: &[Started], clone: u32, event: &Event) -> Option<Started>
    ensures { result ≡ moved_by ios.now is_write clone event.now }
{
    match *event {
        Event::End { io, outcome, .. } => if_write(
            clone,
            ended_whole(Some(outcome)),
            ios.get(io as usize).copied(),
        ),
        _ => None,
    }
}

fn read_count(ios: &[Started], events: &[Event], clone: u32) -> usize
    ensures { result ≡ length (filter_map (moved_by ios.now is_read clone) events.now) }
{
    events
        .iter()
        .filter_map(|event| read_by(ios, clone, event))
        .count()
}

fn write_count(ios: &[Started], events: &[Event], clone: u32) -> usize
    ensures { result ≡ length (filter_map (moved_by ios.now is_write clone) events.now) }
{
    events
        .iter()
        .filter_map(|event| write_by(ios, clone, event))
        .count()
}

// How many bytes an I/O has.
fn len_of(io: &Started) -> u32
    ensures { result ≡ io.now.piece.len }
{
    io.piece.len
}

fn read_bytes(ios: &[Started], events: &[Event], clone: u32) -> u64
    requires { length (filter_map (moved_by ios.now is_read clone) events.now) ≤ 2 ^ 32 }
    ensures { result ≡ bytes_of (filter_map (moved_by ios.now is_read clone) events.now) }
{
    let mut total = 0;
    for event in events {
        match read_by(ios, clone, event) {
            Some(io) => total += u64::from(len_of(&io)),
            None => {}
        }
    }
    total
}

fn write_bytes(ios: &[Started], events: &[Event], clone: u32) -> u64
    requires { length (filter_map (moved_by ios.now is_write clone) events.now) ≤ 2 ^ 32 }
    ensures { result ≡ bytes_of (filter_map (moved_by ios.now is_write clone) events.now) }
{
    let mut total = 0;
    for event in events {
        match write_by(ios, clone, event) {
            Some(io) => total += u64::from(len_of(&io)),
            None => {}
        }
    }
    total
}

// Whether the event is a verdict on the bytes of a check or checked read of the clone.
fn is_verdict(ios: &[Started], clone: u32, event: &Event) -> bool
    ensures { result ≡ is_verdict_of ios.now (λ verdict. not (is_void verdict)) clone event.now }
{
    match *event {
        Event::Verdict { io, verdict, .. } => {
            is_io_of(clone, ios.get(io as usize).copied()) && !is_void(verdict)
        }
        _ => false,
    }
}

// Whether the event is a good verdict on one.
fn is_good_verdict(ios: &[Started], clone: u32, event: &Event) -> bool
    ensures { result
        ≡ is_verdict_of ios.now (λ verdict. not (is_bad verdict || is_void verdict)) clone event.now }
{
    match *event {
        Event::Verdict { io, verdict, .. } => {
            is_io_of(clone, ios.get(io as usize).copied()) && !(is_bad(verdict) || is_void(verdict))
        }
        _ => false,
    }
}

// Whether the event is a bad verdict on one.
fn is_bad_verdict(ios: &[Started], clone: u32, event: &Event) -> bool
    ensures { result ≡ is_verdict_of ios.now is_bad clone event.now }
{
    match *event {
        Event::Verdict { io, verdict, .. } => {
            is_io_of(clone, ios.get(io as usize).copied()) && is_bad(verdict)
        }
        _ => false,
    }
}

// Whether the event says of one that it is void.
fn is_void_verdict(ios: &[Started], clone: u32, event: &Event) -> bool
    ensures { result ≡ is_verdict_of ios.now is_void clone event.now }
{
    match *event {
        Event::Verdict { io, verdict, .. } => {
            is_io_of(clone, ios.get(io as usize).copied()) && is_void(verdict)
        }
        _ => false,
    }
}

fn verdict_count(ios: &[Started], events: &[Event], clone: u32) -> usize
    ensures { result
        ≡ count_by (is_verdict_of ios.now (λ verdict. not (is_void verdict)) clone) events.now }
{
    events
        .iter()
        .filter(|event| is_verdict(ios, clone, event))
        .count()
}

fn good_count(ios: &[Started], events: &[Event], clone: u32) -> usize
    ensures { result
        ≡ count_by (is_verdict_of ios.now (λ verdict. not (is_bad verdict || is_void verdict)) clone)
        events.now }
{
    events
        .iter()
        .filter(|event| is_good_verdict(ios, clone, event))
        .count()
}

fn bad_count(ios: &[Started], events: &[Event], clone: u32) -> usize
    ensures { result ≡ count_by (is_verdict_of ios.now is_bad clone) events.now }
{
    events
        .iter()
        .filter(|event| is_bad_verdict(ios, clone, event))
        .count()
}

fn void_count(ios: &[Started], events: &[Event], clone: u32) -> usize
    ensures { result ≡ count_by (is_verdict_of ios.now is_void clone) events.now }
{
    events
        .iter()
        .filter(|event| is_void_verdict(ios, clone, event))
        .count()
}

// Whether the event skips a write of the clone.
fn is_skip_of(clone: u32, event: &Event) -> bool
    ensures { result ≡ is_skip_of clone event.now }
{
    match event {
        Event::Skip { write, .. } => write.clone == clone,
        _ => false,
    }
}

fn skip_count(events: &[Event], clone: u32) -> usize
    ensures { result ≡ count_by (is_skip_of clone) events.now }
{
    events
        .iter()
        .filter(|event| is_skip_of(clone, event))
        .count()
}

// Whether the event is a fault of the clone.
fn is_fault_of(ios: &[Started], clone: u32, event: &Event) -> bool
    ensures { result ≡ is_fault_of ios.now clone event.now }
{
    match *event {
        Event::End { io, outcome, .. } => {
            is_io_of(clone, ios.get(io as usize).copied()) && is_fault(outcome)
        }
        _ => false,
    }
}

fn fault_count(ios: &[Started], events: &[Event], clone: u32) -> usize
    ensures { result ≡ count_by (is_fault_of ios.now clone) events.now }
{
    events
        .iter()
        .filter(|event| is_fault_of(ios, clone, event))
        .count()
}

// What a clone did, where the started I/Os are given.
fn totals_by(ios: &[Started], events: &[Event], clone: u32) -> Totals
    requires reads { length (filter_map (moved_by ios.now is_read clone) events.now) ≤ 2 ^ 32 }
    requires writes { length (filter_map (moved_by ios.now is_write clone) events.now) ≤ 2 ^ 32 }
    ensures { result ≡ totals_by ios.now events.now clone }
{
    Totals {
        reads: read_count(ios, events, clone) as u64,
        rbytes: read_bytes(ios, events, clone),
        writes: write_count(ios, events, clone) as u64,
        wbytes: write_bytes(ios, events, clone),
        checks: verdict_count(ios, events, clone) as u64,
        good: good_count(ios, events, clone) as u64,
        bad: bad_count(ios, events, clone) as u64,
        skipped: skip_count(events, clone) as u64,
        void: void_count(ios, events, clone) as u64,
        faults: fault_count(ios, events, clone) as u64,
    }
}

/// What a clone did, counted over a history. That its sums of bytes fit 64 bits rests on at most 2^32
/// reads and 2^32 writes having ended whole, as in each legal history with so few I/Os.
pub fn totals_among(past: &Past, clone: u32) -> Totals
    requires reads { length (moved past.now is_read clone) ≤ 2 ^ 32 }
    requires writes { length (moved past.now is_write clone) ≤ 2 ^ 32 }
    ensures { result ≡ totals_of past.now clone }
{
    totals_by(past.started(), past.events(), clone)
}

/// What a clone did, counted over a history; as by `totals_among`.
pub fn totals(alloc: Global, history: &[Event], clone: u32) -> Result<Totals, Memory>
    requires reads { length (moved history.now is_read clone) ≤ 2 ^ 32 }
    requires writes { length (moved history.now is_write clone) ≤ 2 ^ 32 }
    ensures { IfOk result (λ totals. totals ≡ totals_of history.now clone) }
{
    let past = Past::new(alloc, history)?;
    Ok(totals_among(&past, clone))
}
