ghost use Rattle.std.specs.Prelude.{◌≡◌, ◌<◌, ◌+◌, ◌^◌, ℕ, nat_eq, ◌||◌, OnOk, [], ◌++◌, filter, if◌then◌else◌};
ghost use Rattle.std.specs.HashMap.{get};
ghost use Rattle.std.specs.HashSet.{contains};
ghost use Rattle.std.specs.List.{cons_option};
ghost use Rattle.std.specs.Option.{option_or};
ghost use Rattle.jr_model.specs.declared.events.WriteId.{WriteId as Name};
ghost use Rattle.jr_model.specs.History.{end_of, is_verdict_on, same_write};
ghost use Rattle.jr_model.specs.Legal.{is_bad, takes_up};
ghost use Rattle.jr_model.specs.Rounds.{is_probe_of, settles};
ghost use Rattle.jr_model.specs.Totals.{is_fault_of, is_verdict_of};
ghost use Rattle.jr_replay_history.specs.Marks.{IsMarkedBy, counted, is_given, is_issue_in, same_name};
ghost use Rattle.jr_replay_history.specs.Parts.{ends_at, is_over_part};
ghost use Rattle.jr_replay_history.specs.WriteEnds.{if_write, write_end};

use crate::events::{ended_whole, is_bad, is_fault, is_probe, is_write};
use crate::marks::{Marks, WriteEnd};
use crate::parts::{Parts, put};
use jr_model::{Event, Memory, Outcome, Started, WriteId};
use std::alloc::Global;
use std::collections::{HashMap, HashSet};

// Marks what an event says, where these I/Os are started.
pub(crate) fn mark(
    alloc: Global,
    marks: &mut Marks,
    ios: &[Started],
    event: &Event,
) -> Result<(), Memory>
    requires { (key : ℕ × ℕ) → counted marks.old.issued key + 1 < 2 ^ 64 }
    ensures { OnOk result (IsMarkedBy ios.now event.now marks.old marks.new) }
{
    mark_outcome(&mut marks.outcomes, event)?;
    mark_judged(&mut marks.judged, event)?;
    mark_issued(&mut marks.issued, event)?;
    mark_taken_up(&mut marks.taken_up, event)?;
    mark_settled(&mut marks.settled, ios, event)?;
    mark_faulty(&mut marks.faulty, ios, event)?;
    mark_condemned(&mut marks.condemned, ios, event)?;
    mark_written(&mut marks.written, ios, event)?;
    mark_parts(alloc, &mut marks.parts, ios, event)?;
    Ok(())
}

fn mark_outcome(outcomes: &mut HashMap<usize, Outcome>, event: &Event) -> Result<(), Memory>
    ensures { OnOk result
        ((io : ℕ) → get nat_eq outcomes.new io
        ≡ option_or (get nat_eq outcomes.old io) (end_of io event.now)) }
{
    if let Event::End { io, outcome, .. } = *event {
        outcomes.entry(io as usize)?.or_insert(outcome);
    }
    Ok(())
}

fn mark_judged(judged: &mut HashSet<usize>, event: &Event) -> Result<(), Memory>
    ensures { OnOk result
        ((io : ℕ) → contains nat_eq judged.new io
        ≡ (contains nat_eq judged.old io || is_verdict_on io event.now)) }
{
    if let Event::Verdict { io, .. } = *event {
        judged.insert(io as usize)?;
    }
    Ok(())
}

fn mark_issued(issued: &mut HashMap<(u32, u32), usize>, event: &Event) -> Result<(), Memory>
    requires { (key : ℕ × ℕ) → counted issued.old key + 1 < 2 ^ 64 }
    ensures { OnOk result
        ((key : ℕ × ℕ) → counted issued.new key
        ≡ counted issued.old key + (if is_issue_in key event.now then 1 else 0)) }
{
    if let Event::Issue { write, .. } = *event {
        let pass = (write.clone, write.pass);
        let count = issued.get(&pass).copied().unwrap_or(0);
        issued.insert(pass, count + 1)?;
    }
    Ok(())
}

// The write that an event checks or skips.
fn taken_up_by(event: &Event) -> Option<WriteId>
    ensures { (write : Name) → takes_up write event.now ≡ is_given same_write result write }
{
    match *event {
        Event::Probe { write, .. } | Event::Skip { write, .. } => Some(write),
        _ => None,
    }
}

fn mark_taken_up(taken_up: &mut HashSet<WriteId>, event: &Event) -> Result<(), Memory>
    ensures { OnOk result
        ((write : Name) → contains same_name taken_up.new write
        ≡ (contains same_name taken_up.old write || takes_up write event.now)) }
{
    if let Some(write) = taken_up_by(event) {
        taken_up.insert(write)?;
    }
    Ok(())
}

// The write of this check.
fn checked_by(io: Option<Started>) -> Option<WriteId>
    ensures { (write : Name) → is_probe_of write io ≡ is_given same_write result write }
{
    match io {
        Some(io) if is_probe(io.kind) => Some(io.write),
        _ => None,
    }
}

// The write that an event skips, or whose check it ends.
fn settled_by(ios: &[Started], event: &Event) -> Option<WriteId>
    ensures { (write : Name) → settles ios.now write event.now ≡ is_given same_write result write }
{
    match *event {
        Event::Skip { write, .. } => Some(write),
        Event::End { io, .. } => checked_by(ios.get(io as usize).copied()),
        _ => None,
    }
}

fn mark_settled(
    settled: &mut HashSet<WriteId>,
    ios: &[Started],
    event: &Event,
) -> Result<(), Memory>
    ensures { OnOk result
        ((write : Name) → contains same_name settled.new write
        ≡ (contains same_name settled.old write || settles ios.now write event.now)) }
{
    if let Some(write) = settled_by(ios, event) {
        settled.insert(write)?;
    }
    Ok(())
}

// The clone whose I/O an event ends with a fault.
fn clone_at_fault(ios: &[Started], event: &Event) -> Option<u32>
    ensures { (clone : ℕ) → is_fault_of ios.now clone event.now ≡ is_given nat_eq result clone }
{
    match *event {
        Event::End { io, outcome, .. } if is_fault(outcome) => {
            ios.get(io as usize).map(|io| io.write.clone)
        }
        _ => None,
    }
}

fn mark_faulty(faulty: &mut HashSet<u32>, ios: &[Started], event: &Event) -> Result<(), Memory>
    ensures { OnOk result
        ((clone : ℕ) → contains nat_eq faulty.new clone
        ≡ (contains nat_eq faulty.old clone || is_fault_of ios.now clone event.now)) }
{
    if let Some(clone) = clone_at_fault(ios, event) {
        faulty.insert(clone)?;
    }
    Ok(())
}

// The clone of whose check or checked read an event is a bad verdict.
fn condemned_by(ios: &[Started], event: &Event) -> Option<u32>
    ensures { (clone : ℕ) → is_verdict_of ios.now is_bad clone event.now ≡ is_given nat_eq result clone }
{
    match *event {
        Event::Verdict { io, verdict, .. } if is_bad(verdict) => {
            ios.get(io as usize).map(|io| io.write.clone)
        }
        _ => None,
    }
}

fn mark_condemned(
    condemned: &mut HashSet<u32>,
    ios: &[Started],
    event: &Event,
) -> Result<(), Memory>
    ensures { OnOk result
        ((clone : ℕ) → contains nat_eq condemned.new clone
        ≡ (contains nat_eq condemned.old clone || is_verdict_of ios.now is_bad clone event.now)) }
{
    if let Some(clone) = condemned_by(ios, event) {
        condemned.insert(clone)?;
    }
    Ok(())
}

// The end of the I/O of this number, where it is a write.
fn if_write(io: usize, started: Option<Started>, whole: bool) -> Option<WriteEnd>
    ensures { result ≡ if_write io started whole }
{
    match started {
        Some(started) if is_write(started.kind) => Some(WriteEnd {
            io,
            write: started.write,
            piece: started.piece,
            whole,
        }),
        _ => None,
    }
}

// The end of a write that an event is.
fn write_end(ios: &[Started], event: &Event) -> Option<WriteEnd>
    ensures { result ≡ write_end ios.now event.now }
{
    match *event {
        Event::End { io, outcome, .. } => {
            let io = io as usize;
            if_write(io, ios.get(io).copied(), ended_whole(Some(outcome)))
        }
        _ => None,
    }
}

fn mark_written(written: &mut Vec<WriteEnd>, ios: &[Started], event: &Event) -> Result<(), Memory>
    ensures { OnOk result
        (written.new.items ≡ written.old.items ++ cons_option (write_end ios.now event.now) []) }
{
    if let Some(end) = write_end(ios, event) {
        written.push(end)?;
    }
    Ok(())
}

fn mark_parts(
    alloc: Global,
    parts: &mut Parts,
    ios: &[Started],
    event: &Event,
) -> Result<(), Memory>
    ensures { OnOk result ((file part : ℕ) → ends_at parts.new (file, part)
        ≡ ends_at parts.old (file, part)
        ++ filter (is_over_part file part) (cons_option (write_end ios.now event.now) [])) }
{
    if let Some(end) = write_end(ios, event) {
        put(alloc, parts, &end)?;
    }
    Ok(())
}
