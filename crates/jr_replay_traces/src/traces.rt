ghost use Rattle.std.specs.Prelude.{◌≡◌, ◌++◌, IfOk, OnOk, codes, is_some, true};
ghost use Rattle.jr_model.specs.History.{started_by};
ghost use Rattle.jr_replay_traces.specs.TraceChecks.{is_small, worker_of, workers_fit};
ghost use Rattle.jr_replay_traces.specs.Traces.{draw_fields, event_text, outcome_fields, part_fields, spaced, trace_of, verdict_fields, what_fields};

use jr_model::{Event, Memory, Outcome, Part, Verdict, What, WriteId, push_number, push_text};
use jr_replay_history::started_by;
use std::alloc::Global;

/// The trace of a history: a line for each event.
pub fn trace_text(alloc: Global, history: &[Event]) -> Result<Vec<u8>, Memory>
    ensures value { IfOk result (λ text. text.items ≡ trace_of history.now) }
    ensures fit { IfOk result (λ text. workers_fit history.now ≡ true) }
{
    let mut text = Vec::new(alloc);
    let mut io = 0;
    for event in history {
        push_event(&mut text, io, event)?;
        push_text(&mut text, "\n")?;
        if starts(event) {
            io += 1;
        }
    }
    Ok(text)
}

// Whether an event starts an I/O or a check.
fn starts(event: &Event) -> bool
    ensures { result ≡ is_some (started_by event.now) }
{
    started_by(event).is_some()
}

// The line of an event before its line feed, where so many I/Os and checks were started before it.
fn push_event(text: &mut Vec<u8>, io: u64, event: &Event) -> Result<(), Memory>
    ensures value { OnOk result (text.new.items ≡ text.old.items ++ event_text io event.now) }
    ensures fits { is_small (worker_of event.now) ≡ true }
{
    match event {
        Event::Issue { worker, write, .. } => push_start(text, "I", *worker, io, write),
        Event::Probe { worker, write, .. } => push_start(text, "P", *worker, io, write),
        Event::Skip { worker, write } => push_skip(text, *worker, write),
        Event::End {
            worker,
            io,
            outcome,
        } => push_end(text, *worker, *io, *outcome),
        Event::Verdict {
            worker,
            io,
            verdict,
        } => push_verdict(text, *worker, *io, *verdict),
    }
}

fn push_start(
    text: &mut Vec<u8>,
    tag: &str,
    worker: u32,
    io: u64,
    write: &WriteId,
) -> Result<(), Memory>
    ensures { OnOk result (text.new.items
        ≡ text.old.items ++ (tag.now ++ spaced worker ++ spaced io ++ draw_fields write.now)) }
{
    push_text(text, tag)?;
    push_spaced(text, u64::from(worker))?;
    push_spaced(text, io)?;
    push_draw(text, write)
}

fn push_skip(text: &mut Vec<u8>, worker: u32, write: &WriteId) -> Result<(), Memory>
    ensures { OnOk result (text.new.items
        ≡ text.old.items ++ (codes "S" ++ spaced worker ++ draw_fields write.now)) }
{
    push_text(text, "S")?;
    push_spaced(text, u64::from(worker))?;
    push_draw(text, write)
}

fn push_end(text: &mut Vec<u8>, worker: u32, io: u32, outcome: Outcome) -> Result<(), Memory>
    ensures { OnOk result (text.new.items
        ≡ text.old.items ++ (codes "E" ++ spaced worker ++ spaced io ++ outcome_fields outcome)) }
{
    push_text(text, "E")?;
    push_spaced(text, u64::from(worker))?;
    push_spaced(text, u64::from(io))?;
    push_outcome(text, outcome)
}

fn push_verdict(text: &mut Vec<u8>, by: u32, io: u32, verdict: Verdict) -> Result<(), Memory>
    ensures { OnOk result (text.new.items
        ≡ text.old.items ++ (codes "V" ++ spaced by ++ spaced io ++ verdict_fields verdict)) }
{
    push_text(text, "V")?;
    push_spaced(text, u64::from(by))?;
    push_spaced(text, u64::from(io))?;
    push_finding(text, verdict)
}

// The clone, the pass and the number of a draw.
fn push_draw(text: &mut Vec<u8>, write: &WriteId) -> Result<(), Memory>
    ensures { OnOk result (text.new.items ≡ text.old.items ++ draw_fields write.now) }
{
    push_spaced(text, u64::from(write.clone))?;
    push_spaced(text, u64::from(write.pass))?;
    push_spaced(text, u64::from(write.number))
}

fn push_outcome(text: &mut Vec<u8>, outcome: Outcome) -> Result<(), Memory>
    ensures { OnOk result (text.new.items ≡ text.old.items ++ outcome_fields outcome) }
{
    match outcome {
        Outcome::Whole => push_text(text, " whole"),
        Outcome::Failed => push_text(text, " failed"),
        Outcome::Short(count) => push_counted(text, " short", count),
    }
}

fn push_finding(text: &mut Vec<u8>, verdict: Verdict) -> Result<(), Memory>
    ensures { OnOk result (text.new.items ≡ text.old.items ++ verdict_fields verdict) }
{
    match verdict {
        Verdict::Good => push_text(text, " good"),
        Verdict::Bad(what) => push_what(text, what),
        Verdict::Void => push_text(text, " void"),
    }
}

fn push_what(text: &mut Vec<u8>, what: What) -> Result<(), Memory>
    ensures { OnOk result (text.new.items ≡ text.old.items ++ what_fields what) }
{
    match what {
        What::Header => push_part(text, Part::Header),
        What::Digest => push_part(text, Part::Digest),
        What::DataArea => push_part(text, Part::DataArea),
        What::Byte(place) => push_counted(text, " byte", place),
        What::Chunk(chunk, part) => {
            push_part(text, part)?;
            push_spaced(text, u64::from(chunk))
        }
    }
}

fn push_part(text: &mut Vec<u8>, part: Part) -> Result<(), Memory>
    ensures { OnOk result (text.new.items ≡ text.old.items ++ part_fields part) }
{
    match part {
        Part::Header => push_text(text, " header"),
        Part::Digest => push_text(text, " digest"),
        Part::DataArea => push_text(text, " data"),
    }
}

// A word and a number.
fn push_counted(text: &mut Vec<u8>, word: &str, n: u32) -> Result<(), Memory>
    ensures { OnOk result (text.new.items ≡ text.old.items ++ (word.now ++ spaced n)) }
{
    push_text(text, word)?;
    push_spaced(text, u64::from(n))
}

// A number behind a space.
fn push_spaced(text: &mut Vec<u8>, n: u64) -> Result<(), Memory>
    ensures { OnOk result (text.new.items ≡ text.old.items ++ spaced n) }
{
    push_text(text, " ")?;
    push_number(text, n)
}
