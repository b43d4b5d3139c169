// What becomes of a refused line in its place.

use jr_job_keys::{Fate, Told, Way};
use jr_job_notes::{fio_seconds, other_words, told_of};
use jr_text::Line;
use std::alloc::{AllocError, Global};

// What a line means for its jobs.
#[derive(Clone, Copy)]
pub enum Turn {
    // Nothing is left to do.
    Done,
    // This is done in each job that it counts for.
    InJob(Way),
    // Each of these jobs is left out, for this reason.
    Yours(&'static str),
}

// What becomes of a refused line: its word, what stands in its place, and what it means for its jobs.
#[derive(Drop)]
pub struct Turned {
    pub(crate) told: Told,
    pub(crate) lines: Vec<Line>,
    pub(crate) turn: Turn,
}

// What becomes of a line; nothing where it is taken.
pub(crate) fn turn_line(alloc: Global, line: &Line) -> Result<Option<Turned>, AllocError> {
    let Some(told) = told_of(line) else {
        return Ok(None);
    };
    let turned = match told.fate {
        Fate::Dropped(way) | Fate::Same(way) | Fate::Nearly(way, _) => {
            by_way(alloc, line, told, way)?
        }
        Fate::Yours(lost) => plain(alloc, told, Turn::Yours(lost)),
    };
    Ok(Some(turned))
}

fn plain(alloc: Global, told: Told, turn: Turn) -> Turned {
    Turned {
        told,
        lines: Vec::new(alloc),
        turn,
    }
}

fn by_way(alloc: Global, line: &Line, told: Told, way: Way) -> Result<Turned, AllocError> {
    match way {
        Way::Out | Way::Time => Ok(plain(alloc, told, Turn::Done)),
        Way::Line(_) | Way::Lines(_, _) | Way::FileSize | Way::Amount | Way::Count | Way::Wait =>
            Ok(plain(alloc, told, Turn::InJob(way))),
        _ => in_place(alloc, line, told, way),
    }
}

// A line with another key or value, where that one is taken.
fn in_place(alloc: Global, line: &Line, told: Told, way: Way) -> Result<Turned, AllocError> {
    let (key, value) = other_words(alloc, line, way)?;
    let made = Line::new(line.number(), key, value);
    if told_of(&made).is_some() {
        return Ok(plain(alloc, told, Turn::Yours("its value")));
    }
    let mut turned = plain(alloc, told, Turn::Done);
    turned.lines.push(made)?;
    Ok(turned)
}

// The time that a line says.
fn seconds_of(line: &Line) -> Option<u64> {
    fio_seconds(line.value()?)
}

// What is said of a line in a comment: one of the four words, and why.
pub(crate) fn word(alloc: Global, line: &Line, turned: &Turned) -> Result<String, AllocError> {
    let told = &turned.told;
    let why = told.why;
    if let (Fate::Dropped(Way::Time), Some(seconds)) = (told.fate, seconds_of(line)) {
        return format!(in alloc; "dropped (a word of the command line: --for={seconds}s)");
    }
    if let Some(meant) = told.meant {
        return format!(in alloc; "yours to decide: {why}; did you mean {meant}?");
    }
    match (turned.turn, told.fate) {
        (Turn::Yours(lost), _) => format!(in alloc; "yours to decide: {lost} ({why})"),
        (_, fate) => {
            let fate = fate.text(alloc)?;
            format!(in alloc; "{fate} ({why})")
        }
    }
}
