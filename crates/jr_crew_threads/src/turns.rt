use crate::crowd::Crowd;
use std::time::{Clock, Instant};

// One turn of so many is measured.
const TURNS: u32 = 32;

/// The turns of a worker: in each it carries out what it took, comes for the desk's lock, and has it. Some of them are measured.
#[derive(Clone, Copy)]
pub struct Turns {
    count: u32,
    // When the part that is measured began, if one is.
    since: Option<Instant>,
    // How many nanoseconds it carried out what it took.
    outside: u64,
}

impl Turns {
    /// Before the first one.
    pub fn new() -> Turns {
        Turns {
            count: 0,
            since: None,
            outside: 0,
        }
    }

    /// The worker comes for the lock.
    pub fn arrive<R: Clock>(&mut self, rt: &R) {
        if let Some(since) = self.since {
            self.outside = nanos_since(rt, since);
        }
    }

    /// It has the lock.
    pub fn enter<R: Clock>(&mut self, rt: &R) {
        if self.since.is_some() {
            self.since = Instant::now(rt).ok();
        }
    }

    /// It is about to give the lock away, while so many workers do nothing.
    pub fn leave<R: Clock>(&mut self, rt: &R, crowd: &Crowd, idle: u64) {
        if let Some(since) = self.since {
            crowd.note_turn(self.outside, nanos_since(rt, since), idle);
            self.since = None;
        }
        self.count = self.count.wrapping_add(1);
        if self.count % TURNS == 0 && crowd.is_several() {
            self.since = Instant::now(rt).ok();
        }
    }

    /// It waits, or rests: this turn isn't measured.
    pub fn give_up(&mut self) {
        self.since = None;
    }
}

// How many nanoseconds have passed since then.
fn nanos_since<R: Clock>(rt: &R, since: Instant) -> u64 {
    match since.elapsed(rt) {
        Ok(passed) => u64::try_from(passed.as_nanos()).unwrap_or(u64::MAX),
        Err(_) => 0,
    }
}
