use std::sync::atomic::{AtomicBool, AtomicU64, Ordering};
use std::thread;
use std::thread::Threads;
use std::time::{Clock, Instant};

// A call of an engine is quick that takes so many nanoseconds at most, and one more for each byte. No device answers so soon.
const QUICK_NANOS: u64 = 16_000;

// So many calls are looked at before an engine is called quick, and as many together before it is called that no more.
const CALLS: u64 = 256;

// Each time that it is called that no more, twice as many calls are looked at the next time, up to so many.
const MOST_CALLS: u64 = 65_536;

// So many measured turns are looked at before one worker more or fewer is taken to be of use.
const MEASURED: u64 = 16;

// One worker fewer is enough if a worker is without the lock for less than so many tenths of the time that the others have it; and one more
// is of use if it is so for more than so many tenths of the time that as many have it as are at work.
const MANY: u64 = 6;

const FEW: u64 = 8;

/// Whether a run has more workers than are of use. A worker that waits for a device leaves its processor to the others. If the
/// engine's calls are so quick that there is nothing to wait for, more workers than processors only wait for one another. And if a
/// worker is hardly longer without the desk's lock than with it, a few keep the lock busy all the time, and others only wait for it.
#[derive(Drop)]
pub struct Crowd {
    workers: u64,
    processors: u64,
    is_quick: AtomicBool,
    wanted: AtomicU64,
    calls: AtomicU64,
    quick: AtomicU64,
    spent: AtomicU64,
    // How many workers the lock can serve, and of how many measured turns this says what.
    served: AtomicU64,
    measured: AtomicU64,
    too_many: AtomicU64,
    too_few: AtomicU64,
    far_too_few: AtomicU64,
}

impl Crowd {
    /// That of so many workers, on the processors that this run may use. If the system doesn't say how many these are, all workers are
    /// of use.
    pub fn new<R: Threads>(rt: &R, workers: usize) -> Crowd {
        let processors = match thread::available_parallelism(rt) {
            Ok(count) => count.get() as u64,
            Err(_) => u64::MAX,
        };
        Crowd {
            workers: workers as u64,
            processors,
            is_quick: AtomicBool::new(false),
            wanted: AtomicU64::new(CALLS),
            calls: AtomicU64::new(0),
            quick: AtomicU64::new(0),
            spent: AtomicU64::new(0),
            served: AtomicU64::new(workers as u64),
            measured: AtomicU64::new(0),
            too_many: AtomicU64::new(0),
            too_few: AtomicU64::new(0),
            far_too_few: AtomicU64::new(0),
        }
    }

    /// The time now, if it is of use to know how long a call of an engine takes.
    pub fn now<R: Clock>(&self, rt: &R) -> Option<Instant> {
        if self.workers <= self.processors {
            return None;
        }
        Instant::now(rt).ok()
    }

    /// Takes in that a call over so many bytes began then, and has just ended.
    pub fn note_call<R: Clock>(&self, rt: &R, begun: Option<Instant>, bytes: u32) {
        if let Some(begun) = begun
            && let Ok(passed) = begun.elapsed(rt)
        {
            let nanos = u64::try_from(passed.as_nanos()).unwrap_or(u64::MAX);
            self.count(nanos, QUICK_NANOS.saturating_add(u64::from(bytes)));
        }
    }

    // Takes in a call that took so long, and might have taken that. (Several workers may do so at once: a call that is counted twice or
    // not at all does no harm.)
    fn count(&self, spent: u64, allowed: u64) {
        let calls = more(&self.calls, 1);
        if self.is_quick() {
            self.count_quick(calls, spent, allowed);
        } else {
            self.count_slow(calls, spent <= allowed);
        }
    }

    // The engine isn't called quick. It is once nine calls of ten are. The others may be those of workers that were sent away by the
    // system in the middle of a call, for there are more of them than processors.
    fn count_slow(&self, calls: u64, is_quick: bool) {
        let quick = more(&self.quick, u64::from(is_quick));
        if calls >= self.wanted.load(Ordering::Relaxed) {
            self.begin(quick >= calls / 10 * 9);
        }
    }

    // It is, so that there are no more workers at work than processors. Once all calls together take longer than they might, those that
    // rest are of use. (The first calls may have begun before.)
    fn count_quick(&self, calls: u64, spent: u64, allowed: u64) {
        if calls <= CALLS {
            return;
        }
        if more(&self.spent, spent) > allowed.saturating_mul(CALLS) {
            let wanted = self.wanted.load(Ordering::Relaxed).saturating_mul(2);
            self.wanted.store(wanted.min(MOST_CALLS), Ordering::Relaxed);
            self.begin(false);
        } else if calls >= 2 * CALLS {
            self.spent.store(0, Ordering::Relaxed);
            self.calls.store(CALLS, Ordering::Relaxed);
        }
    }

    // Begins to count anew.
    fn begin(&self, is_quick: bool) {
        self.calls.store(0, Ordering::Relaxed);
        self.quick.store(0, Ordering::Relaxed);
        self.spent.store(0, Ordering::Relaxed);
        self.is_quick.store(is_quick, Ordering::Relaxed);
    }

    // Whether the engine's calls are so quick that more workers than processors are of no use.
    fn is_quick(&self) -> bool {
        self.is_quick.load(Ordering::Relaxed)
    }

    /// Whether there are several workers, so that it is of use to know how long their turns take.
    pub fn is_several(&self) -> bool {
        self.workers > 1
    }

    /// Takes in how long a worker was without the lock in a turn, and how long with it, while so many others did nothing.
    pub fn note_turn(&self, outside: u64, inside: u64, idle: u64) {
        let working = self.workers.saturating_sub(idle);
        let is_too_many = is_above(inside, working.saturating_sub(1), MANY, outside);
        let is_too_few = outside > 0 && !is_above(inside, working, FEW, outside);
        let too_many = more(&self.too_many, u64::from(is_too_many));
        let too_few = more(&self.too_few, u64::from(is_too_few));
        let is_far = outside > inside.saturating_mul(self.workers);
        let far_too_few = more(&self.far_too_few, u64::from(is_far));
        if more(&self.measured, 1) >= MEASURED {
            let served = self.served.load(Ordering::Relaxed).min(working);
            if far_too_few >= MEASURED / 2 {
                self.serve(self.workers);
            } else if too_few >= MEASURED / 2 {
                self.serve(served.saturating_add(1).min(self.workers));
            } else if too_many >= MEASURED / 4 * 3 {
                self.serve(served.saturating_sub(1).max(1));
            } else {
                self.serve(self.served.load(Ordering::Relaxed));
            }
        }
    }

    // The lock can serve so many workers. Begins to measure anew.
    fn serve(&self, workers: u64) {
        self.measured.store(0, Ordering::Relaxed);
        self.too_many.store(0, Ordering::Relaxed);
        self.too_few.store(0, Ordering::Relaxed);
        self.far_too_few.store(0, Ordering::Relaxed);
        self.served.store(workers, Ordering::Relaxed);
    }

    // How many workers are of use beside one another.
    fn useful(&self) -> u64 {
        let served = self.served.load(Ordering::Relaxed);
        if self.is_quick() {
            served.min(self.processors)
        } else {
            served
        }
    }

    /// Whether a worker does better to rest, if so many others do nothing.
    pub fn is_too_large(&self, idle: u64) -> bool {
        self.workers.saturating_sub(idle) > self.useful()
    }

    /// Whether one that rests is of use, if so many do nothing.
    pub fn is_too_small(&self, idle: u64) -> bool {
        self.workers.saturating_sub(idle) < self.useful()
    }
}

// Whether so many times a time, and of that so many tenths, are above another time.
fn is_above(time: u64, times: u64, tenths: u64, other: u64) -> bool {
    time.saturating_mul(times).saturating_mul(tenths) > other.saturating_mul(10)
}

// Adds to a number, and says what it is then.
fn more(number: &AtomicU64, by: u64) -> u64 {
    number.fetch_add(by, Ordering::Relaxed).wrapping_add(by)
}
