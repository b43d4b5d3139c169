use jr_model::{Ticket, Verdict};
use std::sync::atomic::{AtomicU64, Ordering};

/// How far a run is, for another thread to read while the run goes on. Each number is right when it is read; they aren't read at one
/// moment.
#[derive(Drop)]
pub struct Progress {
    // The jobs' own reads and writes that were started.
    ios: AtomicU64,
    // The bytes of these.
    bytes: AtomicU64,
    // The checks that were judged, void ones among them.
    checks: AtomicU64,
    // The bytes of these.
    checked: AtomicU64,
    // Those of them that were bad.
    bad: AtomicU64,
}

impl Progress {
    /// Of a run that has yet to begin.
    pub fn new() -> Progress {
        Progress {
            ios: AtomicU64::new(0),
            bytes: AtomicU64::new(0),
            checks: AtomicU64::new(0),
            checked: AtomicU64::new(0),
            bad: AtomicU64::new(0),
        }
    }

    /// How many reads and writes of the jobs were started; checks aren't among them.
    pub fn ios(&self) -> u64 {
        self.ios.load(Ordering::Relaxed)
    }

    /// How many bytes these are.
    pub fn bytes(&self) -> u64 {
        self.bytes.load(Ordering::Relaxed)
    }

    /// How many checks were judged, void ones among them.
    pub fn checks(&self) -> u64 {
        self.checks.load(Ordering::Relaxed)
    }

    /// How many bytes they read back.
    pub fn checked_bytes(&self) -> u64 {
        self.checked.load(Ordering::Relaxed)
    }

    /// How many of them were bad.
    pub fn bad(&self) -> u64 {
        self.bad.load(Ordering::Relaxed)
    }

    // One of the jobs' reads or writes is started.
    fn start(&self, ticket: &Ticket) {
        add(&self.ios, 1);
        add(&self.bytes, u64::from(ticket.piece.len));
    }

    // A check is judged.
    fn judge(&self, bytes: u32, said: Verdict) {
        add(&self.checks, 1);
        add(&self.checked, u64::from(bytes));
        if let Verdict::Bad(_) = said {
            add(&self.bad, 1);
        }
    }
}

// Adds to a number. Threads do it in turn, each while it holds the desk, so that none undoes what another added.
fn add(number: &AtomicU64, more: u64) {
    let so_far = number.load(Ordering::Relaxed);
    number.store(so_far.wrapping_add(more), Ordering::Relaxed);
}

/// Notes that one of the jobs' reads or writes is started, if anybody wants to know.
pub fn note_start(progress: Option<&Progress>, ticket: &Ticket) {
    if let Some(progress) = progress {
        progress.start(ticket);
    }
}

/// Notes what is said of a check of so many bytes, if anybody wants to know.
pub fn note_verdict(progress: Option<&Progress>, bytes: u32, said: Verdict) {
    if let Some(progress) = progress {
        progress.judge(bytes, said);
    }
}
