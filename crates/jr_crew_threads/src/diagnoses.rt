use jr_diagnosis::{Diagnosed, diagnose};
use jr_header::Ruling;
use jr_model::Verdict;
use std::alloc::Global;
use std::mem;
use std::sync::atomic::{AtomicU64, Ordering};
use std::sync::{Mutex, Wait};

/// No more bad blocks than these are looked into in a run.
pub const MOST_DIAGNOSED: u64 = 1000;

/// What stood in the first bad blocks of a run, in the order in which it was found.
#[derive(Drop)]
pub struct Diagnoses {
    alloc: Global,
    found: Mutex<Vec<Diagnosed>>,
    // How many bad blocks there were.
    bad: AtomicU64,
}

impl Diagnoses {
    /// Of a run that has yet to begin.
    pub fn new(alloc: Global) -> Diagnoses {
        Diagnoses {
            alloc,
            found: Mutex::new(Vec::new(alloc)),
            bad: AtomicU64::new(0),
        }
    }

    // Looks into the block of this ruling, if it is bad and there weren't too many before it. One that memory is wanting for is left out.
    fn note<R: Wait>(&self, rt: &R, ruling: &Ruling<'_>) {
        if let Some(found) = self.looked_into(ruling) {
            let _ = self.found.lock(rt).push(found);
        }
    }

    // Does so where one thread alone has the run.
    fn note_alone(&self, ruling: &Ruling<'_>) {
        let Some(found) = self.looked_into(ruling) else {
            return;
        };
        if let Some(mut all) = self.found.try_lock() {
            let _ = all.push(found);
        }
    }

    fn looked_into(&self, ruling: &Ruling<'_>) -> Option<Diagnosed> {
        if !is_bad(ruling.verdict()) || self.bad.fetch_add(1, Ordering::Relaxed) >= MOST_DIAGNOSED {
            return None;
        }
        diagnose(self.alloc, ruling).ok().flatten()
    }

    /// What was found. Then it is as before a run.
    pub fn take<R: Wait>(&self, rt: &R) -> Vec<Diagnosed> {
        self.bad.store(0, Ordering::Relaxed);
        let mut found = self.found.lock(rt);
        mem::replace(&mut *found, Vec::new(self.alloc))
    }
}

/// Looks into the block of this ruling, if it is bad and anybody wants to know.
pub fn note_bad<R: Wait>(rt: &R, diagnoses: Option<&Diagnoses>, ruling: &Ruling<'_>) {
    if let Some(diagnoses) = diagnoses {
        diagnoses.note(rt, ruling);
    }
}

/// Does so where one thread alone has the run.
pub fn note_alone(diagnoses: Option<&Diagnoses>, ruling: &Ruling<'_>) {
    if let Some(diagnoses) = diagnoses {
        diagnoses.note_alone(ruling);
    }
}

fn is_bad(verdict: Verdict) -> bool {
    matches!(verdict, Verdict::Bad(_))
}
