// Engines that show what is in flight at once.
ghost use Rattle.std.specs.Prelude.{◌≡◌, IfOk};

use jr_engines::{CallCounts, Engine, EngineFault};
use std::alloc::Global;
use std::sync::Arc;
use std::sync::atomic::{AtomicU64, Ordering};
use std::test::Fail;
use std::thread;

// An engine of zeros whose calls wait for one another: each answers once two have begun, or fails after many turns.
#[derive(Drop)]
struct Gate {
    turns: u32,
    inside: Arc<AtomicU64, Global>,
    counts: CallCounts,
}

impl Gate {
    fn new(turns: u32, inside: Arc<AtomicU64, Global>) -> Gate {
        Gate {
            turns,
            inside,
            counts: CallCounts::new(),
        }
    }

    // Whether another came in.
    fn meets(&self) -> bool {
        self.inside.fetch_add(1, Ordering::SeqCst);
        for _ in 0..self.turns {
            if self.inside.load(Ordering::SeqCst) >= 2 {
                return true;
            }
            thread::yield_now();
        }
        false
    }

    // What a call for so many bytes answers.
    fn answer(&self, bytes: usize) -> Result<usize, EngineFault>
        ensures { IfOk result (λ n. n ≡ bytes) }
    {
        if self.meets() {
            Ok(bytes)
        } else {
            Err(EngineFault::Device)
        }
    }
}

impl Engine for Gate {
    ghost use Rattle.jr_engines.specs.States.{counted_state};

    ghost state = { λ gate. counted_state gate.counts };

    fn read(&mut self, _file: u32, _offset: u64, buf: &mut [u8]) -> Result<usize, EngineFault> {
        buf.fill(0);
        let result = self.answer(buf.len());
        self.counts.note(&result);
        result
    }

    fn write(&mut self, _file: u32, _offset: u64, buf: &[u8]) -> Result<usize, EngineFault> {
        let result = self.answer(buf.len());
        self.counts.note(&result);
        result
    }

    fn calls(&self) -> u64 {
        self.counts.calls()
    }

    fn failures(&self) -> u64 {
        self.counts.failures()
    }
}

// Two engines with one gate: a call stays inside until another is inside too.
pub(crate) fn two_gates(alloc: Global) -> Result<Vec<Box<dyn Engine + Send>>, Fail> {
    two_gates_of(alloc, 20_000_000)
}

// Two engines with one gate that gives up after so many turns.
pub(crate) fn two_gates_of(alloc: Global, turns: u32) -> Result<Vec<Box<dyn Engine + Send>>, Fail> {
    let inside = Arc::new(alloc, AtomicU64::new(0))?;
    let mut engines: Vec<Box<dyn Engine + Send>> = Vec::new(alloc);
    engines.push(Box::new(alloc, Gate::new(turns, Arc::try_clone(&inside)?))?)?;
    engines.push(Box::new(alloc, Gate::new(turns, inside))?)?;
    Ok(engines)
}
