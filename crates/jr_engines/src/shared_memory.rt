ghost use Rattle.std.specs.Prelude.{◌≡◌, ◌-◌, ◌^◌, ◌<◌, ◌≤◌, length, IfOk, IfErr, OnErr};
ghost use Rattle.jr_engines.specs.Calls.{Counts, ReadsInside, WritesInside};
ghost use Rattle.jr_engines.specs.States.{counted_state};

use crate::call_counts::CallCounts;
use crate::engines::Engine;
use crate::faults::EngineFault;
use crate::files::{MemoryFile, fresh_files, read_files, write_files};
use jr_model::Memory;
use jr_plan::Plan;
use std::alloc::Global;
use std::marker::Model;
use std::sync::{Arc, Mutex, Wait};

/// A share of one memory behind a lock, as a memory engine has it: what one share writes, all of them read.
///
/// Each share has counts of its own. A call waits for the lock, and keeps it while the bytes are copied.
#[derive(Drop)]
pub struct SharedMemory<R: Wait> {
    rt: R,
    files: Arc<Mutex<Vec<MemoryFile>>>,
    counts: CallCounts,
}

impl<R: Wait> Model for SharedMemory<R> {
    ghost use Rattle.jr_engines.specs.CallCounts.{CallCounts as CallCountsRecord};

    ghost Value = { CallCountsRecord };

    ghost view = { λ a. a.counts };
}

impl<R: Wait + Clone> SharedMemory<R> {
    /// The first share of a memory for a plan's files, all zeros.
    pub fn new(rt: R, alloc: Global, plan: &Plan) -> Result<SharedMemory<R>, Memory>
        ensures { IfOk result (λ share. share ≡ record { calls = 0; failures = 0 }) }
    {
        let files = Mutex::new(fresh_files(alloc, plan.files())?);
        Ok(SharedMemory {
            rt,
            files: Arc::new(alloc, files)?,
            counts: CallCounts::new(),
        })
    }

    /// One more share of the same memory.
    pub fn share(&self) -> Result<SharedMemory<R>, Memory>
        ensures { IfOk result (λ share. share ≡ record { calls = 0; failures = 0 }) }
    {
        let counts = CallCounts::new();
        Ok(SharedMemory {
            rt: self.rt.clone()?,
            files: Arc::try_clone(&self.files)?,
            counts,
        })
    }
}

impl<R: Wait + Drop> Engine for SharedMemory<R> {
    ghost state = { counted_state };

    fn read(&mut self, file: u32, offset: u64, buf: &mut [u8]) -> Result<usize, EngineFault>
        requires { self.old.calls < 2 ^ 64 - 1 }
        ensures outside { IfErr result (λ fault. fault ≡ EngineFault.Outside) }
        ensures err { OnErr result (buf.new ≡ buf.old) }
        ensures counts { Counts (counted_state self.old) result (counted_state self.new) }
        ensures few { (counted_state self.new).failures ≤ (counted_state self.new).calls }
        ensures most { IfOk result (λ n. n ≤ length buf.old) }
        ensures replies { ReadsInside (counted_state self.old) file offset buf.old result (counted_state self.new) buf.new }
    {
        let result = read_files(self.files.lock(&self.rt).as_slice(), file, offset, buf);
        self.counts.note(&result);
        result
    }

    fn write(&mut self, file: u32, offset: u64, buf: &[u8]) -> Result<usize, EngineFault>
        requires { self.old.calls < 2 ^ 64 - 1 }
        ensures outside { IfErr result (λ fault. fault ≡ EngineFault.Outside) }
        ensures whole { IfOk result (λ n. n ≡ length buf.now) }
        ensures counts { Counts (counted_state self.old) result (counted_state self.new) }
        ensures few { (counted_state self.new).failures ≤ (counted_state self.new).calls }
        ensures most { IfOk result (λ n. n ≤ length buf.now) }
        ensures replies { WritesInside (counted_state self.old) file offset buf.now result (counted_state self.new) }
    {
        let result = write_files(self.files.lock(&self.rt).as_mut_slice(), file, offset, buf);
        self.counts.note(&result);
        result
    }

    fn calls(&self) -> u64 {
        self.counts.calls()
    }

    fn failures(&self) -> u64 {
        self.counts.failures()
    }
}
