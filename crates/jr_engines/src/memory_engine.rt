ghost use Rattle.std.specs.Prelude.{◌≡◌, ◌-◌, ◌^◌, ◌<◌, ◌≤◌, length, IfOk, OnOk, OnErr};
ghost use Rattle.jr_model.specs.Replies.{fresh_memory, memory_with};
ghost use Rattle.jr_engines.specs.Calls.{Counts, ReadsInside, WritesInside};
ghost use Rattle.jr_engines.specs.Files.{IsMemoryRead, write_answer};
ghost use Rattle.jr_engines.specs.States.{memory_state};

use crate::call_counts::CallCounts;
use crate::engines::Engine;
use crate::faults::EngineFault;
use crate::files::{MemoryFile, fresh_files, read_files, write_files};
use jr_model::Memory;
use jr_plan::Plan;
use std::alloc::Global;
use std::marker::Model;

/// An engine over bytes in memory: each file from the least start of a clone's region up to the greatest end.
#[derive(Drop)]
pub struct MemoryEngine {
    files: Vec<MemoryFile>,
    counts: CallCounts,
}

impl Model for MemoryEngine {
    ghost use Rattle.jr_engines.specs.States.{MemoryState};

    ghost Value = { MemoryState };

    ghost view = { λ a. record { calls = a.counts.calls; failures = a.counts.failures; memory = a.files.items } };
}

impl MemoryEngine {
    /// The engine for a plan's files, all zeros.
    pub fn new(alloc: Global, plan: &Plan) -> Result<MemoryEngine, Memory>
        ensures { let fresh = fresh_memory plan.now.files in
            IfOk result (λ engine. engine ≡ record { calls = 0; failures = 0; memory = fresh }) }
    {
        let files = fresh_files(alloc, plan.files())?;
        Ok(MemoryEngine {
            files,
            counts: CallCounts::new(),
        })
    }

    /// The files alone, for an engine of another kind. The counts of calls are dropped.
    pub fn into_files(self) -> Vec<MemoryFile>
        ensures { result.items ≡ self.memory }
    {
        let MemoryEngine { files, counts: _ } = self;
        files
    }
}

impl Engine for MemoryEngine {
    ghost state = { memory_state };

    fn read(&mut self, file: u32, offset: u64, buf: &mut [u8]) -> Result<usize, EngineFault>
        requires { self.old.calls < 2 ^ 64 - 1 }
        ensures reads { IsMemoryRead self.old.memory file offset buf.old result buf.new }
        ensures memory { self.new.memory ≡ self.old.memory }
        ensures counts { Counts (memory_state self.old) result (memory_state self.new) }
        ensures few { (memory_state self.new).failures ≤ (memory_state self.new).calls }
        ensures most { IfOk result (λ n. n ≤ length buf.old) }
        ensures replies { ReadsInside (memory_state self.old) file offset buf.old result (memory_state self.new) buf.new }
    {
        let result = read_files(self.files.as_slice(), file, offset, buf);
        self.counts.note(&result);
        result
    }

    fn write(&mut self, file: u32, offset: u64, buf: &[u8]) -> Result<usize, EngineFault>
        requires { self.old.calls < 2 ^ 64 - 1 }
        ensures answer { result ≡ write_answer self.old.memory file offset (length buf.now) }
        ensures stores { OnOk result (self.new.memory ≡ memory_with self.old.memory file offset buf.now) }
        ensures err { OnErr result (self.new.memory ≡ self.old.memory) }
        ensures counts { Counts (memory_state self.old) result (memory_state self.new) }
        ensures few { (memory_state self.new).failures ≤ (memory_state self.new).calls }
        ensures most { IfOk result (λ n. n ≤ length buf.now) }
        ensures replies { WritesInside (memory_state self.old) file offset buf.now result (memory_state self.new) }
    {
        let result = write_files(self.files.as_mut_slice(), file, offset, buf);
        self.counts.note(&result);
        result
    }

    fn calls(&self) -> u64 {
        self.counts.calls()
    }

    fn failures(&self) -> u64 {
        self.counts.failures()
    }
}
