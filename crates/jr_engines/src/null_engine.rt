ghost use Rattle.std.specs.Prelude.{◌≡◌, ◌-◌, ◌^◌, ◌<◌, ◌≤◌, Ok, length, replicate, IfOk};
ghost use Rattle.jr_engines.specs.Calls.{Counts, ReadsInside, WritesInside};
ghost use Rattle.jr_engines.specs.States.{null_state};

use crate::engines::Engine;
use crate::faults::EngineFault;
use std::marker::Model;

/// An engine that moves nothing: each write is said to be done, each read gives zeros, and none fails.
#[derive(Drop)]
pub struct NullEngine {
    calls: u64,
}

impl Model for NullEngine {
    ghost use Rattle.jr_engines.specs.States.{NullState};

    ghost Value = { NullState };

    ghost view = { λ a. record { calls = a.calls } };
}

impl NullEngine {
    /// An engine that keeps nothing and reads zeros. No call was made yet.
    pub fn new() -> NullEngine
        ensures { result ≡ record { calls = 0 } }
    {
        NullEngine { calls: 0 }
    }
}

impl Engine for NullEngine {
    ghost state = { null_state };

    fn read(&mut self, _file: u32, _offset: u64, buf: &mut [u8]) -> Result<usize, EngineFault>
        requires { self.old.calls < 2 ^ 64 - 1 }
        ensures answer { result ≡ Ok (length buf.old) }
        ensures zeros { buf.new ≡ replicate (length buf.old) 0 }
        ensures counts { Counts (null_state self.old) result (null_state self.new) }
        ensures few { (null_state self.new).failures ≤ (null_state self.new).calls }
        ensures most { IfOk result (λ n. n ≤ length buf.old) }
        ensures replies { ReadsInside (null_state self.old) _file _offset buf.old result (null_state self.new) buf.new }
    {
        buf.fill(0);
        self.calls += 1;
        Ok(buf.len())
    }

    fn write(&mut self, _file: u32, _offset: u64, buf: &[u8]) -> Result<usize, EngineFault>
        requires { self.old.calls < 2 ^ 64 - 1 }
        ensures answer { result ≡ Ok (length buf.now) }
        ensures counts { Counts (null_state self.old) result (null_state self.new) }
        ensures few { (null_state self.new).failures ≤ (null_state self.new).calls }
        ensures most { IfOk result (λ n. n ≤ length buf.now) }
        ensures replies { WritesInside (null_state self.old) _file _offset buf.now result (null_state self.new) }
    {
        self.calls += 1;
        Ok(buf.len())
    }

    fn calls(&self) -> u64 {
        self.calls
    }

    fn failures(&self) -> u64 {
        0
    }
}
