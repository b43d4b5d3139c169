ghost use Rattle.std.specs.Prelude.{◌≡◌, ◌-◌, ◌^◌, ◌<◌, ◌≤◌};
ghost use Rattle.jr_engines.specs.CallCounts.{Notes};

use crate::faults::EngineFault;
use std::marker::Model;

/// The calls that an engine has had, and how many of them failed, for engines to keep.
#[derive(Drop)]
pub struct CallCounts {
    calls: u64,
    failures: u64,
}

impl Model for CallCounts {
    ghost use Rattle.std.specs.Prelude.{◌≤◌};
    ghost use Rattle.jr_engines.specs.CallCounts.{CallCounts as CallCountsRecord};

    ghost Value = { CallCountsRecord };

    ghost view = { λ a. record { calls = a.calls; failures = a.failures } };

    ghost invariant = { λ a. a.failures ≤ a.calls };
}

impl CallCounts {
    /// No call yet.
    pub fn new() -> CallCounts
        ensures { result ≡ record { calls = 0; failures = 0 } }
    {
        CallCounts {
            calls: 0,
            failures: 0,
        }
    }

    /// Notes one more call and how it ended.
    pub fn note(&mut self, answer: &Result<usize, EngineFault>)
        requires { self.old.calls < 2 ^ 64 - 1 }
        ensures notes { Notes self.old answer.now self.new }
        ensures few { self.new.failures ≤ self.new.calls }
    {
        self.calls += 1;
        if answer.is_err() {
            self.failures += 1;
        }
    }

    /// How many calls there were.
    pub fn calls(&self) -> u64
        ensures { result ≡ self.now.calls }
    {
        self.calls
    }

    /// How many of them answered an error.
    pub fn failures(&self) -> u64
        ensures value { result ≡ self.now.failures }
        ensures few { self.now.failures ≤ self.now.calls }
    {
        self.failures
    }
}
