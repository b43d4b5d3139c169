ghost use Rattle.std.specs.Prelude.{◌≡◌, ◌-◌, ◌^◌, ◌<◌, ◌≤◌, length, IfOk};
ghost use Rattle.jr_model.specs.Replies.{EngineState};
ghost use Rattle.jr_engines.specs.Calls.{Counts, ReadsInside, WritesInside};

use crate::faults::EngineFault;

/// What carries out reads and writes of files: a device, a memory, or nothing at all.
///
/// A file is named by its place in the plan's list of files. Contracts see the calls made and failed and,
/// if they are known, the memory and the replies to its calls (`EngineState`).
pub trait Engine: Drop {
    ghost state: { Self → EngineState };

    /// Reads the file's bytes from `offset` on, as many as the buffer has, and answers how many it got.
    /// After an error nothing is known of the buffer but its length, unless the memory is known.
    fn read(&mut self, file: u32, offset: u64, buf: &mut [u8]) -> Result<usize, EngineFault>
        requires { (state self.old).calls < 2 ^ 64 - 1 }
        ensures counts { Counts (state self.old) result (state self.new) }
        ensures few { (state self.new).failures ≤ (state self.new).calls }
        ensures most { IfOk result (λ n. n ≤ length buf.old) }
        ensures replies { ReadsInside (state self.old) file offset buf.old result (state self.new) buf.new };

    /// Writes the buffer into the file from `offset` on, and answers how many bytes it took.
    fn write(&mut self, file: u32, offset: u64, buf: &[u8]) -> Result<usize, EngineFault>
        requires { (state self.old).calls < 2 ^ 64 - 1 }
        ensures counts { Counts (state self.old) result (state self.new) }
        ensures few { (state self.new).failures ≤ (state self.new).calls }
        ensures most { IfOk result (λ n. n ≤ length buf.now) }
        ensures replies { WritesInside (state self.old) file offset buf.now result (state self.new) };

    /// How many reads and writes it has had.
    fn calls(&self) -> u64
        ensures { result ≡ (state self.now).calls };

    /// How many of them answered an error.
    fn failures(&self) -> u64
        ensures value { result ≡ (state self.now).failures }
        ensures few { (state self.now).failures ≤ (state self.now).calls };
}
