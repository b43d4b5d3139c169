ghost use Rattle.std.specs.Prelude.{◌≡◌, ◌-◌, ◌^◌, ◌<◌, ◌≤◌, ◌++◌, length, IsTrue, false, IfOk, unwrap_or, option_to_list};
ghost use Rattle.std.specs.Option.{option_copied};
ghost use Rattle.jr_model.specs.declared.replies.Reply.TheVariants.{Pass};
ghost use Rattle.jr_model.specs.Replies.{covers, scripted_reply, stored, memory_with, reply_to_write};
ghost use Rattle.jr_engines.specs.Calls.{Counts, ReadsInside, RepliesToRead, WritesInside, answer_of};
ghost use Rattle.jr_engines.specs.Files.{IsMemoryRead};
ghost use Rattle.jr_engines.specs.States.{scripted_state};

use crate::call_counts::CallCounts;
use crate::engines::Engine;
use crate::faults::EngineFault;
use crate::files::{MemoryFile, has_range, read_files, read_files_by, write_files, write_files_by};
use crate::memory_engine::MemoryEngine;
use jr_model::Reply;
use std::marker::Model;

/// An engine over bytes in memory whose calls are carried out by replies, to see what a fault does.
///
/// A call that the memory doesn't cover is carried out as a memory engine does it, whatever its reply.
#[derive(Drop)]
pub struct ScriptedEngine {
    files: Vec<MemoryFile>,
    counts: CallCounts,
    set: Option<(u64, Reply)>,
    script: Vec<(u64, Reply)>,
}

impl Model for ScriptedEngine {
    ghost use Rattle.jr_engines.specs.States.{ScriptedState};

    ghost Value = { ScriptedState };

    ghost view = { λ a. record { calls = a.counts.calls; failures = a.counts.failures; memory = a.files.items; set = a.set; script = a.script.items } };
}

impl ScriptedEngine {
    /// The engine over this memory. The script names calls by their numbers, from 0; the first entry for a
    /// number counts, and a call without one is carried out.
    pub fn new(memory: MemoryEngine, script: Vec<(u64, Reply)>) -> ScriptedEngine
        ensures { let files = memory.memory in
            result ≡ record { calls = 0; failures = 0; memory = files; set = None; script = script.items } }
    {
        ScriptedEngine {
            files: memory.into_files(),
            counts: CallCounts::new(),
            set: None,
            script,
        }
    }

    /// Gives the next call this reply in place of the script's.
    pub fn set_next(&mut self, reply: Reply)
        ensures { self.new ≡ record self.old { set = Some (self.old.calls, reply) } }
    {
        self.set = Some((self.counts.calls(), reply));
    }
}

impl Engine for ScriptedEngine {
    ghost state = { scripted_state };

    fn read(&mut self, file: u32, offset: u64, buf: &mut [u8]) -> Result<usize, EngineFault>
        requires { self.old.calls < 2 ^ 64 - 1 }
        ensures outside { covers self.old.memory file offset (length buf.old) ≡ false
            → IsMemoryRead self.old.memory file offset buf.old result buf.new }
        ensures memory { self.new.memory ≡ self.old.memory }
        ensures set { self.new.set ≡ self.old.set }
        ensures script { self.new.script ≡ self.old.script }
        ensures counts { Counts (scripted_state self.old) result (scripted_state self.new) }
        ensures few { (scripted_state self.new).failures ≤ (scripted_state self.new).calls }
        ensures most { IfOk result (λ n. n ≤ length buf.old) }
        ensures replies { ReadsInside (scripted_state self.old) file offset buf.old result (scripted_state self.new) buf.new }
    {
        let reply = next_reply(&self.set, self.script.as_slice(), self.counts.calls());
        let result = read_scripted(reply, self.files.as_slice(), file, offset, buf);
        self.counts.note(&result);
        result
    }

    fn write(&mut self, file: u32, offset: u64, buf: &[u8]) -> Result<usize, EngineFault>
        requires { self.old.calls < 2 ^ 64 - 1 }
        ensures outside { covers self.old.memory file offset (length buf.now) ≡ false
            → result ≡ Err EngineFault.Outside }
        ensures outside_memory { covers self.old.memory file offset (length buf.now) ≡ false
            → self.new.memory ≡ self.old.memory }
        ensures set { self.new.set ≡ self.old.set }
        ensures script { self.new.script ≡ self.old.script }
        ensures counts { Counts (scripted_state self.old) result (scripted_state self.new) }
        ensures few { (scripted_state self.new).failures ≤ (scripted_state self.new).calls }
        ensures most { IfOk result (λ n. n ≤ length buf.now) }
        ensures replies { WritesInside (scripted_state self.old) file offset buf.now result (scripted_state self.new) }
    {
        let reply = next_reply(&self.set, self.script.as_slice(), self.counts.calls());
        let result = write_scripted(reply, self.files.as_mut_slice(), file, offset, buf);
        self.counts.note(&result);
        result
    }

    fn calls(&self) -> u64 {
        self.counts.calls()
    }

    fn failures(&self) -> u64 {
        self.counts.failures()
    }
}

// The reply to the call of this number, if there is one: that which was set for it, else the script's.
fn next_reply<'a>(
    set: &'a Option<(u64, Reply)>,
    script: &'a [(u64, Reply)],
    call: u64,
) -> Option<&'a Reply>
    ensures { unwrap_or (option_copied result) Pass ≡ scripted_reply (option_to_list set.now ++ script.now) call }
{
    match set {
        Some((number, reply)) if *number == call => Some(reply),
        _ => reply_in(script, call),
    }
}

// The first reply to the call of this number, if the script has one.
fn reply_in(script: &[(u64, Reply)], call: u64) -> Option<&Reply>
    ensures { unwrap_or (option_copied result) Pass ≡ scripted_reply script.now call }
{
    for entry in script {
        if entry.0 == call {
            return Some(&entry.1);
        }
    }
    None
}

// A read by this reply where the memory has all of these bytes, else as a memory engine does it.
fn read_scripted(
    reply: Option<&Reply>,
    files: &[MemoryFile],
    file: u32,
    offset: u64,
    buf: &mut [u8],
) -> Result<usize, EngineFault>
    ensures outside { covers files.now file offset (length buf.old) ≡ false
        → IsMemoryRead files.now file offset buf.old result buf.new }
    ensures most { IfOk result (λ n. n ≤ length buf.old) }
    ensures inside { IsTrue (covers files.now file offset (length buf.old))
        → RepliesToRead (unwrap_or (option_copied reply.entry) Pass)
        (stored files.now file offset (length buf.old)) buf.old result buf.new }
{
    match reply {
        Some(reply) if has_range(files, file, offset, buf.len()) => {
            read_files_by(reply, files, file, offset, buf)
        }
        _ => read_files(files, file, offset, buf),
    }
}

// A write by this reply where the memory has all of these bytes, else as a memory engine does it.
fn write_scripted(
    reply: Option<&Reply>,
    files: &mut [MemoryFile],
    file: u32,
    offset: u64,
    buf: &[u8],
) -> Result<usize, EngineFault>
    ensures outside { covers files.old file offset (length buf.now) ≡ false
        → result ≡ Err EngineFault.Outside }
    ensures outside_memory { covers files.old file offset (length buf.now) ≡ false
        → files.new ≡ files.old }
    ensures most { IfOk result (λ n. n ≤ length buf.now) }
    ensures answer { IsTrue (covers files.old file offset (length buf.now))
        → result ≡ answer_of (reply_to_write (unwrap_or (option_copied reply.entry) Pass) buf.now).count }
    ensures memory { IsTrue (covers files.old file offset (length buf.now))
        → files.new ≡ memory_with files.old file offset
        (reply_to_write (unwrap_or (option_copied reply.entry) Pass) buf.now).stored }
{
    match reply {
        Some(reply) if has_range(files, file, offset, buf.len()) => {
            write_files_by(reply, files, file, offset, buf)
        }
        _ => write_files(files, file, offset, buf),
    }
}
