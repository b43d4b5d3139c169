// Engines: what carries out reads and writes, and what one call of it did.
#![tactic(auto)]

mod answers;
mod call_counts;
mod engines;
mod faults;
mod files;
mod memory_engine;
mod null_engine;
mod scripted_engine;
mod shared_memory;
mod slices;

pub use answers::{Answer, ask};
pub use call_counts::CallCounts;
pub use engines::Engine;
pub use faults::EngineFault;
pub use jr_model::{Reply, ReplyBytes};
pub use memory_engine::MemoryEngine;
pub use null_engine::NullEngine;
pub use scripted_engine::ScriptedEngine;
pub use shared_memory::SharedMemory;
