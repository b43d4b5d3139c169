// Which reads and writes of a file the system refused, and why.
ghost use Rattle.std.specs.Prelude.{◌≡◌, IfOk, IfSome, IsTrue, vec_len};
ghost use Rattle.jr_io_blocks.specs.Failures.{IsCallFor};

use jr_model::Dir;
use std::alloc::{AllocError, Global};
use std::io;
use std::sync::OnceLock;
use std::sync::atomic::{AtomicU64, Ordering};

/// So many failed calls of a file are kept at most.
pub const MOST_KEPT: usize = 128;

/// A read or write of a file that the system refused, and its reason.
#[derive(Clone, Copy)]
pub struct FailedCall {
    pub dir: Dir,
    pub offset: u64,
    pub len: u64,
    pub error: io::Error,
}

impl FailedCall {
    // Whether it was to read or write these bytes.
    fn is_for(&self, dir: Dir, offset: u64, len: u64) -> bool
        ensures { IsTrue result → IsCallFor dir offset len self.now }
    {
        self.dir == dir && self.offset == offset && self.len == len
    }
}

/// The first failed calls of a file, as all of its handles share them. No call of it waits or asks for memory.
#[derive(Drop)]
pub struct Failures {
    kept: Vec<OnceLock<FailedCall>>,
    count: AtomicU64,
    ghost all: { vec_len kept ≡ 128 },
}

impl Failures {
    /// Before any call has failed.
    pub fn new(alloc: Global) -> Result<Failures, AllocError> {
        Ok(Failures {
            kept: empty(alloc)?,
            count: AtomicU64::new(0),
        })
    }

    /// Keeps a call, if not so many were kept before.
    pub fn keep(&self, call: FailedCall) {
        let place = self.count.fetch_add(1, Ordering::SeqCst);
        if place < MOST_KEPT as u64 {
            // (each place is given to one call alone)
            let _ = self.kept[place as usize].try_set(call);
        }
    }

    /// A kept call that was to read or write these bytes: the first, if there were several.
    pub fn found(&self, dir: Dir, offset: u64, len: u64) -> Option<FailedCall>
        ensures { IfSome result (IsCallFor dir offset len) }
    {
        for slot in self.kept.as_slice() {
            if let Some(call) = in_slot(slot)
                && call.is_for(dir, offset, len)
            {
                return Some(call);
            }
        }
        None
    }
}

fn in_slot(slot: &OnceLock<FailedCall>) -> Option<FailedCall> {
    slot.get().copied()
}

// So many places, with no call in any.
fn empty(alloc: Global) -> Result<Vec<OnceLock<FailedCall>>, AllocError>
    ensures { IfOk result (λ kept. vec_len kept ≡ 128) }
{
    let mut kept = Vec::new(alloc);
    for _ in 0..MOST_KEPT {
        kept.push(OnceLock::new())?;
    }
    Ok(kept)
}
