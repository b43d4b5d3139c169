ghost use Rattle.std.specs.Prelude.{◌≡◌};
ghost use Rattle.jr_model.specs.Directions.{has_reads, has_writes};

use crate::blocks::{Dir, Piece};

/// The I/O type of a job (fio's `rw`).
#[derive(Clone, Copy, PartialEq, Eq)]
pub enum IoType {
    Read,
    Write,
    RandRead,
    RandWrite,
    /// Sequential, reads and writes mixed.
    ReadWrite,
    /// Random, reads and writes mixed.
    RandRw,
}

impl IoType {
    /// Whether a job of this type reads.
    pub fn has_reads(self) -> bool
        ensures { result ≡ has_reads self }
    {
        !matches!(self, IoType::Write | IoType::RandWrite)
    }

    /// Whether a job of this type writes.
    pub fn has_writes(self) -> bool
        ensures { result ≡ has_writes self }
    {
        !matches!(self, IoType::Read | IoType::RandRead)
    }
}

/// What carries out the I/O of a run.
#[derive(Clone, Copy, Debug, PartialEq, Eq)]
pub enum EngineKind {
    File,
    Memory,
    Null,
}

/// One I/O of a pass, as the job file and the generator determine it.
#[derive(Clone, Copy, Debug, PartialEq, Eq)]
pub struct Draw {
    /// Its place in the pass, from 0.
    pub number: u32,
    pub dir: Dir,
    pub piece: Piece,
    /// The seed of the block's filler.
    pub seed: u64,
}
