ghost use Rattle.std.specs.Prelude.{◌≡◌};
ghost use Rattle.jr_model.specs.Report.{part_text};

use crate::blocks::Piece;
use crate::tickets::TicketKind;
use std::fmt;

/// The number of an I/O or a check, counted from 0 over all that a run starts.
pub type IoId = u32;

/// A write of a run: the clone that issues it, the pass, and the draw's number in that pass.
#[derive(Clone, Copy, Debug, PartialEq, Eq, PartialOrd, Ord, Hash)]
pub struct WriteId {
    pub clone: u32,
    pub pass: u32,
    pub number: u32,
}

/// An I/O of a job, or a check, as it was started. Its number is its place among all that were.
#[derive(Clone, Copy, PartialEq, Eq)]
pub struct Started {
    pub worker: u32,
    pub kind: TicketKind,
    /// The draw, and for a check the write that it reads back.
    pub write: WriteId,
    pub piece: Piece,
}

/// How an I/O ended.
#[derive(Clone, Copy, Debug, PartialEq, Eq)]
pub enum Outcome {
    /// All bytes were moved.
    Whole,
    /// The engine answered an error.
    Failed,
    /// The engine moved only this many bytes, fewer than the piece has.
    Short(u32),
}

/// What is wrong first with the bytes of a check.
#[derive(Clone, Copy, Debug, PartialEq, Eq)]
pub enum What {
    /// The first half of the header isn't the one that was written.
    Header,
    /// The digest in the header isn't the one that was written.
    Digest,
    /// The bytes after the header don't have the digest that was written.
    DataArea,
    /// The byte at this place is the first that differs from the pattern.
    Byte(u32),
    /// This part of this chunk, counted from 0, in a block with a header at each interval.
    Chunk(u32, Part),
}

/// What is wrong first with a chunk of a block.
#[derive(Clone, Copy, Debug, PartialEq, Eq)]
pub enum Part {
    /// The first half of its header isn't the one that was written.
    Header,
    /// The digest in its header isn't the one that was written.
    Digest,
    /// The bytes after its header don't have the digest that was written.
    DataArea,
}

impl Part {
    /// The word by which reports name it.
    pub fn word(self) -> &'static str
        ensures { result.now ≡ part_text self }
    {
        match self {
            Part::Header => "header",
            Part::Digest => "digest",
            Part::DataArea => "data",
        }
    }
}

/// As reports have it: `header`, `digest`, `data`, `byte:PLACE`, or a part with its chunk, `data:CHUNK`.
impl fmt::Display for What {
    ghost use Rattle.std.specs.Prelude.{Some};
    ghost use Rattle.jr_model.specs.Report.{what_text};

    ghost output = { λ what. Some (what_text what) };

    fn fmt<W: fmt::Write>(&self, f: &mut fmt::Formatter<W>) -> fmt::Result {
        match self {
            What::Header => f.write_str(Part::Header.word()),
            What::Digest => f.write_str(Part::Digest.word()),
            What::DataArea => f.write_str(Part::DataArea.word()),
            What::Byte(place) => write!(f, "byte:{place}"),
            What::Chunk(chunk, part) => {
                let word = part.word();
                write!(f, "{word}:{chunk}")
            }
        }
    }
}

/// What is said of a check.
#[derive(Clone, Copy, Debug, PartialEq, Eq)]
pub enum Verdict {
    Good,
    Bad(What),
    /// Nothing is said of its bytes: a write overlapped it while both were in flight.
    Void,
}

/// What a draw is issued as.
#[derive(Clone, Copy, Debug, PartialEq, Eq)]
pub enum IssueKind {
    Read,
    Write,
    /// A read that is judged by what its bytes say of themselves.
    ReadCheck,
}

/// One step of a run, with the worker or verifier that made it.
#[derive(Clone, Copy, Debug, PartialEq, Eq)]
pub enum Event {
    /// A read or write of the job was started: the draw that `write` names, over `piece`.
    Issue {
        worker: u32,
        kind: IssueKind,
        write: WriteId,
        piece: Piece,
    },
    /// The check of a write was started, over the piece that it wrote.
    Probe {
        worker: u32,
        write: WriteId,
        piece: Piece,
    },
    /// A write is not checked, since a later write took some of its blocks.
    Skip {
        worker: u32,
        write: WriteId,
    },
    /// An I/O or a check ended.
    End {
        worker: u32,
        io: IoId,
        outcome: Outcome,
    },
    /// A check got its verdict.
    Verdict {
        worker: u32,
        io: IoId,
        verdict: Verdict,
    },
}
