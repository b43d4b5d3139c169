ghost use Rattle.std.specs.Prelude.{◌≡◌};
ghost use Rattle.jr_model.specs.Pieces.{piece_end};
ghost use Rattle.jr_after.specs.Findings.{named_by};
ghost use Rattle.jr_after.specs.Writes.{has_chunk, is_chunk};

use crate::ledgers::line_of;
use jr_ledger::LedgerLine;
use jr_model::{Method, Piece, WriteId};

/// A write of a plan, with all that its bytes follow from.
#[derive(Clone, Copy, PartialEq, Eq)]
pub struct PlannedWrite {
    pub write: WriteId,
    pub piece: Piece,
    /// The seed of the filler, if the job has no pattern.
    pub seed: u64,
    pub method: Method,
}

/// A write of a plan and the place of its line in a ledger, from 0, if the ledger names it.
#[derive(Clone, Copy, PartialEq, Eq)]
pub struct Named {
    pub planned: PlannedWrite,
    pub line: Option<usize>,
}

/// The write with its line in this ledger.
pub fn named_by(lines: &[LedgerLine], planned: &PlannedWrite) -> Named
    ensures { result ≡ named_by lines.now planned.now }
{
    Named {
        planned: *planned,
        line: line_of(lines, &planned.write),
    }
}

/// Whether a piece of a file is one of the chunks that the write is cut into: the parts with a header each, or the whole block if it has one.
pub fn has_chunk(chunk: &Piece, planned: &PlannedWrite) -> bool
    ensures { result ≡ has_chunk chunk.now planned.now }
{
    planned.piece.file == chunk.file && is_chunk(planned.method.interval, &planned.piece, chunk)
}

// Whether a piece is a chunk of another one whose headers stand at this interval.
fn is_chunk(interval: u32, piece: &Piece, chunk: &Piece) -> bool
    ensures { result ≡ is_chunk interval piece.now chunk.now }
{
    if interval == 0 {
        return chunk.offset == piece.offset && chunk.len == piece.len;
    }
    chunk.len == interval
        && piece.offset <= chunk.offset
        && end_of(chunk) <= end_of(piece)
        && (chunk.offset - piece.offset) % u64::from(interval) == 0
}

// The first offset past a piece, in bytes.
fn end_of(piece: &Piece) -> u128
    ensures { result ≡ piece_end piece.now }
{
    u128::from(piece.offset) + u128::from(piece.len)
}
