ghost use Rattle.std.specs.Prelude.{◌≡◌, None, fold, nat_eq};
ghost use Rattle.std.specs.HashSet.{contains};
ghost use Rattle.jr_model.specs.LastWrite.{covers_block, last_write, is_this_write, is_intact};
ghost use Rattle.jr_replay_history.specs.Raced.{AreEndedRaced};
ghost use Rattle.jr_replay_history.specs.WriteEnds.{if_whole, is_over_block, last_by};

use crate::histories::Past;
use crate::ledgers::Ledger;
use crate::marks::WriteEnd;
use crate::parts::part_of;
use jr_model::{Piece, SECTOR, WriteId, same_write};
use std::collections::HashSet;

// Whether the block of this file lies in the piece.
fn covers_block(piece: &Piece, file: u32, block: u64) -> bool
    ensures { result ≡ covers_block piece.now file block }
{
    let start = u128::from(block) * u128::from(SECTOR);
    let offset = u128::from(piece.offset);
    piece.file == file && offset <= start && start < offset + u128::from(piece.len)
}

// Whether a write that ended lies over the block.
fn is_over_block(file: u32, block: u64, end: &WriteEnd) -> bool
    ensures { result ≡ is_over_block file block end.now }
{
    covers_block(&end.piece, file, block)
}

// The write, where it ended whole and is none of these that raced.
fn if_whole(raced: &HashSet<usize>, end: &WriteEnd) -> Option<WriteId>
    ensures { result ≡ if_whole (λ io. contains nat_eq raced.now io) end.now }
{
    if end.whole && !raced.contains(&end.io) {
        Some(end.write)
    } else {
        None
    }
}

// The block's last write by these ends of writes, of which these raced.
fn last_by(raced: &HashSet<usize>, ends: &[WriteEnd], file: u32, block: u64) -> Option<WriteId>
    ensures { result ≡ fold (last_by (λ io. contains nat_eq raced.now io) file block) None ends.now }
{
    let mut left = ends;
    while let Some((end, before)) = left.split_last() {
        if is_over_block(file, block, end) {
            return if_whole(raced, end);
        }
        left = before;
    }
    None
}

/// The write that ended last of all that cover this 512-byte block of a file, if it ended whole and didn't race. Of the I/Os that
/// ended, these raced.
pub fn last_write_by(
    ledger: &Ledger,
    raced: &HashSet<usize>,
    file: u32,
    block: u64,
) -> Option<WriteId>
    requires { AreEndedRaced ledger.now raced.now }
    ensures { result ≡ last_write ledger.now file block }
{
    let ends = ledger.ends_over(file, part_of(block));
    last_by(raced, ends, file, block)
}

/// The write that ended last of all that cover this 512-byte block of a file, if it ended whole and didn't race.
pub fn last_write(past: &Past, file: u32, block: u64) -> Option<WriteId>
    ensures { result ≡ last_write past.now file block }
{
    last_write_by(past.ledger(), past.raced(), file, block)
}

// Whether the last write is this one.
fn is_this_write(write: &WriteId, last: Option<WriteId>) -> bool
    ensures { result ≡ is_this_write write.now last }
{
    match last {
        None => false,
        Some(other) => same_write(&other, write),
    }
}

/// Whether a write is the last one of each block of its piece. Of the I/Os that ended, these raced.
pub fn is_intact_by(ledger: &Ledger, raced: &HashSet<usize>, write: &WriteId, piece: &Piece) -> bool
    requires { AreEndedRaced ledger.now raced.now }
    ensures { result ≡ is_intact ledger.now write.now piece.now }
{
    let first = piece.offset / u64::from(SECTOR);
    let count = u64::from(piece.len / SECTOR);
    (first..first + count).all(|block| is_this_write(
        write,
        last_write_by(ledger, raced, piece.file, block),
    ))
}

/// Whether a write is the last one of each block of its piece.
pub fn is_intact(past: &Past, write: &WriteId, piece: &Piece) -> bool
    ensures { result ≡ is_intact past.now write.now piece.now }
{
    is_intact_by(past.ledger(), past.raced(), write, piece)
}
