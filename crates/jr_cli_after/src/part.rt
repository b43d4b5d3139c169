// A chunk's part of the bytes that were read.
ghost use Rattle.std.specs.Prelude.{◌≡◌, ◌<◌, ◌+◌, ◌^◌, length};
ghost use Rattle.jr_after.specs.Ledgers.{kept_lines};
ghost use Rattle.jr_cli_after.specs.Reading.{IsPartOf};
ghost use Rattle.jr_cli_after.specs.Readings.{part_of};

use crate::judge::Judge;
use jr_model::Piece;

// A chunk that was read whole, and by what it is judged.
#[derive(Drop)]
pub(crate) struct Part<'a, 'b> {
    pub(crate) judge: &'a Judge<'b>,
    pub(crate) kept: usize,
    pub(crate) chunk: Piece,
    pub(crate) bytes: &'a [u8],
    ghost kept_are: { kept ≡ kept_lines chunk.file judge.now.lines },
    ghost some: { 0 < chunk.len },
    ghost end: { chunk.offset + chunk.len < 2 ^ 64 },
    ghost whole: { length bytes.now ≡ chunk.len },
}

// A chunk's part of these bytes of its file.
pub(crate) fn part_of<'a>(piece: &Piece, bytes: &'a [u8], chunk: &Piece) -> &'a [u8]
    requires part { IsPartOf piece.now chunk.now }
    requires length { length bytes.now ≡ piece.now.len }
    ensures value { result.now ≡ part_of piece.now.offset bytes.now chunk.now }
    ensures length { length result.now ≡ chunk.now.len }
{
    let from = (chunk.offset - piece.offset) as usize;
    let (_, rest) = bytes.split_at(from);
    let (part, _) = rest.split_at(chunk.len as usize);
    part
}
