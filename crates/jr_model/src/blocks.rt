ghost use Rattle.std.specs.Prelude.{◌≡◌};
ghost use Rattle.jr_model.specs.Pieces.{pieces_overlap, piece_end};

/// Some adjacent bytes of a file: where an I/O reads or writes.
#[derive(Clone, Copy, Debug, PartialEq, Eq)]
pub struct Piece {
    /// Where the piece begins, in bytes from the start of the file.
    pub offset: u64,
    /// The file, by its place in the plan's list of files.
    pub file: u32,
    /// How many bytes it has.
    pub len: u32,
}

/// Which way an I/O moves data.
#[derive(Clone, Copy, Debug, PartialEq, Eq)]
pub enum Dir {
    Read,
    Write,
}

/// Whether two pieces are of one file and share a byte.
pub fn overlaps(a: &Piece, b: &Piece) -> bool
    ensures { result ≡ pieces_overlap a.now b.now }
{
    let start = a.offset.max(b.offset);
    let end = end_of(a).min(end_of(b));
    a.file == b.file && u128::from(start) < end
}

// The first offset past the piece, in bytes.
fn end_of(piece: &Piece) -> u128
    ensures { result ≡ piece_end piece.now }
{
    u128::from(piece.offset) + u128::from(piece.len)
}
