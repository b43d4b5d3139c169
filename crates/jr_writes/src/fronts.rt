// The first half of a header, which follows from the write that puts it there.
ghost use Rattle.std.specs.Prelude.{◌≡◌, ◌++◌};
ghost use Rattle.jr_model.specs.Content.{block_version, digest_length, header_front, kind_code};

use jr_model::{Piece, VerifyKind, WriteId};

/// The first half of the header of a whole block: who wrote what, and where.
pub fn header_front(kind: VerifyKind, write: &WriteId, piece: &Piece) -> [u8; 32]
    ensures { result ≡ header_front block_version kind write.now piece.now }
{
    let pass = write.pass.to_le_bytes();
    let mut front = [0; 32];
    front[..4].copy_from_slice(&[0x4a, 0x52, 0x56, 0x31]);
    front[4] = kind_code(kind);
    front[5] = digest_length(kind);
    front[6..8].copy_from_slice(&[pass[0], pass[1]]);
    front[8..12].copy_from_slice(&piece.len.to_le_bytes());
    front[12..16].copy_from_slice(&write.clone.to_le_bytes());
    front[16..24].copy_from_slice(&piece.offset.to_le_bytes());
    front[24..32].copy_from_slice(&u64::from(write.number).to_le_bytes());
    front
}

/// A header of these two halves.
pub fn header_of_halves(front: &[u8; 32], back: &[u8; 32]) -> [u8; 64]
    ensures { result ≡ front.now ++ back.now }
{
    let mut header = [0; 64];
    header[..32].copy_from_slice(front);
    header[32..].copy_from_slice(back);
    header
}

// The kind's number in a header.
fn kind_code(kind: VerifyKind) -> u8
    ensures { result ≡ kind_code kind }
{
    match kind {
        VerifyKind::Plain | VerifyKind::Pattern => 0,
        VerifyKind::Md5 => 1,
        VerifyKind::Sha1 => 2,
        VerifyKind::Sha256 => 3,
    }
}

// How many bytes its digest has.
fn digest_length(kind: VerifyKind) -> u8
    ensures { result ≡ digest_length kind }
{
    match kind {
        VerifyKind::Plain | VerifyKind::Pattern => 0,
        VerifyKind::Md5 => 16,
        VerifyKind::Sha1 => 20,
        VerifyKind::Sha256 => 32,
    }
}
