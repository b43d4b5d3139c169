// What stands in a block in place of what its write put there.
ghost use Rattle.std.specs.Prelude.{◌≡◌, ◌==◌, ◌≤◌, ◌^◌, ℕ, length};
ghost use Rattle.std.specs.List.{list_all};
ghost use Rattle.jr_model.specs.Content.{kind_code};
ghost use Rattle.jr_diagnosis.specs.Diagnoses.{diagnosis_of, even_diagnosis, here_diagnosis, own_diagnosis_of, own_uneven_diagnosis, place_diagnosis};
ghost use Rattle.jr_diagnosis.specs.Diagnoses.{repeated_byte, said_by, sector_diagnosis, uneven_diagnosis, write_diagnosis};

use crate::bits::{Flips, flips_between};
use crate::headers::{BlockHeader, header_in};
use crate::sectors::right_sectors;
use jr_model::{Method, Piece, VerifyKind, WriteId};

/// What stands in a block, or a chunk of one, in place of what its write put there.
#[derive(Clone, Copy, PartialEq, Eq)]
pub enum Diagnosis {
    /// Nothing but zeros: the write never arrived, or was discarded.
    Zeros,
    /// Nothing but this byte.
    Repeated(u8),
    /// The right bytes but for at most 16 bits.
    Flipped(Flips),
    /// A block with another kind of digest: the number of that kind.
    OtherKind(u8),
    /// A block or chunk of another length, in bytes: the job was written with another `bs` or `verify_interval`.
    OtherLength(u32),
    /// A block that belongs at this offset in bytes: a write went astray, or the disk is smaller than it says.
    Elsewhere(u64),
    /// A block of this place by another clone or with another number: an older write, or another job's.
    OtherWrite(u32, u64),
    /// A block of this place of another pass: an older write.
    OtherPass(u16),
    /// So many 512 bytes of it are right, and the others aren't.
    Torn(u32),
    /// A block of this place, with a header that is right, whose bytes aren't those that it was written with.
    Damaged,
    /// Nothing that is known.
    Foreign,
}

/// What stands at this place, where a write put other bytes: it is a block, or a chunk of one.
pub fn diagnosis_of(
    method: &Method,
    write: &WriteId,
    place: &Piece,
    written: &[u8],
    read: &[u8],
) -> Diagnosis
    requires same { length written.now ≡ length read.now }
    requires most { length read.now ≤ 2 ^ 24 }
    ensures { result ≡ diagnosis_of method.now write.now place.now written.now read.now }
{
    match repeated_byte(read) {
        Some(byte) => even_diagnosis(byte),
        None => uneven_diagnosis(method, write, place, written, read),
    }
}

/// What stands at this place, where it isn't known which write's bytes should: by its own header.
pub fn own_diagnosis_of(kind: VerifyKind, place: &Piece, read: &[u8]) -> Diagnosis
    ensures { result ≡ own_diagnosis_of kind place.now read.now }
{
    match repeated_byte(read) {
        Some(byte) => even_diagnosis(byte),
        None => own_uneven_diagnosis(kind, place, header_in(read)),
    }
}

// The byte that all of these are, if they are.
fn repeated_byte(bytes: &[u8]) -> Option<u8>
    ensures { result ≡ repeated_byte bytes.now }
{
    match bytes.split_first() {
        Some((first, rest)) if all_are(*first, rest) => Some(*first),
        _ => None,
    }
}

fn all_are(byte: u8, bytes: &[u8]) -> bool
    ensures { result ≡ list_all (λ (x : ℕ). x == byte) bytes.now }
{
    bytes.iter().all(|other| *other == byte)
}

// What stands there where all bytes are this one.
fn even_diagnosis(byte: u8) -> Diagnosis
    ensures { result ≡ even_diagnosis byte }
{
    if byte == 0 {
        Diagnosis::Zeros
    } else {
        Diagnosis::Repeated(byte)
    }
}

// What stands there where the bytes aren't all one.
fn uneven_diagnosis(
    method: &Method,
    write: &WriteId,
    place: &Piece,
    written: &[u8],
    read: &[u8],
) -> Diagnosis
    requires same { length written.now ≡ length read.now }
    requires most { length read.now ≤ 2 ^ 24 }
    ensures { result ≡ uneven_diagnosis method.now write.now place.now written.now read.now }
{
    let flips = flips_between(written, read);
    if flips.raised + flips.cleared < 17 {
        return Diagnosis::Flipped(flips);
    }
    let header = header_in(read);
    match said_of_place(method.kind, place, header) {
        Some(said) => said,
        None => here_diagnosis(method, write, right_sectors(written, read), header),
    }
}

// What stands there by its own header, where the bytes aren't all one.
fn own_uneven_diagnosis(kind: VerifyKind, place: &Piece, header: Option<BlockHeader>) -> Diagnosis
    ensures { result ≡ own_uneven_diagnosis kind place.now header }
{
    match header {
        None => Diagnosis::Foreign,
        Some(header) => match place_diagnosis(kind, place, &header) {
            Some(said) => said,
            None => Diagnosis::Damaged,
        },
    }
}

// What stands there where a block is in its place, of which so many sectors are right.
fn here_diagnosis(
    method: &Method,
    write: &WriteId,
    right: u32,
    header: Option<BlockHeader>,
) -> Diagnosis
    ensures { result ≡ here_diagnosis method.now write.now right header }
{
    if right > 0 && !method.pattern.is_some() {
        return Diagnosis::Torn(right);
    }
    match said_of_write(write, header) {
        Some(said) => said,
        None => sector_diagnosis(right),
    }
}

// What a header says of the place, where there is one.
fn said_of_place(kind: VerifyKind, place: &Piece, header: Option<BlockHeader>) -> Option<Diagnosis>
    ensures { result ≡ said_by (place_diagnosis kind place.now) header }
{
    match header {
        Some(header) => place_diagnosis(kind, place, &header),
        None => None,
    }
}

// What a header says of the write, where there is one.
fn said_of_write(write: &WriteId, header: Option<BlockHeader>) -> Option<Diagnosis>
    ensures { result ≡ said_by (write_diagnosis write.now) header }
{
    match header {
        Some(header) => write_diagnosis(write, &header),
        None => None,
    }
}

// What is said where so many sectors are right.
fn sector_diagnosis(right: u32) -> Diagnosis
    ensures { result ≡ sector_diagnosis right }
{
    if right == 0 {
        Diagnosis::Foreign
    } else {
        Diagnosis::Torn(right)
    }
}

// The first thing that a header says otherwise of how a block is made and where it belongs.
fn place_diagnosis(kind: VerifyKind, place: &Piece, header: &BlockHeader) -> Option<Diagnosis>
    ensures { result ≡ place_diagnosis kind place.now header.now }
{
    if header.kind != kind_code(kind) {
        Some(Diagnosis::OtherKind(header.kind))
    } else if header.len != place.len {
        Some(Diagnosis::OtherLength(header.len))
    } else if header.offset != place.offset {
        Some(Diagnosis::Elsewhere(header.offset))
    } else {
        None
    }
}

// The first thing that it says otherwise of which write it is.
fn write_diagnosis(write: &WriteId, header: &BlockHeader) -> Option<Diagnosis>
    ensures { result ≡ write_diagnosis write.now header.now }
{
    if header.clone != write.clone || header.number != u64::from(write.number) {
        Some(Diagnosis::OtherWrite(header.clone, header.number))
    } else if u32::from(header.pass) != write.pass {
        Some(Diagnosis::OtherPass(header.pass))
    } else {
        None
    }
}

// The number of a kind in a header.
fn kind_code(kind: VerifyKind) -> u8
    ensures { result ≡ kind_code kind }
{
    match kind {
        VerifyKind::Plain | VerifyKind::Pattern => 0,
        VerifyKind::Md5 => 1,
        VerifyKind::Sha1 => 2,
        VerifyKind::Sha256 => 3,
    }
}
