ghost use Rattle.std.specs.Prelude.{◌≡◌, ◌≤◌, ◌++◌, length, drop, SomeIff};
ghost use Rattle.jr_model.specs.PatternBytes.{padded};
ghost use Rattle.jr_model.specs.Plan.{is_verified};
ghost use Rattle.jr_model.specs.Tickets.{has_whole_chunks, interval_fits};

use crate::limits::SECTOR;
use std::marker::Model;

/// A verify pattern: 1 to 64 bytes that a block repeats from its first byte.
#[derive(Clone, Copy, Debug, PartialEq, Eq)]
pub struct Pattern {
    bytes: [u8; 64],
    count: usize,
}

impl Model for Pattern {
    ghost use Rattle.std.specs.Prelude.{List, ℕ, take, length};
    ghost use Rattle.std.proofs.Common.{sym, ap, ◌∙◌};
    ghost use Rattle.jr_model.specs.PatternBytes.{IsPadded, padded, length-IsPadded};

    ghost Value = { List ℕ };

    ghost view = { λ p. take p.count p.bytes };

    ghost invariant = { λ p. IsPadded p.count p.bytes };

    ghost inverse = { λ bytes. record { bytes = padded bytes; count = length bytes } };

    ghost inverse_ok = { λ a h. ap (λ bytes. record { bytes = bytes; count = length (take a.count a.bytes) }) (sym h.rest) ∙ ap (λ n. record { bytes = a.bytes; count = n }) (length-IsPadded a.count a.bytes h) };
}

impl Pattern {
    /// The pattern of these bytes, if they are 1 to 64.
    pub fn new(bytes: &[u8]) -> Option<Pattern>
        ensures { SomeIff result ((1 ≤ length bytes.now) × (length bytes.now ≤ 64)) bytes.now }
    {
        let count = bytes.len();
        if count == 0 || count > 64 {
            return None;
        }
        Some(Pattern {
            bytes: padded_bytes(bytes),
            count,
        })
    }

    /// Its bytes.
    pub fn as_slice(&self) -> &[u8]
        ensures value { result.now ≡ self.now }
        ensures least { 1 ≤ length self.now }
        ensures most { length self.now ≤ 64 }
    {
        &self.bytes[..self.count]
    }
}

// The bytes, and zeros up to 64.
fn padded_bytes(bytes: &[u8]) -> [u8; 64]
    requires { length bytes.now ≤ 64 }
    ensures { result ≡ padded bytes.now }
{
    let mut all = [0; 64];
    copy_to_front(&mut all, bytes);
    all
}

// Writes the bytes over the first ones of a longer slice.
fn copy_to_front(all: &mut [u8], bytes: &[u8])
    requires { length bytes.now ≤ length all.old }
    ensures { all.new ≡ bytes.now ++ drop (length bytes.now) all.old }
{
    all[..bytes.len()].copy_from_slice(bytes);
}

/// How the blocks of a job are verified (fio's `verify`).
#[derive(Clone, Copy, Debug, PartialEq, Eq)]
pub enum VerifyKind {
    /// Not at all.
    Plain,
    /// Each block is the pattern, repeated.
    Pattern,
    /// A header with the MD5 (RFC 1321) of the rest of the block.
    Md5,
    /// A header with the SHA-1 (FIPS 180-4) of the rest of the block.
    Sha1,
    /// A header with the SHA-256 (FIPS 180-4) of the rest of the block.
    Sha256,
}

impl VerifyKind {
    /// Whether blocks are verified at all.
    pub fn is_verified(self) -> bool
        ensures { result ≡ is_verified self }
    {
        self != VerifyKind::Plain
    }

    /// Whether blocks of `len` bytes may have a header each `interval` bytes (0 is one header for the whole block). Kinds
    /// without a digest have no headers, so with them any interval may stand.
    pub fn fits_interval(self, interval: u32, len: u32) -> bool
        ensures { result ≡ interval_fits self interval len }
    {
        match self {
            VerifyKind::Plain | VerifyKind::Pattern => true,
            VerifyKind::Md5 | VerifyKind::Sha1 | VerifyKind::Sha256 => {
                has_whole_chunks(interval, len)
            }
        }
    }
}

// Whether chunks of this interval are whole 512-byte blocks, and a whole number of them makes up so many bytes.
fn has_whole_chunks(interval: u32, len: u32) -> bool
    ensures { result ≡ has_whole_chunks interval len }
{
    interval == 0 || (interval % SECTOR == 0 && len % interval == 0)
}

/// What a job's writes contain, and how its checks judge it.
#[derive(Clone, Copy, Debug, PartialEq, Eq)]
pub struct Method {
    pub kind: VerifyKind,
    /// The filler of a block, if the job gives one.
    pub pattern: Option<Pattern>,
    /// The bytes from one header to the next, if the kind has headers and a block has several; 0 if it has one.
    pub interval: u32,
}

/// What a check compares the bytes read with: kept from the write, never taken from the bytes read.
#[derive(Clone, Copy, Debug, PartialEq, Eq)]
pub enum Expected {
    /// No check.
    Nothing,
    /// Every byte follows the pattern.
    Pattern(Pattern),
    /// The header of the write.
    Header([u8; 64]),
    /// Headers at the method's interval: the seed of the write's filler, of which they are made again.
    Seed(u64),
}
