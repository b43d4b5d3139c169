ghost use Rattle.std.specs.Prelude.{◌≡◌, ◌<◌, ◌≤◌, length, slice_index_or, IfOk};
ghost use Rattle.std.specs.List.{SameBelow};
ghost use Rattle.jr_model.specs.declared.contents.Expected.TheVariants.{Nothing, Header, Seed};
ghost use Rattle.jr_writes.specs.KeptEntries.{IsMore, IsPlaced, head_bytes, made_at, no_head};

use crate::fronts::{header_front, header_of_halves};
use jr_model::{Expected, Memory, Piece, VerifyKind, WriteId, is_same_expected};
use std::alloc::Global;

// What the log keeps of a write: where it lies, and the place of what its checks compare with.
#[derive(Clone, Copy)]
pub struct Kept {
    pub piece: Piece,
    pub place: Place,
}

/// Where what checks compare with is kept: in which of three lists, and at which of its places. Nothing is kept of nothing.
#[derive(Clone, Copy)]
pub enum Place {
    Nothing,
    Whole(u32),
    Head(u32),
    Seed(u32),
}

/// What is kept of a header: all but what follows from the write's piece.
#[derive(Clone, Copy)]
pub struct Head {
    pub back: [u8; 32],
    pub number: u32,
    pub pass: u16,
    pub clone: u8,
    pub kind: VerifyKind,
}

const _: () = prove!(size_of::<Head>() <= 40);

/// What checks compare with: of headers 40 bytes, of seeds 8, and all else whole, if it differs from the last of these.
#[derive(Drop)]
pub struct Known {
    pub whole: Vec<Expected>,
    pub heads: Vec<Head>,
    pub seeds: Vec<u64>,
}

impl Head {
    // That of a header, if it is one that a write of whole blocks puts there.
    fn of(header: &[u8; 64]) -> Head {
        let mut back = [0; 32];
        back.copy_from_slice(&header[32..]);
        Head {
            back,
            number: u32::from_le_bytes([header[24], header[25], header[26], header[27]]),
            pass: u16::from_le_bytes([header[6], header[7]]),
            clone: header[12],
            kind: kind_of(header[4]),
        }
    }

    // The header, where the write's piece is this one.
    fn header(&self, piece: &Piece) -> [u8; 64]
        ensures { result ≡ head_bytes self.now piece.now }
    {
        let write = WriteId {
            clone: u32::from(self.clone),
            pass: u32::from(self.pass),
            number: self.number,
        };
        header_of_halves(&header_front(self.kind, &write, piece), &self.back)
    }
}

// The kind that has this number in a header.
fn kind_of(code: u8) -> VerifyKind {
    match code {
        1 => VerifyKind::Md5,
        2 => VerifyKind::Sha1,
        _ => VerifyKind::Sha256,
    }
}

impl Known {
    /// Nothing is known.
    pub fn new(alloc: Global) -> Known {
        Known {
            whole: Vec::new(alloc),
            heads: Vec::new(alloc),
            seeds: Vec::new(alloc),
        }
    }

    /// The place of what the checks of a write of this piece compare with. What was known stays where it is.
    pub fn place(&mut self, piece: &Piece, expected: &Expected) -> Result<Place, Memory>
        ensures placed { IfOk result (IsPlaced self.new) }
        ensures found { IfOk result (λ place. made_at self.new place piece.now ≡ expected.now) }
        ensures more { IsMore self.old self.new }
    {
        match expected {
            Expected::Nothing => Ok(Place::Nothing),
            Expected::Pattern(_) => self.place_whole(piece, expected),
            Expected::Seed(seed) => self.keep_seed(piece, *seed),
            Expected::Header(header) => {
                let head = Head::of(header);
                if is_same_expected(&Expected::Header(head.header(piece)), expected) {
                    self.keep_head(piece, head)
                } else {
                    self.place_whole(piece, expected)
                }
            }
        }
    }

    fn place_whole(&mut self, piece: &Piece, expected: &Expected) -> Result<Place, Memory>
        ensures placed { IfOk result (IsPlaced self.new) }
        ensures found { IfOk result (λ place. made_at self.new place piece.now ≡ expected.now) }
        ensures more { IsMore self.old self.new }
    {
        let place = place_expected(&mut self.whole, expected)?;
        Ok(Place::Whole(place))
    }

    fn keep_head(&mut self, piece: &Piece, head: Head) -> Result<Place, Memory>
        ensures placed { IfOk result (IsPlaced self.new) }
        ensures found { IfOk result (λ place. made_at self.new place piece.now ≡ Header (head_bytes head piece.now)) }
        ensures more { IsMore self.old self.new }
    {
        let place = push_head(&mut self.heads, head)?;
        Ok(Place::Head(place))
    }

    fn keep_seed(&mut self, piece: &Piece, seed: u64) -> Result<Place, Memory>
        ensures placed { IfOk result (IsPlaced self.new) }
        ensures found { IfOk result (λ place. made_at self.new place piece.now ≡ Seed seed) }
        ensures more { IsMore self.old self.new }
    {
        let place = push_seed(&mut self.seeds, seed)?;
        Ok(Place::Seed(place))
    }

    /// What the checks of a write of this piece compare with, by its place.
    pub fn made(&self, place: Place, piece: &Piece) -> Expected
        requires { IsPlaced self.now place }
        ensures { result ≡ made_at self.now place piece.now }
    {
        match place {
            Place::Nothing => Expected::Nothing,
            Place::Whole(place) => self.whole[place as usize],
            Place::Head(place) => Expected::Header(self.heads[place as usize].header(piece)),
            Place::Seed(place) => Expected::Seed(self.seeds[place as usize]),
        }
    }
}

// The place of an expected value in the list: that of the last, where it is the same, else a new one behind it.
fn place_expected(known: &mut Vec<Expected>, expected: &Expected) -> Result<u32, Memory>
    ensures within { IfOk result (λ place. place < length known.new.items) }
    ensures found { IfOk result (λ place. slice_index_or known.new.items place Nothing ≡ expected.now) }
    ensures longer { length known.old.items ≤ length known.new.items }
    ensures others { SameBelow known.old.items known.new.items (length known.old.items) }
{
    let place = narrow(known.len())?;
    match known.last() {
        Some(last) if is_same_expected(last, expected) => Ok(place - 1),
        _ => {
            known.push(*expected)?;
            Ok(place)
        }
    }
}

// The place of a header, behind those before it.
fn push_head(known: &mut Vec<Head>, head: Head) -> Result<u32, Memory>
    ensures within { IfOk result (λ place. place < length known.new.items) }
    ensures found { IfOk result (λ place. slice_index_or known.new.items place no_head ≡ head) }
    ensures longer { length known.old.items ≤ length known.new.items }
    ensures others { SameBelow known.old.items known.new.items (length known.old.items) }
{
    let place = narrow(known.len())?;
    known.push(head)?;
    Ok(place)
}

// The place of a seed, behind those before it.
fn push_seed(known: &mut Vec<u64>, seed: u64) -> Result<u32, Memory>
    ensures within { IfOk result (λ place. place < length known.new.items) }
    ensures found { IfOk result (λ place. slice_index_or known.new.items place 0 ≡ seed) }
    ensures longer { length known.old.items ≤ length known.new.items }
    ensures others { SameBelow known.old.items known.new.items (length known.old.items) }
{
    let place = narrow(known.len())?;
    known.push(seed)?;
    Ok(place)
}

// The number in 32 bits. No run has so many writes that it wants more.
fn narrow(number: usize) -> Result<u32, Memory>
    ensures { IfOk result (λ narrowed. narrowed ≡ number) }
{
    match u32::try_from(number) {
        Ok(narrowed) => Ok(narrowed),
        Err(_) => Err(Memory),
    }
}
