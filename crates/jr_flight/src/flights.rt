ghost use Rattle.std.specs.Prelude.{◌≡◌, ◌≤◌, ◌==◌, ◌↔◌, if◌then◌else◌, ℕ, [], false, Some, None};
ghost use Rattle.std.specs.Prelude.{is_some, IsTrue, IfSome, IfOk, OnOk, OnErr};
ghost use Rattle.std.specs.Option.{ok_or};
ghost use Rattle.std.specs.BTreeMap.{insert_entry, is_at};
ghost use Rattle.std.specs.Map.{remove_entry};
ghost use Rattle.std.specs.Ordering.{nat_cmp};
ghost use Rattle.jr_model.specs.Pieces.{piece_end};
ghost use Rattle.jr_flight.specs.Flights.{flying_io, raced_so_far, conflicts, waits_for, is_clear};
ghost use Rattle.jr_flight.specs.Flights.{writes_over, is_raced, marked};
ghost use Rattle.jr_flight.specs.Places.{place_of, near_from, near_end, near_piece, raced_under, raced_at};

use crate::ios::{Ended, FlightFault, Io};
use jr_model::{Dir, IoId, LARGEST_BLOCK, LARGEST_END, Memory, Piece, overlaps};
use std::alloc::Global;
use std::collections::BTreeMap;
use std::marker::Model;

// Where an I/O stands among those in flight: by file, then by offset, then by its number.
type Place = (u32, u64, IoId);

/// The I/Os in flight, and which of them raced. Contracts see the entries of the map from their numbers, in order.
#[derive(Drop)]
pub struct Flight {
    ids: BTreeMap<IoId, Ended>,
    places: BTreeMap<Place, Io>,
    // No piece in flight is longer: that of the longest I/O put in so far.
    longest: u32,
    // Whether a write was put in since nothing flew. Where none was, none flies.
    wrote: bool,
}

impl Model for Flight {
    ghost use Rattle.std.specs.Prelude.{ℕ, List};
    ghost use Rattle.jr_flight.specs.declared.ios.Ended.{Ended};
    ghost use Rattle.jr_flight.specs.Places.{IsIndexed, IsWrote};

    ghost Value = { List (ℕ × Ended) };

    ghost view = { λ f. f.ids.entries };

    ghost invariant = { λ f. IsIndexed f.ids f.places f.longest × IsWrote f.ids f.wrote };
}

impl Flight {
    /// With nothing in flight. What is put in takes its memory from `alloc`.
    pub fn new(alloc: Global) -> Result<Flight, Memory>
        ensures { IfOk result (λ flight. flight ≡ []) }
    {
        Ok(Flight {
            ids: BTreeMap::new(alloc),
            places: BTreeMap::new(alloc),
            longest: 0,
            wrote: false,
        })
    }

    /// Whether an I/O of this number is in flight.
    pub fn flies(&self, id: IoId) -> bool
        ensures { result ≡ is_some (flying_io id self.now) }
    {
        self.ids.contains_key(&id)
    }

    /// Whether what flies under this number has raced so far.
    pub fn raced(&self, id: IoId) -> bool
        ensures { result ≡ raced_so_far (flying_io id self.now) }
    {
        match self.ids.get(&id) {
            None => false,
            Some(ended) => ended.raced,
        }
    }

    /// Whether the piece has to wait for nothing in flight. It waits for what it overlaps, if one of the two writes and neither's clone
    /// declines to wait.
    pub fn clear(&self, piece: &Piece, dir: Dir, declines: bool) -> bool
        requires some { 1 ≤ piece.now.len }
        requires largest { piece.now.len ≤ LARGEST_BLOCK }
        requires within { piece_end piece.now ≤ LARGEST_END }
        ensures value { result ≡ is_clear declines dir piece.now self.now }
        ensures at_each { IsTrue result
            ↔ ((id : ℕ) → IfSome (flying_io id self.now) (λ ended. waits_for declines dir piece.now ended.io ≡ false)) }
    {
        if dir == Dir::Read && !self.wrote {
            return true;
        }
        if self.ids.is_empty() {
            return true;
        }
        self.is_clear_near(piece, dir, declines)
    }

    // Whether the piece is clear. Only what stands near it can be in its way.
    fn is_clear_near(&self, piece: &Piece, dir: Dir, declines: bool) -> bool
        requires some { 1 ≤ piece.now.len }
        requires largest { piece.now.len ≤ LARGEST_BLOCK }
        requires within { piece_end piece.now ≤ LARGEST_END }
        ensures value { result ≡ is_clear declines dir piece.now self.now }
        ensures at_each { IsTrue result
            ↔ ((id : ℕ) → IfSome (flying_io id self.now) (λ ended. waits_for declines dir piece.now ended.io ≡ false)) }
    {
        let (first, end) = near(piece, self.longest);
        !self
            .places
            .range(first..end)
            .any(|(_, io)| waits_for(io, piece, dir, declines))
    }

    /// Marks as raced what is in flight and what the I/O writes over. Says whether any of what is in flight writes over the I/O.
    pub fn mark(&mut self, io: &Io) -> bool
        requires some { 1 ≤ io.now.piece.len }
        requires largest { io.now.piece.len ≤ LARGEST_BLOCK }
        requires within { piece_end io.now.piece ≤ LARGEST_END }
        ensures value { result ≡ is_raced io.now self.old }
        ensures entries { self.new ≡ marked io.now self.old }
    {
        if self.ids.is_empty() {
            return false;
        }
        let raced = self.is_raced(io);
        self.mark_others(io);
        raced
    }

    /// Puts an I/O into flight that was marked already.
    pub fn put(&mut self, ended: Ended) -> Result<(), Memory>
        requires some { 1 ≤ ended.io.piece.len }
        requires largest { ended.io.piece.len ≤ LARGEST_BLOCK }
        requires within { piece_end ended.io.piece ≤ LARGEST_END }
        requires new { flying_io ended.io.id self.old ≡ None }
        ensures entries { OnOk result (self.new ≡ insert_entry nat_cmp self.old ended.io.id ended) }
        ensures at_each { OnOk result
            ((id : ℕ) → flying_io id self.new ≡ (if ended.io.id == id then Some ended else flying_io id self.old)) }
        ensures err { OnErr result (self.new ≡ self.old) }
    {
        let place = place_of(&ended.io);
        self.places.insert(place, ended.io)?;
        match self.ids.insert(ended.io.id, ended) {
            Err(_) => {
                self.places.remove(&place);
                Err(Memory)
            }
            Ok(_) => {
                self.longest = self.longest.max(ended.io.piece.len);
                self.wrote = self.wrote || ended.io.dir == Dir::Write;
                Ok(())
            }
        }
    }

    /// Puts an I/O into flight and marks what races.
    pub fn begin(&mut self, io: Io) -> Result<(), Memory>
        requires some { 1 ≤ io.piece.len }
        requires largest { io.piece.len ≤ LARGEST_BLOCK }
        requires within { piece_end io.piece ≤ LARGEST_END }
        requires new { flying_io io.id self.old ≡ None }
        ensures entries { OnOk result
            (self.new ≡ insert_entry nat_cmp (marked io self.old) io.id (record { io = io; raced = is_raced io self.old })) }
        ensures at_each { OnOk result
            ((id : ℕ) → flying_io id self.new
            ≡ (if io.id == id then Some (record { io = io; raced = is_raced io self.old }) else flying_io id (marked io self.old))) }
        ensures err { OnErr result (self.new ≡ self.old) }
    {
        let raced = self.is_raced(&io);
        self.put(Ended { io, raced })?;
        self.mark_others(&io);
        Ok(())
    }

    /// Takes the I/O of this number out of flight, and says whether it raced.
    pub fn end(&mut self, id: IoId) -> Result<Ended, FlightFault>
        ensures value { result ≡ ok_or (flying_io id self.old) FlightFault.Stranger }
        ensures own { IfOk result (λ ended. ended.io.id ≡ id) }
        ensures entries { self.new ≡ remove_entry (is_at (nat_cmp id)) self.old }
        ensures at_each { (other : ℕ) → flying_io other self.new ≡ (if id == other then None else flying_io other self.old) }
        ensures err { OnErr result (self.new ≡ self.old) }
    {
        let Some(ended) = self.ids.remove(&id) else {
            return Err(FlightFault::Stranger);
        };
        self.places.remove(&place_of(&ended.io));
        if self.ids.is_empty() {
            self.wrote = false;
        }
        Ok(ended)
    }

    // Whether another one in flight writes over the I/O.
    fn is_raced(&self, io: &Io) -> bool
        requires some { 1 ≤ io.now.piece.len }
        requires largest { io.now.piece.len ≤ LARGEST_BLOCK }
        requires within { piece_end io.now.piece ≤ LARGEST_END }
        ensures { result ≡ is_raced io.now self.now }
    {
        if !self.wrote {
            return false;
        }
        self.is_raced_near(io)
    }

    // Whether it is raced by a write in flight: only what stands near it can be one.
    fn is_raced_near(&self, io: &Io) -> bool
        requires some { 1 ≤ io.now.piece.len }
        requires largest { io.now.piece.len ≤ LARGEST_BLOCK }
        requires within { piece_end io.now.piece ≤ LARGEST_END }
        ensures { result ≡ is_raced io.now self.now }
    {
        let (first, end) = near(&io.piece, self.longest);
        self.places.range(first..end).any(|(at, other)| at.2 != io.id
            && writes_over(other, &io.piece))
    }

    // Marks as raced what else is in flight where the I/O writes over it.
    fn mark_others(&mut self, io: &Io)
        requires some { 1 ≤ io.now.piece.len }
        requires largest { io.now.piece.len ≤ LARGEST_BLOCK }
        requires within { piece_end io.now.piece ≤ LARGEST_END }
        ensures { self.new ≡ marked io.now self.old }
    {
        if io.dir == Dir::Write {
            mark_near(&mut self.ids, &self.places, self.longest, io);
        }
    }
}

// Marks as raced what stands near the I/O where that writes over it, but for what has its number.
fn mark_near(ids: &mut BTreeMap<IoId, Ended>, places: &BTreeMap<Place, Io>, longest: u32, io: &Io)
    requires some { 1 ≤ io.now.piece.len }
    requires largest { io.now.piece.len ≤ LARGEST_BLOCK }
    requires within { piece_end io.now.piece ≤ LARGEST_END }
    ensures { ids.new.entries ≡ raced_at io.now (near_piece io.now.piece longest places.now.entries) ids.old.entries }
{
    let (first, end) = near(&io.piece, longest);
    for (at, other) in places.range(first..end) {
        if at.2 != io.id && writes_over(io, &other.piece) {
            set_raced(ids, at.2);
        }
    }
}

// Marks as raced what flies under this number.
fn set_raced(ids: &mut BTreeMap<IoId, Ended>, id: IoId)
    ensures { ids.new.entries ≡ raced_under id ids.old.entries }
{
    if let Some(ended) = ids.get_mut(&id) {
        ended.raced = true;
    }
}

// Where the I/O stands.
fn place_of(io: &Io) -> Place
    ensures { result ≡ place_of io.now }
{
    (io.piece.file, io.piece.offset, io.id)
}

// Between which places what overlaps the piece stands, where none is longer than `longest`.
fn near(piece: &Piece, longest: u32) -> (Place, Place)
    requires { piece_end piece.now ≤ LARGEST_END }
    ensures { result ≡ (near_from piece.now longest, near_end piece.now) }
{
    let first = piece.offset.saturating_sub(u64::from(longest));
    let end = piece.offset + u64::from(piece.len);
    ((piece.file, first, 0), (piece.file, end, 0))
}

// Whether the two conflict and neither declines to wait.
fn waits_for(io: &Io, piece: &Piece, dir: Dir, declines: bool) -> bool
    ensures { result ≡ waits_for declines dir piece.now io.now }
{
    !(declines || io.declines) && conflicts(io, piece, dir)
}

// Whether the two overlap and one of them writes.
fn conflicts(io: &Io, piece: &Piece, dir: Dir) -> bool
    ensures { result ≡ conflicts dir piece.now io.now }
{
    (dir == Dir::Write || io.dir == Dir::Write) && overlaps(&io.piece, piece)
}

// Whether the I/O writes where the piece lies.
fn writes_over(io: &Io, piece: &Piece) -> bool
    ensures { result ≡ writes_over piece.now io.now }
{
    io.dir == Dir::Write && overlaps(&io.piece, piece)
}
