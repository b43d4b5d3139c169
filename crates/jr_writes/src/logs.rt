use crate::kept::{Kept, Known};
use crate::names::Names;
use crate::places::Places;
use crate::spots::{put, take_out};
use jr_model::{Expected, Memory, Piece, WriteId};
use std::alloc::Global;
use std::marker::Model;

/// What the log has of a write: where it lies, and what its checks compare with.
#[derive(Clone, Copy, PartialEq, Eq)]
pub struct Logged {
    pub piece: Piece,
    pub expected: Expected,
}

/// The intact writes of a run: those that were settled, and of whose pieces no byte was settled or
/// unsettled since.
#[derive(Drop)]
pub struct WriteLog {
    names: Names,
    places: Places,
    // What checks compare with.
    known: Known,
}

// Clauses see the entries of the log, in the order of the writes.
impl Model for WriteLog {
    ghost use Rattle.std.specs.Prelude.{List, None};
    ghost use Rattle.jr_model.specs.declared.events.WriteId.{WriteId as Name};
    ghost use Rattle.jr_writes.specs.declared.logs.Logged.{Logged as Entry};

    ghost Value = { List (Name × Entry) };

    ghost use Rattle.jr_writes.specs.Index.{IsIndexed};
    ghost use Rattle.jr_writes.specs.KeptEntries.{ArePlaced, entries_of};
    ghost use Rattle.jr_writes.specs.KeptList.{all_kept};
    ghost use Rattle.jr_writes.specs.Names.{name_at};
    ghost use Rattle.jr_writes.specs.Places.{spot_at};

    ghost view = { λ log. entries_of log.known (all_kept (name_at log.names.sheets.entries)) };

    // The pieces of the places are disjoint, and what the checks of each write compare with is known.
    ghost invariant = { λ log. IsIndexed None (name_at log.names.sheets.entries) (spot_at log.places.sheets.entries)
        × ArePlaced log.known (all_kept (name_at log.names.sheets.entries)) };
}

impl WriteLog {
    ghost use Rattle.std.specs.Prelude.{◌≡◌, [], Some, None, IsTrue, OnOk, OnErr, is_some, if◌then◌else◌};
    ghost use Rattle.std.specs.Option.{option_map};
    ghost use Rattle.jr_model.specs.declared.events.WriteId.{WriteId as Name};
    ghost use Rattle.jr_model.specs.History.{same_write};
    ghost use Rattle.jr_model.specs.Tickets.{piece_fits};
    ghost use Rattle.jr_writes.specs.LoggedWrites.{if_apart, logged, settled, unsettled};

    /// An empty log. It takes the memory of its entries from `alloc`.
    pub fn new(alloc: Global) -> WriteLog
        ensures { result ≡ [] }
    {
        WriteLog {
            names: Names::new(alloc),
            places: Places::new(alloc),
            known: Known::new(alloc),
        }
    }

    /// Takes in a write that ended whole, and takes out all whose pieces it overlaps. The only call
    /// of a log that can want memory.
    pub fn settle(&mut self, write: WriteId, piece: Piece, expected: Expected) -> Result<(), Memory>
        requires fits { IsTrue (piece_fits piece) }
        requires fresh { logged self.old write ≡ None }
        ensures ok { OnOk result (self.new ≡ settled self.old write piece expected) }
        ensures look_up { OnOk result ((other : Name) → logged self.new other
            ≡ (if same_write write other then Some (record { piece = piece; expected = expected })
            else if_apart piece (logged self.old other))) }
        ensures err { OnErr result (self.new ≡ self.old) }
    {
        let place = self.known.place(&piece, &expected)?;
        let entry = Kept { piece, place };
        put(&mut self.names, &mut self.places, write, entry)?;
        take_out(&mut self.names, &mut self.places, &piece, Some(write));
        Ok(())
    }

    /// Takes out all writes whose pieces the piece overlaps, as when a write of it failed.
    pub fn unsettle(&mut self, piece: &Piece)
        requires { IsTrue (piece_fits piece.now) }
        ensures entries { self.new ≡ unsettled self.old piece.now }
        ensures look_up { (other : Name) → logged self.new other ≡ if_apart piece.now (logged self.old other) }
    {
        take_out(&mut self.names, &mut self.places, piece, None);
    }

    /// Whether the write is in the log. (The desk asks for `found` alone.)
    pub fn intact(&self, write: &WriteId) -> bool
        ensures { result ≡ is_some (logged self.now write.now) }
    {
        self.names.get(write).is_some()
    }

    /// What the checks of an intact write compare with: found, and made once it is asked for.
    pub fn found(&self, write: &WriteId) -> Option<Found<'_>>
        ensures { result ≡ option_map (λ entry. entry.expected) (logged self.now write.now) }
    {
        match self.names.get(write) {
            Some(kept) => Some(Found {
                known: &self.known,
                kept,
            }),
            None => None,
        }
    }

    /// What the checks of an intact write compare with.
    pub fn expected(&self, write: &WriteId) -> Option<Expected>
        ensures { result ≡ option_map (λ entry. entry.expected) (logged self.now write.now) }
    {
        match self.found(write) {
            Some(found) => Some(found.expected()),
            None => None,
        }
    }
}

/// What the checks of an intact write compare with, before it is made. Contracts see the value.
#[derive(Drop)]
pub struct Found<'a> {
    known: &'a Known,
    kept: &'a Kept,
}

impl<'a> Model for Found<'a> {
    ghost use Rattle.jr_model.specs.declared.contents.Expected.{Expected as Compared};
    ghost use Rattle.jr_writes.specs.KeptEntries.{IsPlaced, made_at};

    ghost Value = { Compared };

    ghost view = { λ found. made_at found.known.now found.kept.now.place found.kept.now.piece };

    // Its place is known.
    ghost invariant = { λ found. IsPlaced found.known.now found.kept.now.place };
}

impl<'a> Found<'a> {
    ghost use Rattle.std.specs.Prelude.{◌≡◌};

    /// The value.
    pub fn expected(&self) -> Expected
        ensures { result ≡ self.now }
    {
        self.known.made(self.kept.place, &self.kept.piece)
    }
}
