ghost use Rattle.std.specs.Prelude.{◌≡◌, ◌%◌, ◌^◌, ◌<◌, ◌≤◌, Some, None, OnOk, OnErr, if◌then◌else◌};
ghost use Rattle.std.specs.BTreeMap.{is_at};
ghost use Rattle.jr_model.specs.Pieces.{piece_end};
ghost use Rattle.jr_model.specs.History.{write_order};
ghost use Rattle.jr_writes.specs.Index.{AreDisjoint, IsIndexed, StandsHere, is_kept, piece_at};
ghost use Rattle.jr_writes.specs.Last.{IsLastOther, IsLastOverlapped};
ghost use Rattle.jr_writes.specs.Names.{name_at};
ghost use Rattle.jr_writes.specs.Places.{spot_at};
ghost use Rattle.jr_writes.specs.Staying.{left_of};

use crate::kept::Kept;
use crate::names::Names;
use crate::places::Places;
use crate::spot::Spot;
use jr_model::{Memory, Piece, WriteId, overlaps};

// Puts a new write into both tables, in place of one whose piece begins where its piece does. Pieces
// that it overlaps stay.
pub(crate) fn put(
    names: &mut Names,
    places: &mut Places,
    write: WriteId,
    entry: Kept,
) -> Result<(), Memory>
    requires filled { 1 ≤ entry.piece.len }
    requires begins { entry.piece.offset % 512 ≡ 0 }
    requires indexed { IsIndexed None (name_at names.old.sheets.entries) (spot_at places.old.sheets.entries) }
    requires fresh { name_at names.old.sheets.entries write ≡ None }
    ensures entries { OnOk result ((q : _) → left_of (Some write) entry.piece (name_at names.new.sheets.entries) q
        ≡ (if is_at (write_order write) q then Some entry else left_of None entry.piece (name_at names.old.sheets.entries) q)) }
    ensures indexed { OnOk result (IsIndexed (Some write) (name_at names.new.sheets.entries) (spot_at places.new.sheets.entries)) }
    ensures stands { OnOk result (StandsHere (Some write) entry.piece (spot_at places.new.sheets.entries)) }
    ensures names_err { OnErr result ((q : _) → name_at names.new.sheets.entries q ≡ name_at names.old.sheets.entries q) }
    ensures places_err { OnErr result ((q : _) → spot_at places.new.sheets.entries q ≡ spot_at places.old.sheets.entries q) }
{
    names.insert(write, entry)?;
    let spot = Spot {
        write,
        len: entry.piece.len,
    };
    match places.insert(entry.piece.file, entry.piece.offset, spot) {
        Ok(None) => Ok(()),
        Ok(Some(older)) => {
            names.remove(&older.write);
            Ok(())
        }
        Err(_) => {
            names.remove(&write);
            Err(Memory)
        }
    }
}

// Takes out every write, other than the kept one, whose piece shares a byte with this one: from the
// last to the first.
pub(crate) fn take_out(names: &mut Names, places: &mut Places, piece: &Piece, kept: Option<WriteId>)
    requires fits { piece_end piece.now < 2 ^ 64 }
    requires begins { piece.now.offset % 512 ≡ 0 }
    requires whole { piece.now.len % 512 ≡ 0 }
    requires indexed { IsIndexed kept (name_at names.old.sheets.entries) (spot_at places.old.sheets.entries) }
    requires stands { StandsHere kept piece.now (spot_at places.old.sheets.entries) }
    ensures entries { (q : _) → name_at names.new.sheets.entries q ≡ left_of kept piece.now (name_at names.old.sheets.entries) q }
    ensures indexed { IsIndexed None (name_at names.new.sheets.entries) (spot_at places.new.sheets.entries) }
{
    let mut end = piece.offset + u64::from(piece.len);
    while let Some((offset, spot)) = last_overlapped(places, piece, end, kept) {
        places.remove(piece.file, offset);
        names.remove(&spot.write);
        end = offset;
    }
}

// The last offset before the end at which a write other than the kept one stands whose piece shares a
// byte with this one, and what stands there.
fn last_overlapped(
    places: &Places,
    piece: &Piece,
    end: u64,
    kept: Option<WriteId>,
) -> Option<(u64, Spot)>
    requires end { end % 512 ≡ 0 }
    requires begins { piece.now.offset % 512 ≡ 0 }
    requires within { end ≤ piece_end piece.now }
    requires disjoint { AreDisjoint kept (spot_at places.now.sheets.entries) }
    requires stands { StandsHere kept piece.now (spot_at places.now.sheets.entries) }
    ensures found { IsLastOverlapped kept piece.now (spot_at places.now.sheets.entries) end result }
{
    match last_other(places, piece, end, kept) {
        Some((offset, spot)) if overlaps(piece, &piece_at(piece.file, offset, spot)) => Some((
            offset, spot,
        )),
        _ => None,
    }
}

// The last offset of the piece's file before the end at which a write other than the kept one stands,
// and what stands there.
fn last_other(
    places: &Places,
    piece: &Piece,
    end: u64,
    kept: Option<WriteId>,
) -> Option<(u64, Spot)>
    requires end { end % 512 ≡ 0 }
    requires begins { piece.now.offset % 512 ≡ 0 }
    requires stands { StandsHere kept piece.now (spot_at places.now.sheets.entries) }
    ensures found { IsLastOther kept piece.now (spot_at places.now.sheets.entries) end result }
{
    match places.last_before(piece.file, end) {
        Some((_, spot)) if is_kept(kept, &spot.write) => places.last_before(
            piece.file,
            piece.offset,
        ),
        last => last,
    }
}

// Whether the write is the kept one.
fn is_kept(kept: Option<WriteId>, write: &WriteId) -> bool
    ensures { result ≡ is_kept kept write.now }
{
    match kept {
        Some(kept) => kept == *write,
        None => false,
    }
}

// The piece of a spot.
fn piece_at(file: u32, offset: u64, spot: Spot) -> Piece
    ensures { result ≡ piece_at (file, offset) spot }
{
    Piece {
        file,
        offset,
        len: spot.len,
    }
}
