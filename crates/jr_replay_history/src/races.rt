ghost use Rattle.std.specs.Prelude.{◌≡◌, ℕ, nat_eq, ◌&&◌, ◌||◌, OnOk};
ghost use Rattle.std.specs.HashSet.{contains};
ghost use Rattle.std.specs.List.{list_any};
ghost use Rattle.jr_model.specs.History.{in_flight};
ghost use Rattle.jr_model.specs.Races.{races_by, writes_over};
ghost use Rattle.jr_replay_history.specs.Raced.{is_overlaid, is_overlaid_at};
ghost use Rattle.jr_replay_history.specs.Unfinished.{unfinished};

use crate::events::is_write;
use crate::ledgers::Ledger;
use jr_model::{Memory, Piece, Started, overlaps};
use std::collections::HashSet;

// Whether the other one writes where the piece lies.
fn writes_over(piece: &Piece, other: &Started) -> bool
    ensures { result ≡ writes_over piece.now other.now }
{
    is_write(other.kind) && overlaps(&other.piece, piece)
}

// Whether what starts writes where the I/O lies, which is in flight.
fn is_overlaid(ledger: &Ledger, new: &Started, io: &(usize, Started)) -> bool
    ensures { result ≡ is_overlaid ledger.now new.now io.now }
{
    writes_over(&io.1.piece, new) && ledger.outcome_of(io.0).is_none()
}

// Marks those of these I/Os that are in flight, and where it writes.
fn mark_overlaid(
    raced: &mut HashSet<usize>,
    ledger: &Ledger,
    ios: &[(usize, Started)],
    new: &Started,
) -> Result<(), Memory>
    ensures { OnOk result
        ((io : ℕ) → contains nat_eq raced.new io
        ≡ (contains nat_eq raced.old io
        || list_any (is_overlaid_at ledger.now new.now io) ios.now)) }
{
    for io in ios {
        if is_overlaid(ledger, new, io) {
            raced.insert(io.0)?;
        }
    }
    Ok(())
}

// Whether one of these writes where the piece lies.
fn is_written_over(flying: &[Started], piece: &Piece) -> bool
    ensures { result ≡ list_any (writes_over piece.now) flying.now }
{
    flying.iter().any(|other| writes_over(piece, other))
}

// Marks what starts under this number, where one of these writes where it lies.
fn mark_new(
    raced: &mut HashSet<usize>,
    number: usize,
    flying: &[Started],
    new: &Started,
) -> Result<(), Memory>
    ensures { OnOk result
        ((io : ℕ) → contains nat_eq raced.new io
        ≡ (contains nat_eq raced.old io
        || (nat_eq number io && list_any (writes_over new.now.piece) flying.now))) }
{
    if is_written_over(flying, &new.piece) {
        raced.insert(number)?;
    }
    Ok(())
}

// Marks what races by a start, where these are unfinished, and those in flight.
pub(crate) fn mark_raced(
    raced: &mut HashSet<usize>,
    ledger: &Ledger,
    pending: &[(usize, Started)],
    flying: &[Started],
    new: Option<Started>,
) -> Result<(), Memory>
    requires pending { pending.now ≡ unfinished ledger.now }
    requires flying { flying.now ≡ in_flight ledger.now }
    ensures { OnOk result
        ((io : ℕ) → contains nat_eq raced.new io
        ≡ (contains nat_eq raced.old io || races_by ledger.now io new)) }
{
    if let Some(new) = new {
        mark_overlaid(raced, ledger, pending, &new)?;
        mark_new(raced, ledger.started().len(), flying, &new)?;
    }
    Ok(())
}
