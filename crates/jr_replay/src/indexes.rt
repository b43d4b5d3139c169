// What is kept of a legal run beside its events, so that no question about it goes over all that is in flight.
ghost use Rattle.std.specs.Prelude.{◌≡◌, ◌&&◌, ◌||◌, ℕ, [], true, nat_eq, None, IfOk, OnOk};
ghost use Rattle.std.specs.BTreeMap.{is_at};
ghost use Rattle.std.specs.HashSet.{contains};
ghost use Rattle.std.specs.Map.{remove_entry};
ghost use Rattle.std.specs.Ordering.{nat_cmp};
ghost use Rattle.jr_model.specs.Tickets.{piece_fits};
ghost use Rattle.jr_flight.specs.Flights.{flying_io, raced_so_far};
ghost use Rattle.jr_laws_log.specs.Flying.{begun, dir_of, flight_of, io_of};
ghost use Rattle.jr_laws_steps.specs.Nexts.{IsNext, grown};
ghost use Rattle.jr_desk_totals.specs.Tallying.{IsTallied};
ghost use Rattle.jr_replay.specs.Indexes.{AreIndexes, AreRacedEnds};

use crate::legal::clone_declines;
use jr_desk_totals::Tallies;
use jr_flight::{Flight, Io};
use jr_model::{Dir, Event, Memory, Started, TicketKind};
use jr_plan::Plan;
use jr_replay_history::{Ledger, started_by};
use std::alloc::Global;
use std::collections::HashSet;

/// The indexes of a legal run.
#[derive(Drop)]
pub struct Indexes {
    /// What is in flight, by number and by place, and what of it raced.
    pub flight: Flight,
    /// The counts and totals of each clone.
    pub tallies: Tallies,
    /// The numbers of those that ended and raced.
    pub raced: HashSet<usize>,
}

impl Indexes {
    // Before anything happened.
    pub(crate) fn new(alloc: Global, plan: &Plan) -> Result<Indexes, Memory>
        ensures { IfOk result (AreIndexes plan.now []) }
    {
        Ok(Indexes {
            flight: Flight::new(alloc)?,
            tallies: Tallies::new(alloc, plan)?,
            raced: HashSet::new(alloc),
        })
    }

    // With one event more.
    pub(crate) fn followed_by(
        self,
        plan: &Plan,
        history: &Ledger,
        event: &Event,
    ) -> Result<Indexes, Memory>
        requires next { IsNext plan.now history.now event.now }
        requires indexes { AreIndexes plan.now history.now self }
        ensures { IfOk result (AreIndexes plan.now (grown history.now event.now)) }
    {
        let Indexes {
            mut flight,
            mut tallies,
            mut raced,
        } = self;
        tally(&mut tallies, plan, history, event)?;
        fly(&mut flight, &mut raced, plan, history, event)?;
        Ok(Indexes {
            flight,
            tallies,
            raced,
        })
    }
}

// Counts an event of its clone.
fn tally(tallies: &mut Tallies, plan: &Plan, history: &Ledger, event: &Event) -> Result<(), Memory>
    requires next { IsNext plan.now history.now event.now }
    requires tallied { IsTallied plan.now history.now tallies.old }
    ensures { OnOk result (IsTallied plan.now (grown history.now event.now) tallies.new) }
{
    match *event {
        Event::Issue { write, .. } => {
            tallies.issued(write.clone as usize);
            Ok(())
        }
        Event::Probe { write, .. } => {
            tallies.probed(write.clone as usize);
            Ok(())
        }
        Event::Skip { write, .. } => {
            tallies.skipped(write.clone as usize);
            Ok(())
        }
        Event::End { io, outcome, .. } => {
            let Some(io) = history.started_at(io as usize) else {
                return Ok(());
            };
            tallies.ended(io.write.clone as usize, io.kind, io.piece.len, outcome);
            Ok(())
        }
        Event::Verdict { io, verdict, .. } => {
            let Some(io) = history.started_at(io as usize) else {
                return Ok(());
            };
            tallies.reserve()?;
            let is_fatal = plan.clone_at(io.write.clone as usize).is_fatal();
            tallies.judged(io.write, io.piece, is_fatal, verdict);
            Ok(())
        }
    }
}

// Takes an event into what flies, and of what it ends whether that raced.
fn fly(
    flight: &mut Flight,
    raced: &mut HashSet<usize>,
    plan: &Plan,
    history: &Ledger,
    event: &Event,
) -> Result<(), Memory>
    requires next { IsNext plan.now history.now event.now }
    requires flight { flight.old ≡ flight_of plan.now history.now }
    requires raced { AreRacedEnds history.now raced.old }
    ensures flight { OnOk result (flight.new ≡ flight_of plan.now (grown history.now event.now)) }
    ensures raced { OnOk result (AreRacedEnds (grown history.now event.now) raced.new) }
{
    if let Some(io) = started_by(event) {
        return begin(flight, plan, history.started().len() as u32, &io);
    }
    match *event {
        Event::End { io, .. } => end(flight, raced, io),
        _ => Ok(()),
    }
}

// Puts what starts under this number into flight.
fn begin(flight: &mut Flight, plan: &Plan, id: u32, io: &Started) -> Result<(), Memory>
    requires fits { piece_fits io.now.piece ≡ true }
    requires new { flying_io id flight.old ≡ None }
    ensures { OnOk result (flight.new ≡ begun (io_of plan.now id io.now) flight.old) }
{
    let declines = clone_declines(plan, io.write.clone);
    flight.begin(Io {
        id,
        clone: io.write.clone,
        piece: io.piece,
        dir: dir_of(io.kind),
        declines,
    })
}

// Which way the bytes of an I/O go.
fn dir_of(kind: TicketKind) -> Dir
    ensures { result ≡ dir_of kind }
{
    match kind {
        TicketKind::Write => Dir::Write,
        TicketKind::Read | TicketKind::Probe | TicketKind::ReadCheck => Dir::Read,
    }
}

// Takes what ends out of flight, and keeps its number where it raced.
fn end(flight: &mut Flight, raced: &mut HashSet<usize>, id: u32) -> Result<(), Memory>
    ensures flight { flight.new ≡ remove_entry (is_at (nat_cmp id)) flight.old }
    ensures raced { OnOk result ((io : ℕ) → contains nat_eq raced.new io
        ≡ (contains nat_eq raced.old io || (nat_eq id io && raced_so_far (flying_io id flight.old)))) }
{
    let has_raced = flight.raced(id);
    let _ended = flight.end(id);
    if has_raced {
        raced.insert(id as usize)?;
    }
    Ok(())
}
