ghost use Rattle.std.specs.Prelude.{◌≡◌, true, List, [], length, Some, None, IfSome, IfOk, OnOk, OnErr, ℕ};
ghost use Rattle.jr_model.specs.declared.events.Event.{Event};
ghost use Rattle.jr_model.specs.declared.events.Event.TheVariants.{End};
ghost use Rattle.jr_model.specs.declared.events.Outcome.{Outcome};
ghost use Rattle.jr_model.specs.declared.events.Started.{Started};
ghost use Rattle.jr_model.specs.History.{flies, started, started_by};
ghost use Rattle.jr_model.specs.Legal.{is_clear};
ghost use Rattle.jr_model.specs.Plan.{Plan as Planned, SubJob as Clone};
ghost use Rattle.jr_model.specs.Races.{has_raced};
ghost use Rattle.jr_model.specs.Tickets.{piece_fits};
ghost use Rattle.jr_flight.specs.Flights.{writes};
ghost use Rattle.jr_laws_log.specs.Flying.{io_of};
ghost use Rattle.jr_desk_state.specs.Flyings.{CanBegin, IsFlying};
ghost use Rattle.jr_laws_steps.specs.Nexts.{IsNext, grown};

use jr_flight::{Ended, Flight, Io};
use jr_model::{Dir, IoId, Memory, Piece};
use std::alloc::Global;

// What is in flight. The I/O that began last stands beside the others until the next `commit`, so that to begin it takes
// no memory. What it races with is marked as it begins.
#[derive(Drop)]
pub struct Flying {
    pub flight: Flight,
    pub begun: Option<Ended>,
}

impl Flying {
    // Nothing is.
    pub fn new(alloc: Global) -> Result<Flying, Memory>
        ensures { (plan : Planned) → IfOk result (IsFlying plan []) }
    {
        Ok(Flying {
            flight: Flight::new(alloc)?,
            begun: None,
        })
    }

    // Puts what began last to the others. A refused call changes nothing.
    pub fn commit(&mut self) -> Result<(), Memory>
        requires { IfSome self.old.begun (CanBegin self.old.flight) }
        ensures kept { OnOk result ((plan : Planned) (history : List Event) → IsFlying plan history self.old → IsFlying plan history self.new) }
        ensures settled { OnOk result (self.new.begun ≡ None) }
        ensures err { OnErr result (self.new ≡ self.old) }
    {
        if let Some(ended) = self.begun {
            self.flight.put(ended)?;
            self.begun = None;
        }
        Ok(())
    }

    // Whether a clone's piece has to wait for nothing in flight.
    pub fn is_clear(&self, piece: &Piece, dir: Dir, declines: bool) -> bool
        requires settled { self.now.begun ≡ None }
        requires fits { piece_fits piece.now ≡ true }
        ensures { (plan : Planned) (history : List Event) (job : Clone) → IsFlying plan history self.now → declines ≡ job.declines
            → result ≡ is_clear plan history job (writes dir) piece.now }
    {
        self.flight.clear(piece, dir, declines)
    }

    // Whether what is in flight under this number has raced.
    pub fn has_raced(&self, id: IoId) -> bool
        ensures { (plan : Planned) (history : List Event) → IsFlying plan history self.now → flies history id ≡ true
            → result ≡ has_raced history id }
    {
        match self.begun {
            Some(ended) if ended.io.id == id => ended.raced,
            _ => self.flight.raced(id),
        }
    }

    // Takes in the I/O that an event starts.
    pub fn start(&mut self, io: Io)
        requires settled { self.old.begun ≡ None }
        requires fits { piece_fits io.piece ≡ true }
        ensures { (plan : Planned) (history : List Event) (event : Event) (begun : Started) → IsNext plan history event
            → started_by event ≡ Some begun → io ≡ io_of plan (length (started history)) begun
            → IsFlying plan history self.old → IsFlying plan (grown history event) self.new }
    {
        let raced = self.flight.mark(&io);
        self.begun = Some(Ended { io, raced });
    }

    // Takes out the I/O that an event ends.
    pub fn end(&mut self, id: IoId)
        ensures { (plan : Planned) (history : List Event) (worker : ℕ) (outcome : Outcome) → IsNext plan history (End worker id outcome)
            → IsFlying plan history self.old → IsFlying plan (grown history (End worker id outcome)) self.new }
    {
        match self.begun {
            Some(ended) if ended.io.id == id => self.begun = None,
            _ => {
                let _ended = self.flight.end(id);
            }
        }
    }
}
