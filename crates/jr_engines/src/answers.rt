ghost use Rattle.std.specs.Prelude.{◌≡◌, ◌-◌, ◌^◌, ◌<◌, ◌≤◌, true, length, vec_len, IfOk};
ghost use Rattle.jr_model.specs.Legal.{outcome_fits};
ghost use Rattle.std.specs.Result.{result_ok};
ghost use Rattle.jr_model.specs.Replies.{asked_read, asked_write, next_reply, outcome_for};
ghost use Rattle.jr_engines.specs.Answers.{Answers, AnswersBy};

use crate::engines::Engine;
use crate::faults::EngineFault;
use jr_model::{Outcome, Ticket, TicketKind};
use std::marker::Model;

/// What one call of an engine gave for a ticket. Only `ask` makes it.
#[derive(Drop)]
pub struct Answer {
    ticket: Ticket,
    bytes: Vec<u8>,
    outcome: Outcome,
}

impl Model for Answer {
    ghost use Rattle.jr_engines.specs.Answers.{AnswerParts};

    ghost Value = { AnswerParts };

    ghost view = { λ a. record { ticket = a.ticket; bytes = a.bytes.items; outcome = a.outcome } };
}

impl Answer {
    /// The ticket that was asked for.
    pub fn ticket(&self) -> &Ticket
        ensures { result.now ≡ self.now.ticket }
    {
        &self.ticket
    }

    /// The buffer as the call left it: of a read what it got, of a write what it was given.
    pub fn bytes(&self) -> &[u8]
        ensures { result.now ≡ self.now.bytes }
    {
        self.bytes.as_slice()
    }

    /// How the call ended.
    pub fn outcome(&self) -> Outcome
        ensures { result ≡ self.now.outcome }
    {
        self.outcome
    }

    /// The bytes, to use their room again.
    pub fn into_buf(self) -> Vec<u8>
        ensures { result.items ≡ self.bytes }
    {
        let Answer {
            ticket: _,
            bytes,
            outcome: _,
        } = self;
        bytes
    }
}

/// Calls the engine once, with the ticket's piece and the buffer.
pub fn ask(engine: &mut dyn Engine, ticket: Ticket, buffer: Vec<u8>) -> Answer
    requires room { vec_len buffer ≡ ticket.piece.len }
    requires calls { (state engine.old).calls < 2 ^ 64 - 1 }
    ensures { Answers (state engine.old) ticket buffer.items result (state engine.new) }
{
    let mut bytes = buffer;
    let outcome = match ticket.kind {
        TicketKind::Read | TicketKind::Probe | TicketKind::ReadCheck => {
            read_piece(engine, &ticket, bytes.as_mut_slice())
        }
        TicketKind::Write => write_piece(engine, &ticket, bytes.as_slice()),
    };
    Answer {
        ticket,
        bytes,
        outcome,
    }
}

// Reads the ticket's piece into the buffer, and says how that ended.
fn read_piece(engine: &mut dyn Engine, ticket: &Ticket, bytes: &mut [u8]) -> Outcome
    requires room { length bytes.old ≡ ticket.now.piece.len }
    requires calls { (state engine.old).calls < 2 ^ 64 - 1 }
    ensures { let old = state engine.old in
        let left = asked_read (next_reply old) old.memory ticket.now.piece bytes.old in
        AnswersBy left old ticket.now bytes.old (record { ticket = ticket.now; bytes = bytes.new; outcome = result }) (state engine.new) }
{
    let piece = ticket.piece;
    let moved = engine.read(piece.file, piece.offset, bytes);
    ended(&moved, piece.len)
}

// Writes the buffer over the ticket's piece, and says how that ended.
fn write_piece(engine: &mut dyn Engine, ticket: &Ticket, bytes: &[u8]) -> Outcome
    requires room { length bytes.now ≡ ticket.now.piece.len }
    requires calls { (state engine.old).calls < 2 ^ 64 - 1 }
    ensures { let old = state engine.old in
        let left = asked_write (next_reply old) old.memory ticket.now.piece bytes.now in
        AnswersBy left old ticket.now bytes.now (record { ticket = ticket.now; bytes = bytes.now; outcome = result }) (state engine.new) }
{
    let piece = ticket.piece;
    let moved = engine.write(piece.file, piece.offset, bytes);
    ended(&moved, piece.len)
}

// How a call over so many bytes ended.
fn ended(moved: &Result<usize, EngineFault>, len: u32) -> Outcome
    requires { IfOk moved.now (λ n. n ≤ len) }
    ensures value { result ≡ outcome_for (result_ok moved.now) len }
    ensures fits { outcome_fits result len ≡ true }
{
    match *moved {
        Err(_) => Outcome::Failed,
        Ok(count) if count < len as usize => Outcome::Short(count as u32),
        Ok(_) => Outcome::Whole,
    }
}
