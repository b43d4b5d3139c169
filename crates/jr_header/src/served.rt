ghost use Rattle.std.specs.Prelude.{◌≡◌, ◌-◌, ◌^◌, ◌<◌, true, length, vec_len};
ghost use Rattle.jr_model.specs.Legal.{outcome_fits};
ghost use Rattle.jr_model.specs.Tickets.{ticket_fits};
ghost use Rattle.jr_engines.specs.Answers.{Answers};
ghost use Rattle.jr_header.specs.Served.{ExpectsOwn, asked_with, served_expected, is_whole_check, is_to_judge};

use crate::content::fill;
use jr_engines::{Answer, Engine, ask};
use jr_model::{Expected, Outcome, Ticket, TicketKind};
use std::marker::Model;

/// A ticket that was carried out. Only `Ready::ask`, `serve` and `serve_own` make it. Contracts see the engine's answer.
#[derive(Drop)]
pub struct Served {
    answer: Answer,
    expected: Expected,
    is_own: bool,
}

impl Model for Served {
    ghost use Rattle.jr_engines.specs.Answers.{AnswerParts};
    ghost use Rattle.jr_header.specs.Served.{IsServed};

    ghost Value = { AnswerParts };

    ghost view = { λ s. s.answer };

    ghost invariant = { λ s. IsServed s.answer s.expected s.is_own };
}

impl Served {
    /// The ticket that was carried out.
    pub fn ticket(&self) -> &Ticket
        ensures value { result.now ≡ self.now.ticket }
        ensures fits { ticket_fits self.now.ticket ≡ true }
    {
        let _ = &self.expected;
        self.answer.ticket()
    }

    /// The bytes that were read or written.
    pub fn bytes(&self) -> &[u8]
        ensures value { result.now ≡ self.now.bytes }
        ensures room { length self.now.bytes ≡ self.now.ticket.piece.len }
    {
        let _ = &self.expected;
        self.answer.bytes()
    }

    /// How the engine's call ended.
    pub fn outcome(&self) -> Outcome
        ensures value { result ≡ self.now.outcome }
        ensures fits { outcome_fits self.now.outcome self.now.ticket.piece.len ≡ true }
    {
        let _ = &self.expected;
        self.answer.outcome()
    }

    /// What a check of these bytes is judged by.
    pub fn expected(&self) -> &Expected
        ensures { result.now ≡ served_expected self.now.ticket.kind self.now.ticket }
    {
        &self.expected
    }

    // Whether the ticket is known to expect nothing but what its own write put there.
    pub(crate) fn is_own(&self) -> bool
        ensures { result ≡ true → ExpectsOwn self.now.ticket }
    {
        self.is_own
    }

    /// Whether this is a check, or a checked read, that ended whole.
    pub fn to_judge(&self) -> bool
        ensures { result ≡ is_to_judge self.now }
    {
        is_whole_check(self.answer.ticket().kind, self.answer.outcome())
    }

    /// The bytes, to use their room again.
    pub fn into_buf(self) -> Vec<u8>
        ensures { result.items ≡ self.bytes }
    {
        self.answer.into_buf()
    }
}

fn is_whole_check(kind: TicketKind, outcome: Outcome) -> bool
    ensures { result ≡ is_whole_check kind outcome }
{
    match (kind, outcome) {
        (TicketKind::Probe | TicketKind::ReadCheck, Outcome::Whole) => true,
        _ => false,
    }
}

/// A ticket that is ready to be carried out: its buffer is filled if it is a write's. Who times an engine's calls asks by it.
#[derive(Drop)]
pub struct Ready {
    ticket: Ticket,
    buffer: Vec<u8>,
    expected: Expected,
    is_own: bool,
}

impl Model for Ready {
    ghost use Rattle.jr_header.specs.Served.{IsReady, ReadyParts};

    ghost Value = { ReadyParts };

    ghost view = { λ r. record { ticket = r.ticket; buffer = r.buffer.items } };

    ghost invariant = { λ r. IsReady r.ticket r.buffer.items r.expected r.is_own };
}

impl Ready {
    /// Asks the engine once.
    pub fn ask(self, engine: &mut dyn Engine) -> Served
        requires { (state engine.old).calls < 2 ^ 64 - 1 }
        ensures { Answers (state engine.old) self.ticket self.buffer result (state engine.new) }
    {
        let Ready {
            ticket,
            buffer,
            expected,
            is_own,
        } = self;
        let answer = ask(engine, ticket, buffer);
        Served {
            answer,
            expected,
            is_own,
        }
    }
}

/// Carries out a ticket: fills the buffer for a write, and asks the engine once.
pub fn serve(engine: &mut dyn Engine, ticket: Ticket, buffer: Vec<u8>) -> Served
    requires fits { ticket_fits ticket ≡ true }
    requires room { vec_len buffer ≡ ticket.piece.len }
    requires calls { (state engine.old).calls < 2 ^ 64 - 1 }
    ensures { Answers (state engine.old) ticket (asked_with ticket.kind ticket buffer.items) result (state engine.new) }
{
    served_at_once(engine, ticket, buffer, false)
}

/// What the engine answers to a ticket whose check expects what its own write put there, as those of a desk do. To judge a good check
/// then takes no digest.
pub fn serve_own(engine: &mut dyn Engine, ticket: Ticket, buffer: Vec<u8>) -> Served
    requires fits { ticket_fits ticket ≡ true }
    requires own { ExpectsOwn ticket }
    requires room { vec_len buffer ≡ ticket.piece.len }
    requires calls { (state engine.old).calls < 2 ^ 64 - 1 }
    ensures { Answers (state engine.old) ticket (asked_with ticket.kind ticket buffer.items) result (state engine.new) }
{
    served_at_once(engine, ticket, buffer, true)
}

// Does the same at once, where no one asks in between: the ticket is moved once.
fn served_at_once(engine: &mut dyn Engine, ticket: Ticket, buffer: Vec<u8>, is_own: bool) -> Served
    requires fits { ticket_fits ticket ≡ true }
    requires own { is_own ≡ true → ExpectsOwn ticket }
    requires room { vec_len buffer ≡ ticket.piece.len }
    requires calls { (state engine.old).calls < 2 ^ 64 - 1 }
    ensures { Answers (state engine.old) ticket (asked_with ticket.kind ticket buffer.items) result (state engine.new) }
{
    let mut buffer = buffer;
    let expected = prepared(&ticket, buffer.as_mut_slice());
    let given = ask(engine, ticket, buffer);
    Served {
        answer: given,
        expected,
        is_own,
    }
}

/// What `serve_own` does before it asks the engine: fills the buffer for a write.
pub fn ready_own(ticket: Ticket, buffer: Vec<u8>) -> Ready
    requires fits { ticket_fits ticket ≡ true }
    requires own { ExpectsOwn ticket }
    requires room { vec_len buffer ≡ ticket.piece.len }
    ensures ticket { result.ticket ≡ ticket }
    ensures buffer { result.buffer ≡ asked_with ticket.kind ticket buffer.items }
{
    made_ready(ticket, buffer, true)
}

fn made_ready(ticket: Ticket, buffer: Vec<u8>, is_own: bool) -> Ready
    requires fits { ticket_fits ticket ≡ true }
    requires own { is_own ≡ true → ExpectsOwn ticket }
    requires room { vec_len buffer ≡ ticket.piece.len }
    ensures ticket { result.ticket ≡ ticket }
    ensures buffer { result.buffer ≡ asked_with ticket.kind ticket buffer.items }
{
    let mut buffer = buffer;
    let expected = prepared(&ticket, buffer.as_mut_slice());
    Ready {
        ticket,
        buffer,
        expected,
        is_own,
    }
}

// Fills the buffer for a write, and says what is known of the bytes.
fn prepared(ticket: &Ticket, buffer: &mut [u8]) -> Expected
    requires fits { ticket_fits ticket.now ≡ true }
    requires room { length buffer.old ≡ ticket.now.piece.len }
    ensures buffer { buffer.new ≡ asked_with ticket.now.kind ticket.now buffer.old }
    ensures expected { result ≡ served_expected ticket.now.kind ticket.now }
{
    match ticket.kind {
        TicketKind::Write => fill(ticket, buffer),
        TicketKind::Read | TicketKind::Probe | TicketKind::ReadCheck => ticket.expected,
    }
}
