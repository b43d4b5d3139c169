ghost use Rattle.std.specs.Prelude.{◌≡◌, IsTrue, IsFalse, slice_get};
ghost use Rattle.jr_model.specs.declared.contents.Expected.TheVariants.{Nothing};
ghost use Rattle.jr_model.specs.Content.{block_version, expected_pattern, header_front};
ghost use Rattle.jr_model.specs.Plan.{clone_of};
ghost use Rattle.jr_desk_tickets.specs.Handing.{expected_again, header_expected, headers_again, launch_of, launched_piece, ticket_again};
ghost use Rattle.jr_desk_tickets.specs.Tickets.{method_of};

use jr_model::{
    Expected, IoId, Method, Piece, Ticket, TicketKind, VerifyKind, WriteId, is_same_expected,
    is_same_kind, is_same_method, same_piece, same_write,
};
use jr_plan::Plan;
use jr_writes::{header_front, header_of_halves};

/// What is kept of the ticket of an I/O or check: all that the plan doesn't say.
#[derive(Clone, Copy, PartialEq, Eq)]
pub struct Launch {
    pub worker: u32,
    pub kind: TicketKind,
    pub write: WriteId,
    pub file: u32,
    pub offset: u64,
    pub len: u32,
    /// How many headers were kept before it. A check that is judged by one has the next.
    pub headers: u32,
    pub seed: u64,
}

impl Launch {
    // That of a ticket, after so many headers.
    pub(crate) fn of(ticket: &Ticket, headers: u32) -> Launch
        ensures { result ≡ launch_of headers ticket.now }
    {
        Launch {
            worker: ticket.worker,
            kind: ticket.kind,
            write: ticket.write,
            file: ticket.piece.file,
            offset: ticket.piece.offset,
            len: ticket.piece.len,
            headers,
            seed: ticket.seed,
        }
    }

    // Where it reads or writes.
    pub(crate) fn piece(&self) -> Piece
        ensures { result ≡ launched_piece self.now }
    {
        Piece {
            file: self.file,
            offset: self.offset,
            len: self.len,
        }
    }

    // The ticket of this number, made again with the plan and the headers of all checks.
    pub(crate) fn ticket(&self, plan: &Plan, headers: &[[u8; 32]], id: IoId) -> Ticket
        ensures { result ≡ ticket_again plan.now headers.now id self.now }
    {
        let method = method_in(plan, self.write.clone);
        Ticket {
            id,
            worker: self.worker,
            kind: self.kind,
            write: self.write,
            piece: self.piece(),
            seed: self.seed,
            method,
            expected: self.expected(&method, headers),
        }
    }

    // Whether this ticket is the one of its number, as it would be made again. Nothing is made but what its bytes are judged by.
    pub(crate) fn is_of(&self, plan: &Plan, headers: &[[u8; 32]], ticket: &Ticket) -> bool
        ensures yes { IsTrue result → ticket_again plan.now headers.now ticket.now.id self.now ≡ ticket.now }
        ensures no { IsFalse result → ¬ ticket_again plan.now headers.now ticket.now.id self.now ≡ ticket.now }
    {
        self.worker == ticket.worker
            && self.seed == ticket.seed
            && is_same_kind(self.kind, ticket.kind)
            && same_write(&self.write, &ticket.write)
            && same_piece(&self.piece(), &ticket.piece)
            && is_same_method(&method_in(plan, self.write.clone), &ticket.method)
            && self.is_expected(&ticket.method, headers, &ticket.expected)
    }

    // Whether its bytes are judged by this. Where nothing is expected, nothing is made to compare it with.
    fn is_expected(&self, method: &Method, headers: &[[u8; 32]], expected: &Expected) -> bool
        ensures yes { IsTrue result → expected_again self.now.kind method.now self.now (slice_get headers.now self.now.headers) ≡ expected.now }
        ensures no { IsFalse result → ¬ expected_again self.now.kind method.now self.now (slice_get headers.now self.now.headers) ≡ expected.now }
    {
        match self.kind {
            TicketKind::Read => is_nothing(expected),
            TicketKind::Write => is_nothing(expected),
            TicketKind::ReadCheck => is_nothing(expected),
            TicketKind::Probe => is_same_expected(&self.expected(method, headers), expected),
        }
    }

    // What its bytes are judged by.
    fn expected(&self, method: &Method, headers: &[[u8; 32]]) -> Expected
        ensures { result ≡ expected_again self.now.kind method.now self.now (slice_get headers.now self.now.headers) }
    {
        match self.kind {
            TicketKind::Read => Expected::Nothing,
            TicketKind::Write => Expected::Nothing,
            TicketKind::ReadCheck => Expected::Nothing,
            TicketKind::Probe => match method.kind {
                VerifyKind::Plain => Expected::Nothing,
                VerifyKind::Pattern => pattern_expected(method),
                VerifyKind::Md5 => self.headers_expected(method, headers),
                VerifyKind::Sha1 => self.headers_expected(method, headers),
                VerifyKind::Sha256 => self.headers_expected(method, headers),
            },
        }
    }

    // What the bytes of a digest's check are judged by: the header whose second half was kept, or those that its seed gives.
    fn headers_expected(&self, method: &Method, headers: &[[u8; 32]]) -> Expected
        ensures { result ≡ headers_again method.now self.now (slice_get headers.now self.now.headers) }
    {
        if method.interval == 0 {
            self.header_expected(method.kind, headers)
        } else {
            Expected::Seed(self.seed)
        }
    }

    // What bytes are judged by of whose header this second half was kept.
    fn header_expected(&self, kind: VerifyKind, headers: &[[u8; 32]]) -> Expected
        ensures { result ≡ header_expected (header_front block_version kind self.now.write (launched_piece self.now))
            (slice_get headers.now self.now.headers) }
    {
        match headers.get(self.headers as usize).copied() {
            None => Expected::Nothing,
            Some(back) => {
                let front = header_front(kind, &self.write, &self.piece());
                Expected::Header(header_of_halves(&front, &back))
            }
        }
    }
}

// What the bytes of a pattern's check are judged by.
fn pattern_expected(method: &Method) -> Expected
    ensures { result ≡ expected_pattern method.now.pattern }
{
    match method.pattern {
        None => Expected::Nothing,
        Some(pattern) => Expected::Pattern(pattern),
    }
}

// Whether bytes are judged by nothing.
fn is_nothing(expected: &Expected) -> bool
    ensures yes { IsTrue result → Nothing ≡ expected.now }
    ensures no { IsFalse result → ¬ Nothing ≡ expected.now }
{
    match expected {
        Expected::Nothing => true,
        Expected::Pattern(_) => false,
        Expected::Header(_) => false,
        Expected::Seed(_) => false,
    }
}

// How the blocks of a clone are made and verified.
fn method_in(plan: &Plan, clone: u32) -> Method
    ensures { result ≡ method_of (clone_of plan.now clone) }
{
    let clone = clone as usize;
    if clone < plan.clones() {
        plan.clone_at(clone).method()
    } else {
        Method {
            kind: VerifyKind::Plain,
            pattern: None,
            interval: 0,
        }
    }
}
