ghost use Rattle.std.specs.Prelude.{◌≡◌};
ghost use Rattle.jr_model.specs.Tickets.{same_pattern};

use crate::blocks::Piece;
use crate::contents::{Expected, Method, Pattern, VerifyKind};
use crate::events::{IoId, WriteId};
use crate::limits::{LARGEST_BLOCK, LARGEST_END, MOST_PASSES, SECTOR};

/// What a ticket asks for.
#[derive(Clone, Copy, Debug, PartialEq, Eq)]
pub enum TicketKind {
    Read,
    Write,
    /// A read back of a write, to be judged.
    Probe,
    /// A read of a job that checks what it reads: judged by what its bytes say of themselves.
    ReadCheck,
}

/// All that a worker must know to carry out one I/O.
#[derive(Clone, Copy, Debug, PartialEq, Eq)]
pub struct Ticket {
    pub id: IoId,
    pub worker: u32,
    pub kind: TicketKind,
    /// The draw, and for a probe the write that it checks.
    pub write: WriteId,
    pub piece: Piece,
    /// The seed of the filler, if the job has no pattern.
    pub seed: u64,
    pub method: Method,
    /// What a probe's bytes are judged by; nothing for a read or a write, also if the read is checked.
    pub expected: Expected,
}

impl Ticket {
    ghost use Rattle.jr_model.specs.Tickets.{ticket_fits, piece_fits, expected_fits, chunks_fit};

    /// Whether the ticket can be carried out: whole 512-byte blocks within the limits, a pass below
    /// 1000, a pattern if the method needs one, a method that verifies if a read is checked, and expected bytes for a probe
    /// alone.
    pub fn fits(&self) -> bool
        ensures { result ≡ ticket_fits self.now }
    {
        self.has_fitting_piece()
            && self.write.pass < MOST_PASSES
            && (self.method.kind != VerifyKind::Pattern || self.method.pattern.is_some())
            && self.has_fitting_chunks()
            && self.has_fitting_expected()
    }

    // Whole blocks of 512 bytes, at least one, within the largest block and the furthest end.
    fn has_fitting_piece(&self) -> bool
        ensures { result ≡ piece_fits self.now.piece }
    {
        let piece = &self.piece;
        piece.len != 0
            && piece.len <= LARGEST_BLOCK
            && piece.len % SECTOR == 0
            && piece.offset % u64::from(SECTOR) == 0
            && piece.offset <= LARGEST_END
            && piece.offset <= LARGEST_END - u64::from(piece.len)
    }

    // A write or a probe with headers at an interval is cut into whole chunks.
    fn has_fitting_chunks(&self) -> bool
        ensures { result ≡ chunks_fit self.now.kind self.now.method self.now.piece.len }
    {
        match self.kind {
            TicketKind::Read | TicketKind::ReadCheck => true,
            TicketKind::Write | TicketKind::Probe => {
                let method = &self.method;
                method.kind.fits_interval(method.interval, self.piece.len)
            }
        }
    }

    // A probe has what its method is judged by, and no other ticket has anything. A checked read has a method that verifies.
    fn has_fitting_expected(&self) -> bool
        ensures { result ≡ expected_fits self.now }
    {
        match self.kind {
            TicketKind::Read | TicketKind::Write => self.expected == Expected::Nothing,
            TicketKind::ReadCheck => {
                self.expected == Expected::Nothing && self.method.kind.is_verified()
            }
            TicketKind::Probe => match (self.method.kind, self.expected) {
                (VerifyKind::Pattern, Expected::Pattern(pattern)) => {
                    is_pattern(&self.method.pattern, &pattern)
                }
                (VerifyKind::Md5 | VerifyKind::Sha1 | VerifyKind::Sha256, Expected::Header(_)) => {
                    self.method.interval == 0
                }
                (VerifyKind::Md5 | VerifyKind::Sha1 | VerifyKind::Sha256, Expected::Seed(_)) => {
                    self.method.interval != 0
                }
                _ => false,
            },
        }
    }
}

// Whether the method's pattern is this one.
fn is_pattern(method: &Option<Pattern>, expected: &Pattern) -> bool
    ensures { result ≡ same_pattern method.now expected.now }
{
    match method {
        None => false,
        Some(pattern) => pattern.as_slice() == expected.as_slice(),
    }
}
