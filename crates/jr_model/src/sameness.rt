ghost use Rattle.std.specs.Prelude.{◌≡◌, IsTrue, IsFalse};
ghost use Rattle.jr_model.specs.History.{same_write, same_piece};

use crate::blocks::Piece;
use crate::contents::{Expected, Method, Pattern, VerifyKind};
use crate::events::WriteId;
use crate::tickets::{Ticket, TicketKind};

/// Whether a ticket differs from another in nothing.
pub fn is_same_ticket(a: &Ticket, b: &Ticket) -> bool
    ensures yes { IsTrue result → a.now ≡ b.now }
    ensures no { IsFalse result → ¬ a.now ≡ b.now }
{
    a.id == b.id
        && a.worker == b.worker
        && a.seed == b.seed
        && is_same_kind(a.kind, b.kind)
        && same_write(&a.write, &b.write)
        && same_piece(&a.piece, &b.piece)
        && is_same_method(&a.method, &b.method)
        && is_same_expected(&a.expected, &b.expected)
}

/// Whether two kinds of ticket are one.
pub fn is_same_kind(a: TicketKind, b: TicketKind) -> bool
    ensures yes { IsTrue result → a ≡ b }
    ensures no { IsFalse result → ¬ a ≡ b }
{
    a == b
}

/// Whether two names are of one write.
pub fn same_write(a: &WriteId, b: &WriteId) -> bool
    ensures value { result ≡ same_write a.now b.now }
    ensures yes { IsTrue result → a.now ≡ b.now }
    ensures no { IsFalse result → ¬ a.now ≡ b.now }
{
    a.clone == b.clone && a.pass == b.pass && a.number == b.number
}

/// Whether two pieces are one.
pub fn same_piece(a: &Piece, b: &Piece) -> bool
    ensures value { result ≡ same_piece a.now b.now }
    ensures yes { IsTrue result → a.now ≡ b.now }
    ensures no { IsFalse result → ¬ a.now ≡ b.now }
{
    a.file == b.file && a.offset == b.offset && a.len == b.len
}

/// Whether blocks are made and verified in one way.
pub fn is_same_method(a: &Method, b: &Method) -> bool
    ensures yes { IsTrue result → a.now ≡ b.now }
    ensures no { IsFalse result → ¬ a.now ≡ b.now }
{
    is_same_verify(a.kind, b.kind)
        && is_same_pattern(&a.pattern, &b.pattern)
        && a.interval == b.interval
}

fn is_same_verify(a: VerifyKind, b: VerifyKind) -> bool
    ensures yes { IsTrue result → a ≡ b }
    ensures no { IsFalse result → ¬ a ≡ b }
{
    a == b
}

fn is_same_pattern(a: &Option<Pattern>, b: &Option<Pattern>) -> bool
    ensures yes { IsTrue result → a.now ≡ b.now }
    ensures no { IsFalse result → ¬ a.now ≡ b.now }
{
    match (a, b) {
        (None, None) => true,
        (Some(a), Some(b)) => is_same_bytes(a.as_slice(), b.as_slice()),
        _ => false,
    }
}

/// Whether bytes are judged by the same.
pub fn is_same_expected(a: &Expected, b: &Expected) -> bool
    ensures yes { IsTrue result → a.now ≡ b.now }
    ensures no { IsFalse result → ¬ a.now ≡ b.now }
{
    match (a, b) {
        (Expected::Nothing, Expected::Nothing) => true,
        (Expected::Pattern(a), Expected::Pattern(b)) => is_same_bytes(a.as_slice(), b.as_slice()),
        (Expected::Header(a), Expected::Header(b)) => is_same_bytes(a, b),
        (Expected::Seed(a), Expected::Seed(b)) => a == b,
        _ => false,
    }
}

fn is_same_bytes(a: &[u8], b: &[u8]) -> bool
    ensures yes { IsTrue result → a.now ≡ b.now }
    ensures no { IsFalse result → ¬ a.now ≡ b.now }
{
    a == b
}
