ghost use Rattle.std.specs.Prelude.{◌≡◌, ◌≤◌, ◌<◌, ◌^◌, IsTrue, true, length, slice_index, take, drop, ◌%◌};
ghost use Rattle.jr_model.specs.declared.contents.VerifyKind.{VerifyKind as Kind};
ghost use Rattle.jr_model.specs.Content.{block_version, digest_length, digest_of, header_of, pattern_bytes};
ghost use Rattle.jr_model.specs.History.{is_judged_kind};
ghost use Rattle.jr_model.specs.Tickets.{ticket_fits};
ghost use Rattle.jr_header.specs.Served.{ExpectsOwn};
ghost use Rattle.jr_model.specs.Judgement.{digest_in, same_bytes, header_verdict, first_difference, byte_verdict, verdict_of};

use crate::chunks::chunks_verdict;
use crate::digests::{digest_length, header_back};
use crate::own::own_verdict;
use crate::parts::is_filler;
use jr_model::{Expected, Ticket, Verdict, VerifyKind, What};

// The verdict on the bytes of a check, by what its ticket expects; where it expects nothing, by what they say of themselves.
pub(crate) fn verdict(ticket: &Ticket, bytes: &[u8], is_own: bool) -> Verdict
    requires fits { ticket_fits ticket.now ≡ true }
    requires judged { is_judged_kind ticket.now.kind ≡ true }
    requires own { is_own ≡ true → ExpectsOwn ticket.now }
    requires length { length bytes.now ≡ ticket.now.piece.len }
    ensures { result ≡ verdict_of ticket.now.method ticket.now.write ticket.now.piece ticket.now.expected bytes.now }
{
    let method = &ticket.method;
    match &ticket.expected {
        Expected::Nothing => own_verdict(method.kind, &method.pattern, &ticket.piece, bytes),
        Expected::Pattern(pattern) => byte_verdict(first_difference(pattern.as_slice(), bytes)),
        Expected::Header(header) if is_own => own_write_verdict(ticket, header, bytes),
        Expected::Header(header) => header_verdict(method.kind, header, bytes),
        Expected::Seed(seed) => chunks_verdict(ticket, *seed, bytes),
    }
}

// The verdict by the header of the ticket's own write. Where that write's filler stands behind it, the header has its digest, so none is
// worked out.
fn own_write_verdict(ticket: &Ticket, header: &[u8; 64], bytes: &[u8]) -> Verdict
    requires header { header.now ≡ header_of block_version ticket.now.method ticket.now.write ticket.now.piece ticket.now.seed }
    requires room { 64 ≤ length bytes.now }
    requires whole { length bytes.now % 8 ≡ 0 }
    requires length { length bytes.now ≡ ticket.now.piece.len }
    ensures { result ≡ header_verdict ticket.now.method.kind header.now bytes.now }
{
    let method = &ticket.method;
    if is_filler(&method.pattern, ticket.seed, &bytes[64..]) {
        told_verdict(header, bytes)
    } else {
        header_verdict(method.kind, header, bytes)
    }
}

pub(crate) fn byte_verdict(place: Option<u32>) -> Verdict
    ensures { result ≡ byte_verdict place }
{
    match place {
        None => Verdict::Good,
        Some(i) => Verdict::Bad(What::Byte(i)),
    }
}

// The verdict by the header that the bytes should begin with.
pub(crate) fn header_verdict(kind: VerifyKind, header: &[u8; 64], bytes: &[u8]) -> Verdict
    requires { 64 ≤ length bytes.now }
    ensures { result ≡ header_verdict kind header.now bytes.now }
{
    if !same_bytes(&bytes[..32], &header[..32]) {
        Verdict::Bad(What::Header)
    } else if !same_bytes(&bytes[32..64], &header[32..]) {
        Verdict::Bad(What::Digest)
    } else if !begins_with_digest(&header[32..], kind, &bytes[64..]) {
        Verdict::Bad(What::DataArea)
    } else {
        Verdict::Good
    }
}

// What a header says where the digest of the data area is known to be the one in it.
pub(crate) fn told_verdict(written: &[u8; 64], bytes: &[u8]) -> Verdict
    requires { 64 ≤ length bytes.now }
    ensures { (kind : Kind) → digest_of kind (drop 64 bytes.now) ≡ digest_in kind written.now
        → result ≡ header_verdict kind written.now bytes.now }
{
    if !same_bytes(&bytes[..32], &written[..32]) {
        Verdict::Bad(What::Header)
    } else if !same_bytes(&bytes[32..64], &written[32..]) {
        Verdict::Bad(What::Digest)
    } else {
        Verdict::Good
    }
}

// Whether the second half of a header begins with the digest of this data area. What stands behind the
// digest is free.
fn begins_with_digest(back: &[u8], kind: VerifyKind, area: &[u8]) -> bool
    requires { 32 ≤ length back.now }
    ensures { result ≡ same_bytes (digest_of kind area.now) (take (digest_length kind) back.now) }
{
    let count = usize::from(digest_length(kind));
    same_bytes(&header_back(kind, area)[..count], &back[..count])
}

pub(crate) fn same_bytes(a: &[u8], b: &[u8]) -> bool
    ensures { result ≡ same_bytes a.now b.now }
{
    a == b
}

// The first place at which the bytes don't follow the pattern, if there is one.
pub(crate) fn first_difference(pattern: &[u8], bytes: &[u8]) -> Option<u32>
    requires pattern { 1 ≤ length pattern.now }
    requires bytes { length bytes.now < 2 ^ 32 }
    ensures { result ≡ first_difference bytes.now (pattern_bytes pattern.now (length bytes.now)) }
{
    if follows(pattern, bytes) {
        return None;
    }
    for (i, byte) in bytes.iter().enumerate() {
        if *byte != pattern[i % pattern.len()] {
            return Some(i as u32);
        }
    }
    None
}

// Whether the bytes follow the pattern: they begin with it, and each byte is the one that stands a whole
// pattern before it.
pub(crate) fn follows(pattern: &[u8], bytes: &[u8]) -> bool
    requires { 1 ≤ length pattern.now }
    ensures { IsTrue result → bytes.now ≡ pattern_bytes pattern.now (length bytes.now) }
{
    let count = pattern.len();
    if bytes.len() < count || !same_bytes(&bytes[..count], pattern) {
        return false;
    }
    same_bytes(&bytes[count..], &bytes[..bytes.len() - count])
}
