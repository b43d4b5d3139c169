ghost use Rattle.std.specs.Prelude.{◌≡◌, ◌&&◌, ◌==◌, ◌-◌, ◌/◌, ◌+◌, ◌<◌, ◌≤◌, nat_lt, if◌then◌else◌};
ghost use Rattle.jr_model.specs.Content.{chunk_at, chunks_in};
ghost use Rattle.jr_model.specs.Plan.{clone_of};
ghost use Rattle.jr_report_maps.specs.BadBlocks.{bad_bytes, interval_of, wrong_bytes};
ghost use Rattle.jr_report_maps.specs.Spans.{span_bytes};

use jr_model::{Piece, SECTOR, What, WriteId};
use jr_plan::Plan;

// Some adjacent bytes of a file: so many bytes, `skip` bytes behind `offset`. A chunk of a piece may begin past the last offset that
// is a number of 64 bits; it is still said exactly where.
#[derive(Clone, Copy)]
pub(crate) struct Span {
    pub file: u32,
    pub offset: u64,
    pub skip: u32,
    pub len: u32,
}

// All bytes of a piece.
pub(crate) fn whole(piece: &Piece) -> Span
    ensures { span_bytes result ≡ piece.now }
{
    Span {
        file: piece.file,
        offset: piece.offset,
        skip: 0,
        len: piece.len,
    }
}

// The bytes that a bad verdict on this write, or on this checked read, is over.
pub(crate) fn bad_bytes(plan: &Plan, write: &WriteId, piece: &Piece, what: What) -> Span
    ensures { span_bytes result ≡ bad_bytes plan.now write.now piece.now what }
{
    let interval = interval_of(plan, write.clone as usize);
    wrong_bytes(interval, piece, what)
}

// The bytes from one header of this clone's blocks to the next; 0 where that isn't known.
fn interval_of(plan: &Plan, clone: usize) -> u32
    ensures { result ≡ interval_of (clone_of plan.now clone) }
{
    if clone >= plan.clones() {
        return 0;
    }
    let job = plan.clone_at(clone);
    if job.checks_reads() {
        0
    } else {
        job.method().interval
    }
}

// The bytes of a piece that came back wrong.
fn wrong_bytes(interval: u32, piece: &Piece, what: What) -> Span
    ensures { span_bytes result ≡ wrong_bytes interval piece.now what }
{
    match what {
        What::Header | What::Digest | What::DataArea | What::Byte(_) => whole(piece),
        What::Chunk(i, _) => chunk_bytes(interval, piece, i),
    }
}

// Those of chunk i of a piece, where it has one.
fn chunk_bytes(interval: u32, piece: &Piece, i: u32) -> Span
    ensures { span_bytes result ≡ (if nat_lt i (chunks_in interval piece.now)
        then chunk_at interval piece.now i else piece.now) }
{
    if i >= chunks_in(interval, piece) {
        return whole(piece);
    }
    Span {
        file: piece.file,
        offset: piece.offset,
        skip: i * interval,
        len: interval,
    }
}

// How many chunks a piece has.
fn chunks_in(interval: u32, piece: &Piece) -> u32
    ensures { result ≡ chunks_in interval piece.now }
{
    if interval == 0 {
        0
    } else {
        piece.len / interval
    }
}

// Whether a span has bytes of the file.
pub(crate) fn has_bytes(span: &Span, file: u32) -> bool
    ensures { result ≡ ((span.now.file == file) && nat_lt 0 span.now.len) }
{
    span.file == file && 0 < span.len
}

// The block that a span begins in.
pub(crate) fn first_block(span: &Span, size: u64) -> u64
    requires { SECTOR ≤ size }
    ensures { result ≡ (span_bytes span.now).offset / size }
{
    let first = u128::from(span.offset) + u128::from(span.skip);
    (first / u128::from(size)) as u64
}

// The first block behind a span that has bytes.
pub(crate) fn end_block(span: &Span, size: u64) -> u64
    requires size { SECTOR ≤ size }
    requires bytes { 0 < span.now.len }
    ensures { result ≡ ((span_bytes span.now).offset + span.now.len - 1) / size + 1 }
{
    let last = u128::from(span.offset) + u128::from(span.skip) + u128::from(span.len - 1);
    (last / u128::from(size)) as u64 + 1
}
