ghost use Rattle.std.specs.Prelude.{◌≡◌, ◌≤◌, ◌<◌, ◌+◌, IfSome, Some};
ghost use Rattle.jr_after_chunks.specs.Next.{IsNext, IsReadable, chunk_from, earlier, next_chunk, own_chunk, rounded_up};

use jr_after_plans::{chunk_len, writes_to};
use jr_model::{LARGEST_END, Piece};
use jr_plan::{Plan, SubJob};

/// The first chunk of a file, from an offset on, that a clone of the plan may write.
pub fn next_chunk(plan: &Plan, file: u32, from: u64) -> Option<Piece>
    requires { from ≤ LARGEST_END }
    ensures value { result ≡ next_chunk plan.now.clones file from }
    ensures next { IsNext plan.now.clones file from result }
    ensures readable { IfSome result (IsReadable file) }
{
    // Its contract says what holds of every plan.
    plan.facts();
    first_chunk(plan, file, from)
}

fn first_chunk(plan: &Plan, file: u32, from: u64) -> Option<Piece>
    requires { from ≤ LARGEST_END }
    ensures { result ≡ next_chunk plan.now.clones file from }
{
    let mut first = None;
    for i in 0..plan.clones() {
        first = earlier(first, own_chunk(plan.clone_at(i), file, from));
    }
    first
}

// The chunk with the lower place.
fn earlier(a: Option<Piece>, b: Option<Piece>) -> Option<Piece>
    ensures { result ≡ earlier a b }
{
    match (a, b) {
        (Some(a), Some(b)) => Some(lower(a, b)),
        (Some(a), None) => Some(a),
        (None, b) => b,
    }
}

fn lower(a: Piece, b: Piece) -> Piece
    ensures { Some result ≡ earlier (Some a) (Some b) }
{
    if a.offset <= b.offset { a } else { b }
}

// The clone's first chunk from an offset on, if it writes to the file.
fn own_chunk(job: &SubJob, file: u32, from: u64) -> Option<Piece>
    requires { from ≤ LARGEST_END }
    ensures { result ≡ own_chunk job.now file from }
{
    if writes_to(file, job) {
        chunk_from(job, from)
    } else {
        None
    }
}

fn chunk_from(job: &SubJob, from: u64) -> Option<Piece>
    requires { from ≤ LARGEST_END }
    ensures { result ≡ chunk_from job.now from }
{
    job.facts();
    let len = chunk_len(job);
    if len == 0 {
        return None;
    }
    let offset = job.start() + rounded_up(from.saturating_sub(job.start()), len);
    let end = job.start() + u64::from(job.cells()) * u64::from(job.cell());
    if offset + u64::from(len) <= end {
        Some(Piece {
            file: job.file(),
            offset,
            len,
        })
    } else {
        None
    }
}

// The first multiple of a length from a number on.
fn rounded_up(n: u64, len: u32) -> u64
    requires small { n ≤ LARGEST_END }
    requires some { 0 < len }
    ensures value { result ≡ rounded_up n len }
    ensures most { result ≤ n + len }
{
    (n + u64::from(len - 1)) / u64::from(len) * u64::from(len)
}
