ghost use Rattle.std.specs.Prelude.{◌≡◌, ◌<◌, ◌==◌, ◌||◌};
ghost use Rattle.jr_after_plans.specs.Taken.{after_fault, chunk_len, first_writer, has_digest, has_same_grid, is_on_grid, has_one_size};
ghost use Rattle.jr_after_plans.specs.Taken.{refusal_of, writes_to};

use crate::faults::{AfterFault, Refusal};
use jr_model::VerifyKind;
use jr_plan::{Plan, SubJob};

/// Why a plan can't be judged after a cut, if it can't: its first clone that isn't taken.
pub fn after_fault(plan: &Plan) -> Option<AfterFault>
    ensures { result ≡ after_fault plan.now }
{
    for i in 0..plan.clones() {
        let job = plan.clone_at(i);
        if let Some(why) = refusal_of(plan, job) {
            return Some(AfterFault {
                clone: job.clone_number(),
                why,
            });
        }
    }
    None
}

// Why a clone of a plan isn't taken.
fn refusal_of(plan: &Plan, job: &SubJob) -> Option<Refusal>
    ensures { result ≡ refusal_of plan.now.clones job.now }
{
    if job.declines() {
        return Some(Refusal::Unordered);
    }
    if !job.io_type().has_writes() {
        return None;
    }
    if !has_digest(job.method().kind) {
        return Some(Refusal::NoDigest);
    }
    if chunk_len(job) == 0 {
        return Some(Refusal::SeveralSizes);
    }
    if is_on_grid(plan, job) {
        None
    } else {
        Some(Refusal::OtherGrid)
    }
}

// Whether blocks of this kind have headers with a digest.
fn has_digest(kind: VerifyKind) -> bool
    ensures { result ≡ has_digest kind }
{
    !matches!(kind, VerifyKind::Plain | VerifyKind::Pattern)
}

/// How long each chunk of the clone's writes is; 0 if its blocks have several sizes and no interval.
pub fn chunk_len(job: &SubJob) -> u32
    ensures { result ≡ chunk_len job.now }
{
    let interval = job.method().interval;
    if interval != 0 {
        return interval;
    }
    if has_one_size(job.cell(), job.write_split().entries()) {
        job.cell()
    } else {
        0
    }
}

// Whether a split of these entries gives no other size.
fn has_one_size(size: u32, entries: &[(u32, u8)]) -> bool
    ensures { result ≡ has_one_size size entries.now }
{
    entries.iter().all(|entry| entry.1 == 0 || entry.0 == size)
}

// Whether its chunks have the places of those of the first clone that writes to its file.
fn is_on_grid(plan: &Plan, job: &SubJob) -> bool
    requires { 0 < chunk_len job.now }
    ensures { result ≡ is_on_grid (first_writer plan.now.clones job.now.file) job.now }
{
    for i in 0..plan.clones() {
        let first = plan.clone_at(i);
        if writes_to(job.file(), first) {
            return has_same_grid(first, job);
        }
    }
    true
}

/// Whether the clone writes to this file.
pub fn writes_to(file: u32, job: &SubJob) -> bool
    ensures { result ≡ writes_to file job.now }
{
    job.file() == file && job.io_type().has_writes()
}

// Whether the chunks of both have the same places.
fn has_same_grid(first: &SubJob, job: &SubJob) -> bool
    requires { 0 < chunk_len job.now }
    ensures { result ≡ has_same_grid first.now job.now }
{
    let len = chunk_len(job);
    chunk_len(first) == len && first.start() % u64::from(len) == job.start() % u64::from(len)
}
