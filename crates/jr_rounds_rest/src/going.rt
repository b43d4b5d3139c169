ghost use Rattle.std.specs.Prelude.{◌≡◌};
ghost use Rattle.std.specs.List.{list_any};
ghost use Rattle.jr_rounds_rest.specs.Left.{disturbs, clone_goes_on, is_in_order, region_end};

use jr_model::IoType;
use jr_plan::{Plan, SubJob};

/// Whether a clone of the plan goes on after a fault: it goes through its region in order, and no other clone writes where it does.
pub fn clone_goes_on(plan: &Plan, job: &SubJob) -> bool
    ensures { result ≡ clone_goes_on plan.now job.now }
{
    is_in_order(job.io_type()) && !is_disturbed(plan, job)
}

fn is_in_order(io_type: IoType) -> bool
    ensures { result ≡ is_in_order io_type }
{
    match io_type {
        IoType::Read | IoType::Write => true,
        IoType::ReadWrite | IoType::RandRead | IoType::RandWrite | IoType::RandRw => false,
    }
}

// Whether another clone writes where this one does.
fn is_disturbed(plan: &Plan, job: &SubJob) -> bool
    ensures { result ≡ list_any (disturbs job.now) plan.now.clones }
{
    for i in 0..plan.clones() {
        if disturbs(job, plan.clone_at(i)) {
            return true;
        }
    }
    false
}

fn disturbs(job: &SubJob, other: &SubJob) -> bool
    ensures { result ≡ disturbs job.now other.now }
{
    other.clone_number() != job.clone_number()
        && other.io_type().has_writes()
        && job.io_type().has_writes()
        && other.file() == job.file()
        && job.start().max(other.start()) < region_end(job).min(region_end(other))
}

// The first byte past the clone's region.
pub(crate) fn region_end(job: &SubJob) -> u64
    ensures { result ≡ region_end job.now }
{
    job.facts();
    job.start() + u64::from(job.cells()) * u64::from(job.cell())
}
