ghost use Rattle.std.specs.Prelude.{◌≡◌};
ghost use Rattle.std.specs.List.{list_any};
ghost use Rattle.jr_io_files.specs.Uses.{checks_file, writes_file};

use jr_plan::{Plan, SubJob};

/// Whether a clone of the plan writes this file.
pub(crate) fn is_written(plan: &Plan, file: usize) -> bool
    ensures { result ≡ list_any (writes_file file) plan.now.clones }
{
    for i in 0..plan.clones() {
        if writes_file(plan.clone_at(i), file) {
            return true;
        }
    }
    false
}

/// Whether a clone of the plan checks what it reads of this file.
pub(crate) fn is_checked(plan: &Plan, file: usize) -> bool
    ensures { result ≡ list_any (checks_file file) plan.now.clones }
{
    for i in 0..plan.clones() {
        if checks_file(plan.clone_at(i), file) {
            return true;
        }
    }
    false
}

fn writes_file(job: &SubJob, file: usize) -> bool
    ensures { result ≡ writes_file file job.now }
{
    job.file() as usize == file && job.io_type().has_writes()
}

fn checks_file(job: &SubJob, file: usize) -> bool
    ensures { result ≡ checks_file file job.now }
{
    job.file() as usize == file && job.verifies()
}
