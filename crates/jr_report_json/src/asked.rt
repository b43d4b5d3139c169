// What a clone is to do, as an object.
ghost use Rattle.std.specs.Prelude.{◌≡◌, ◌*◌, IfOk};
ghost use Rattle.jr_report_json.specs.Json.{asked_json, options_json};
ghost use Rattle.serde_json.specs.View.{view};

use crate::objects::{Scalar, object_of, object_with};
use jr_plan::{Plan, SubJob, io_type_word, verify_word};
use serde_json::Value;
use std::alloc::{AllocError, Global};

// The object of what a clone is to do.
pub(crate) fn asked_row<'a>(
    alloc: Global,
    plan: &'a Plan,
    job: &'a SubJob,
) -> Result<Value, AllocError>
    ensures { IfOk result (λ value. view value ≡ asked_json plan.now job.now) }
{
    let members = [
        ("cell", Scalar::Count(u64::from(job.cell()))),
        ("clone", Scalar::Count(u64::from(job.clone_number()))),
        ("file", Scalar::Text(plan.file_name(job.file()))),
        ("iodepth", Scalar::Count(u64::from(job.depth()))),
        ("job", Scalar::Text(job.job())),
        ("loops", Scalar::Count(u64::from(job.passes()))),
        ("phase", Scalar::Count(u64::from(job.phase()))),
        ("rw", Scalar::Text(io_type_word(job.io_type()))),
        ("size", Scalar::Count(size_of(job))),
        ("start", Scalar::Count(job.start())),
        ("verify", Scalar::Text(verify_word(job.method().kind))),
    ];
    let options = options_row(alloc, job)?;
    object_with(alloc, &members, "options", options)
}

// How many bytes its cells have.
fn size_of(job: &SubJob) -> u64
    ensures { result ≡ job.now.cells * job.now.cell }
{
    u64::from(job.cells()) * u64::from(job.cell())
}

// The object of its other options.
fn options_row(alloc: Global, job: &SubJob) -> Result<Value, AllocError>
    ensures { IfOk result (λ value. view value ≡ options_json job.now) }
{
    let members = [
        ("do_verify", Scalar::Flag(job.checks_writes())),
        ("norandommap", Scalar::Flag(!job.has_map())),
        ("rwmixread", Scalar::Count(u64::from(job.read_percent()))),
        ("seed", Scalar::Count(job.seed())),
        ("serialize_overlap", Scalar::Flag(!job.declines())),
        ("verify_backlog", Scalar::Count(u64::from(job.backlog()))),
        ("verify_fatal", Scalar::Flag(job.is_fatal())),
        (
            "verify_interval",
            Scalar::Count(u64::from(job.method().interval)),
        ),
    ];
    object_of(alloc, &members)
}
