// Files that are too short are made longer, and back where not all of them can be.
ghost use Rattle.std.specs.Prelude.{◌≡◌, ◌<◌, length, IfErr, IfOk};
ghost use Rattle.jr_io_files.specs.Engines.{IsOpenFault};

use crate::claims::name_of;
use crate::refusals::{Act, Refusal, Why};
use crate::shares::SharedFile;
use crate::uses::{is_checked, is_written};
use jr_plan::Plan;
use std::alloc::Global;
use std::io;
use std::rt::Files;

// A file that was made longer: its place in the plan, and how many bytes it had.
#[derive(Clone, Copy)]
struct Longer {
    index: usize,
    old: u64,
}

/// Extends each plain file that is too short. One that is only read and checked is read as it stands. At a refusal those that were
/// extended have their old length again, unless somebody else has changed it meanwhile.
pub(crate) fn extended<R: Files>(
    rt: &R,
    alloc: Global,
    plan: &Plan,
    files: &[SharedFile],
) -> Result<(), Refusal>
    requires { length files.now ≡ length plan.now.files }
    ensures { IfErr result (λ refusal. IsOpenFault refusal.fault (length plan.now.files)) }
{
    let mut longer = Vec::new(alloc);
    let result = extend_all(rt, alloc, plan, files, &mut longer);
    if result.is_err() {
        for one in longer.as_slice() {
            take_back(rt, plan, files, *one);
        }
    }
    result
}

// Extends the files of the plan. What was extended stays so if one is refused; it stands in `longer`.
fn extend_all<R: Files>(
    rt: &R,
    alloc: Global,
    plan: &Plan,
    files: &[SharedFile],
    longer: &mut Vec<Longer>,
) -> Result<(), Refusal>
    requires { length files.now ≡ length plan.now.files }
    ensures { IfErr result (λ refusal. IsOpenFault refusal.fault (length plan.now.files)) }
{
    for (index, file) in files.iter().enumerate() {
        extend_one(rt, alloc, plan, index, file, longer)?;
    }
    Ok(())
}

// Extends one of the plan's files if that is too short.
fn extend_one<R: Files>(
    rt: &R,
    alloc: Global,
    plan: &Plan,
    index: usize,
    file: &SharedFile,
    longer: &mut Vec<Longer>,
) -> Result<(), Refusal>
    requires { index < length plan.now.files }
    ensures { IfErr result (λ refusal. IsOpenFault refusal.fault (length plan.now.files)) }
{
    let spec = &plan.files()[index];
    if !is_written(plan, index) && is_checked(plan, index) {
        return Ok(());
    }
    if let Some(has) = file.device_length()
        && has < spec.high()
    {
        let name = name_of(alloc, plan, index)?;
        return Err(Refusal::of_file(index, Why::TooSmall(name, has, spec.high())));
    }
    if !file.is_plain() {
        return Ok(());
    }
    longer.reserve(1)?;
    let old = file.length().unwrap_or(u64::MAX);
    if old < spec.high() {
        longer.push(Longer { index, old })?;
    }
    match extend(rt, plan, index, file) {
        Ok(()) => Ok(()),
        Err(error) => Err(Refusal::of_system(alloc, index, Act::Extend, spec.name(), error)),
    }
}

// Lets the file have all bytes that its jobs want. (a byte is no sector: a direct file is opened anew for it)
fn extend<R: Files>(rt: &R, plan: &Plan, index: usize, file: &SharedFile) -> io::Result<()>
    requires { index < length plan.now.files }
{
    let spec = &plan.files()[index];
    if is_written(plan, index) && !file.goes_direct() {
        file.lengthen(spec.high())
    } else {
        file.lengthen_by_name(rt, spec.high())
    }
}

// Gives a file its old length again, if it still has the one that it was given.
fn take_back<R: Files>(rt: &R, plan: &Plan, files: &[SharedFile], longer: Longer) {
    let (Some(file), Some(spec)) = (files.get(longer.index), plan.files().get(longer.index)) else {
        return;
    };
    if file.length().is_ok_and(|length| length == spec.high()) {
        let _ = file.shorten(rt, longer.old);
    }
}
