// Files that clones write, and that something else may be using: block devices, and plain files under loop devices.
ghost use Rattle.std.specs.Prelude.{◌≡◌, ◌<◌, ◌&&◌, length, slice_get, Some, IfOk, IfErr, is_ok};
ghost use Rattle.std.specs.List.{list_any};
ghost use Rattle.jr_io_files.specs.Devices.{may_be_written, to_be_held, user_of};
ghost use Rattle.jr_io_files.specs.Engines.{IsOpenFault};
ghost use Rattle.jr_io_files.specs.Opened.{is_device};
ghost use Rattle.jr_io_files.specs.Uses.{writes_file};

use crate::claims::name_of;
use crate::refusals::{Refusal, Why};
use crate::shares::SharedFile;
use crate::uses::is_written;
use jr_io_blocks::{Dropper, Hold};
use jr_io_devices::{DeviceNumbers, Loops, Use, use_beside, use_of};
use jr_plan::Plan;
use std::alloc::Global;
use std::fs::File;
use std::io;
use std::io::ErrorKind;
use std::rt::Files;

/// Sees that nothing else uses the files that a clone writes, and has the launcher hold those that are block devices, to the run's end.
/// Answers of each file whether it is held.
///
/// Refused is a device that can't be held, and one that a loop device or another device stands on; and a plain file under a loop device.
pub(crate) fn held<R: Files<File = File>>(
    rt: &R,
    alloc: Global,
    plan: &Plan,
    files: &[SharedFile],
    asked: Option<&Dropper>,
) -> Result<Vec<bool>, Refusal>
    requires { length files.now ≡ length plan.now.files }
    ensures ok { IfOk result (λ held. held.items ≡ to_be_held plan.now.clones files.now) }
    ensures err { IfErr result (λ refusal. IsOpenFault refusal.fault (length plan.now.files)) }
{
    let mut held = Vec::new(alloc);
    let loops = Loops::of(rt, alloc);
    for (index, file) in files.iter().enumerate() {
        let is_held = has_alone(rt, alloc, plan, index, file, asked, &loops)?;
        held.push(is_held)?;
    }
    Ok(held)
}

// Sees that nothing else uses this file if a clone writes it, and answers whether it is held for that.
fn has_alone<R: Files<File = File>>(
    rt: &R,
    alloc: Global,
    plan: &Plan,
    index: usize,
    file: &SharedFile,
    asked: Option<&Dropper>,
    loops: &io::Result<Loops>,
) -> Result<bool, Refusal>
    requires { index < length plan.now.files }
    ensures ok { IfOk result (λ is_held. is_held ≡ (list_any (writes_file index) plan.now.clones && is_device file.now)) }
    ensures err { IfErr result (λ refusal. IsOpenFault refusal.fault (length plan.now.files)) }
{
    if !is_written(plan, index) {
        return Ok(false);
    }
    if file.numbers().is_block_device {
        let hold = device_alone(rt, alloc, plan, index, file, asked, loops)?;
        return Ok(hold == Hold::Held);
    }
    file_alone(rt, alloc, plan, index, file, loops)?;
    Ok(false)
}

// Has this device held, and sees what else uses it.
fn device_alone<R: Files>(
    rt: &R,
    alloc: Global,
    plan: &Plan,
    index: usize,
    file: &SharedFile,
    asked: Option<&Dropper>,
    loops: &io::Result<Loops>,
) -> Result<Hold, Refusal>
    requires { index < length plan.now.files }
    ensures ok { IfOk result (λ hold. hold ≡ Hold.Held) }
    ensures err { IfErr result (λ refusal. IsOpenFault refusal.fault (length plan.now.files)) }
{
    let name = name_of(alloc, plan, index)?;
    let hold = match asked {
        Some(asked) => asked.hold(file.file()),
        None => Hold::Nothing,
    };
    let found = seen_of(rt, alloc, file, hold, loops);
    if is_memory(&found) {
        return Err(Refusal::memory());
    }
    // (a run that writes it has its lock for itself)
    let is_locked = hold == Hold::Busy && !file.lock(false);
    match ruled(name, hold, is_locked, found) {
        Ok(hold) => Ok(hold),
        Err(why) => Err(Refusal::of_file(index, why)),
    }
}

// What else uses this device, which is held so.
fn seen_of<R: Files>(
    rt: &R,
    alloc: Global,
    file: &SharedFile,
    hold: Hold,
    loops: &io::Result<Loops>,
) -> io::Result<Option<Use>> {
    if hold == Hold::Held {
        seen_beside(rt, alloc, file, loops)
    } else {
        use_of(rt, alloc, DeviceNumbers::of(file.numbers().device))
    }
}

// What uses the file or device that a claim of it doesn't show.
fn seen_beside<R: Files>(
    rt: &R,
    alloc: Global,
    file: &SharedFile,
    loops: &io::Result<Loops>,
) -> io::Result<Option<Use>> {
    match loops {
        Ok(loops) => use_beside(rt, alloc, file.numbers(), loops),
        Err(error) => Err(*error),
    }
}

// Whether a device may be written that was to be held, and of which this was found. One that isn't held may never be.
fn ruled(
    name: String,
    hold: Hold,
    is_locked: bool,
    found: io::Result<Option<Use>>,
) -> Result<Hold, Why>
    ensures which { is_ok result ≡ may_be_written hold found }
    ensures held { IfOk result (λ answered. answered ≡ Hold.Held) }
{
    match (hold, found) {
        (_, Ok(Some(by))) => Err(Why::InUse(name, by)),
        (Hold::Held, Ok(None)) => Ok(hold),
        (Hold::Busy, _) if is_locked => Err(Why::Locked(name)),
        (Hold::Busy, _) => Err(Why::Claimed(name)),
        (Hold::Nothing, Ok(None)) => Err(Why::Unheld(name)),
        (_, Err(error)) => Err(Why::Unseen(name, error)),
    }
}

// Sees that no loop device stands on this file. Where that can't be seen none does.
fn file_alone<R: Files>(
    rt: &R,
    alloc: Global,
    plan: &Plan,
    index: usize,
    file: &SharedFile,
    loops: &io::Result<Loops>,
) -> Result<(), Refusal>
    requires { index < length plan.now.files }
    ensures { IfErr result (λ refusal. IsOpenFault refusal.fault (length plan.now.files)) }
{
    let found = seen_beside(rt, alloc, file, loops);
    if is_memory(&found) {
        return Err(Refusal::memory());
    }
    match user_of(found) {
        Some(by) => {
            let name = name_of(alloc, plan, index)?;
            Err(Refusal::of_file(index, Why::InUse(name, by)))
        }
        None => Ok(()),
    }
}

// What is seen to use a plain file.
fn user_of(found: io::Result<Option<Use>>) -> Option<Use>
    ensures { result ≡ user_of found }
{
    match found {
        Ok(by) => by,
        Err(_) => None,
    }
}

fn is_memory(found: &io::Result<Option<Use>>) -> bool {
    match found {
        Err(error) => error.kind() == ErrorKind::OutOfMemory,
        Ok(_) => false,
    }
}
