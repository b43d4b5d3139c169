ghost use Rattle.std.specs.Prelude.{◌≡◌, ◌<◌, length, map, IfOk, IfErr};
ghost use Rattle.jr_io_files.specs.Devices.{held_by};
ghost use Rattle.jr_io_files.specs.Engines.{IsFresh, IsOpenFault, opened_views};
ghost use Rattle.jr_io_files.specs.Opened.{shared_view};

use crate::devices::held;
use crate::directs::Directs;
use crate::file_engine::FileEngine;
use crate::kept::{Reserved, is_reserved};
use crate::lengths::extended;
use crate::made::Made;
use crate::making::opened_file;
use crate::refusals::{Refusal, Why};
use crate::shares::{Reads, SharedFile};
use crate::uses::is_written;
use jr_io_blocks::Dropper;
use jr_io_devices::{Extent, Layers, first_overlap, first_twins};
use jr_plan::Plan;
use std::alloc::{AllocError, Global};
use std::fs::File;
use std::io::ErrorKind;
use std::rt::Files;

/// How a plan's files are taken.
#[derive(Clone, Copy, PartialEq, Eq)]
pub struct Claims {
    /// What a check reads.
    pub reads: Reads,
    /// Whether a block device may be written that is in use or can't be held, and a plain file under a loop device.
    pub devices_in_use: bool,
}

/// Takes the plan's files for a run, to be shared by its engines: each is opened, and made if it is missing; no two are one or have
/// bytes of one disk in common; each block device that a clone writes is held by the launcher, and no such device or plain file is
/// in use; each is locked for this run alone, or among runs that only read it; and only then is each extended that is too short, by
/// one zero byte at its end.
///
/// A missing file of /dev isn't made. At a refusal the files that this call made go again, unless another run has locked or written them.
/// What the file system has no locks for isn't locked. A file that isn't at its path any more once it is locked is refused.
///
/// In a file that a clone checks, what was written through these engines is read only once the file was synced, unless `reads`
/// is `Cached`: a read fails if the system couldn't write all of it to the device, and so does each later one.
pub fn claim<R: Files<File = File>>(
    rt: &R,
    alloc: Global,
    plan: &Plan,
    claims: Claims,
) -> Result<FileEngine<SharedFile>, Refusal>
    ensures ok { IfOk result (λ engine. IsFresh engine (opened_views plan.now.files)) }
    ensures err { IfErr result (λ refusal. IsOpenFault refusal.fault (length plan.now.files)) }
{
    claim_direct(rt, alloc, plan, claims, Directs::none(), &[])
}

/// Claims the files of the plan, some of which go past the system's cache. What is read of those comes from the device, with no sync
/// before; those that can't go past it are as the others.
///
/// Refused is also a file whose file system takes no such calls, one of which a clone would use parts of sectors, and one that the run keeps
/// for something else, before any is extended.
pub fn claim_direct<R: Files<File = File>>(
    rt: &R,
    alloc: Global,
    plan: &Plan,
    claims: Claims,
    directs: Directs<'_>,
    kept: &[Reserved<'_>],
) -> Result<FileEngine<SharedFile>, Refusal>
    ensures ok { IfOk result (λ engine. IsFresh engine (opened_views plan.now.files)) }
    ensures err { IfErr result (λ refusal. IsOpenFault refusal.fault (length plan.now.files)) }
{
    let mut made = Vec::new(alloc);
    let claimed = claimed(rt, alloc, plan, claims, directs, kept, &mut made);
    if claimed.is_err() {
        for one in made.as_slice() {
            one.remove(rt);
        }
    }
    claimed
}

// Claims them. What was made stays if one is refused; it stands in `made`.
fn claimed<R: Files<File = File>>(
    rt: &R,
    alloc: Global,
    plan: &Plan,
    claims: Claims,
    directs: Directs<'_>,
    kept: &[Reserved<'_>],
    made: &mut Vec<Made>,
) -> Result<FileEngine<SharedFile>, Refusal>
    ensures ok { IfOk result (λ engine. IsFresh engine (opened_views plan.now.files)) }
    ensures err { IfErr result (λ refusal. IsOpenFault refusal.fault (length plan.now.files)) }
{
    let files = opened_files(rt, alloc, plan, claims.reads, directs, made)?;
    taken(
        rt,
        alloc,
        plan,
        files.as_slice(),
        claims,
        directs.asked,
        kept,
    )?;
    Ok(FileEngine::over(files))
}

// Takes the files that were opened for this run: each is compared with the others, held, locked and extended.
fn taken<R: Files<File = File>>(
    rt: &R,
    alloc: Global,
    plan: &Plan,
    files: &[SharedFile],
    claims: Claims,
    asked: Option<&Dropper>,
    kept: &[Reserved<'_>],
) -> Result<(), Refusal>
    requires { length files.now ≡ length plan.now.files }
    ensures { IfErr result (λ refusal. IsOpenFault refusal.fault (length plan.now.files)) }
{
    apart(alloc, plan, files)?;
    without_overlap(rt, alloc, plan, files)?;
    unkept(rt, alloc, plan, files, kept)?;
    let held = held_by(rt, alloc, plan, files, claims, asked)?;
    locked(rt, alloc, plan, files, held.as_slice())?;
    extended(rt, alloc, plan, files)
}

// Opens the plan's files in their order, each by its name.
fn opened_files<R: Files<File = File>>(
    rt: &R,
    alloc: Global,
    plan: &Plan,
    reads: Reads,
    directs: Directs<'_>,
    made: &mut Vec<Made>,
) -> Result<Vec<SharedFile>, Refusal>
    ensures ok { IfOk result (λ files. map shared_view files.items ≡ opened_views plan.now.files) }
    ensures err { IfErr result (λ refusal. IsOpenFault refusal.fault (length plan.now.files)) }
{
    let mut files = Vec::new(alloc);
    for (index, spec) in plan.files().iter().enumerate() {
        files.push(opened_file(rt, alloc, plan, index, spec, reads, directs, made)?)?;
    }
    Ok(files)
}

// Whether no two of the files are one.
fn apart(alloc: Global, plan: &Plan, files: &[SharedFile]) -> Result<(), Refusal>
    requires { length files.now ≡ length plan.now.files }
    ensures { IfErr result (λ refusal. IsOpenFault refusal.fault (length plan.now.files)) }
{
    let mut identities = Vec::new(alloc);
    for file in files {
        identities.push(file.identity())?;
    }
    let Some((first, second)) = first_twins(identities.as_slice()) else {
        return Ok(());
    };
    let first = name_of(alloc, plan, first)?;
    let second_name = name_of(alloc, plan, second)?;
    Err(Refusal::of_file(second, Why::OneFile(first, second_name)))
}

// Whether the run keeps none of the files for something else.
fn unkept<R: Files>(
    rt: &R,
    alloc: Global,
    plan: &Plan,
    files: &[SharedFile],
    kept: &[Reserved<'_>],
) -> Result<(), Refusal>
    requires { length files.now ≡ length plan.now.files }
    ensures { IfErr result (λ refusal. IsOpenFault refusal.fault (length plan.now.files)) }
{
    for (index, file) in files.iter().enumerate() {
        if is_reserved(rt, file, kept) {
            let name = name_of(alloc, plan, index)?;
            return Err(Refusal::of_file(index, Why::Reserved(name)));
        }
    }
    Ok(())
}

// Whether no two of the files have bytes of one disk or file in common: a disk and its partition, a loop device and its image.
fn without_overlap<R: Files>(
    rt: &R,
    alloc: Global,
    plan: &Plan,
    files: &[SharedFile],
) -> Result<(), Refusal>
    requires { length files.now ≡ length plan.now.files }
    ensures { IfErr result (λ refusal. IsOpenFault refusal.fault (length plan.now.files)) }
{
    let mut extents = Vec::new(alloc);
    for (index, file) in files.iter().enumerate() {
        extents.push(extent_of(rt, alloc, plan, index, file)?)?;
    }
    match first_overlap(extents.as_slice()) {
        Some((first, second)) => {
            let why = overlap_of(alloc, plan, first, second)?;
            Err(Refusal::of_file(second, why))
        }
        None => Ok(()),
    }
}

// Which bytes of a disk or file this file of the plan has.
fn extent_of<R: Files>(
    rt: &R,
    alloc: Global,
    plan: &Plan,
    index: usize,
    file: &SharedFile,
) -> Result<Extent, Refusal>
    requires { index < length plan.now.files }
    ensures { IfErr result (λ refusal. IsOpenFault refusal.fault (length plan.now.files)) }
{
    match Layers::of(rt, alloc, file.numbers()) {
        Ok(layers) => Ok(layers.extent),
        Err(error) if error.kind() == ErrorKind::OutOfMemory => Err(Refusal::memory()),
        Err(error) => {
            let name = name_of(alloc, plan, index)?;
            Err(Refusal::of_file(index, Why::Unseen(name, error)))
        }
    }
}

// These two files of the plan have bytes in common.
fn overlap_of(alloc: Global, plan: &Plan, first: usize, second: usize) -> Result<Why, AllocError>
    requires first { first < length plan.now.files }
    requires second { second < length plan.now.files }
{
    let first = name_of(alloc, plan, first)?;
    let second = name_of(alloc, plan, second)?;
    Ok(Why::Overlap(first, second))
}

// Has the devices held that have to be, unless those that are in use may be written too. Answers which files are held.
fn held_by<R: Files<File = File>>(
    rt: &R,
    alloc: Global,
    plan: &Plan,
    files: &[SharedFile],
    claims: Claims,
    asked: Option<&Dropper>,
) -> Result<Vec<bool>, Refusal>
    requires { length files.now ≡ length plan.now.files }
    ensures ok { IfOk result (λ held. held.items ≡ held_by claims.devices_in_use plan.now.clones files.now) }
    ensures err { IfErr result (λ refusal. IsOpenFault refusal.fault (length plan.now.files)) }
{
    if claims.devices_in_use {
        Ok(Vec::new(alloc))
    } else {
        held(rt, alloc, plan, files, asked)
    }
}

// Locks each file: for this run alone where a clone writes it. The lock is of the file at that path only if it is there still: another
// run may have made and removed it meanwhile. A device that is held is this run's, whoever has its lock: who may only read can have that.
fn locked<R: Files>(
    rt: &R,
    alloc: Global,
    plan: &Plan,
    files: &[SharedFile],
    held: &[bool],
) -> Result<(), Refusal>
    requires { length files.now ≡ length plan.now.files }
    ensures { IfErr result (λ refusal. IsOpenFault refusal.fault (length plan.now.files)) }
{
    for (index, file) in files.iter().enumerate() {
        let is_held = held.get(index).is_some_and(|held| *held);
        if !file.lock(is_written(plan, index)) && !is_held {
            let name = name_of(alloc, plan, index)?;
            return Err(Refusal::of_file(index, Why::Locked(name)));
        }
        if !file.is_there(rt) {
            let name = name_of(alloc, plan, index)?;
            return Err(Refusal::of_file(index, Why::Replaced(name)));
        }
    }
    Ok(())
}

// The name of one of the plan's files.
pub(crate) fn name_of(alloc: Global, plan: &Plan, index: usize) -> Result<String, AllocError>
    requires { index < length plan.now.files }
{
    String::from_str(alloc, plan.files()[index].name())
}
