// Opens a plan's files to be judged. None is made or written.
ghost use Rattle.std.specs.Prelude.{◌≡◌, ◌<◌, length, map, IfOk, IfErr};
ghost use Rattle.jr_io_files.specs.Engines.{IsFresh, IsOpenFault};
ghost use Rattle.jr_io_files.specs.Opened.{name_of, shared_view};
ghost use Rattle.jr_io_files.specs.ToRead.{name_to_read, view_to_read, views_to_read};

use crate::claims::name_of;
use crate::faults::FileFault;
use crate::file_engine::FileEngine;
use crate::kept::{Reserved, is_reserved};
use crate::making::{open, open_there};
use crate::names::NamedFile;
use crate::opened::{FileUses, OpenedFile};
use crate::refusals::{Act, Refusal, Why};
use crate::shares::{Reads, SharedFile};
use crate::uses::is_written;
use jr_plan::{FileSpec, Plan};
use std::alloc::Global;
use std::fs::File;
use std::io;
use std::io::ErrorKind;
use std::rt::Files;

/// Opens the plan's files to be judged, for reading alone, to be shared by engines: each that a clone writes by its name, locked among
/// runs that only read it. None is made, made longer or written. A file that no clone writes need not be there: the root folder stands in
/// its place, of which nothing can be read.
///
/// All go through the system's cache, of which each file is dropped before it is read, unless `reads` is `Cached`.
///
/// Refused is the first file that can't be opened; and one that a run writes, that isn't at its path any more once it is locked, or that
/// is kept for something else.
pub fn claim_to_read<R: Files<File = File>>(
    rt: &R,
    alloc: Global,
    plan: &Plan,
    reads: Reads,
    kept: &[Reserved<'_>],
) -> Result<FileEngine<SharedFile>, Refusal>
    ensures ok { IfOk result (λ engine. IsFresh engine (views_to_read plan.now.clones 0 plan.now.files)) }
    ensures err { IfErr result (λ refusal. IsOpenFault refusal.fault (length plan.now.files)) }
{
    let files = opened_to_read(rt, alloc, plan, reads)?;
    locked_to_read(rt, alloc, plan, files.as_slice(), kept)?;
    Ok(FileEngine::over(files))
}

// Opens the plan's files in their order.
fn opened_to_read<R: Files<File = File>>(
    rt: &R,
    alloc: Global,
    plan: &Plan,
    reads: Reads,
) -> Result<Vec<SharedFile>, Refusal>
    ensures ok { IfOk result (λ files. map shared_view files.items ≡ views_to_read plan.now.clones 0 plan.now.files) }
    ensures err { IfErr result (λ refusal. IsOpenFault refusal.fault (length plan.now.files)) }
{
    let mut files = Vec::new(alloc);
    for (index, spec) in plan.files().iter().enumerate() {
        files.push(file_to_read(rt, alloc, plan, index, spec, reads)?)?;
    }
    Ok(files)
}

// Opens this file of the plan, which has this number.
fn file_to_read<R: Files<File = File>>(
    rt: &R,
    alloc: Global,
    plan: &Plan,
    index: usize,
    spec: &FileSpec,
    reads: Reads,
) -> Result<SharedFile, Refusal>
    requires { index < length plan.now.files }
    ensures ok { IfOk result (λ file. shared_view file ≡ view_to_read plan.now.clones index spec.now) }
    ensures err { IfErr result (λ refusal. IsOpenFault refusal.fault (length plan.now.files)) }
{
    match opened_to_judge(rt, alloc, plan, index, spec, reads) {
        Ok(file) => Ok(SharedFile::new(alloc, file)?),
        Err(error) if error.kind() == ErrorKind::OutOfMemory => Err(Refusal::memory()),
        Err(error) => Err(Refusal::of_system(alloc, index, Act::Open, spec.name(), error)),
    }
}

// Opens what stands in its place.
fn opened_to_judge<R: Files<File = File>>(
    rt: &R,
    alloc: Global,
    plan: &Plan,
    index: usize,
    spec: &FileSpec,
    reads: Reads,
) -> io::Result<OpenedFile>
    ensures { IfOk result (λ opened. name_of opened ≡ name_to_read plan.now.clones index spec.now) }
{
    let name = name_to_read(plan, index, spec);
    let file = open_by(rt, alloc, name, is_written(plan, index))?;
    OpenedFile::new(
        alloc,
        file,
        marked_to(plan, index, spec, reads),
        to_judge(reads),
    )
}

// The name by which it is opened.
fn name_to_read<'a>(plan: &Plan, index: usize, spec: &'a FileSpec) -> &'a str
    ensures { result.now ≡ name_to_read plan.now.clones index spec.now }
{
    if is_written(plan, index) {
        spec.name()
    } else {
        "/"
    }
}

// Up to where it has marks of what is cached.
fn marked_to(plan: &Plan, index: usize, spec: &FileSpec, reads: Reads) -> u64 {
    if reads == Reads::Synced && is_written(plan, index) {
        spec.high()
    } else {
        0
    }
}

// Its bytes are judged, and nobody writes it.
fn to_judge(reads: Reads) -> FileUses {
    FileUses {
        is_written: false,
        checked: Some(reads),
    }
}

// Opens what has this name. A file that is judged is one that can be read.
fn open_by<R: Files<File = File>>(
    rt: &R,
    alloc: Global,
    name: &str,
    is_judged: bool,
) -> io::Result<NamedFile>
    ensures { IfOk result (λ opened. opened ≡ name.now) }
{
    if is_judged {
        open_there(rt, alloc, name, false)
    } else {
        open(rt, alloc, name, false)
    }
}

// Locks each file that is judged, among those that only read it, and sees that it is the one at its path and that it is kept for nothing
// else.
fn locked_to_read<R: Files>(
    rt: &R,
    alloc: Global,
    plan: &Plan,
    files: &[SharedFile],
    kept: &[Reserved<'_>],
) -> Result<(), Refusal>
    requires { length files.now ≡ length plan.now.files }
    ensures { IfErr result (λ refusal. IsOpenFault refusal.fault (length plan.now.files)) }
{
    for (index, file) in files.iter().enumerate() {
        if !is_written(plan, index) {
            continue;
        }
        let name = name_of(alloc, plan, index)?;
        if let Some(why) = why_not(rt, file, name, kept) {
            return Err(Refusal::of_file(index, why));
        }
    }
    Ok(())
}

// Why this file, which has this name, can't be judged.
fn why_not<R: Files>(
    rt: &R,
    file: &SharedFile,
    name: String,
    kept: &[Reserved<'_>],
) -> Option<Why> {
    if is_reserved(rt, file, kept) {
        return Some(Why::Reserved(name));
    }
    if !file.lock(false) {
        return Some(Why::Locked(name));
    }
    if !file.is_there(rt) {
        return Some(Why::Replaced(name));
    }
    None
}
