// Opens a plan's files, and makes those that are missing. Nothing is written to any of them.
ghost use Rattle.std.specs.Prelude.{◌≡◌, ◌<◌, length, IfOk, IfErr};
ghost use Rattle.jr_io_files.specs.Engines.{IsOpenFault, opened_view};
ghost use Rattle.jr_io_files.specs.Opened.{name_of, shared_view};

use crate::directs::{Directs, as_wanted};
use crate::made::Made;
use crate::names::NamedFile;
use crate::opened::{FileUses, OpenedFile};
use crate::refusals::{Act, Refusal};
use crate::shares::{Reads, SharedFile};
use crate::uses::{is_checked, is_written};
use jr_io_devices::{FileNumbers, end_of_links};
use jr_plan::{FileSpec, Plan};
use std::alloc::Global;
use std::fs::File;
use std::io::ErrorKind;
use std::os::unix::fs::FileTypeExt;
use std::path::Path;
use std::rt::Files;
use std::{fs, io};

/// Opens this file of the plan, which has this number, for reading alone if no clone writes it, and past the system's cache if that is
/// wanted; and adds it to `made` if it had to be made. One that is only read and checked has to be there.
pub(crate) fn opened_file<R: Files<File = File>>(
    rt: &R,
    alloc: Global,
    plan: &Plan,
    index: usize,
    spec: &FileSpec,
    reads: Reads,
    directs: Directs<'_>,
    made: &mut Vec<Made>,
) -> Result<SharedFile, Refusal>
    requires { index < length plan.now.files }
    ensures ok { IfOk result (λ file. shared_view file ≡ opened_view spec.now) }
    ensures err { IfErr result (λ refusal. IsOpenFault refusal.fault (length plan.now.files)) }
{
    let mut act = Act::Open;
    match opened_for(rt, alloc, plan, index, spec, reads, &mut act, made) {
        Ok(file) => {
            let file = as_wanted(rt, alloc, plan, index, file, directs)?;
            Ok(SharedFile::new(alloc, file)?)
        }
        Err(error) if error.kind() == ErrorKind::OutOfMemory => Err(Refusal::memory()),
        Err(error) => Err(Refusal::of_system(alloc, index, act, spec.name(), error)),
    }
}

// Opens it for what the plan's clones do with it, and makes it first where it may be missing and is.
fn opened_for<R: Files<File = File>>(
    rt: &R,
    alloc: Global,
    plan: &Plan,
    index: usize,
    spec: &FileSpec,
    reads: Reads,
    act: &mut Act,
    made: &mut Vec<Made>,
) -> io::Result<OpenedFile>
    ensures { IfOk result (λ opened. name_of opened ≡ spec.now.name) }
{
    let uses = uses_of(plan, index, reads);
    let file = if uses.is_written || uses.checked.is_none() {
        open_or_make(rt, alloc, spec.name(), uses.is_written, act, made)?
    } else {
        open_there(rt, alloc, spec.name(), false)?
    };
    let has_marks = uses.checked == Some(Reads::Synced);
    OpenedFile::new(alloc, file, if has_marks { spec.high() } else { 0 }, uses)
}

// What the plan's clones do with this file, where so much is read of one that they check.
fn uses_of(plan: &Plan, index: usize, reads: Reads) -> FileUses {
    FileUses {
        is_written: is_written(plan, index),
        checked: if is_checked(plan, index) {
            Some(reads)
        } else {
            None
        },
    }
}

// Opens the file, and makes it first where it is missing.
fn open_or_make<R: Files<File = File>>(
    rt: &R,
    alloc: Global,
    name: &str,
    is_written: bool,
    act: &mut Act,
    made: &mut Vec<Made>,
) -> io::Result<NamedFile>
    ensures { IfOk result (λ opened. opened ≡ name.now) }
{
    match open_there(rt, alloc, name, is_written) {
        Err(error) if error.kind() == ErrorKind::NotFound => {
            if is_in_dev(rt, name) {
                return Err(error);
            }
            *act = Act::Make;
            make(rt, alloc, name, made)?;
            *act = Act::Open;
            open(rt, alloc, name, is_written)
        }
        opened => opened,
    }
}

// Opens a file that is there. A pipe that is to be read would wait for its writer, and a folder opens but can't be read.
pub(crate) fn open_there<R: Files<File = File>>(
    rt: &R,
    alloc: Global,
    name: &str,
    is_written: bool,
) -> io::Result<NamedFile>
    ensures { IfOk result (λ opened. opened ≡ name.now) }
{
    let kind = fs::metadata(rt, name)?.file_type();
    if kind.is_fifo() {
        return Err(io::Error::from(ErrorKind::NotSeekable));
    }
    if kind.is_dir() {
        return Err(io::Error::from(ErrorKind::IsADirectory));
    }
    open(rt, alloc, name, is_written)
}

// Opens the file of this name.
pub(crate) fn open<R: Files<File = File>>(
    rt: &R,
    alloc: Global,
    name: &str,
    is_written: bool,
) -> io::Result<NamedFile>
    ensures { IfOk result (λ opened. opened ≡ name.now) }
{
    let name = String::from_str(alloc, name)?;
    NamedFile::open(rt, name, is_written)
}

// Makes the file, also where a link to nothing leads, and adds it to those that were made.
fn make<R: Files<File = File>>(
    rt: &R,
    alloc: Global,
    name: &str,
    made: &mut Vec<Made>,
) -> io::Result<()> {
    let path = String::from_str(alloc, name)?;
    match make_at(rt, path, made) {
        Err(error) if error.kind() == ErrorKind::AlreadyExists && is_link(rt, name) => {
            make_behind(rt, alloc, name, made)
        }
        result => result,
    }
}

// Makes the file that a link to nothing leads to, but in /dev.
fn make_behind<R: Files<File = File>>(
    rt: &R,
    alloc: Global,
    name: &str,
    made: &mut Vec<Made>,
) -> io::Result<()> {
    let path = end_of_links(rt, alloc, name)?;
    if is_in_dev(rt, path.as_str()) {
        return Err(io::Error::from(ErrorKind::NotFound));
    }
    make_at(rt, path, made)
}

// Makes the file of this path, which isn't there.
fn make_at<R: Files<File = File>>(rt: &R, path: String, made: &mut Vec<Made>) -> io::Result<()> {
    made.reserve(1)?;
    let file = File::create_new(rt, path.as_str())?;
    let identity = FileNumbers::of(&file.metadata()?).identity();
    made.push(Made::new(path, identity))?;
    Ok(())
}

fn is_link<R: Files>(rt: &R, name: &str) -> bool {
    fs::symlink_metadata(rt, name).is_ok_and(|metadata| metadata.is_symlink())
}

// Whether the file stands directly in /dev. One that is missing there is a device that is missing: made it would be a file in memory,
// and a run over it would say nothing of any disk.
fn is_in_dev<R: Files>(rt: &R, name: &str) -> bool {
    let folder = match Path::new(name).parent() {
        Some(folder) if !folder.as_str().is_empty() => folder.as_str(),
        _ => ".",
    };
    let (Ok(folder), Ok(dev)) = (fs::metadata(rt, folder), fs::metadata(rt, "/dev")) else {
        return false;
    };
    FileNumbers::of(&folder).identity() == FileNumbers::of(&dev).identity()
}
