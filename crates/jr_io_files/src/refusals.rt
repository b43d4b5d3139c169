ghost use Rattle.std.specs.Prelude.{◌≡◌, ◌<◌, ℕ, length};
ghost use Rattle.jr_io_files.specs.Engines.{IsOpenFault};

use crate::faults::FileFault;
use jr_io_devices::Use;
use std::alloc::{AllocError, AllocFailed, Global};
use std::error::Error;
use std::{fmt, io};

/// Why the files of a plan weren't taken. Printed it is a note for whoever runs the program.
#[derive(Drop)]
pub struct Refusal {
    /// Which file is refused, or that memory was.
    pub fault: FileFault,
    /// Why it is.
    pub why: Why,
}

impl Refusal {
    // The file at this place of the plan's list is refused.
    pub(crate) fn of_file(index: usize, why: Why) -> Refusal
        ensures { result.fault ≡ FileFault.File index }
    {
        Refusal {
            fault: FileFault::File(index),
            why,
        }
    }

    // The system refused to do this to the file of this name, at this place of the plan's list.
    pub(crate) fn of_system(
        alloc: Global,
        index: usize,
        act: Act,
        name: &str,
        error: io::Error,
    ) -> Refusal
        ensures { (files : ℕ) → index < files → IsOpenFault result.fault files }
    {
        match String::from_str(alloc, name) {
            Ok(name) => Refusal::of_file(index, Why::System(act, name, error)),
            Err(_) => Refusal::memory(),
        }
    }
}

/// Why a file of a plan isn't taken.
#[derive(Drop)]
pub enum Why {
    /// The system refused to do this to the file of this name.
    System(Act, String, io::Error),
    /// These two names are of one file.
    OneFile(String, String),
    /// These two names are of devices or files that have bytes in common: a disk and its partition, a loop device and its image.
    Overlap(String, String),
    /// The run has the file of this name for an output of its own, or one of its streams goes there.
    Reserved(String),
    /// The block device of this name is in use, or the plain file of this name is under a loop device.
    InUse(String, Use),
    /// Something has claimed the block device of this name, and can't be seen.
    Claimed(String),
    /// The block device of this name can't be held for this run alone.
    Unheld(String),
    /// It can't be seen what uses the block device of this name.
    Unseen(String, io::Error),
    /// The block device of this name has so many bytes, and its jobs want so many.
    TooSmall(String, u64, u64),
    /// Another run holds the lock of the file of this name.
    Locked(String),
    /// The file at this name isn't the one any more that was opened and locked.
    Replaced(String),
    /// The file of this name is to be direct, and its file system takes no such calls.
    NotDirect(String),
    /// The file of this name is to be direct, and its device has sectors of so many bytes, of which a clone of the job of this name
    /// would use parts.
    Sectors(String, u64, String),
    /// A request for memory was refused.
    Memory,
}

/// What was to be done to a file.
#[derive(Clone, Copy, PartialEq, Eq)]
pub enum Act {
    /// It was to be opened.
    Open,
    /// It was missing, and to be made.
    Make,
    /// It was too short, and to be extended.
    Extend,
}

impl fmt::Display for Refusal {
    fn fmt<W: fmt::Write>(&self, f: &mut fmt::Formatter<W>) -> fmt::Result {
        match &self.why {
            Why::System(act, name, error) => write!(f, "cannot {act} {name}: {error}"),
            Why::OneFile(first, second) => write!(f, "{first} and {second} are one file"),
            Why::Overlap(first, second) => write!(f, "{first} and {second} have bytes in common"),
            Why::Reserved(name) => write!(
                f,
                "{name} is also an output of this run, or a stream of the program"
            ),
            Why::InUse(name, by) => write!(f, "{name} is in use: {by}"),
            Why::Claimed(name) => {
                write!(
                    f,
                    "{name} is in use by something that can't be seen from here"
                )
            }
            Why::Unheld(name) => write!(
                f,
                "{name} can't be held for this run alone: that needs bin/fiorun, with perl and /proc (--allow-mounted-write goes without)"
            ),
            Why::Unseen(name, error) => write!(f, "it can't be seen what uses {name}: {error}"),
            Why::TooSmall(name, has, wants) => {
                write!(f, "{name} has {has} bytes, and its jobs want {wants}")
            }
            Why::Locked(name) => write!(f, "{name} is locked by another run"),
            Why::Replaced(name) => write!(f, "{name} isn't the file any more that was opened"),
            Why::NotDirect(name) => write!(
                f,
                "direct=1 can't be had of {name}: its file system takes no direct I/O"
            ),
            Why::Sectors(name, sector, job) => write!(
                f,
                "direct=1 needs whole sectors, of {sector} bytes in {name}: not in [{job}]"
            ),
            Why::Memory => f.write_str("out of memory"),
        }
    }
}

// It is printed the same way for programmers.
impl fmt::Debug for Refusal {
    fn fmt<W: fmt::Write>(&self, f: &mut fmt::Formatter<W>) -> fmt::Result {
        fmt::Display::fmt(self, f)
    }
}

impl Error for Refusal {}

impl fmt::Display for Act {
    fn fmt<W: fmt::Write>(&self, f: &mut fmt::Formatter<W>) -> fmt::Result {
        f.write_str(match self {
            Act::Open => "open",
            Act::Make => "make",
            Act::Extend => "extend",
        })
    }
}

impl Refusal {
    /// A refusal for want of memory.
    pub(crate) fn memory() -> Refusal
        ensures { result.fault ≡ FileFault.Memory }
    {
        Refusal {
            fault: FileFault::Memory,
            why: Why::Memory,
        }
    }
}

impl From<AllocError> for Refusal {
    ghost use Rattle.std.specs.Prelude.{◌≡◌};
    ghost use Rattle.jr_io_files.specs.declared.faults.FileFault.TheVariants as fault;

    ghost from_gives = { λ error made. made.fault ≡ fault.Memory };

    fn from(_error: AllocError) -> Refusal {
        Refusal::memory()
    }
}

impl<T: Drop> From<AllocFailed<T>> for Refusal {
    ghost use Rattle.std.specs.Prelude.{◌≡◌};
    ghost use Rattle.jr_io_files.specs.declared.faults.FileFault.TheVariants as fault;

    ghost from_gives = { λ error made. made.fault ≡ fault.Memory };

    fn from(_error: AllocFailed<T>) -> Refusal {
        Refusal::memory()
    }
}
