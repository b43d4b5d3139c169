// Where the path of an output leads, link by link, and what stands there.
use crate::spots::Spot;
use crate::ways::{Kind, Way, Where, way_of};
use jr_io_devices::{FileNumbers, Identity, folder_of, linked, name_in};
use std::alloc::Global;
use std::fs::Metadata;
use std::io::ErrorKind;
use std::os::unix::fs::{FileTypeExt, MetadataExt};
use std::rt::Files;
use std::{fmt, fs, io};

// So many links the system follows in one path.
const MOST_LINKS: u32 = 40;

// More folders stand in no path.
const MOST_FOLDERS: u32 = 4096;

// The number of /dev/null, which keeps nothing.
const NULL: u64 = 0x103;

/// Why an output can't go where its path leads.
#[derive(Clone, Copy, PartialEq, Eq)]
pub enum Unfit {
    /// There is the job file.
    Job,
    /// There is a file of a job.
    File,
    /// There is the trace that is checked.
    Trace,
    /// There is the ledger by which files are judged.
    Ledger,
    /// There is standard input, output or error, or another stream of the program.
    Stream,
    /// There goes another output.
    Output,
    /// It lies in or under /dev, /proc or /sys, and is no stream.
    System,
    /// It is neither a plain file nor a stream.
    NoFile,
}

impl fmt::Display for Unfit {
    fn fmt<W: fmt::Write>(&self, f: &mut fmt::Formatter<W>) -> fmt::Result {
        match self {
            Unfit::Job => f.write_str("that of the job file"),
            Unfit::File => f.write_str("that of a file of a job"),
            Unfit::Trace => f.write_str("that of the trace that is checked"),
            Unfit::Ledger => f.write_str("that of the ledger by which files are judged"),
            Unfit::Stream => f.write_str("that of a stream of the program"),
            Unfit::Output => f.write_str("that of another output"),
            Unfit::System => f.write_str("in /dev, /proc or /sys"),
            Unfit::NoFile => f.write_str("that of no file"),
        }
    }
}

/// Where a path leads: its end behind all links, and what stands there.
#[derive(Drop)]
pub struct Target {
    path: String,
    found: Option<Metadata>,
    descriptor: Option<u32>,
    is_system: bool,
}

impl Target {
    /// Where this path leads. It is an error that its folder isn't there, or that its links can't be followed.
    pub fn at<R: Files>(rt: &R, alloc: Global, path: &str) -> io::Result<Target> {
        // (the system has rules of its own about who may follow whose link)
        let found = found_at(fs::metadata(rt, path))?;
        let mut end = String::from_str(alloc, path)?;
        let mut is_system = false;
        for _ in 0..MOST_LINKS {
            let descriptor = descriptor_at(rt, alloc, end.as_str());
            is_system = is_system || lies_in_system(rt, alloc, folder_of(end.as_str()))?;
            let next = if descriptor.is_some() {
                None
            } else {
                linked(rt, alloc, end.as_str())?
            };
            match next {
                Some(next) => end = next,
                None => return ended(rt, end, found, descriptor, is_system),
            }
        }
        Err(io::Error::from(ErrorKind::FilesystemLoop))
    }

    /// The path's end behind all links.
    pub fn path(&self) -> &str {
        self.path.as_str()
    }

    /// What stands there, if anything does.
    pub fn found(&self) -> Option<&Metadata> {
        self.found.as_ref()
    }

    /// The number of the open file of the program that it is, if it is one.
    pub fn descriptor(&self) -> Option<u32> {
        self.descriptor
    }

    /// How an output is written there.
    pub fn way(&self) -> Result<Way, Unfit> {
        let place = if self.descriptor.is_some() {
            Where::Descriptor
        } else if self.is_system {
            Where::System
        } else {
            Where::Folder
        };
        let kind = kind_of(self.found.as_ref(), place);
        if kind != Kind::Other && is_folders(name_in(self.path.as_str())) {
            return Err(Unfit::NoFile);
        }
        match way_of(kind, place) {
            Some(way) => Ok(way),
            None if kind == Kind::Other || !self.is_system => Err(Unfit::NoFile),
            None => Err(Unfit::System),
        }
    }

    /// The place of it, or none where nothing is kept there.
    pub fn spot<R: Files>(&self, rt: &R, alloc: Global) -> io::Result<Option<Spot>> {
        match &self.found {
            Some(found) => Ok(spot_of(found)),
            None => {
                let folder = fs::metadata(rt, folder_of(self.path.as_str()))?;
                let name = String::from_str(alloc, name_in(self.path.as_str()))?;
                Ok(Some(Spot::Ahead(FileNumbers::of(&folder).identity(), name)))
            }
        }
    }
}

/// The place of the file with this metadata, or none where nothing is kept there.
pub fn spot_of(found: &Metadata) -> Option<Spot> {
    if !found.file_type().is_char_device() {
        return Some(Spot::File(FileNumbers::of(found).identity()));
    }
    if found.rdev() == NULL {
        return None;
    }
    Some(Spot::Character(found.rdev()))
}

// The target where all links end, if the system found the same.
fn ended<R: Files>(
    rt: &R,
    path: String,
    found: Option<Metadata>,
    descriptor: Option<u32>,
    is_system: bool,
) -> io::Result<Target> {
    if descriptor.is_none() {
        let there = found_at(fs::symlink_metadata(rt, path.as_str()))?;
        if identity(there.as_ref()) != identity(found.as_ref()) {
            return Err(io::Error::from(ErrorKind::NotFound));
        }
    }
    Ok(Target {
        path,
        found,
        descriptor,
        is_system,
    })
}

fn identity(found: Option<&Metadata>) -> Option<Identity> {
    found.map(|found| FileNumbers::of(found).identity())
}

fn found_at(metadata: io::Result<Metadata>) -> io::Result<Option<Metadata>> {
    match metadata {
        Ok(found) => Ok(Some(found)),
        Err(error) if error.kind() == ErrorKind::NotFound => Ok(None),
        Err(error) => Err(error),
    }
}

// What this is. An open socket of the program is a stream.
fn kind_of(found: Option<&Metadata>, place: Where) -> Kind {
    let Some(found) = found else {
        return Kind::Missing;
    };
    let kind = found.file_type();
    if kind.is_file() {
        Kind::Plain
    } else if kind.is_fifo()
        || kind.is_char_device()
        || kind.is_socket() && place == Where::Descriptor
    {
        Kind::Stream
    } else {
        Kind::Other
    }
}

// Whether only a folder can have this name.
fn is_folders(name: &str) -> bool {
    name.is_empty() || name == "." || name == ".."
}

// The number of the open file of the program that stands at this path. (the system gives the folder another inode where it needs the room)
fn descriptor_at<R: Files>(rt: &R, alloc: Global, path: &str) -> Option<u32> {
    let number = name_in(path).parse::<u32>().ok()?;
    let folder = rt.canonicalize(alloc, folder_of(path)).ok()?.into_string();
    let own = rt.canonicalize(alloc, "/proc/self/fd").ok()?.into_string();
    (folder.as_str() == own.as_str()).then_some(number)
}

fn identity_at<R: Files>(rt: &R, path: &str) -> Option<Identity> {
    let found = fs::metadata(rt, path).ok()?;
    Some(FileNumbers::of(&found).identity())
}

// Whether this folder is one of the system's, or lies under one.
fn lies_in_system<R: Files>(rt: &R, alloc: Global, folder: &str) -> io::Result<bool> {
    let mut path = String::from_str(alloc, folder)?;
    let mut below = None;
    for _ in 0..MOST_FOLDERS {
        let here = identity_at(rt, path.as_str());
        if here.is_none() || here == below {
            return Ok(false);
        }
        if is_of_system(rt, here) {
            return Ok(true);
        }
        below = here;
        path.push_str("/..")?;
    }
    Ok(false)
}

fn is_of_system<R: Files>(rt: &R, folder: Option<Identity>) -> bool {
    folder == identity_at(rt, "/dev")
        || folder == identity_at(rt, "/proc")
        || folder == identity_at(rt, "/sys")
}
