// Files that were made for a run, and which of them go again where it is refused.
ghost use Rattle.std.specs.Prelude.{◌↔◌, IsTrue};
ghost use Rattle.jr_io_files.specs.Made.{IsStillOurs};

use jr_io_devices::{FileNumbers, Identity};
use std::fs::{File, TryLockError};
use std::rt::Files;
use std::{fs, io};

/// A file that was made, and where.
#[derive(Drop)]
pub(crate) struct Made {
    path: String,
    identity: Identity,
}

// What is found at the path of a file that was made.
#[derive(Clone, Copy)]
struct Found {
    // Whether this run has its lock.
    is_locked: bool,
    // Whether it has no bytes.
    is_empty: bool,
    // What was opened there.
    opened: Identity,
    // What stands at the path once that is locked.
    there: Identity,
}

impl Made {
    /// The file of this identity, made at this path.
    pub(crate) fn new(path: String, identity: Identity) -> Made {
        Made { path, identity }
    }

    /// Removes it. One that another run has locked, has put in its place or has written stays.
    pub(crate) fn remove<R: Files<File = File>>(&self, rt: &R) {
        // (what else stands there by now, as a pipe, isn't opened)
        if identity_at(rt, self.path.as_str()).is_ok_and(|there| there != self.identity) {
            return;
        }
        let Ok(file) = File::open(rt, self.path.as_str()) else {
            return;
        };
        if looked_at(rt, &file, self.path.as_str()).is_ok_and(|found| is_still_ours(
            self.identity,
            found,
        )) {
            let _ = fs::remove_file(rt, self.path.as_str());
        }
    }
}

// Whether what is found is the file of this identity, as it was made, and no other run has it.
fn is_still_ours(made: Identity, found: Found) -> bool
    ensures { IsTrue result ↔ IsStillOurs made found }
{
    found.is_locked && found.is_empty && found.opened == made && found.there == made
}

// Locks the file that was opened at this path, and looks at it then. A file system without locks counts as one where nobody else has any.
fn looked_at<R: Files>(rt: &R, file: &File, path: &str) -> io::Result<Found> {
    let is_locked = !matches!(file.try_lock(), Err(TryLockError::WouldBlock));
    let metadata = file.metadata()?;
    Ok(Found {
        is_locked,
        is_empty: metadata.is_file() && metadata.len() == 0,
        opened: FileNumbers::of(&metadata).identity(),
        there: identity_at(rt, path)?,
    })
}

fn identity_at<R: Files>(rt: &R, path: &str) -> io::Result<Identity> {
    let metadata = fs::symlink_metadata(rt, path)?;
    Ok(FileNumbers::of(&metadata).identity())
}
