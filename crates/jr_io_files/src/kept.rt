// Files that a run has for something else than its jobs.
use crate::shares::SharedFile;
use jr_io_devices::Identity;
use std::rt::Files;

/// A file that a run has for something else, and that none of its plan's may be.
#[derive(Clone, Copy)]
pub enum Reserved<'a> {
    /// One that is there.
    File(Identity),
    /// One that may be there by now, at this path.
    At(&'a str),
}

/// Whether this file is one of these.
pub(crate) fn is_reserved<R: Files>(rt: &R, file: &SharedFile, kept: &[Reserved<'_>]) -> bool {
    for one in kept {
        let is_this = match one {
            Reserved::File(identity) => *identity == file.identity(),
            Reserved::At(path) => file.is_at(rt, path),
        };
        if is_this {
            return true;
        }
    }
    false
}
