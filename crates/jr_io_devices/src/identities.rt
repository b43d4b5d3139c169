ghost use Rattle.std.specs.Prelude.{◌≡◌, ◌<◌, length, slice_get, Some, MatchOption};
ghost use Rattle.jr_io_devices.specs.Identities.{AreApart, AreFirstTwins, IsFirstTwin, IsNewAmong, identity_of};

use std::fs::Metadata;
use std::os::unix::fs::{FileTypeExt, MetadataExt};

/// What makes a file one and the same, whatever its names.
#[derive(Clone, Copy, PartialEq, Eq)]
pub enum Identity {
    /// A block device, by its number.
    Device(u64),
    /// Any other file, by its file system and its inode.
    Inode(u64, u64),
}

/// What the system says of an open file by numbers.
#[derive(Clone, Copy)]
pub struct FileNumbers {
    /// Whether it is a block device.
    pub is_block_device: bool,
    /// The file system that it lies on.
    pub file_system: u64,
    /// Its inode there.
    pub inode: u64,
    /// The device that it names, if it is one.
    pub device: u64,
}

impl FileNumbers {
    /// The numbers in this metadata.
    pub fn of(metadata: &Metadata) -> FileNumbers {
        FileNumbers {
            is_block_device: metadata.file_type().is_block_device(),
            file_system: metadata.dev(),
            inode: metadata.ino(),
            device: metadata.rdev(),
        }
    }

    /// The file's identity.
    pub fn identity(self) -> Identity
        ensures { result ≡ identity_of self }
    {
        if self.is_block_device {
            Identity::Device(self.device)
        } else {
            Identity::Inode(self.file_system, self.inode)
        }
    }
}

/// The first file that is one with an earlier one, with that one before it.
pub fn first_twins(files: &[Identity]) -> Option<(usize, usize)>
    ensures { MatchOption result (AreApart files.now (length files.now)) (λ (first, second). AreFirstTwins files.now first second) }
{
    for second in 0..files.len() {
        if let Some(first) = twin_before(files, second) {
            return Some((first, second));
        }
    }
    None
}

// The first file that is one with the one at this place, of those before it.
#[tactic(auto, using(crate::proofs::TwinLemmas::new_among_more, crate::proofs::TwinLemmas::first_twin))]
fn twin_before(files: &[Identity], place: usize) -> Option<usize>
    requires { place < length files.now }
    ensures { MatchOption result (IsNewAmong files.now place place) (λ first. IsFirstTwin files.now first place) }
{
    let one = identity_at(files, place);
    for first in 0..place {
        let other = identity_at(files, first);
        if other == one {
            return Some(first);
        }
    }
    None
}

fn identity_at(files: &[Identity], place: usize) -> Identity
    requires { place < length files.now }
    ensures { slice_get files.now place ≡ Some result }
{
    files[place]
}
