// A file that is made before a run, and takes the name of an output once it is whole.
use crate::targets::Target;
use jr_io_devices::{FileNumbers, folder_of};
use std::alloc::Global;
use std::fs::{File, Metadata, OpenOptions, Permissions};
use std::io::ErrorKind;
use std::os::unix::fs::{MetadataExt, OpenOptionsExt, PermissionsExt, fchown};
use std::random::RandomSource;
use std::rt::Files;
use std::{fs, io};

// Who may read the new file as long as it isn't known to be as open as what it replaces.
const OWNER_ALONE: u32 = 0o600;

// The bits of a mode that say who may do what, and those of them that give the owner's rights to whoever runs the file.
const RIGHTS: u32 = 0o7777;

const BORROWED_RIGHTS: u32 = 0o6000;

/// A new file, open, in the folder of the one whose name it is to take.
#[derive(Drop)]
pub struct NewFile {
    file: File,
    path: String,
    target: String,
}

impl NewFile {
    /// Makes it, under a name that nobody knows before. Who may not write the file that is there may not replace it either.
    pub fn make<R: Files<File = File> + RandomSource>(
        rt: &R,
        alloc: Global,
        target: &Target,
    ) -> io::Result<NewFile> {
        let mut bytes = [0; 8];
        rt.fill_bytes(&mut bytes)?;
        let number = u64::from_le_bytes(bytes);
        let folder = folder_of(target.path());
        let path = format!(in alloc; "{folder}/.fiorun-{number:016x}")?;
        let name = String::from_str(alloc, target.path())?;
        let mut options = OpenOptions::new();
        options.write(true);
        if target.found().is_some() {
            let _may_be_written = options.open(rt, target.path())?;
            options.mode(OWNER_ALONE);
        }
        options.create_new(true);
        let file = options.open(rt, path.as_str())?;
        Ok(NewFile {
            file,
            path,
            target: name,
        })
    }

    /// The path whose name it takes.
    pub fn target(&self) -> &str {
        self.target.as_str()
    }

    /// One more handle of the open file.
    pub fn writer(&self) -> io::Result<File> {
        self.file.try_clone()
    }

    /// Has what was written stored, and then the name taken, with the mode and owner of the plain file that had it.
    ///
    /// It is an error that something else than a plain file has the name by now, or that this one isn't at its place any more.
    pub fn finish<R: Files<File = File>>(&self, rt: &R) -> io::Result<()> {
        stored(&self.file)?;
        match fs::symlink_metadata(rt, self.target.as_str()) {
            Ok(old) if old.is_file() => give(&self.file, &old)?,
            Ok(_) => return Err(io::Error::from(ErrorKind::AlreadyExists)),
            Err(error) if error.kind() == ErrorKind::NotFound => {}
            Err(error) => return Err(error),
        }
        if !self.is_there(rt) {
            return Err(io::Error::from(ErrorKind::NotFound));
        }
        fs::rename(rt, self.path.as_str(), self.target.as_str())
    }

    /// Removes it where it hasn't taken its name.
    pub fn remove<R: Files>(&self, rt: &R) {
        if self.is_there(rt) {
            let _ = fs::remove_file(rt, self.path.as_str());
        }
    }

    // Whether it is what stands under its own name.
    fn is_there<R: Files>(&self, rt: &R) -> bool {
        let (Ok(own), Ok(there)) = (
            self.file.metadata(),
            fs::symlink_metadata(rt, self.path.as_str()),
        ) else {
            return false;
        };
        FileNumbers::of(&own).identity() == FileNumbers::of(&there).identity()
    }
}

// Has the system store the file, where its file system stores anything.
fn stored(file: &File) -> io::Result<()> {
    match file.sync_all() {
        Err(error)
            if matches!(
                error.kind(),
                ErrorKind::InvalidInput | ErrorKind::Unsupported
            ) => { Ok(()) }
        synced => synced,
    }
}

// Gives the file the owner and mode of this one. Who may not give files away keeps it, with no rights that would be the owner's.
fn give(file: &File, old: &Metadata) -> io::Result<()> {
    let is_given = fchown(file, Some(old.uid()), Some(old.gid())).is_ok();
    let rights = old.mode() & RIGHTS;
    let mode = if is_given {
        rights
    } else {
        rights & !BORROWED_RIGHTS
    };
    file.set_permissions(Permissions::from_mode(mode))
}
