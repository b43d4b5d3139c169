// Paths, followed link by link.
use std::alloc::{AllocError, Global};
use std::io::ErrorKind;
use std::rt::Files;
use std::{fs, io};

// So many links the system follows in one path.
const MOST_LINKS: u32 = 40;

/// The folder that the last name of a path stands in.
pub fn folder_of(path: &str) -> &str {
    match path.rsplit_once('/') {
        Some((folder, _)) if folder.is_empty() => "/",
        Some((folder, _)) => folder,
        None => ".",
    }
}

/// The last name of a path: empty, `.` or `..` where it can only be a folder's.
pub fn name_in(path: &str) -> &str {
    match path.rsplit_once('/') {
        Some((_, name)) => name,
        None => path,
    }
}

/// Where the link at this path leads, in one step. Nothing where no link stands there.
pub fn linked<R: Files>(rt: &R, alloc: Global, path: &str) -> io::Result<Option<String>> {
    match fs::symlink_metadata(rt, path) {
        Ok(metadata) if metadata.is_symlink() => {
            let text = rt.read_link(alloc, path)?.into_string();
            Ok(Some(joined(alloc, folder_of(path), text.as_str())?))
        }
        Ok(_) => Ok(None),
        Err(error) if error.kind() == ErrorKind::NotFound => Ok(None),
        Err(error) => Err(error),
    }
}

/// The path at which nothing or no link stands, where all links lead that begin at this one.
pub fn end_of_links<R: Files>(rt: &R, alloc: Global, path: &str) -> io::Result<String> {
    let mut end = String::from_str(alloc, path)?;
    for _ in 0..MOST_LINKS {
        match linked(rt, alloc, end.as_str())? {
            Some(next) => end = next,
            None => return Ok(end),
        }
    }
    Err(io::Error::from(ErrorKind::FilesystemLoop))
}

// The path that stands in a link of this folder.
fn joined(alloc: Global, folder: &str, text: &str) -> Result<String, AllocError> {
    if text.starts_with('/') {
        String::from_str(alloc, text)
    } else {
        format!(in alloc; "{folder}/{text}")
    }
}
