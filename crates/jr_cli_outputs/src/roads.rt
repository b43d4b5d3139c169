// How an output is written: to a new file, to a stream that was opened for it, or to a stream of the program.
use jr_io_devices::FileNumbers;
use jr_report_outputs::{NewFile, Target, Way};
use jr_system::Outlet;
use std::fs::{File, Metadata, OpenOptions};
use std::io::{Error, ErrorKind, Write};
use std::{fs, io};

// The way that an output takes.
#[derive(Drop)]
pub enum Road {
    // None yet.
    Unmade,
    // To a file that takes the output's name.
    New(NewFile),
    // To a stream that was opened for it.
    Open(File),
    // To standard output, and to standard error.
    Out,
    Error,
}

// A stream of the program.
#[derive(Clone, Copy, PartialEq, Eq)]
pub enum Stream {
    Out,
    Error,
}

impl Road {
    // The stream that this number is of, also where another one has the same file.
    pub fn stream<R: Outlet>(rt: &R, number: u32) -> Option<Stream> {
        if number == 1 || is_same(rt, number, 1) {
            Some(Stream::Out)
        } else if number == 2 || is_same(rt, number, 2) {
            Some(Stream::Error)
        } else {
            None
        }
    }

    // The road to this target, made.
    pub fn made<R: Outlet>(rt: &R, target: &Target, way: Way) -> io::Result<Road> {
        if way == Way::Replace {
            return Ok(Road::New(NewFile::make(rt, rt.alloc(), target)?));
        }
        let Some(number) = target.descriptor() else {
            return Ok(Road::Open(opened(rt, target, OpenOptions::new().write(true))?));
        };
        match Road::stream(rt, number) {
            Some(Stream::Out) => Ok(Road::Out),
            Some(Stream::Error) => Ok(Road::Error),
            // (what stands in a plain file stays)
            None => Ok(Road::Open(opened(rt, target, OpenOptions::new().append(true))?)),
        }
    }

    // The file that lies at its end. A stream of the program is opened once more, so that what is written goes behind what stands there.
    pub fn file<R: Outlet>(&self, rt: &R) -> io::Result<File> {
        match self {
            Road::Unmade => Err(Error::from(ErrorKind::NotFound)),
            Road::New(file) => file.writer(),
            Road::Open(file) => file.try_clone(),
            Road::Out => OpenOptions::new().append(true).open(rt, "/proc/self/fd/1"),
            Road::Error => OpenOptions::new().append(true).open(rt, "/proc/self/fd/2"),
        }
    }

    // What writes there.
    pub fn sink<'a, R: Outlet>(&self, rt: &'a R) -> io::Result<Sink<'a, R>> {
        match self {
            Road::Unmade => Err(Error::from(ErrorKind::NotFound)),
            Road::New(file) => Ok(Sink::File(file.writer()?)),
            Road::Open(file) => Ok(Sink::File(file.try_clone()?)),
            Road::Out => Ok(Sink::Out(rt)),
            Road::Error => Ok(Sink::Error(rt)),
        }
    }
}

// Opens what stands at the target, if it is still the same.
fn opened<R: Outlet>(rt: &R, target: &Target, options: &OpenOptions) -> io::Result<File> {
    let file = options.open(rt, target.path())?;
    let is_found = target.found().is_some_and(|found| is_one(found, &file));
    if is_found {
        Ok(file)
    } else {
        Err(Error::from(ErrorKind::NotFound))
    }
}

fn is_one(found: &Metadata, file: &File) -> bool {
    file.metadata().is_ok_and(|there| FileNumbers::of(&there).identity()
        == FileNumbers::of(found).identity())
}

// Whether two open files of the program are one.
fn is_same<R: Outlet>(rt: &R, one: u32, other: u32) -> bool {
    match (metadata_of(rt, one), metadata_of(rt, other)) {
        (Some(one), Some(other)) => {
            FileNumbers::of(&one).identity() == FileNumbers::of(&other).identity()
        }
        _ => false,
    }
}

fn metadata_of<R: Outlet>(rt: &R, number: u32) -> Option<Metadata> {
    let path = format!(in rt.alloc(); "/proc/self/fd/{number}").ok()?;
    fs::metadata(rt, path.as_str()).ok()
}

/// What an output is written to.
#[derive(Drop)]
pub enum Sink<'a, R> {
    File(File),
    Out(&'a R),
    Error(&'a R),
}

impl<'a, R: Outlet> Write for Sink<'a, R> {
    fn write(&mut self, text: &[u8]) -> io::Result<usize> {
        match self {
            Sink::File(file) => file.write_all(text)?,
            Sink::Out(rt) => Print::write_all(*rt, text)?,
            Sink::Error(rt) => rt.write_error(text)?,
        }
        Ok(text.len())
    }

    fn flush(&mut self) -> io::Result<()> {
        Ok(())
    }
}
