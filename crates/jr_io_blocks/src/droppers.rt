ghost use Rattle.std.specs.Prelude.{◌≡◌, ◌<◌, ◌≤◌, length, IfSome};
ghost use Rattle.jr_io_blocks.specs.Cached.{cached_by, cached_by_byte};
ghost use Rattle.jr_io_blocks.specs.Holds.{hold_by, hold_by_byte};

use std::alloc::{AllocError, Global};
use std::fs::{File, OpenOptions};
use std::io::{Read, Write};
use std::os::fd::AsRawFd;
use std::rt::Files;
use std::sync::Arc;
use std::sync::atomic::{AtomicBool, Ordering};

// The byte that says that a request was done.
const DONE: u8 = b'.';

// The byte that says that the file can't be so.
const REFUSED: u8 = b'-';

// A place of memory is told in steps of so many bytes.
const STEP: usize = 16;

/// What the launcher did about a file that is to be direct.
#[derive(Clone, Copy, PartialEq, Eq)]
pub enum DirectAnswer {
    /// Its calls go past the system's cache from now on.
    Direct,
    /// Its file system takes no such calls.
    Refused,
    /// Nothing: there is no answer, or the system doesn't let the launcher do it.
    Nothing,
}

/// What the launcher did about a block device that this run is to have alone.
#[derive(Clone, Copy, PartialEq, Eq)]
pub enum Hold {
    /// It holds the device to the run's end: nothing else had claimed it, and nothing can mount it or claim it meanwhile.
    Held,
    /// Something else has claimed it: a mount in any namespace, swap, another device, another run.
    Busy,
    /// Nothing: there is no answer, or the system doesn't let the launcher do it.
    Nothing,
}

impl Hold {
    // What this answer of the launcher says.
    fn of(answer: Option<u8>) -> Hold
        ensures { result ≡ hold_by answer }
    {
        match answer {
            Some(byte) => hold_by_byte(byte),
            None => Hold::Nothing,
        }
    }
}

fn hold_by_byte(byte: u8) -> Hold
    ensures { result ≡ hold_by_byte byte }
{
    match byte {
        b'.' => Hold::Held,
        b'-' => Hold::Busy,
        _ => Hold::Nothing,
    }
}

/// What the system's cache has of a file, or of some bytes of it, once it was asked to drop the file.
#[derive(Clone, Copy, PartialEq, Eq)]
pub enum Cached {
    /// Nothing of the file.
    Nothing,
    /// Nothing of these bytes, and something else of the file.
    Others,
    /// Some of these bytes.
    These,
    /// All of it, whatever is asked: its file system keeps every file in memory.
    All,
    /// It can't be seen, or there was no answer.
    Unseen,
}

impl Cached {
    // What this answer of the launcher says.
    fn of(answer: Option<u8>) -> Cached
        ensures { result ≡ cached_by answer }
    {
        match answer {
            Some(byte) => cached_by_byte(byte),
            None => Cached::Unseen,
        }
    }
}

fn cached_by_byte(byte: u8) -> Cached
    ensures { result ≡ cached_by_byte byte }
{
    match byte {
        b':' => Cached::Nothing,
        b'.' => Cached::Others,
        b'~' => Cached::These,
        b'-' => Cached::All,
        _ => Cached::Unseen,
    }
}

/// The launcher that started the program, if one did. It takes files out of the system's cache and holds block devices, for which std has
/// no calls.
#[derive(Clone, Copy)]
pub struct Launcher<'a> {
    pipes: Option<&'a str>,
}

impl<'a> Launcher<'a> {
    /// The launcher that gave the word `--drop-pipes` this value, or none.
    ///
    /// The value is `W:R,W:R,..`: the numbers of open pipes, a pair for each engine. To the first one go requests, and from the
    /// second one comes a byte for each.
    pub fn new(pipes: Option<&'a str>) -> Launcher<'a> {
        Launcher { pipes }
    }

    /// What asks it by its pair of pipes of this place. None if there is no launcher, or none that can be asked.
    pub fn dropper<R: Files<File = File>>(
        &self,
        rt: &R,
        alloc: Global,
        place: usize,
    ) -> Result<Option<Arc<Dropper>>, AllocError> {
        let Some(pipes) = self.pipes else {
            return Ok(None);
        };
        let Some((requests, answers)) = pair_at(pipes, place).and_then(|pair| opened(
            rt, alloc, pair,
        )) else {
            return Ok(None);
        };
        Ok(Some(Arc::new(
            alloc,
            Dropper {
                alloc,
                requests,
                answers,
                has_ended: AtomicBool::new(false),
            },
        )?))
    }
}

/// What asks the launcher about files and memory. It serves one engine, which has one call at a time.
#[derive(Drop)]
pub struct Dropper {
    alloc: Global,
    requests: File,
    answers: File,
    has_ended: AtomicBool,
}

impl Dropper {
    /// Has the system drop what it keeps of the file, and says what it still has of these bytes. What isn't on the device stays.
    ///
    /// With no bytes it is asked about the whole file. A launcher that gave no answer isn't asked again.
    pub fn drop_cached(&self, file: &File, offset: u64, len: usize) -> Cached {
        let number = file.as_raw_fd();
        let Ok(request) = format!(in self.alloc; "clean {number} {offset} {len}\n") else {
            return Cached::Unseen;
        };
        Cached::of(self.answer(request.as_bytes()))
    }

    /// Has all calls of this open file go past the system's cache.
    pub fn make_direct(&self, file: &File) -> DirectAnswer {
        let Ok(request) = format!(in self.alloc; "direct {}\n", file.as_raw_fd()) else {
            return DirectAnswer::Nothing;
        };
        match self.answer(request.as_bytes()) {
            Some(DONE) => DirectAnswer::Direct,
            Some(REFUSED) => DirectAnswer::Refused,
            _ => DirectAnswer::Nothing,
        }
    }

    /// Claims this open block device for the run, to its end.
    pub fn hold(&self, device: &File) -> Hold {
        let Ok(request) = format!(in self.alloc; "hold {}\n", device.as_raw_fd()) else {
            return Hold::Nothing;
        };
        Hold::of(self.answer(request.as_bytes()))
    }

    /// How many bytes it is from the begin of this memory to the next page, where the launcher can find that out. Its first two bytes are
    /// written over.
    pub fn bytes_to_page(&self, memory: &mut [u8]) -> Option<usize>
        requires { 2 ≤ length memory.old }
        ensures same { length memory.new ≡ length memory.old }
        ensures most { IfSome result (λ n. n < 4096) }
    {
        let request = format!(in self.alloc; "place {}\n", self.answers.as_raw_fd()).ok()?;
        self.ask(request.as_bytes(), &mut memory[..2])?;
        if memory[1] != DONE {
            return None;
        }
        Some(memory[0] as usize * STEP)
    }

    // The answer of one byte to a request, if one came.
    fn answer(&self, request: &[u8]) -> Option<u8> {
        let mut answer = [0];
        self.ask(request, &mut answer)?;
        Some(answer[0])
    }

    // Asks for it, and reads the answer into this memory. None where no answer came, now or before.
    fn ask(&self, request: &[u8], answer: &mut [u8]) -> Option<()>
        ensures { length answer.new ≡ length answer.old }
    {
        if self.has_ended.load(Ordering::SeqCst) {
            return None;
        }
        let (mut requests, mut answers) = (&self.requests, &self.answers);
        let asked = requests.write_all(request);
        if asked.is_err() || answers.read_exact(answer).is_err() {
            self.has_ended.store(true, Ordering::SeqCst);
            return None;
        }
        Some(())
    }
}

// The numbers of the pair at this place of `W:R,W:R,..`.
fn pair_at(pipes: &str, place: usize) -> Option<(u32, u32)> {
    let (requests, answers) = pipes.split(',').nth(place)?.split_once(':')?;
    Some((requests.parse().ok()?, answers.parse().ok()?))
}

// Opens a pair of pipes anew, by their numbers. That of the requests is opened for reading too: so it has a reader even where the
// launcher has ended, without which a write would end the program by a signal.
fn opened<R: Files<File = File>>(rt: &R, alloc: Global, pair: (u32, u32)) -> Option<(File, File)> {
    let requests = format!(in alloc; "/proc/self/fd/{}", pair.0).ok()?;
    let answers = format!(in alloc; "/proc/self/fd/{}", pair.1).ok()?;
    let requests = OpenOptions::new()
        .read(true)
        .write(true)
        .open(rt, requests.as_str())
        .ok()?;
    Some((requests, File::open(rt, answers.as_str()).ok()?))
}
