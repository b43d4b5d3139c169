// What a run is asked for from outside, by a pipe whose other end the launcher holds, or another supervisor: to stop, and to say how far
// it is.
ghost use Rattle.std.specs.Prelude.{◌≡◌, ◌⊎◌, ◌↔◌, ◌||◌, None, IfOk, IfErr, IsSome, IsTrue, is_some};
ghost use Rattle.std.specs.Arc.{arc_value};
ghost use Rattle.jr_run_faults.specs.declared.runs.RunFault.TheVariants.{Thread as NoThread};
ghost use Rattle.jr_system.specs.Askable.{can_be_asked, can_be_stopped, pace_of};

use crate::machine::Machine;
use crate::meminfo::MemoryFiles;
use crate::show::Pace;
use crate::stops::Stop;
use jr_cli_words::CliFault;
use jr_crew_threads::{Diagnoses, StopFlag};
use jr_ledger_run::RunLedger;
use jr_run_faults::RunFault;
use std::alloc::{AllocError, Global};
use std::fs::{File, Files};
use std::io::{ErrorKind, Read};
use std::sync::atomic::{AtomicBool, AtomicU64, Ordering};
use std::sync::{Arc, OnceLock, Wait};
use std::thread;
use std::thread::{Parker, Threads};
use std::time::{Clock, Duration, Instant};

// The byte that asks for a line of how far the run is.
const LINE: u8 = b'p';

// So many milliseconds lie between two looks at the memory that is left: the quickest run takes some 6 MiB meanwhile.
const LOOK: u64 = 20;

// So many looks at first have one between them: threads that begin take much at once.
const FIRST_LOOKS: u32 = 200;

/// What is asked of a run: by its words, when to say how far it is, and how long it may take; and by the pipe. And what it found in bad blocks,
/// and its ledger.
#[derive(Drop)]
pub struct Asked {
    pace: Pace,
    has_pipe: bool,
    has_limit: bool,
    stop: StopFlag,
    is_time_over: AtomicBool,
    is_short: AtomicBool,
    lines: AtomicU64,
    sleeper: Parker,
    // Whether a thread sleeps here, or shows what it was woken for.
    has_sleeper: AtomicBool,
    diagnoses: Diagnoses,
    ledger: OnceLock<Arc<RunLedger, Global>>,
}

impl Asked {
    fn new(alloc: Global, pace: Pace, has_pipe: bool, has_limit: bool) -> Asked
        ensures pace { pace_of result ≡ pace }
        ensures pipe { can_be_asked result ≡ has_pipe }
        ensures limit { can_be_stopped result ≡ has_pipe || has_limit }
    {
        Asked {
            pace,
            has_pipe,
            has_limit,
            stop: StopFlag::new(),
            is_time_over: AtomicBool::new(false),
            is_short: AtomicBool::new(false),
            lines: AtomicU64::new(0),
            sleeper: Parker::new(),
            has_sleeper: AtomicBool::new(false),
            diagnoses: Diagnoses::new(alloc),
            ledger: OnceLock::new(),
        }
    }

    /// When the run says by itself how far it is.
    pub fn pace(&self) -> Pace
        ensures { result ≡ pace_of self.now }
    {
        self.pace
    }

    /// Whether anybody can ask while it goes on.
    pub fn has_pipe(&self) -> bool
        ensures { result ≡ can_be_asked self.now }
    {
        self.has_pipe
    }

    /// Whether its time is over, where it has a limit. Then it was asked to stop.
    pub fn is_time_over(&self) -> bool {
        self.is_time_over.load(Ordering::SeqCst)
    }

    /// Whether it was asked to stop for lack of memory.
    pub fn is_short(&self) -> bool {
        self.is_short.load(Ordering::SeqCst)
    }

    /// What asks the run to stop, where anybody can, or the end of its time does.
    pub fn stop(&self) -> Option<&StopFlag>
        ensures { IsSome result ↔ IsTrue (can_be_stopped self.now) }
    {
        if self.has_pipe || self.has_limit {
            Some(&self.stop)
        } else {
            None
        }
    }

    /// Where what stands in bad blocks is kept while the run goes on.
    pub fn diagnoses(&self) -> &Diagnoses {
        &self.diagnoses
    }

    /// Has what the run writes recorded in this ledger. It is set once, before the run.
    pub fn record(&self, ledger: Arc<RunLedger, Global>) {
        let _ = self.ledger.try_set(ledger);
    }

    /// The ledger of the run, if one is kept or files are synced on the way.
    pub fn ledger(&self) -> Option<&RunLedger> {
        match self.ledger.get() {
            Some(ledger) => Some(ledger),
            None => None,
        }
    }

    /// The ledger as files and engines share it: each of them has a reference of its own. Nothing where the run has none.
    pub fn shared_ledger(&self) -> Option<&Arc<RunLedger, Global>> {
        self.ledger.get()
    }

    /// How many lines were asked for since this was last called.
    pub fn take_lines(&self) -> u64 {
        self.lines.swap(0, Ordering::Relaxed)
    }

    /// Sleeps until it is woken, or a line is asked for, and no longer than this where there is a limit. It may end early.
    pub fn sleep<R: Wait>(&self, rt: &R, limit: Option<Duration>) {
        match limit {
            Some(limit) => self.sleeper.park_timeout(rt, limit),
            None => self.sleeper.park(rt),
        }
    }

    /// Ends the sleep of the one thread that may sleep here, or its next one.
    pub fn wake(&self) {
        self.sleeper.unpark();
    }

    /// Makes the caller, or a thread that it starts, the one that may sleep here. False if there is one already.
    pub fn move_in(&self) -> bool {
        !self.has_sleeper.swap(true, Ordering::SeqCst)
    }

    /// The thread that might sleep here doesn't any more.
    pub fn move_out(&self) {
        self.has_sleeper.store(false, Ordering::SeqCst);
    }

    /// Whether there is a thread that may sleep here.
    pub fn has_sleeper(&self) -> bool {
        self.has_sleeper.load(Ordering::SeqCst)
    }

    // Takes in what came by the pipe.
    fn hear(&self, said: &[u8]) {
        let lines = said.iter().filter(|&&byte| byte == LINE).count();
        if lines > 0 {
            self.lines.fetch_add(lines as u64, Ordering::Relaxed);
            self.wake();
        }
    }
}

/// What is asked of a run that says so by itself how far it is, and asks at the pipe of this number. Where none is named, nobody asks there.
/// A run with a limit of its time can be stopped too: `stop_after` begins to count it.
pub fn asked_by<R: Files<File = File> + AllocGlobal + Threads>(
    rt: &R,
    pace: Pace,
    pipe: Option<&str>,
    has_limit: bool,
) -> Result<Arc<Asked, Global>, Stop>
    ensures pace { IfOk result (λ asked. pace_of (arc_value asked) ≡ pace) }
    ensures pipe { IfOk result (λ asked. can_be_asked (arc_value asked) ≡ is_some pipe.entry) }
    ensures limit { IfOk result (λ asked. can_be_stopped (arc_value asked) ≡ is_some pipe.entry || has_limit) }
    ensures unasked { pipe.entry ≡ None → IfErr result (λ fault. fault ≡ CliFault.Memory) }
    ensures failed { IfErr result (λ fault. (fault ≡ CliFault.Open) ⊎ (fault ≡ CliFault.Memory)) }
{
    let asked = shared(rt.alloc(), pace, pipe.is_some(), has_limit)?;
    if let Some(number) = pipe {
        begin_to_listen(rt, &asked, number)?;
    }
    Ok(asked)
}

// What is asked of a run, for two threads.
fn shared(
    alloc: Global,
    pace: Pace,
    has_pipe: bool,
    has_limit: bool,
) -> Result<Arc<Asked, Global>, Stop>
    ensures pace { IfOk result (λ asked. pace_of (arc_value asked) ≡ pace) }
    ensures pipe { IfOk result (λ asked. can_be_asked (arc_value asked) ≡ has_pipe) }
    ensures limit { IfOk result (λ asked. can_be_stopped (arc_value asked) ≡ has_pipe || has_limit) }
    ensures failed { IfErr result (λ fault. fault ≡ CliFault.Memory) }
{
    match Arc::new(alloc, Asked::new(alloc, pace, has_pipe, has_limit)) {
        Ok(asked) => Ok(asked),
        Err(_) => Err(Stop::from(CliFault::Memory)),
    }
}

// Has a thread take in what comes by the pipe of this number.
fn begin_to_listen<R: Files<File = File> + AllocGlobal + Threads>(
    rt: &R,
    asked: &Arc<Asked, Global>,
    number: &str,
) -> Result<(), Stop>
    ensures failed { IfErr result (λ fault. (fault ≡ CliFault.Open) ⊎ (fault ≡ CliFault.Memory)) }
{
    let file = pipe_of(rt, number)?;
    let Ok(theirs) = Arc::try_clone(asked) else {
        return Err(Stop::from(CliFault::Memory));
    };
    // (it is never joined: where the pipe stays open, the program's end cuts it off; and a run that can't be asked goes on)
    let _listens = thread::spawn(rt, move || listen(file, &theirs));
    Ok(())
}

fn pipe_of<R: Files<File = File> + AllocGlobal>(rt: &R, number: &str) -> Result<File, Stop>
    ensures failed { IfErr result (λ fault. (fault ≡ CliFault.Open) ⊎ (fault ≡ CliFault.Memory)) }
{
    if number.parse::<u32>().is_err() {
        return Err(Stop::pipe());
    }
    let Ok(path) = format!(in rt.alloc(); "/proc/self/fd/{number}") else {
        return Err(Stop::from(CliFault::Memory));
    };
    match File::open(rt, path.as_str()) {
        Ok(file) => Ok(file),
        Err(_) => Err(Stop::pipe()),
    }
}

// Takes in what comes by the pipe. Once it has no other end any more, the run is to stop.
fn listen(pipe: File, asked: &Asked) {
    let mut pipe = pipe;
    let mut some = [0; 16];
    for _ in 0..u64::MAX {
        match pipe.read(&mut some) {
            Ok(0) => {
                asked.stop.set();
                return;
            }
            Ok(count) => asked.hear(&some[..count]),
            Err(error) if error.kind() == ErrorKind::Interrupted => {}
            Err(_) => return,
        }
    }
}

/// Has the run asked to stop once this time has passed from now on.
pub fn stop_after<R: Machine>(
    rt: &R,
    asked: &Arc<Asked, Global>,
    limit: Duration,
) -> Result<(), CliFault>
    ensures failed { IfErr result (λ fault. (fault ≡ CliFault.Memory) ⊎ (fault ≡ CliFault.Run NoThread)) }
{
    let begun = Instant::now(rt).ok();
    let own: Result<R, AllocError> = rt.clone();
    let Ok(own) = own else {
        return Err(CliFault::Memory);
    };
    let Ok(theirs) = Arc::try_clone(asked) else {
        return Err(CliFault::Memory);
    };
    // (it is never joined: the program's end cuts it off)
    match thread::spawn(rt, move || end_after(&own, begun, limit, &theirs)) {
        Ok(_waits) => Ok(()),
        Err(_) => Err(CliFault::Run(RunFault::Thread)),
    }
}

// Asks the run to stop once this time has passed since it began; at once where the clock can't be read.
fn end_after<R: Clock + Wait>(rt: &R, begun: Option<Instant>, limit: Duration, asked: &Asked) {
    let sleeper = Parker::new();
    for _ in rt.forever() {
        let passed = match begun {
            Some(begun) => begun.elapsed(rt).unwrap_or(limit),
            None => limit,
        };
        let left = limit.saturating_sub(passed);
        if left.is_zero() {
            asked.is_time_over.store(true, Ordering::SeqCst);
            asked.stop.set();
            return;
        }
        sleeper.park_timeout(rt, left);
    }
}

/// Has the run asked to stop once these files say that little memory is left for the program, so that there is some for its report.
pub fn stop_when_short<R: Machine>(
    rt: &R,
    asked: &Arc<Asked, Global>,
    files: MemoryFiles,
) -> Result<(), CliFault>
    ensures failed { IfErr result (λ fault. (fault ≡ CliFault.Memory) ⊎ (fault ≡ CliFault.Run NoThread)) }
{
    let alloc = rt.alloc();
    let own: Result<R, AllocError> = rt.clone();
    let Ok(own) = own else {
        return Err(CliFault::Memory);
    };
    let Ok(theirs) = Arc::try_clone(asked) else {
        return Err(CliFault::Memory);
    };
    // (it is never joined: the program's end cuts it off)
    match thread::spawn(rt, move || end_when_short(&own, alloc, files, &theirs)) {
        Ok(_waits) => Ok(()),
        Err(_) => Err(CliFault::Run(RunFault::Thread)),
    }
}

// Asks the run to stop once little memory is left. The files could be read before it began: if they can't be any more, there is no memory for
// what they say.
fn end_when_short<R: Wait>(rt: &R, alloc: Global, files: MemoryFiles, asked: &Asked) {
    let mut files = files;
    let sleeper = Parker::new();
    let mut looks: u32 = 0;
    for _ in rt.forever() {
        if files.now(alloc).is_none_or(|state| state.is_short()) {
            asked.is_short.store(true, Ordering::SeqCst);
            asked.stop.set();
            return;
        }
        sleeper.park_timeout(rt, Duration::from_millis(pause_after(looks)));
        looks = looks.saturating_add(1);
    }
}

// How many milliseconds lie between so many looks and the next one.
fn pause_after(looks: u32) -> u64 {
    if looks < FIRST_LOOKS { 1 } else { LOOK }
}
