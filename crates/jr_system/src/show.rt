// What standard error shows of a run that goes on: how much was started, what was checked, and how much of that was bad.
ghost use Rattle.std.specs.Prelude.{◌≡◌, ◌⊎◌, None, IfSome};

use crate::asked::Asked;
use crate::extents::PlanBytes;
use crate::machine::Machine;
use jr_cli_words::Wipe;
use jr_crew_threads::{Progress, Watch};
use std::alloc::{AllocError, Global};
use std::io::IsTerminal;
use std::sync::atomic::{AtomicBool, Ordering};
use std::sync::{Arc, Mutex, Wait};
use std::thread::Parker;
use std::time::{Clock, Duration, Instant};
use std::{fmt, io, thread};

/// What knows where standard output and standard error go.
pub trait Screen: Eprint {
    /// Whether that is a terminal.
    fn is_shown(&self) -> bool;

    /// Whether standard output goes to one.
    fn prints_to_terminal(&self) -> bool;

    /// Writes these bytes, which need not be text, to standard error.
    fn write_error(&self, text: &[u8]) -> io::Result<()>;
}

impl Screen for HostRuntime {
    fn is_shown(&self) -> bool {
        self.stderr().is_terminal()
    }

    fn prints_to_terminal(&self) -> bool {
        self.stdout().is_terminal()
    }

    fn write_error(&self, text: &[u8]) -> io::Result<()> {
        Print::write_all(&self.stderr(), text)
    }
}

// So long and so often the end of a run waits for a line that is being written.
const PAUSE_MILLISECONDS: u64 = 10;

const MOST_PAUSES: u32 = 50;

// So long it waits each time for the thread that was woken to end.
const WAKING_MICROSECONDS: u64 = 200;

// Back to the line's begin, and nothing on it.
const WIPED: &str = "\r\x1b[K";

/// When a run says by itself how far it is.
#[derive(Clone, Copy)]
pub enum Pace {
    Never,
    // Once a second, on the one line of a terminal.
    Drawn,
    // Each so many seconds, on a line of its own.
    Printed(u32),
}

impl Pace {
    /// As it was asked for; else on a terminal only.
    pub fn of<R: Screen>(rt: &R, seconds: Option<u32>) -> Pace
        ensures asked { IfSome seconds (λ n. result ≡ Pace.Printed n) }
        ensures unasked { seconds ≡ None → (result ≡ Pace.Drawn) ⊎ (result ≡ Pace.Never) }
    {
        match seconds {
            Some(seconds) => Pace::Printed(seconds),
            None if rt.is_shown() => Pace::Drawn,
            None => Pace::Never,
        }
    }

    // The seconds from one line to the next.
    fn seconds(self) -> Option<u64> {
        match self {
            Pace::Never => None,
            Pace::Drawn => Some(1),
            Pace::Printed(seconds) => Some(u64::from(seconds)),
        }
    }
}

/// Calls `f`, which may be asked to stop. Meanwhile standard error shows how far a run of this extent is, at its pace and where it is asked
/// for. `f` is handed the meter, to end that before the report; else it ends with `f`. If a ledger is kept, all its lines have gone out then.
pub fn shown<R: Machine, T, F: for<'p> FnOnce(Watch<'p>, &'p Meter) -> T>(
    rt: &R,
    extent: PlanBytes,
    asked: &Arc<Asked, Global>,
    f: F,
) -> T
    requires { F.IsAlwaysCallable f }
{
    let ended = with_watch(rt, extent, asked, f);
    if let Some(ledger) = asked.ledger() {
        ledger.write_out();
    }
    ended
}

// Calls `f`, and shows meanwhile how far the run is.
fn with_watch<R: Machine, T, F: for<'p> FnOnce(Watch<'p>, &'p Meter) -> T>(
    rt: &R,
    extent: PlanBytes,
    asked: &Arc<Asked, Global>,
    f: F,
) -> T
    requires { F.IsAlwaysCallable f }
{
    let stop = asked.stop();
    let diagnoses = Some(asked.diagnoses());
    let ledger = asked.ledger();
    let is_shown = asked.pace().seconds().is_some() || asked.has_pipe();
    // (a run that can't be shown goes on)
    let Some(meter) = is_shown.then(|| Meter::shared(rt, extent)).flatten() else {
        let watch = Watch {
            progress: None,
            stop,
            diagnoses,
            ledger,
        };
        return f(watch, &Meter::new(rt, extent));
    };
    begin_to_show(rt, &meter, asked);
    let watch = Watch {
        progress: Some(&meter.progress),
        stop,
        diagnoses,
        ledger,
    };
    let ended = f(watch, &meter);
    meter.end(rt);
    end_showing(rt, asked);
    ended
}

// Has a thread show the run, unless that of an earlier run still does. It is never joined: who reads what it says may have stopped to, and
// the run's end doesn't wait for that.
fn begin_to_show<R: Machine>(rt: &R, meter: &Arc<Meter, Global>, asked: &Arc<Asked, Global>) {
    if asked.move_in() && !has_begun(rt, meter, asked) {
        asked.move_out();
    }
}

// Starts that thread. False if it can't be had.
fn has_begun<R: Machine>(rt: &R, meter: &Arc<Meter, Global>, asked: &Arc<Asked, Global>) -> bool {
    let own: Result<R, AllocError> = rt.clone();
    let Ok(own) = own else {
        return false;
    };
    let Ok(meter) = Arc::try_clone(meter) else {
        return false;
    };
    let Ok(theirs) = Arc::try_clone(asked) else {
        return false;
    };
    let begun = thread::spawn(rt, move || {
        show(&own, &meter, &theirs);
        theirs.move_out();
    });
    begun.is_ok()
}

// Wakes the thread that shows the run, and waits a moment for its end, so that it doesn't take what wakes that of the next run.
fn end_showing<R: Wait>(rt: &R, asked: &Asked) {
    let pause = Parker::new();
    for _ in 0..MOST_PAUSES {
        asked.wake();
        if !asked.has_sleeper() {
            return;
        }
        pause.park_timeout(rt, Duration::from_micros(WAKING_MICROSECONDS));
    }
}

// What is shown of a run.
#[derive(Clone, Copy)]
struct Gauge {
    per_mille: u64,
    ios: u64,
    checks: u64,
    bad: u64,
    rate: Option<RunRate>,
}

impl Gauge {
    // Of a run that has gone on for this time.
    fn of(meter: &Meter, passed: Duration) -> Gauge {
        let progress = &meter.progress;
        // (what counts fewer is read first, so that no number of a line is above one that it can't be above)
        let bad = progress.bad();
        let checks = progress.checks();
        let bytes = progress.bytes().saturating_add(progress.checked_bytes());
        Gauge {
            per_mille: meter.extent.per_mille(bytes),
            ios: progress.ios(),
            checks,
            bad,
            rate: RunRate::of(bytes, meter.extent.left(bytes), passed),
        }
    }
}

impl fmt::Display for Gauge {
    fn fmt<W: fmt::Write>(&self, f: &mut fmt::Formatter<W>) -> fmt::Result {
        write!(
            f,
            "fiorun: {}.{} % done, {} I/Os, {} checked, {} bad",
            self.per_mille / 10,
            self.per_mille % 10,
            self.ios,
            self.checks,
            self.bad
        )?;
        match self.rate {
            Some(rate) => rate.write_left(f),
            None => Ok(()),
        }
    }
}

// How quick a run has been so far, and how long it takes from here if it goes on like that.
#[derive(Clone, Copy)]
struct RunRate {
    bytes_a_second: u64,
    seconds_left: u64,
}

impl RunRate {
    // That of so many bytes in this time, if so many are left; none before something is done.
    fn of(done: u64, left: u64, passed: Duration) -> Option<RunRate> {
        let millis = u64::try_from(passed.as_millis()).unwrap_or(u64::MAX);
        if done == 0 || millis == 0 {
            return None;
        }
        let bytes_a_second = done.saturating_mul(1000) / millis;
        Some(RunRate {
            bytes_a_second,
            seconds_left: left / bytes_a_second.max(1),
        })
    }

    fn write_left<W: fmt::Write>(self, f: &mut fmt::Formatter<W>) -> fmt::Result {
        let minutes = self.seconds_left / 60;
        write!(
            f,
            ", {}:{:02}:{:02} left",
            minutes / 60,
            minutes % 60,
            self.seconds_left % 60
        )
    }
}

impl fmt::Display for RunRate {
    fn fmt<W: fmt::Write>(&self, f: &mut fmt::Formatter<W>) -> fmt::Result {
        let kib = self.bytes_a_second / 1024;
        if kib < 10 * 1024 {
            write!(f, "{kib} KiB/s")
        } else {
            write!(f, "{} MiB/s", kib / 1024)
        }
    }
}

/// What measures a run that goes on, and shows it.
#[derive(Drop)]
pub struct Meter {
    extent: PlanBytes,
    progress: Progress,
    begun: Option<Instant>,
    stage: Mutex<LineState>,
    is_over: AtomicBool,
}

// What stands on the terminal of a run.
#[derive(Clone, Copy, PartialEq, Eq)]
enum LineState {
    // Nothing.
    Blank,
    // A line without its end.
    Drawn,
}

impl Meter {
    // Of a run of this extent that begins now.
    fn new<R: Clock>(rt: &R, extent: PlanBytes) -> Meter {
        Meter {
            extent,
            progress: Progress::new(),
            begun: Instant::now(rt).ok(),
            stage: Mutex::new(LineState::Blank),
            is_over: AtomicBool::new(false),
        }
    }

    // A meter for two threads, if there is memory for it.
    fn shared<R: Clock + AllocGlobal>(rt: &R, extent: PlanBytes) -> Option<Arc<Meter, Global>> {
        Arc::new(rt.alloc(), Meter::new(rt, extent)).ok()
    }

    // How long ago the run began; no time where the clock can't be read.
    fn passed<R: Clock>(&self, rt: &R) -> Duration {
        match self.begun {
            Some(begun) => begun.elapsed(rt).unwrap_or(Duration::ZERO),
            None => Duration::ZERO,
        }
    }

    // Draws the line in place of the one that stands there.
    fn draw<R: Eprint + Clock + Wait>(&self, rt: &R) {
        let mut stage = self.stage.lock(rt);
        if !self.is_over() {
            let _ = eprint!(rt; "{WIPED}{}", Gauge::of(self, self.passed(rt)));
            *stage = LineState::Drawn;
        }
    }

    // Prints the line and the time, and ends it. One that was drawn goes.
    fn print<R: Eprint + Clock + Wait>(&self, rt: &R) {
        let mut stage = self.stage.lock(rt);
        if self.is_over() {
            return;
        }
        let front = if *stage == LineState::Drawn {
            WIPED
        } else {
            ""
        };
        let passed = self.passed(rt);
        let gauge = Gauge::of(self, passed);
        let seconds = passed.as_secs();
        let _ = match gauge.rate {
            Some(rate) => eprintln!(rt; "{front}{gauge}, {rate}, after {seconds} s"),
            None => eprintln!(rt; "{front}{gauge}, after {seconds} s"),
        };
        *stage = LineState::Blank;
    }

    // Wipes the line that was drawn, once. No more come. A line that is just being written is waited for, but not for long: its reader may
    // never take it.
    fn end<R: Eprint + Wait>(&self, rt: &R) {
        if self.is_over.swap(true, Ordering::SeqCst) {
            return;
        }
        let pause = Parker::new();
        for _ in 0..MOST_PAUSES {
            if let Some(stage) = self.stage.try_lock() {
                if *stage == LineState::Drawn {
                    let _ = eprint!(rt; "{WIPED}");
                }
                return;
            }
            pause.park_timeout(rt, Duration::from_millis(PAUSE_MILLISECONDS));
        }
    }

    fn is_over(&self) -> bool {
        self.is_over.load(Ordering::SeqCst)
    }
}

/// What wipes the line of a run before its report.
#[derive(Drop)]
pub struct Wiper<'a, R> {
    pub rt: &'a R,
    pub meter: &'a Meter,
}

impl<'a, R: Eprint + Wait> Wipe for Wiper<'a, R> {
    fn wipe(&self) {
        self.meter.end(self.rt);
    }
}

// Shows how far the run is, at its pace and where it is asked for, until it is over.
fn show<R: Eprint + Clock + Wait>(rt: &R, meter: &Meter, asked: &Asked) {
    let period = asked.pace().seconds();
    let mut due = period.unwrap_or(0);
    for _ in rt.forever() {
        let left = Duration::from_secs(due).saturating_sub(meter.passed(rt));
        asked.sleep(rt, period.map(|_| left));
        if meter.is_over() {
            return;
        }
        print_asked(rt, meter, asked);
        let seconds = meter.passed(rt).as_secs();
        if let Some(period) = period
            && seconds >= due
        {
            show_one(rt, meter, asked);
            due = next_of(seconds, period);
        }
    }
}

// The next multiple of the period.
fn next_of(seconds: u64, period: u64) -> u64 {
    let past = seconds / period.max(1);
    past.saturating_add(1).saturating_mul(period)
}

// Prints the lines that were asked for.
fn print_asked<R: Eprint + Clock + Wait>(rt: &R, meter: &Meter, asked: &Asked) {
    for _ in 0..asked.take_lines() {
        meter.print(rt);
    }
}

// Shows one line as the pace has it. None is drawn once the run is asked to stop.
fn show_one<R: Eprint + Clock + Wait>(rt: &R, meter: &Meter, asked: &Asked) {
    let is_stopped = asked.stop().is_some_and(|stop| stop.is_set());
    match asked.pace() {
        Pace::Printed(_) => meter.print(rt),
        Pace::Drawn if !is_stopped => meter.draw(rt),
        Pace::Drawn | Pace::Never => {}
    }
}
