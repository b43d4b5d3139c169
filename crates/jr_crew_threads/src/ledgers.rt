// What workers write down of a run while it goes on, before the desk hears of it.
use crate::watch::{StopFlag, Watch};
use jr_header::Served;
use jr_ledger_run::{Lines, RunLedger};
use jr_model::TicketKind;
use std::sync::Wait;
use std::time::{Clock, Duration};

// An I/O is long if so many nanoseconds have passed since its worker's I/O before it ended, or since the worker took its share: so many that a
// call for its line is little beside them.
const LONG_NANOS: u128 = 50_000;

/// How many I/Os of a worker's share are recorded, and when this was last looked at.
#[derive(Clone, Copy)]
pub struct Recorded {
    count: usize,
    looked: Option<Duration>,
}

/// Nothing of a share that begins now is recorded.
pub fn none_recorded<R: Clock>(rt: &R, watch: &Watch<'_>) -> Recorded {
    let looked = match watch.ledger {
        Some(ledger) => time(rt, ledger),
        None => None,
    };
    Recorded { count: 0, looked }
}

// The time, if lines are wanted: else nobody looks at the clock.
fn time<R: Clock>(rt: &R, ledger: &RunLedger) -> Option<Duration> {
    if ledger.has_lines() {
        rt.monotonic().ok()
    } else {
        None
    }
}

/// Counts the last of these if it is a write. If it was long, the lines of all that aren't recorded yet go out. If its file is to be synced now
/// it is, and these lines go out with that of the sync's begin. Answers what is recorded then.
pub fn record_due<R: Wait + Clock>(
    rt: &R,
    watch: &Watch<'_>,
    served: &[Served],
    recorded: Recorded,
) -> Recorded {
    let Some(ledger) = watch.ledger else {
        return recorded;
    };
    let Some(last) = served.last() else {
        return recorded;
    };
    let is_due = is_due(ledger, last);
    let now = time(rt, ledger);
    if !is_due && !is_long(recorded.looked, now) {
        return Recorded {
            count: recorded.count,
            looked: now,
        };
    }
    if let Some(lines) = lines_of(rt, ledger, not_recorded(served, recorded)) {
        put(ledger, watch.stop, lines, is_due);
    }
    if is_due {
        sync(ledger, watch.stop, last);
    }
    // (what that took isn't the next one's)
    Recorded {
        count: served.len(),
        looked: time(rt, ledger),
    }
}

// Whether it is so long from the one time to the other. What isn't known is taken for long.
fn is_long(begun: Option<Duration>, now: Option<Duration>) -> bool {
    match (begun, now) {
        (Some(begun), Some(now)) => now.saturating_sub(begun).as_nanos() >= LONG_NANOS,
        _ => true,
    }
}

/// Records those of these that aren't recorded yet, if a ledger is kept. None was long, so the lines may wait for the next lines that go out.
/// If there is one that is no write, they don't.
pub fn record_rest<R: Wait>(rt: &R, watch: &Watch<'_>, served: &[Served], recorded: Recorded) {
    let rest = not_recorded(served, recorded);
    if let Some(ledger) = watch.ledger
        && let Some(lines) = lines_of(rt, ledger, rest)
    {
        put(ledger, watch.stop, lines, rest.iter().all(is_write));
    }
}

fn not_recorded<'a>(served: &'a [Served], recorded: Recorded) -> &'a [Served] {
    match served.get(recorded.count..) {
        Some(rest) => rest,
        None => &[],
    }
}

// The lines of these, if there are any.
fn lines_of<'a, R: Wait>(rt: &R, ledger: &'a RunLedger, served: &[Served]) -> Option<Lines<'a>> {
    if served.is_empty() {
        return None;
    }
    let mut lines = ledger.lines(rt)?;
    for one in served {
        add(&mut lines, one);
    }
    Some(lines)
}

/// Records this one where one thread alone has the run, and syncs its file if that is due. The line of a write that wasn't long may wait for
/// the next lines that go out.
pub fn record_alone<R: Clock>(rt: &R, watch: &Watch<'_>, served: &Served) {
    let Some(ledger) = watch.ledger else {
        return;
    };
    let is_due = is_due(ledger, served);
    if let Some(mut lines) = ledger.lines_alone() {
        let now = time(rt, ledger);
        let may_wait = is_write(served) && !is_long(ledger.recorded_at(), now);
        add(&mut lines, served);
        let has_gone = put(ledger, watch.stop, lines, is_due || may_wait);
        // (what that took isn't the next one's)
        ledger.note_time(if has_gone { time(rt, ledger) } else { now });
    }
    if is_due {
        sync(ledger, watch.stop, served);
        ledger.note_time(time(rt, ledger));
    }
}

// Counts this one if it is a write. Whether its file is to be synced now.
fn is_due(ledger: &RunLedger, served: &Served) -> bool {
    is_write(served) && ledger.count_write(served.ticket().piece.file)
}

// Adds the line of this one, if it is a write that ended whole.
fn add(lines: &mut Lines<'_>, served: &Served) {
    if is_write(served) {
        lines.write_ended(&served.ticket().write, &served.outcome());
    }
}

// Writes the lines out, or lets them wait if they may: whether they have gone out.
fn put(ledger: &RunLedger, stop: Option<&StopFlag>, lines: Lines<'_>, may_wait: bool) -> bool {
    let has_gone = if may_wait {
        ledger.keep_for_later(lines)
    } else {
        ledger.send(lines);
        true
    };
    stop_if_cut(ledger, stop);
    has_gone
}

// Syncs the file of this one.
fn sync(ledger: &RunLedger, stop: Option<&StopFlag>, served: &Served) {
    ledger.sync(served.ticket().piece.file);
    stop_if_cut(ledger, stop);
}

// Where the ledger can't be written any more the run is asked to stop.
fn stop_if_cut(ledger: &RunLedger, stop: Option<&StopFlag>) {
    if ledger.is_cut()
        && let Some(stop) = stop
    {
        stop.set();
    }
}

fn is_write(served: &Served) -> bool {
    served.ticket().kind == TicketKind::Write
}
