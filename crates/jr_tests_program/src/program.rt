use crate::asserts::same;
use crate::jobs::read_job;
use crate::texts::assert_said;
use jr_cli::{
    CliFault, RunEnd, StopFlag, Watch, execute_serial, print_check, print_plan,
    print_stopped_totals, read_text, read_trace,
};
use jr_engines::MemoryEngine;
use jr_stats::TraceFault;
use std::alloc::Global;
use std::io;
use std::io::{ErrorKind, Read, Write};
use std::process::Abort;
use std::test::Fail;
use std::time::Clock;

// Gives some bytes, and then fails.
#[derive(Drop)]
struct BrokenReader {
    is_begun: bool,
}

impl Read for BrokenReader {
    fn read(&mut self, buf: &mut [u8]) -> io::Result<usize> {
        if self.is_begun || buf.is_empty() {
            return Err(io::Error::from(ErrorKind::TimedOut));
        }
        self.is_begun = true;
        buf[0] = b'[';
        Ok(1)
    }
}

// Takes as many bytes as it has room for, and then fails; and fails to flush where it is to.
#[derive(Drop)]
struct FaultyWriter {
    room: usize,
    flushes: bool,
}

impl Write for FaultyWriter {
    fn write(&mut self, buf: &[u8]) -> io::Result<usize> {
        if self.room == 0 {
            return Err(io::Error::from(ErrorKind::StorageFull));
        }
        let count = buf.len().min(self.room);
        self.room -= count;
        Ok(count)
    }

    fn flush(&mut self) -> io::Result<()> {
        if self.flushes {
            Ok(())
        } else {
            Err(io::Error::from(ErrorKind::StorageFull))
        }
    }
}

// A writer that takes nothing.
fn full() -> FaultyWriter {
    FaultyWriter {
        room: 0,
        flushes: true,
    }
}

const TWO: &str = "[global]\nrw=write\nsize=32k\nbs=8k\n[a]\n[global]\nbs=16k\n[b]\n";

const LINE_OF_A: &str =
    "a: clone=0 phase=0 file=a.0.0 start=0 size=32768 cell=8192 cells=4 rw=write iodepth=1 loops=1 verify=none\n";

#[test]
fn a_plan_is_printed(rt: HostRuntime) -> Result<(), Fail> {
    let text = read_text(rt.alloc(), TWO.as_bytes())?;
    let plan = read_job(rt.alloc(), text.as_slice(), Some("a"))?;
    let mut out = Vec::new(rt.alloc());
    print_plan(rt.alloc(), &plan, &mut out)?;
    same(&rt, out.as_slice(), LINE_OF_A.as_bytes());
    Ok(())
}

const PHASES: &str =
    "[a]\nrw=write\nsize=8k\noffset=4k\noffset_increment=8k\nnumjobs=2\n[b]\nrw=write\nsize=4k\nstonewall\n";

const PHASES_PLAN: &str =
    "a: clone=0 phase=0 file=a.0.0 start=4096 size=8192 cell=4096 cells=2 rw=write iodepth=1 loops=1 verify=none
a: clone=1 phase=0 file=a.1.0 start=12288 size=8192 cell=4096 cells=2 rw=write iodepth=1 loops=1 verify=none
b: clone=2 phase=1 file=b.0.0 start=0 size=4096 cell=4096 cells=1 rw=write iodepth=1 loops=1 verify=none
";

#[test]
fn offsets_and_phases_are_planned(rt: HostRuntime) -> Result<(), Fail> {
    let plan = read_job(rt.alloc(), PHASES.as_bytes(), None)?;
    let mut out = Vec::new(rt.alloc());
    print_plan(rt.alloc(), &plan, &mut out)?;
    same(&rt, out.as_slice(), PHASES_PLAN.as_bytes());
    Ok(())
}

#[test]
fn a_plan_that_cannot_be_written_is_a_fault(rt: HostRuntime) -> Result<(), Fail> {
    let plan = read_job(rt.alloc(), TWO.as_bytes(), Some("a"))?;
    let cut = print_plan(rt.alloc(), &plan, &mut full());
    same(&rt, cut, Err(CliFault::Write));
    Ok(())
}

#[test]
fn a_text_is_read_up_to_its_limit(rt: HostRuntime) -> Result<(), Fail> {
    let long = vec![in rt.alloc(); b'#'; 1_048_578]?;
    let text = read_text(rt.alloc(), long.as_slice())?;
    same(&rt, text.len(), 1_048_577);
    Ok(())
}

// Is the text unread, with these words?
fn assert_unread(
    rt: &(impl AllocGlobal + Abort),
    read: Result<Vec<u8>, CliFault>,
    text: &str,
) -> Result<(), Fail> {
    match read {
        Ok(_) => Err(Fail::from("a text of half a file")),
        Err(fault) => assert_said(rt, fault, 3, text),
    }
}

#[test]
fn what_fails_to_be_read_ends_with_3(rt: HostRuntime) -> Result<(), Fail> {
    for is_begun in [false, true] {
        let job = read_text(rt.alloc(), BrokenReader { is_begun });
        assert_unread(&rt, job, "cannot read the job file")?;
        let events = read_trace(rt.alloc(), BrokenReader { is_begun });
        assert_unread(&rt, events, "cannot read the trace")?;
    }
    Ok(())
}

const CHECKED: &str = "[w]\nioengine=memory\nrw=write\nsize=8k\nverify=pattern\nverify_pattern=1\n";

const EVENTS: &str =
    "I 0 0 0 0 0\nE 0 0 whole\nI 0 1 0 0 1\nE 0 1 whole\nP 0 2 0 0 0\nE 0 2 whole\nV 0 2 good\nP 0 3 0 0 1\nE 0 3 whole\nV 0 3 good\n";

const TOTALS: &str =
    "w: clone=0 reads=0 rbytes=0 writes=2 wbytes=8192 checks=2 good=2 bad=0 skipped=0 void=0 faults=0\n";

// What a run of the plan writes to these, with its status.
fn written<R: Clock, W: Write, V: Write>(
    rt: &R,
    alloc: Global,
    events: Option<&mut W>,
    out: &mut V,
) -> Result<u8, CliFault> {
    let plan = read_job(alloc, CHECKED.as_bytes(), None)?;
    let mut engine = MemoryEngine::new(alloc, &plan)?;
    let ended = execute_serial(rt, alloc, plan, &mut engine, Watch::none(), events, out)?;
    Ok(ended.status(true))
}

#[test]
fn a_report_and_a_trace_are_written(rt: HostRuntime) -> Result<(), Fail> {
    let mut events = Vec::new(rt.alloc());
    let mut out = Vec::new(rt.alloc());
    let status = written(&rt, rt.alloc(), Some(&mut events), &mut out)?;
    same(&rt, (status, out.as_slice()), (0, TOTALS.as_bytes()));
    same(&rt, events.as_slice(), EVENTS.as_bytes());
    Ok(())
}

// What the check of a trace of the job text writes.
fn checked(alloc: Global, job: &str, events: &str) -> Result<Vec<u8>, CliFault> {
    let plan = read_job(alloc, job.as_bytes(), None)?;
    let events = read_trace(alloc, events.as_bytes())?;
    let mut out = Vec::new(alloc);
    print_check(alloc, &plan, events.as_slice(), &mut out)?;
    Ok(out)
}

#[test]
fn a_trace_is_checked(rt: HostRuntime) -> Result<(), Fail> {
    let out = checked(rt.alloc(), CHECKED, EVENTS)?;
    same(&rt, out.as_slice(), TOTALS.as_bytes());
    Ok(())
}

const FOUR: &str =
    "[w]\nioengine=memory\nrw=write\nsize=16k\nverify=pattern\nverify_pattern=0xab\n";

const FOUR_EVENTS: &str =
    "I 0 0 0 0 0\nE 0 0 whole\nI 0 1 0 0 1\nE 0 1 whole\nI 0 2 0 0 2\nE 0 2 whole\nI 0 3 0 0 3\nE 0 3 whole\nP 0 4 0 0 0\nE 0 4 whole\nV 0 4 good\nP 0 5 0 0 1\nE 0 5 whole\nV 0 5 good\nP 0 6 0 0 2\nE 0 6 whole\nV 0 6 good\nP 0 7 0 0 3\nE 0 7 whole\nV 0 7 good\n";

const FOUR_TOTALS: &str =
    "w: clone=0 reads=0 rbytes=0 writes=4 wbytes=16384 checks=4 good=4 bad=0 skipped=0 void=0 faults=0\n";

// What is wrong with a trace whose lines that are whole are so many, and whose last byte is this.
fn fault_of_cut(whole: u64, last: char) -> CliFault {
    if last == '\n' {
        CliFault::Trace(TraceFault::Unfinished)
    } else {
        CliFault::Trace(TraceFault::Line(whole.saturating_add(1)))
    }
}

// A trace that is cut after a line isn't complete, and one that is cut within a line has one that is none.
#[test]
fn a_trace_is_refused_wherever_it_is_cut(rt: HostRuntime) -> Result<(), Fail> {
    let mut whole: u64 = 0;
    let mut begun = String::new(rt.alloc());
    let mut wanted = CliFault::Trace(TraceFault::Unfinished);
    for letter in FOUR_EVENTS.chars() {
        let fault = checked(rt.alloc(), FOUR, begun.as_str()).err();
        same(&rt, (begun.len(), fault), (begun.len(), Some(wanted)));
        begun.push(letter)?;
        if letter == '\n' {
            whole = whole.saturating_add(1);
        }
        wanted = fault_of_cut(whole, letter);
    }
    let out = checked(rt.alloc(), FOUR, begun.as_str())?;
    same(&rt, (whole, out.as_slice()), (20, FOUR_TOTALS.as_bytes()));
    Ok(())
}

const BOTH_DECLINE: &str =
    "[w]\nioengine=memory\nrw=write\nsize=8k\nnumjobs=2\nfilename=f\nverify=pattern\nverify_pattern=1\nserialize_overlap=0\n";

const BOTH_RACED: &str =
    "w: clone=0 reads=0 rbytes=0 writes=2 wbytes=8192 checks=0 good=0 bad=0 skipped=1 void=1 faults=0
w: clone=1 reads=0 rbytes=0 writes=2 wbytes=8192 checks=1 good=1 bad=0 skipped=1 void=0 faults=0
";

// The first writes of two clones race, and a check with the second write of the other clone.
#[test]
fn writes_that_raced_are_skipped_in_a_trace(rt: HostRuntime) -> Result<(), Fail> {
    let begun =
        "I 0 0 0 0 0\nI 1 1 1 0 0\nE 0 0 whole\nE 1 1 whole\nI 0 2 0 0 1\nE 0 2 whole\nS 0 0 0 0\nP 0 3 0 0 1\nI 1 4 1 0 1\nE 0 3 whole\nV 1 3";
    let rest = "E 1 4 whole\nS 0 1 0 0\nP 0 5 1 0 1\nE 0 5 whole\nV 0 5 good\n";
    let events = format!(in rt.alloc(); "{begun} void\n{rest}")?;
    let out = checked(rt.alloc(), BOTH_DECLINE, events.as_str())?;
    same(&rt, out.as_slice(), BOTH_RACED.as_bytes());
    let events = format!(in rt.alloc(); "{begun} good\n{rest}")?;
    let fault = checked(rt.alloc(), BOTH_DECLINE, events.as_str()).err();
    let illegal = CliFault::Trace(TraceFault::Illegal(11));
    same(&rt, fault, Some(illegal));
    Ok(())
}

const DECLINED: &str =
    "[global]\nioengine=memory\nfilename=f\nsize=4k\n[r]\nverify=md5\nserialize_overlap=0\n[w]\nrw=write\n";

const RACED: &str =
    "r: clone=0 reads=1 rbytes=4096 writes=0 wbytes=0 checks=0 good=0 bad=0 skipped=0 void=1 faults=0
w: clone=1 reads=0 rbytes=0 writes=1 wbytes=4096 checks=0 good=0 bad=0 skipped=0 void=0 faults=0
";

// A checked read beside a write over its block, whichever of them began first.
#[test]
fn a_check_that_raced_is_void_in_a_trace(rt: HostRuntime) -> Result<(), Fail> {
    let rows = [
        (
            "I 0 0 0 0 0\nI 1 1 1 0 0\nE 0 0 whole\nV 0 0",
            "E 1 1 whole",
        ),
        (
            "I 0 0 1 0 0\nI 1 1 0 0 0\nE 1 1 whole\nV 1 1",
            "E 0 0 whole",
        ),
    ];
    for (begun, rest) in rows {
        let events = format!(in rt.alloc(); "{begun} void\n{rest}\n")?;
        let out = checked(rt.alloc(), DECLINED, events.as_str())?;
        same(&rt, (begun, out.as_slice()), (begun, RACED.as_bytes()));
        let events = format!(in rt.alloc(); "{begun} good\n{rest}\n")?;
        let fault = checked(rt.alloc(), DECLINED, events.as_str()).err();
        let illegal = CliFault::Trace(TraceFault::Illegal(4));
        same(&rt, (begun, fault), (begun, Some(illegal)));
    }
    Ok(())
}

#[test]
fn a_trace_of_a_stopped_run_is_checked(rt: HostRuntime) -> Result<(), Fail> {
    let plan = read_job(rt.alloc(), CHECKED.as_bytes(), None)?;
    let mut out = Vec::new(rt.alloc());
    let begun = "I 0 0 0 0 0\nE 0 0 whole\n";
    print_stopped_totals(rt.alloc(), &plan, begun.as_bytes(), &mut out)?;
    let totals =
        "w: clone=0 reads=0 rbytes=0 writes=1 wbytes=4096 checks=0 good=0 bad=0 skipped=0 void=0 faults=0\n";
    same(&rt, out.as_slice(), totals.as_bytes());
    Ok(())
}

// How a run ends whose report goes to such a writer.
fn ended_over<R: Clock>(rt: &R, alloc: Global, room: usize, flushes: bool) -> Result<u8, CliFault> {
    let mut out = FaultyWriter { room, flushes };
    written(rt, alloc, None::<&mut Vec<u8>>, &mut out)
}

#[test]
fn what_is_cut_is_no_report(rt: HostRuntime) {
    let (alloc, whole) = (rt.alloc(), TOTALS.len());
    let cut = Err(CliFault::Write);
    same(&rt, ended_over(&rt, alloc, 0, true), cut);
    same(&rt, ended_over(&rt, alloc, whole - 1, true), cut);
    same(&rt, ended_over(&rt, alloc, whole, false), cut);
    same(&rt, ended_over(&rt, alloc, whole, true), Ok(0));
}

#[test]
fn what_is_cut_is_no_trace(rt: HostRuntime) {
    let mut out = Vec::new(rt.alloc());
    let cut = written(&rt, rt.alloc(), Some(&mut full()), &mut out);
    same(&rt, cut, Err(CliFault::Write));
}

// How a run that was asked to stop before it began ends, with its status.
fn stopped<R: Clock>(rt: &R, alloc: Global) -> Result<(RunEnd, u8), Fail> {
    let stop = StopFlag::new();
    stop.set();
    let watch = Watch {
        progress: None,
        stop: Some(&stop),
        diagnoses: None,
        ledger: None,
    };
    let plan = read_job(alloc, CHECKED.as_bytes(), None)?;
    let mut engine = MemoryEngine::new(alloc, &plan)?;
    let mut out = Vec::new(alloc);
    let none = None::<&mut Vec<u8>>;
    let ended = execute_serial(rt, alloc, plan, &mut engine, watch, none, &mut out)?;
    let status = ended.status(true);
    Ok((ended.into_end(), status))
}

#[test]
fn a_run_that_was_asked_to_stop_ends_with_130(rt: HostRuntime) -> Result<(), Fail> {
    let (ended, status) = stopped(&rt, rt.alloc())?;
    same(&rt, status, 130);
    same(&rt, ended.is_interrupted(), true);
    same(&rt, (ended.status(true), ended.status(false)), (130, 3));
    Ok(())
}
