// What one engine's bytes come to, whoever judges them, and whose faults a run counts.
use crate::asserts::same;
use crate::plans::{NOTHING, checked, plan_of};
use jr_crew::{Ran, Watch, run};
use jr_desk::{Bad, Desk};
use jr_engines::{Engine, MemoryEngine, NullEngine, Reply, ScriptedEngine};
use jr_model::{EngineKind, IoType, Method, Part, Totals, VerifyKind, What};
use jr_plan::{Plan, Workload};
use std::alloc::Global;
use std::process::Abort;
use std::sync::Wait;
use std::test::Fail;
use std::thread::Threads;
use std::time::Clock;

// Four reads of 4096 bytes that are checked by a pattern of one byte.
fn checked_reads(byte: u8) -> Workload {
    Workload {
        io_type: IoType::Read,
        ..checked(4, byte)
    }
}

#[test]
fn checked_reads_have_their_verdicts(rt: HostRuntime) -> Result<(), Fail> {
    let alloc = rt.alloc();
    let plan = plan_of(alloc, &checked_reads(0), 1, EngineKind::Null, 0)?;
    let mut engines: Vec<Box<dyn Engine + Send>> = Vec::new(alloc);
    engines.push(Box::new(alloc, NullEngine::new())?)?;
    let ran = run(&rt, alloc, plan, engines, Watch::none())?;
    let want = Totals {
        reads: 4,
        rbytes: 16384,
        checks: 4,
        good: 4,
        ..NOTHING
    };
    same(&rt, ran.desk.totals(), [want].as_slice());
    Ok(())
}

// What a run of one clone counts, and its first bad verdict.
fn ran_once<R: Threads + Wait + Clock + Sync>(
    rt: &R,
    alloc: Global,
    plan: Plan,
    engine: Box<dyn Engine + Send>,
) -> Result<(Totals, Bad), Fail> {
    let mut engines: Vec<Box<dyn Engine + Send>> = Vec::new(alloc);
    engines.push(engine)?;
    let ran = run(rt, alloc, plan, engines, Watch::none())?;
    match (ran.desk.totals(), ran.desk.bads()) {
        ([totals], [bad]) => Ok((*totals, *bad)),
        _ => Err(Fail::from("one clone with one bad verdict")),
    }
}

// Four writes of 4096 bytes with md5 and headers at this interval, of which the third check reads a byte that was inverted on the way.
fn flipped<R: Threads + Wait + Clock + Sync>(
    rt: &R,
    alloc: Global,
    verifiers: u32,
    interval: u32,
    place: u32,
) -> Result<(Totals, Bad), Fail> {
    let four = Workload {
        method: Method {
            kind: VerifyKind::Md5,
            pattern: None,
            interval,
        },
        ..Workload::plain(IoType::Write, 4096, 4)
    };
    let plan = plan_of(alloc, &four, 1, EngineKind::Memory, verifiers)?;
    let script = Vec::from_array(alloc, [(6, Reply::Flip(place))])?;
    let memory = MemoryEngine::new(alloc, &plan)?;
    let engine = Box::new(alloc, ScriptedEngine::new(memory, script))?;
    ran_once(rt, alloc, plan, engine)
}

// The third of four writes came back wrong, by this.
fn assert_third_bad(rt: &impl Abort, found: (Totals, Bad), what: What) {
    let want = Totals {
        writes: 4,
        wbytes: 16384,
        checks: 4,
        good: 3,
        bad: 1,
        ..NOTHING
    };
    let (totals, bad) = found;
    same(rt, totals, want);
    same(rt, bad.write.number, 2);
    same(rt, bad.piece.offset, 8192);
    same(rt, bad.what, what);
}

#[test]
fn a_byte_that_was_inverted_is_found_whoever_judges(rt: HostRuntime) -> Result<(), Fail> {
    for verifiers in 0..3 {
        let parts = [
            (0, 100, What::DataArea),
            (0, 20, What::Header),
            (0, 40, What::Digest),
            (1024, 1124, What::Chunk(1, Part::DataArea)),
            (1024, 1044, What::Chunk(1, Part::Header)),
            (1024, 1064, What::Chunk(1, Part::Digest)),
        ];
        for (interval, place, what) in parts {
            let found = flipped(&rt, rt.alloc(), verifiers, interval, place)?;
            assert_third_bad(&rt, found, what);
        }
    }
    Ok(())
}

// One write of a pattern of ones, over one engine that keeps nothing.
fn unkept<R: Threads + Wait + Clock + Sync>(
    rt: &R,
    alloc: Global,
    verifiers: u32,
) -> Result<(Totals, Bad), Fail> {
    let plan = plan_of(alloc, &checked(1, 1), 1, EngineKind::Null, verifiers)?;
    let engine = Box::new(alloc, NullEngine::new())?;
    ran_once(rt, alloc, plan, engine)
}

#[test]
fn a_pattern_is_not_found_among_zeros(rt: HostRuntime) -> Result<(), Fail> {
    let want = Totals {
        writes: 1,
        wbytes: 4096,
        checks: 1,
        bad: 1,
        ..NOTHING
    };
    for verifiers in 0..3 {
        let (totals, bad) = unkept(&rt, rt.alloc(), verifiers)?;
        same(&rt, totals, want);
        same(&rt, bad.what, What::Byte(0));
    }
    Ok(())
}

#[test]
fn faults_are_what_the_engines_failed(rt: HostRuntime) -> Result<(), Fail> {
    for n in 0..8 {
        let work = Workload::plain(IoType::Write, 4096, 16);
        let plan = plan_of(rt.alloc(), &work, 4, EngineKind::Memory, (n % 3) as u32)?;
        let engines = one_that_fails(rt.alloc(), &plan, n)?;
        let ran = run(&rt, rt.alloc(), plan, engines, Watch::none())?;
        same(&rt, faults_of(&ran.desk), failures_of(&ran));
    }
    Ok(())
}

// Two engines with a memory each. Call n of the first fails.
fn one_that_fails(alloc: Global, plan: &Plan, n: u64) -> Result<Vec<Box<dyn Engine + Send>>, Fail> {
    let mut engines: Vec<Box<dyn Engine + Send>> = Vec::new(alloc);
    let script = Vec::from_array(alloc, [(n, Reply::Fail)])?;
    let memory = MemoryEngine::new(alloc, plan)?;
    engines.push(Box::new(alloc, ScriptedEngine::new(memory, script))?)?;
    let memory = MemoryEngine::new(alloc, plan)?;
    let calm = ScriptedEngine::new(memory, Vec::new(alloc));
    engines.push(Box::new(alloc, calm)?)?;
    Ok(engines)
}

fn faults_of(desk: &Desk) -> u64 {
    let mut faults: u64 = 0;
    for totals in desk.totals() {
        faults = faults.saturating_add(totals.faults);
    }
    faults
}

fn failures_of(ran: &Ran) -> u64 {
    let mut failures: u64 = 0;
    for engine in ran.engines.iter() {
        failures = failures.saturating_add(engine.failures());
    }
    failures
}
