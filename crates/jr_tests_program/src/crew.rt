use crate::asserts::same;
use crate::jobs::read_job;
use jr_cli::{CliFault, Watch, execute, workers_of};
use jr_crew::RunFault;
use jr_engines::{Engine, MemoryEngine, Reply, ScriptedEngine};
use std::process::Abort;
use std::sync::Wait;
use std::test::Fail;
use std::thread::Threads;
use std::time::Clock;

const FLIPPED: &str = "[w]\nioengine=memory\nrw=write\nsize=16k\nverify=md5\n";

const FLIPPED_REPORT: &str =
    "w: clone=0 reads=0 rbytes=0 writes=4 wbytes=16384 checks=4 good=3 bad=1 skipped=0 void=0 faults=0\nmiscompare: clone=0 pass=0 number=2 file=w.0.0 offset=8192 length=4096 what=data\n";

// What a run of the job text over one engine prints whose call of this number has a reply of its own, and its status.
pub(crate) fn answered_to_a_crew<R: AllocGlobal + Threads + Wait + Clock + Sync>(
    rt: &R,
    text: &str,
    call: u64,
    reply: Reply,
) -> Result<(u8, Vec<u8>), Fail> {
    let plan = read_job(rt.alloc(), text.as_bytes(), None)?;
    let memory = MemoryEngine::new(rt.alloc(), &plan)?;
    let script = Vec::from_array(rt.alloc(), [(call, reply)])?;
    let mut engines: Vec<Box<dyn Engine + Send>> = Vec::new(rt.alloc());
    engines.push(Box::new(rt.alloc(), ScriptedEngine::new(memory, script))?)?;
    let mut out = Vec::new(rt.alloc());
    let none = None::<&mut Vec<u8>>;
    let ended = execute(rt, rt.alloc(), plan, engines, Watch::none(), none, &mut out)?;
    Ok((ended.status(true), out))
}

// The third check reads an inverted byte.
#[test]
fn a_flipped_byte_is_found_by_a_crew(rt: HostRuntime) -> Result<(), Fail> {
    for judged_by in ["", "verify_async=2\n"] {
        let text = format!(in rt.alloc(); "{FLIPPED}{judged_by}")?;
        let (status, out) = answered_to_a_crew(&rt, text.as_str(), 6, Reply::Flip(100))?;
        let want = FLIPPED_REPORT.as_bytes();
        same(&rt, (status, out.as_slice()), (1, want));
    }
    Ok(())
}

#[test]
fn a_crew_wants_an_engine(rt: HostRuntime) -> Result<(), Fail> {
    let plan = read_job(rt.alloc(), FLIPPED.as_bytes(), None)?;
    let engines: Vec<Box<dyn Engine + Send>> = Vec::new(rt.alloc());
    let mut out = Vec::new(rt.alloc());
    let refused = execute(
        &rt,
        rt.alloc(),
        plan,
        engines,
        Watch::none(),
        None::<&mut Vec<u8>>,
        &mut out,
    );
    let fault = refused.err();
    same(&rt, fault, Some(CliFault::Run(RunFault::NoEngine)));
    same(&rt, out.is_empty(), true);
    Ok(())
}

// Has a run of the job text so many workers, where these are asked for?
fn assert_workers(
    rt: &(impl AllocGlobal + Abort),
    text: &str,
    asked: Option<u32>,
    want: u32,
) -> Result<(), Fail> {
    let plan = read_job(rt.alloc(), text.as_bytes(), None)?;
    same(rt, (text, workers_of(&plan, asked)), (text, want));
    Ok(())
}

#[test]
fn workers_are_the_depths_up_to_16(rt: HostRuntime) -> Result<(), Fail> {
    let many = "[a]\nsize=4k\niodepth=256\nnumjobs=64\n";
    let eight = "[a]\nsize=4k\niodepth=3\nnumjobs=2\n[b]\nsize=4k\niodepth=2\n";
    assert_workers(&rt, "[a]\nsize=4k\n", None, 1)?;
    assert_workers(&rt, eight, None, 8)?;
    assert_workers(&rt, many, None, 16)?;
    assert_workers(&rt, many, Some(3), 3)?;
    Ok(())
}
