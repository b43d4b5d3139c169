use crate::asserts::same;
use crate::jobs::read_job;
use jr_cli::{Watch, execute_serial};
use jr_engines::{MemoryEngine, Reply, ReplyBytes, ScriptedEngine};
use std::alloc::Global;
use std::process::Abort;
use std::test::Fail;
use std::time::Clock;

// What a run of one worker writes whose call of this number has a reply of its own, and its status.
pub(crate) fn answered<R: Clock>(
    rt: &R,
    alloc: Global,
    text: &str,
    call: u64,
    reply: Reply,
) -> Result<(Vec<u8>, u8), Fail> {
    let plan = read_job(alloc, text.as_bytes(), None)?;
    let memory = MemoryEngine::new(alloc, &plan)?;
    let script = Vec::from_array(alloc, [(call, reply)])?;
    let mut engine = ScriptedEngine::new(memory, script);
    let mut out = Vec::new(alloc);
    let ended = execute_serial(
        rt,
        alloc,
        plan,
        &mut engine,
        Watch::none(),
        None::<&mut Vec<u8>>,
        &mut out,
    )?;
    Ok((out, ended.status(true)))
}

// Is this what it writes, and does it end so?
fn assert_answered(
    rt: &(impl AllocGlobal + Abort + Clock),
    text: &str,
    call: u64,
    reply: Reply,
    want: &str,
    status: u8,
) -> Result<(), Fail> {
    let (report, ended) = answered(rt, rt.alloc(), text, call, reply)?;
    let want = want.as_bytes();
    same(rt, (call, report.as_slice(), ended), (call, want, status));
    Ok(())
}

// Its calls 0 and 1 are writes, 2 and 3 are checks.
const CHECKED: &str = "[w]\nioengine=memory\nrw=write\nsize=8k\nverify=pattern\nverify_pattern=1\n";

const GOOD: &str =
    "w: clone=0 reads=0 rbytes=0 writes=2 wbytes=8192 checks=2 good=2 bad=0 skipped=0 void=0 faults=0\n";

const FAILED_WRITE: &str =
    "w: clone=0 reads=0 rbytes=0 writes=0 wbytes=0 checks=0 good=0 bad=0 skipped=0 void=0 faults=1\n";

const FLIPPED: &str =
    "w: clone=0 reads=0 rbytes=0 writes=2 wbytes=8192 checks=2 good=1 bad=1 skipped=0 void=0 faults=0\nmiscompare: clone=0 pass=0 number=0 file=w.0.0 offset=0 length=4096 what=byte:9\n";

const DROPPED: &str =
    "w: clone=0 reads=0 rbytes=0 writes=2 wbytes=8192 checks=2 good=1 bad=1 skipped=0 void=0 faults=0\nmiscompare: clone=0 pass=0 number=1 file=w.0.0 offset=4096 length=4096 what=byte:0\n";

#[test]
fn replies_to_writes_are_reported(rt: HostRuntime) -> Result<(), Fail> {
    assert_answered(&rt, CHECKED, 0, Reply::Fail, FAILED_WRITE, 1)?;
    assert_answered(&rt, CHECKED, 0, Reply::Torn(100), FAILED_WRITE, 1)?;
    assert_answered(&rt, CHECKED, 0, Reply::Short(100), FAILED_WRITE, 1)?;
    assert_answered(&rt, CHECKED, 0, Reply::Short(4096), GOOD, 0)?;
    assert_answered(&rt, CHECKED, 0, Reply::Flip(9), FLIPPED, 1)?;
    assert_answered(&rt, CHECKED, 1, Reply::Drop, DROPPED, 1)
}

const UNREAD: &str =
    "w: clone=0 reads=0 rbytes=0 writes=2 wbytes=8192 checks=0 good=0 bad=0 skipped=0 void=0 faults=1\n";

const LAST_UNREAD: &str =
    "w: clone=0 reads=0 rbytes=0 writes=2 wbytes=8192 checks=1 good=1 bad=0 skipped=0 void=0 faults=1\n";

const OTHER_BYTES: &str =
    "w: clone=0 reads=0 rbytes=0 writes=2 wbytes=8192 checks=2 good=1 bad=1 skipped=0 void=0 faults=0\nmiscompare: clone=0 pass=0 number=0 file=w.0.0 offset=0 length=4096 what=byte:1\n";

#[test]
fn replies_to_checks_are_reported(rt: HostRuntime) -> Result<(), Fail> {
    assert_answered(&rt, CHECKED, 2, Reply::Fail, UNREAD, 1)?;
    assert_answered(&rt, CHECKED, 2, Reply::Torn(100), UNREAD, 1)?;
    assert_answered(&rt, CHECKED, 2, Reply::Short(0), UNREAD, 1)?;
    assert_answered(&rt, CHECKED, 2, Reply::Drop, GOOD, 0)?;
    assert_answered(&rt, CHECKED, 3, Reply::Fail, LAST_UNREAD, 1)?;
    let other = ReplyBytes::new(Vec::from_array(rt.alloc(), [1, 0])?);
    assert_answered(&rt, CHECKED, 2, Reply::Bytes(other), OTHER_BYTES, 1)
}

const MD5: &str = "[w]\nioengine=memory\nrw=write\nsize=16k\nverify=md5\n";

const BAD_DATA: &str =
    "w: clone=0 reads=0 rbytes=0 writes=4 wbytes=16384 checks=4 good=3 bad=1 skipped=0 void=0 faults=0\nmiscompare: clone=0 pass=0 number=2 file=w.0.0 offset=8192 length=4096 what=data\n";

const BAD_HEADER: &str =
    "w: clone=0 reads=0 rbytes=0 writes=4 wbytes=16384 checks=4 good=3 bad=1 skipped=0 void=0 faults=0\nmiscompare: clone=0 pass=0 number=2 file=w.0.0 offset=8192 length=4096 what=header\n";

const BAD_DIGEST: &str =
    "w: clone=0 reads=0 rbytes=0 writes=4 wbytes=16384 checks=4 good=3 bad=1 skipped=0 void=0 faults=0\nmiscompare: clone=0 pass=0 number=2 file=w.0.0 offset=8192 length=4096 what=digest\n";

#[test]
fn flipped_bytes_are_told_by_their_place(rt: HostRuntime) -> Result<(), Fail> {
    assert_answered(&rt, MD5, 6, Reply::Flip(100), BAD_DATA, 1)?;
    assert_answered(&rt, MD5, 6, Reply::Flip(20), BAD_HEADER, 1)?;
    assert_answered(&rt, MD5, 6, Reply::Flip(40), BAD_DIGEST, 1)
}

const CHUNKED: &str = "[w]\nioengine=memory\nrw=write\nsize=16k\nverify=md5\nverify_interval=1k\n";

const ONE_BAD: &str =
    "w: clone=0 reads=0 rbytes=0 writes=4 wbytes=16384 checks=4 good=3 bad=1 skipped=0 void=0 faults=0\nmiscompare: clone=0 pass=0 number=2 file=w.0.0 offset=8192 length=4096 what=";

#[test]
fn flipped_bytes_of_a_chunk_are_told_by_its_number(rt: HostRuntime) -> Result<(), Fail> {
    for (place, what) in [(1124, "data:1"), (1044, "header:1"), (1064, "digest:1")] {
        let want = format!(in rt.alloc(); "{ONE_BAD}{what}\n")?;
        assert_answered(&rt, CHUNKED, 6, Reply::Flip(place), want.as_str(), 1)?;
    }
    Ok(())
}

const FATAL: &str = "[w]\nioengine=memory\nrw=write\nsize=16k\nverify=md5\nverify_fatal=1\n";

const FATAL_REPORT: &str =
    "w: clone=0 reads=0 rbytes=0 writes=4 wbytes=16384 checks=3 good=2 bad=1 skipped=0 void=0 faults=0\nmiscompare: clone=0 pass=0 number=2 file=w.0.0 offset=8192 length=4096 what=data\n";

const TWICE: &str = "[w]\nioengine=memory\nrw=write\nsize=16k\nverify=sha1\nloops=2\n";

const TWICE_REPORT: &str =
    "w: clone=0 reads=0 rbytes=0 writes=8 wbytes=32768 checks=8 good=7 bad=1 skipped=0 void=0 faults=0\nmiscompare: clone=0 pass=1 number=1 file=w.0.0 offset=4096 length=4096 what=header\n";

const FIRST: &str =
    "[w]\nioengine=memory\nrw=write\nsize=16k\nverify=pattern\nverify_pattern=0xab\n";

const HALTED: &str =
    "w: clone=0 reads=0 rbytes=0 writes=1 wbytes=4096 checks=0 good=0 bad=0 skipped=0 void=0 faults=1\n";

#[test]
fn bad_blocks_and_faults_end_what_they_must(rt: HostRuntime) -> Result<(), Fail> {
    assert_answered(&rt, FATAL, 6, Reply::Flip(100), FATAL_REPORT, 1)?;
    assert_answered(&rt, TWICE, 9, Reply::Drop, TWICE_REPORT, 1)?;
    assert_answered(&rt, FIRST, 1, Reply::Fail, HALTED, 1)?;
    assert_answered(&rt, FIRST, 1, Reply::Torn(100), HALTED, 1)
}
