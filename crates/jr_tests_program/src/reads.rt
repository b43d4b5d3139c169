// Reads that are checked: what a run says of blocks that another job of it wrote, or that nobody did.
use crate::asserts::same;
use crate::crew::answered_to_a_crew;
use crate::replies::answered;
use jr_engines::Reply;
use std::alloc::Global;
use std::process::Abort;
use std::sync::Wait;
use std::test::Fail;
use std::thread::Threads;
use std::time::Clock;

// A job that writes four blocks and checks them, and one that reads and checks them when that is done, each with further options. Its
// calls 0 to 3 are writes, 4 to 7 checks, and 8 to 11 reads.
fn text_of(alloc: Global, in_a: &str, in_b: &str) -> Result<String, Fail> {
    let a = "[a]\nioengine=memory\nrw=write\nsize=16k\nfilename=f\nverify=md5\n";
    let b = "[b]\nioengine=memory\nrw=read\nsize=16k\nfilename=f\nverify=md5\nstonewall\n";
    Ok(format!(in alloc; "{a}{in_a}{b}{in_b}")?)
}

const WROTE: &str =
    "a: clone=0 reads=0 rbytes=0 writes=4 wbytes=16384 checks=4 good=4 bad=0 skipped=0 void=0 faults=0\n";

// Is this what a run says of what it read, by one worker alone and by a crew, where a byte of the reply to call 9 is the other way
// round, if one is to be?
fn assert_read<R: AllocGlobal + Abort + Threads + Wait + Clock + Sync>(
    rt: &R,
    text: &str,
    flipped: Option<u32>,
    want: &str,
    status: u8,
) -> Result<(), Fail> {
    let (report, ended) = answered(rt, rt.alloc(), text, 9, reply_of(flipped))?;
    same(rt, (report.as_slice(), ended), (want.as_bytes(), status));
    let (ended, report) = answered_to_a_crew(rt, text, 9, reply_of(flipped))?;
    same(rt, (report.as_slice(), ended), (want.as_bytes(), status));
    Ok(())
}

fn reply_of(flipped: Option<u32>) -> Reply {
    match flipped {
        Some(place) => Reply::Flip(place),
        None => Reply::Pass,
    }
}

// What both jobs come to, where these are the lines of the second.
fn assert_read_back<R: AllocGlobal + Abort + Threads + Wait + Clock + Sync>(
    rt: &R,
    in_a: &str,
    in_b: &str,
    flipped: Option<u32>,
    lines: &str,
    status: u8,
) -> Result<(), Fail> {
    let text = text_of(rt.alloc(), in_a, in_b)?;
    let want = format!(in rt.alloc(); "{WROTE}{lines}")?;
    assert_read(rt, text.as_str(), flipped, want.as_str(), status)
}

const GOOD: &str =
    "b: clone=1 reads=4 rbytes=16384 writes=0 wbytes=0 checks=4 good=4 bad=0 skipped=0 void=0 faults=0\n";

const CHUNKS: &str = "verify_interval=1k\n";

#[test]
fn what_was_written_in_its_kind_is_good(rt: HostRuntime) -> Result<(), Fail> {
    assert_read_back(&rt, "", "", None, GOOD, 0)?;
    assert_read_back(&rt, CHUNKS, "", None, GOOD, 0)
}

const OF_ANOTHER_KIND: &str =
    "b: clone=1 reads=4 rbytes=16384 writes=0 wbytes=0 checks=4 good=0 bad=4 skipped=0 void=0 faults=0
badread: clone=1 pass=0 number=0 file=f offset=0 length=4096 what=header
badread: clone=1 pass=0 number=1 file=f offset=4096 length=4096 what=header
badread: clone=1 pass=0 number=2 file=f offset=8192 length=4096 what=header
badread: clone=1 pass=0 number=3 file=f offset=12288 length=4096 what=header
";

const CHUNKS_OF_ANOTHER_KIND: &str =
    "b: clone=1 reads=4 rbytes=16384 writes=0 wbytes=0 checks=4 good=0 bad=4 skipped=0 void=0 faults=0
badread: clone=1 pass=0 number=0 file=f offset=0 length=4096 what=header:0
badread: clone=1 pass=0 number=1 file=f offset=4096 length=4096 what=header:0
badread: clone=1 pass=0 number=2 file=f offset=8192 length=4096 what=header:0
badread: clone=1 pass=0 number=3 file=f offset=12288 length=4096 what=header:0
";

#[test]
fn what_was_written_in_another_kind_is_bad(rt: HostRuntime) -> Result<(), Fail> {
    let sha1 = "verify=sha1\n";
    assert_read_back(&rt, "", sha1, None, OF_ANOTHER_KIND, 1)?;
    assert_read_back(&rt, CHUNKS, sha1, None, CHUNKS_OF_ANOTHER_KIND, 1)
}

const LARGER: &str =
    "b: clone=1 reads=2 rbytes=16384 writes=0 wbytes=0 checks=2 good=0 bad=2 skipped=0 void=0 faults=0
badread: clone=1 pass=0 number=0 file=f offset=0 length=8192 what=header
badread: clone=1 pass=0 number=1 file=f offset=8192 length=8192 what=header
";

const LARGER_OF_CHUNKS: &str =
    "b: clone=1 reads=2 rbytes=16384 writes=0 wbytes=0 checks=2 good=2 bad=0 skipped=0 void=0 faults=0\n";

#[test]
fn larger_reads_are_good_where_they_are_chunks(rt: HostRuntime) -> Result<(), Fail> {
    let larger = "bs=8k\n";
    assert_read_back(&rt, "", larger, None, LARGER, 1)?;
    assert_read_back(&rt, CHUNKS, larger, None, LARGER_OF_CHUNKS, 0)
}

const BAD_DATA: &str =
    "b: clone=1 reads=4 rbytes=16384 writes=0 wbytes=0 checks=4 good=3 bad=1 skipped=0 void=0 faults=0
badread: clone=1 pass=0 number=1 file=f offset=4096 length=4096 what=data
";

const BAD_DIGEST: &str =
    "b: clone=1 reads=4 rbytes=16384 writes=0 wbytes=0 checks=4 good=3 bad=1 skipped=0 void=0 faults=0
badread: clone=1 pass=0 number=1 file=f offset=4096 length=4096 what=digest
";

// Byte 30 is of the draw's number, which a read can't know; byte 40 is of the digest, which is then that of other bytes.
#[test]
fn flipped_bytes_of_a_read_are_told_by_their_place(rt: HostRuntime) -> Result<(), Fail> {
    assert_read_back(&rt, "", "", Some(100), BAD_DATA, 1)?;
    assert_read_back(&rt, "", "", Some(40), BAD_DATA, 1)?;
    assert_read_back(&rt, "", "", Some(50), BAD_DIGEST, 1)?;
    assert_read_back(&rt, "", "", Some(30), GOOD, 0)
}

const UNWRITTEN: &str =
    "j: clone=0 reads=4 rbytes=16384 writes=0 wbytes=0 checks=4 good=0 bad=4 skipped=0 void=0 faults=0
badread: clone=0 pass=0 number=0 file=f offset=0 length=4096 what=header
badread: clone=0 pass=0 number=1 file=f offset=4096 length=4096 what=header
badread: clone=0 pass=0 number=2 file=f offset=8192 length=4096 what=header
badread: clone=0 pass=0 number=3 file=f offset=12288 length=4096 what=header
";

// Nobody wrote what is read, so there are zeros.
#[test]
fn what_nobody_wrote_is_bad(rt: HostRuntime) -> Result<(), Fail> {
    let text = "[j]\nioengine=memory\nsize=16k\nfilename=f\nverify=md5\n";
    assert_read(&rt, text, None, UNWRITTEN, 1)
}
