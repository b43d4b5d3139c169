// What is found in memories after a cut, by ledgers, and how it is told.
use crate::asserts::same;
use jr_after::PlannedWrite;
use jr_after_json::{Judgement, chunk_blocks, fault_chunks, judgement_text};
use jr_after_plans::planned_writes;
use jr_cli_after::{After, judge_after};
use jr_engines::{Engine, MemoryEngine, ScriptedEngine};
use jr_header::{fill, room_for};
use jr_ledger::{LedgerLine, SyncId};
use jr_model::{EngineKind, Expected, IoType, Reply, Ticket, TicketKind, VerifyKind, WriteId};
use jr_plan::{Draft, Plan, Workload};
use std::alloc::Global;
use std::process::Abort;
use std::test::Fail;

// Five blocks that are written three times, with a header each, or at an interval.
fn plan_of(alloc: Global, interval: u32) -> Result<Plan, Fail> {
    let mut workload = Workload::plain(IoType::Write, 4096, 5);
    workload.method.kind = VerifyKind::Md5;
    workload.method.interval = interval;
    workload.passes = 3;
    let mut draft = Draft::new(alloc);
    draft.add(alloc, &workload, "w", String::from_str(alloc, "f")?, 0)?;
    if draft.clones() == 0 {
        return Err(Fail::from("no clones"));
    }
    Ok(draft.finish(EngineKind::File, 0))
}

fn write(pass: u32, number: u32) -> WriteId {
    WriteId {
        clone: 0,
        pass,
        number,
    }
}

// The bytes of a write of the plan.
fn block(alloc: Global, plan: &Plan, pass: u32, number: u32) -> Result<Vec<u8>, Fail> {
    let writes = planned_writes(alloc, plan)?;
    for planned in writes.as_slice() {
        if planned.write == write(pass, number) {
            return filled(alloc, planned);
        }
    }
    Err(Fail::from("a write of the plan"))
}

fn filled(alloc: Global, planned: &PlannedWrite) -> Result<Vec<u8>, Fail> {
    let ticket = Ticket {
        id: 0,
        worker: 0,
        kind: TicketKind::Write,
        write: planned.write,
        piece: planned.piece,
        seed: planned.seed,
        method: planned.method,
        expected: Expected::Nothing,
    };
    let mut bytes = room_for(alloc, &ticket)?;
    let method = &ticket.method;
    if !ticket.fits() || !method.kind.fits_interval(method.interval, ticket.piece.len) {
        return Err(Fail::from("a ticket that fits"));
    }
    let _ = fill(&ticket, bytes.as_mut_slice());
    Ok(bytes)
}

// Puts bytes into the file.
fn put(memory: &mut MemoryEngine, offset: u64, bytes: &[u8]) -> Result<(), Fail> {
    if memory.calls() == u64::MAX {
        return Err(Fail::from("fewer calls"));
    }
    match memory.write(0, offset, bytes) {
        Ok(count) if count == bytes.len() => Ok(()),
        _ => Err(Fail::from("all bytes stored")),
    }
}

// A memory in which the first block is as it was written last, the second as it was written first, the third half as the second and half as
// the third time, the fourth by nobody, and the last not at all.
fn memory(alloc: Global, plan: &Plan) -> Result<MemoryEngine, Fail> {
    let mut memory = MemoryEngine::new(alloc, plan)?;
    put(&mut memory, 0, block(alloc, plan, 1, 0)?.as_slice())?;
    put(&mut memory, 4096, block(alloc, plan, 0, 1)?.as_slice())?;
    put(&mut memory, 8192, block(alloc, plan, 2, 2)?.as_slice())?;
    let second = block(alloc, plan, 1, 2)?;
    put(&mut memory, 8192, second.get(..2048).unwrap_or(&[]))?;
    put(&mut memory, 12288, &[0x55; 4096])?;
    Ok(memory)
}

// A ledger by which four blocks were written twice and then synced. Of the last block it names no write.
fn ledger(alloc: Global) -> Result<Vec<LedgerLine>, Fail> {
    let mut lines = Vec::new(alloc);
    for pass in 0..2 {
        for number in 0..4 {
            lines.push(LedgerLine::Written(write(pass, number)))?;
        }
    }
    let sync = SyncId { file: 0, number: 0 };
    lines.push(LedgerLine::Begun(sync))?;
    lines.push(LedgerLine::Returned(sync))?;
    Ok(lines)
}

fn assert_told(
    rt: &(impl AllocGlobal + Abort),
    plan: &Plan,
    after: &After,
    wanted: &str,
    status: u8,
) -> Result<(), Fail> {
    let text = after.report(rt.alloc(), plan)?;
    same(rt, text.as_slice() == wanted.as_bytes(), true);
    same(rt, after.status(), status);
    Ok(())
}

#[test]
fn each_finding_is_told(rt: HostRuntime) -> Result<(), Fail> {
    let alloc = rt.alloc();
    let plan = plan_of(alloc, 0)?;
    let mut engine = memory(alloc, &plan)?;
    let lines = ledger(alloc)?;
    let after = judge_after(&rt, alloc, &plan, lines.as_slice(), &mut engine)?;
    let wanted = "file=f kept=1 lost=1 broken=1 torn=1 open=1\n\
        lost: file=f offset=4096 length=4096 kept=0/1/1 found=0/0/1\n\
        torn: file=f offset=8192 length=4096 kept=0/1/2\n\
        broken: file=f offset=12288 length=4096 kept=0/1/3\n";
    assert_told(&rt, &plan, &after, wanted, 1)
}

#[test]
fn a_ledger_without_a_sync_promises_nothing(rt: HostRuntime) -> Result<(), Fail> {
    let alloc = rt.alloc();
    let plan = plan_of(alloc, 0)?;
    let mut engine = memory(alloc, &plan)?;
    let lines = [LedgerLine::Written(write(0, 1))];
    let after = judge_after(&rt, alloc, &plan, &lines, &mut engine)?;
    assert_told(
        &rt,
        &plan,
        &after,
        "file=f kept=0 lost=0 broken=0 torn=0 open=5\n",
        0,
    )
}

#[test]
fn a_chunk_that_cant_be_read_is_a_fault(rt: HostRuntime) -> Result<(), Fail> {
    let alloc = rt.alloc();
    let plan = plan_of(alloc, 0)?;
    let memory = MemoryEngine::new(alloc, &plan)?;
    let script = Vec::from_array(alloc, [(0, Reply::Fail), (2, Reply::Fail)])?;
    let mut engine = ScriptedEngine::new(memory, script);
    let after = judge_after(&rt, alloc, &plan, &[], &mut engine)?;
    let wanted =
        "file=f kept=0 lost=0 broken=0 torn=0 open=4\nfault: file=f offset=4096 length=4096\n";
    assert_told(&rt, &plan, &after, wanted, 1)
}

#[test]
fn chunks_of_a_short_read_are_read_again(rt: HostRuntime) -> Result<(), Fail> {
    let alloc = rt.alloc();
    let plan = plan_of(alloc, 0)?;
    let memory = memory(alloc, &plan)?;
    let script = Vec::from_array(alloc, [(0, Reply::Short(6000)), (3, Reply::Short(4095))])?;
    let mut engine = ScriptedEngine::new(memory, script);
    let lines = ledger(alloc)?;
    let after = judge_after(&rt, alloc, &plan, lines.as_slice(), &mut engine)?;
    let wanted = "file=f kept=1 lost=1 broken=1 torn=0 open=1\n\
        lost: file=f offset=4096 length=4096 kept=0/1/1 found=0/0/1\n\
        broken: file=f offset=12288 length=4096 kept=0/1/3\n\
        fault: file=f offset=8192 length=4096\n";
    assert_told(&rt, &plan, &after, wanted, 1)?;
    same(&rt, engine.calls(), 6);
    Ok(())
}

#[test]
fn chunks_of_a_block_are_judged_each(rt: HostRuntime) -> Result<(), Fail> {
    let alloc = rt.alloc();
    let plan = plan_of(alloc, 512)?;
    let mut engine = MemoryEngine::new(alloc, &plan)?;
    for number in 0..4u32 {
        let second = block(alloc, &plan, 1, number)?;
        put(&mut engine, u64::from(number) * 4096, second.as_slice())?;
    }
    let first = block(alloc, &plan, 0, 1)?;
    put(
        &mut engine,
        4096 + 1024,
        first.get(1024..1536).unwrap_or(&[]),
    )?;
    put(&mut engine, 8192 + 512, &[0x55; 64])?;
    let lines = ledger(alloc)?;
    let after = judge_after(&rt, alloc, &plan, lines.as_slice(), &mut engine)?;
    let wanted = "file=f kept=30 lost=1 broken=1 torn=0 open=8\n\
        lost: file=f offset=5120 length=512 kept=0/1/1 found=0/0/1\n\
        broken: file=f offset=8704 length=512 kept=0/1/2\n";
    assert_told(&rt, &plan, &after, wanted, 1)
}

#[test]
fn it_is_told_as_json_and_as_blocks(rt: HostRuntime) -> Result<(), Fail> {
    let alloc = rt.alloc();
    let plan = plan_of(alloc, 0)?;
    let memory = memory(alloc, &plan)?;
    let script = Vec::from_array(alloc, [(0, Reply::Fail), (1, Reply::Fail)])?;
    let mut engine = ScriptedEngine::new(memory, script);
    let lines = ledger(alloc)?;
    let after = judge_after(&rt, alloc, &plan, lines.as_slice(), &mut engine)?;
    let unread = after.unread(alloc)?;
    let judgement = Judgement {
        version: "1",
        logic: "2",
        cached: 3,
        status: after.status(),
    };
    let text = judgement_text(alloc, &plan, after.found(), unread.as_slice(), &judgement)?;
    let wanted = concat!(
        r#"{"after":[{"file":"f","found":{"clone":0,"number":1,"pass":0},"kept":{"clone":0,"number":1,"pass":1},"length":4096,"offset":4096,"word":"lost"},"#,
        r#"{"file":"f","found":null,"kept":{"clone":0,"number":2,"pass":1},"length":4096,"offset":8192,"word":"torn"},"#,
        r#"{"file":"f","found":null,"kept":{"clone":0,"number":3,"pass":1},"length":4096,"offset":12288,"word":"broken"}],"#,
        r#""cached":3,"files":[{"broken":1,"kept":0,"lost":1,"name":"f","open":1,"torn":1,"unread":1}],"fiorun":"1","logic":"2","status":1,"#,
        r#""unread":[{"file":"f","length":4096,"offset":0}]}"#,
        "\n"
    );
    same(&rt, text.as_slice() == wanted.as_bytes(), true);
    let faults = fault_chunks(alloc, after.found())?;
    let blocks = chunk_blocks(alloc, &plan, faults.as_slice(), 0, 1024)?;
    let wanted = [4, 5, 6, 7, 12, 13, 14, 15];
    same(&rt, blocks.as_slice() == wanted.as_slice(), true);
    Ok(())
}
