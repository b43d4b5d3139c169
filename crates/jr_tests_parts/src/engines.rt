// Engines: replies to calls, the edges of a memory, shares of one, and what is asked of one.
use crate::asserts::same;
use crate::plans::{in_sectors, memory_of};
use jr_engines::{
    Answer, Engine, EngineFault, MemoryEngine, NullEngine, ScriptedEngine, SharedMemory, ask,
};
use jr_model::{
    Expected, IoType, Method, Outcome, Piece, Reply, ReplyBytes, Ticket, TicketKind, VerifyKind,
    WriteId,
};
use std::alloc::Global;
use std::process::Abort;
use std::test::Fail;

const DEVICE: Result<usize, EngineFault> = Err(EngineFault::Device);

const OUTSIDE: Result<usize, EngineFault> = Err(EngineFault::Outside);

// An engine over a memory of a sector, whose call 1 has this reply. Of two entries for a call the first counts.
fn scripted(alloc: Global, reply: Reply) -> Result<ScriptedEngine, Fail> {
    let memory = memory_of(alloc, 1)?;
    let mut script = Vec::with_capacity(alloc, 2)?;
    script.push((1, reply))?;
    script.push((1, Reply::Fail))?;
    Ok(ScriptedEngine::new(memory, script))
}

fn given(alloc: Global, bytes: &[u8]) -> Result<Reply, Fail> {
    Ok(Reply::Bytes(ReplyBytes::new(bytes.to_vec(alloc)?)))
}

// Writes the bytes 1 to 8 from 4 up to 12 by the first call.
fn begin(rt: &impl Abort, engine: &mut impl Engine) {
    same(rt, (engine.calls(), engine.failures()), (0, 0));
    same(rt, engine.write(0, 4, &[1, 2, 3, 4, 5, 6, 7, 8]), Ok(8));
}

// What the memory holds after the second call, by one more, which has no reply of its own.
fn assert_holds(rt: &impl Abort, engine: &mut impl Engine, failures: u64, bytes: [u8; 8]) {
    same(rt, (engine.calls(), engine.failures()), (2, failures));
    let mut after = [0; 8];
    same(rt, engine.read(0, 4, &mut after), Ok(8));
    same(rt, after, bytes);
}

// What a read of four bytes from 6 on answers by this reply, and leaves in a buffer of nines.
fn assert_read(
    rt: &impl Abort,
    alloc: Global,
    reply: Reply,
    answer: Result<usize, EngineFault>,
    bytes: [u8; 4],
) -> Result<(), Fail> {
    let mut engine = scripted(alloc, reply)?;
    begin(rt, &mut engine);
    same(rt, engine.calls(), 1);
    let mut buf = [9; 4];
    same(rt, engine.read(0, 6, &mut buf), answer);
    same(rt, buf, bytes);
    let failures = u64::from(answer.is_err());
    assert_holds(rt, &mut engine, failures, [1, 2, 3, 4, 5, 6, 7, 8]);
    Ok(())
}

#[test]
fn replies_to_a_read(rt: HostRuntime) -> Result<(), Fail> {
    let alloc = rt.alloc();
    assert_read(&rt, alloc, Reply::Pass, Ok(4), [3, 4, 5, 6])?;
    assert_read(&rt, alloc, Reply::Fail, DEVICE, [9, 9, 9, 9])?;
    assert_read(&rt, alloc, Reply::Short(0), Ok(0), [9, 9, 9, 9])?;
    assert_read(&rt, alloc, Reply::Short(3), Ok(3), [3, 4, 5, 9])?;
    assert_read(&rt, alloc, Reply::Short(5), Ok(4), [3, 4, 5, 6])?;
    assert_read(&rt, alloc, Reply::Torn(0), DEVICE, [9, 9, 9, 9])?;
    assert_read(&rt, alloc, Reply::Torn(2), DEVICE, [9, 9, 9, 9])?;
    assert_read(&rt, alloc, Reply::Torn(5), DEVICE, [9, 9, 9, 9])?;
    assert_read(&rt, alloc, Reply::Flip(1), Ok(4), [3, 251, 5, 6])?;
    assert_read(&rt, alloc, Reply::Flip(4), Ok(4), [3, 4, 5, 6])?;
    assert_read(&rt, alloc, Reply::Drop, Ok(4), [3, 4, 5, 6])?;
    assert_read(&rt, alloc, given(alloc, &[7])?, Ok(4), [7, 4, 5, 6])?;
    let long = given(alloc, &[7, 8, 7, 8, 7])?;
    assert_read(&rt, alloc, long, Ok(4), [7, 8, 7, 8])
}

// What a write of four bytes from 6 on answers by this reply, and leaves in the memory.
fn assert_write(
    rt: &impl Abort,
    alloc: Global,
    reply: Reply,
    answer: Result<usize, EngineFault>,
    bytes: [u8; 8],
) -> Result<(), Fail> {
    let mut engine = scripted(alloc, reply)?;
    begin(rt, &mut engine);
    same(rt, engine.calls(), 1);
    same(rt, engine.write(0, 6, &[21, 22, 23, 24]), answer);
    assert_holds(rt, &mut engine, u64::from(answer.is_err()), bytes);
    Ok(())
}

const BEFORE: [u8; 8] = [1, 2, 3, 4, 5, 6, 7, 8];

const WRITTEN: [u8; 8] = [1, 2, 21, 22, 23, 24, 7, 8];

#[test]
fn replies_to_a_write(rt: HostRuntime) -> Result<(), Fail> {
    let alloc = rt.alloc();
    let three = [1, 2, 21, 22, 23, 6, 7, 8];
    let two = [1, 2, 21, 22, 5, 6, 7, 8];
    let flipped = [1, 2, 21, 233, 23, 24, 7, 8];
    assert_write(&rt, alloc, Reply::Pass, Ok(4), WRITTEN)?;
    assert_write(&rt, alloc, Reply::Fail, DEVICE, BEFORE)?;
    assert_write(&rt, alloc, Reply::Short(0), Ok(0), BEFORE)?;
    assert_write(&rt, alloc, Reply::Short(3), Ok(3), three)?;
    assert_write(&rt, alloc, Reply::Short(5), Ok(4), WRITTEN)?;
    assert_write(&rt, alloc, Reply::Torn(0), DEVICE, BEFORE)?;
    assert_write(&rt, alloc, Reply::Torn(2), DEVICE, two)?;
    assert_write(&rt, alloc, Reply::Torn(5), DEVICE, WRITTEN)?;
    assert_write(&rt, alloc, Reply::Flip(1), Ok(4), flipped)?;
    assert_write(&rt, alloc, Reply::Flip(4), Ok(4), WRITTEN)?;
    assert_write(&rt, alloc, Reply::Drop, Ok(4), BEFORE)?;
    assert_write(&rt, alloc, given(alloc, &[7])?, Ok(4), WRITTEN)
}

// Reads of a memory that was begun, the first by the second of two replies that were set for it.
fn assert_set(rt: &impl Abort, engine: &mut ScriptedEngine) {
    begin(rt, engine);
    engine.set_next(Reply::Short(1));
    engine.set_next(Reply::Short(2));
    let mut buf = [9; 3];
    same(rt, engine.calls(), 1);
    same(rt, engine.read(0, 4, &mut buf), Ok(2));
    same(rt, buf, [1, 2, 9]);
    same(rt, engine.read(0, 4, &mut buf), Ok(3));
    same(rt, buf, [1, 2, 3]);
}

#[test]
fn reply_set_for_the_next_call_alone(rt: HostRuntime) -> Result<(), Fail> {
    let mut engine = scripted(rt.alloc(), Reply::Fail)?;
    assert_set(&rt, &mut engine);
    Ok(())
}

// A memory of two files, of which the second has the bytes from 512 up to 1536.
fn assert_edges(rt: &impl Abort, engine: &mut impl Engine) {
    same(rt, (engine.calls(), engine.failures()), (0, 0));
    let mut buf = [9; 3];
    same(rt, engine.read(1, 512, &mut buf), Ok(3));
    same(rt, buf, [0, 0, 0]);
    same(rt, engine.write(1, 1533, &[1, 2, 3]), Ok(3));
    same(rt, engine.write(1, 1534, &[4, 5, 6]), OUTSIDE);
    same(rt, engine.write(1, 511, &[4, 5, 6]), OUTSIDE);
    same(rt, engine.write(2, 512, &[4, 5, 6]), OUTSIDE);
    buf = [9; 3];
    same(rt, engine.read(1, 1534, &mut buf), Ok(2));
    same(rt, buf, [2, 3, 9]);
    same(rt, engine.read(1, 1536, &mut buf), Ok(0));
    same(rt, engine.read(1, u64::MAX, &mut buf), Ok(0));
    same(rt, engine.read(1, 511, &mut buf), OUTSIDE);
    same(rt, engine.read(2, 512, &mut buf), OUTSIDE);
    same(rt, buf, [2, 3, 9]);
    same(rt, (engine.calls(), engine.failures()), (10, 5));
}

#[test]
fn memory_has_edges(rt: HostRuntime) -> Result<(), Fail> {
    let alloc = rt.alloc();
    let plan = in_sectors(alloc, IoType::Write, &[("f", 0, 1), ("g", 512, 2)])?;
    assert_edges(&rt, &mut MemoryEngine::new(alloc, &plan)?);
    let mut shared = SharedMemory::new(rt.clone()?, alloc, &plan)?;
    assert_edges(&rt, &mut shared);
    assert_shared(&rt, &mut shared.share()?);
    Ok(())
}

// What a share of that memory reads was written by the other one, whose calls aren't its own.
fn assert_shared(rt: &impl Abort, second: &mut impl Engine) {
    same(rt, (second.calls(), second.failures()), (0, 0));
    let mut buf = [9; 4];
    same(rt, second.read(1, 1532, &mut buf), Ok(4));
    same(rt, buf, [0, 1, 2, 3]);
    same(rt, second.write(0, 512, &[7]), OUTSIDE);
    same(rt, (second.calls(), second.failures()), (2, 1));
}

#[test]
fn null_moves_nothing(rt: HostRuntime) {
    let mut engine = NullEngine::new();
    let mut buf = [9; 3];
    same(&rt, engine.write(7, 4, &[1, 2]), Ok(2));
    same(&rt, engine.read(7, 4, &mut buf), Ok(3));
    same(&rt, buf, [0, 0, 0]);
    same(&rt, (engine.calls(), engine.failures()), (2, 0));
}

#[test]
fn faults_in_words(rt: HostRuntime) -> Result<(), Fail> {
    let (device, outside) = (EngineFault::Device, EngineFault::Outside);
    let said = format!(in rt.alloc(); "{device}, {outside}")?;
    let wanted = "the device failed, outside the engine's files";
    same(&rt, said.as_str(), wanted);
    Ok(())
}

// A ticket of four bytes from 6 on.
fn ticket_for(kind: TicketKind) -> Ticket {
    Ticket {
        id: 3,
        worker: 0,
        kind,
        write: WriteId {
            clone: 0,
            pass: 0,
            number: 1,
        },
        piece: Piece {
            file: 0,
            offset: 6,
            len: 4,
        },
        seed: 5,
        method: Method {
            kind: VerifyKind::Plain,
            pattern: None,
            interval: 0,
        },
        expected: Expected::Nothing,
    }
}

// Asks an engine, with these bytes in the buffer.
fn asked(
    alloc: Global,
    engine: &mut dyn Engine,
    kind: TicketKind,
    bytes: &[u8],
) -> Result<Answer, Fail> {
    let ticket = ticket_for(kind);
    let buffer = bytes.to_vec(alloc)?;
    if buffer.len() != ticket.piece.len as usize || engine.calls() > 99 {
        return Err(Fail::from("a buffer that fits"));
    }
    Ok(ask(engine, ticket, buffer))
}

// Is this the answer?
fn assert_answer(rt: &impl Abort, answer: Answer, kind: TicketKind, wanted: (Outcome, [u8; 4])) {
    let (outcome, bytes) = wanted;
    same(rt, *answer.ticket(), ticket_for(kind));
    same(rt, answer.outcome(), outcome);
    same(rt, answer.bytes(), bytes.as_slice());
    same(rt, answer.into_buf().as_slice(), bytes.as_slice());
}

// Asks a boxed engine whose call 1 is torn: writes, writes again, and reads what is left.
#[test]
fn asks_a_boxed_engine(rt: HostRuntime) -> Result<(), Fail> {
    let alloc = rt.alloc();
    let (write, read) = (TicketKind::Write, TicketKind::Probe);
    let engine = scripted(alloc, Reply::Torn(2))?;
    let mut engine: Box<dyn Engine + Send> = Box::new(alloc, engine)?;
    let cases = [
        (write, [5, 6, 7, 8], (Outcome::Whole, [5, 6, 7, 8])),
        (write, [1, 2, 3, 4], (Outcome::Failed, [1, 2, 3, 4])),
        (read, [9, 9, 9, 9], (Outcome::Whole, [1, 2, 7, 8])),
    ];
    for (kind, bytes, wanted) in cases {
        let answer = asked(alloc, &mut *engine, kind, &bytes)?;
        assert_answer(&rt, answer, kind, wanted);
    }
    same(&rt, engine.failures(), 1);
    Ok(())
}
