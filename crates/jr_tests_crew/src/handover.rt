// What threads put into the hand-over, and what others take. (That a thread that holds every part learns it is a clause of `account`.)
ghost use Rattle.std.specs.Prelude.{◌<◌};
ghost use Rattle.jr_crew_channel.specs.Passes.{IsPassOf};

use crate::asserts::same;
use crate::plans::plan_of;
use jr_crew_channel::{Handoff, Parcel, Pass};
use jr_engines::{Engine, MemoryEngine};
use jr_header::{Served, serve};
use jr_model::{
    EngineKind, Expected, IoType, Method, Outcome, Piece, SECTOR, Ticket, TicketKind, VerifyKind,
    WriteId,
};
use jr_plan::Workload;
use std::alloc::{AllocError, Global};
use std::process::Abort;
use std::sync::Wait;
use std::test::Fail;
use std::thread;
use std::thread::{Promise, Threads};

// Of each thread, of which two put and two take.
const PARCELS: u32 = 50;

// What is seen of a parcel. A stop has a number behind all tickets.
#[derive(Clone, Copy, Debug, PartialEq, Eq)]
struct Seen {
    number: u32,
    ticket: Option<Ticket>,
    outcome: Option<Outcome>,
    expected: Option<Expected>,
    bytes: [u8; SECTOR as usize],
}

fn look_at(parcel: &Parcel) -> Seen {
    let mut bytes = [0; SECTOR as usize];
    match parcel {
        Parcel::Check(served) => {
            for (to, from) in bytes.iter_mut().zip(served.bytes()) {
                *to = *from;
            }
            Seen {
                number: served.ticket().id,
                ticket: Some(*served.ticket()),
                outcome: Some(served.outcome()),
                expected: Some(*served.expected()),
                bytes,
            }
        }
        Parcel::Stop => Seen {
            number: u32::MAX,
            ticket: None,
            outcome: None,
            expected: None,
            bytes,
        },
    }
}

// What is seen of all parcels, by their numbers.
fn both_seen(alloc: Global, first: &[Parcel], second: &[Parcel]) -> Result<Vec<Seen>, AllocError> {
    let mut all = Vec::new(alloc);
    for parcel in first {
        all.push(look_at(parcel))?;
    }
    for parcel in second {
        all.push(look_at(parcel))?;
    }
    all.sort_by_key(|seen| seen.number)?;
    Ok(all)
}

// The write of a block of its own.
fn write_of(number: u32) -> Ticket {
    Ticket {
        id: number,
        worker: 0,
        kind: TicketKind::Write,
        write: WriteId {
            clone: 0,
            pass: 0,
            number,
        },
        piece: Piece {
            file: 0,
            offset: u64::from(number) * u64::from(SECTOR),
            len: SECTOR,
        },
        seed: u64::from(number),
        method: Method {
            kind: VerifyKind::Md5,
            pattern: None,
            interval: 0,
        },
        expected: Expected::Nothing,
    }
}

fn served_by(
    rt: &impl Abort,
    alloc: Global,
    engine: &mut MemoryEngine,
    ticket: Ticket,
) -> Result<Served, AllocError> {
    let buffer = vec![in alloc; 0; ticket.piece.len as usize]?;
    assert!(rt; ticket.fits() && engine.calls() < 1000);
    same(rt, buffer.len(), ticket.piece.len as usize);
    Ok(serve(engine, ticket, buffer))
}

// The check of a block that was written.
fn check_of(
    rt: &impl Abort,
    alloc: Global,
    engine: &mut MemoryEngine,
    number: u32,
) -> Result<Served, AllocError> {
    let written = served_by(rt, alloc, engine, write_of(number))?;
    let expected = *written.expected();
    let mut check = write_of(number);
    check.kind = TicketKind::Probe;
    check.expected = expected;
    served_by(rt, alloc, engine, check)
}

// The parcels of one thread.
fn parcels_from(
    rt: &impl Abort,
    alloc: Global,
    engine: &mut MemoryEngine,
    first: u32,
) -> Result<Vec<Parcel>, AllocError> {
    let mut parcels = Vec::with_capacity(alloc, PARCELS as usize)?;
    for number in first..first.saturating_add(PARCELS) {
        parcels.push(Parcel::Check(check_of(rt, alloc, engine, number)?))?;
    }
    Ok(parcels)
}

fn put_all<R: Wait>(rt: &R, handoff: &Handoff, pass: Pass, parcels: Vec<Parcel>) -> Pass
    requires { IsPassOf handoff.now pass }
    ensures { IsPassOf handoff.now result }
{
    let mut pass = pass;
    for parcel in parcels {
        handoff.put(rt, &mut pass, parcel);
    }
    pass
}

// What a taker brings back.
#[derive(Drop)]
struct Taking {
    pass: Pass,
    parcels: Vec<Parcel>,
}

fn take_all<R: Wait + Abort>(rt: &R, handoff: &Handoff, pass: Pass, room: Vec<Parcel>) -> Taking
    requires { IsPassOf handoff.now pass }
    ensures { IsPassOf handoff.now result.pass }
{
    let mut pass = pass;
    let mut parcels = room;
    for _ in 0..PARCELS {
        let parcel = handoff.take(rt, &mut pass);
        parcels.push(parcel).expect(rt, "room");
    }
    Taking { pass, parcels }
}

// A taker's pass is one of this hand-over.
#[derive(Clone, Copy)]
struct TakenFrom<'a>(&'a Handoff);

impl<'a> Promise<Taking> for TakenFrom<'a> {
    ghost use Rattle.jr_crew_channel.specs.Passes.{IsPassOf};

    ghost kept_by = { λ p r. IsPassOf p.0.now r.pass };
}

// Two threads put these parcels, and two others take as many each. The takers are there first, since
// putters that no thread can be made for put one after the other.
fn exchange<R: Threads + Wait + Abort + Sync>(
    rt: &R,
    alloc: Global,
    capacity: usize,
    first: Vec<Parcel>,
    second: Vec<Parcel>,
) -> Result<(Vec<Parcel>, Vec<Parcel>), Fail>
    requires { 0 < capacity }
{
    let here = Vec::with_capacity(alloc, PARCELS as usize)?;
    let there = Vec::with_capacity(alloc, PARCELS as usize)?;
    let (handoff, mut pass) = Handoff::new(rt, alloc, capacity)?;
    let one = handoff.split(&mut pass)?;
    let mut other = handoff.split(&mut pass)?;
    let third = handoff.split(&mut other)?;
    let lent = &handoff;
    let (one, other, pass) = thread::scope(
        thread::scope_env(),
        rt,
        move |scope| -> (Taking, Taking, Pass)
            requires { IsPassOf lent.now one × IsPassOf lent.now other × IsPassOf lent.now third × IsPassOf lent.now pass }
            ensures { IsPassOf lent.entry.now result.0.pass × IsPassOf lent.entry.now result.1.pass × IsPassOf lent.entry.now result.2 }
        {
            let one = scope
                .spawn_with(
                    TakenFrom(lent),
                    move || -> Taking
                        requires { IsPassOf lent.now one }
                        ensures { IsPassOf lent.entry.now result.pass }
                    { take_all(rt, lent, one, here) },
                )
                .expect(rt, "a thread");
            let other = scope
                .spawn_with(
                    TakenFrom(lent),
                    move || -> Taking
                        requires { IsPassOf lent.now other }
                        ensures { IsPassOf lent.entry.now result.pass }
                    { take_all(rt, lent, other, there) },
                )
                .expect(rt, "a thread");
            let (mut pass, third) = thread::join(
                rt,
                move || -> Pass
                    requires { IsPassOf lent.now pass }
                    ensures { IsPassOf lent.entry.now result }
                { put_all(rt, lent, pass, first) },
                move || -> Pass
                    requires { IsPassOf lent.now third }
                    ensures { IsPassOf lent.entry.now result }
                { put_all(rt, lent, third, second) },
            );
            lent.join(&mut pass, third);
            (one.join(rt), other.join(rt), pass)
        },
    );
    let mut pass = pass;
    handoff.join(&mut pass, one.pass);
    handoff.join(&mut pass, other.pass);
    Ok((one.parcels, other.parcels))
}

// What both put, from a memory of 100 blocks.
fn all_parcels(rt: &impl Abort, alloc: Global) -> Result<(Vec<Parcel>, Vec<Parcel>), Fail> {
    let writes = Workload::plain(IoType::Write, SECTOR, 2 * PARCELS);
    let plan = plan_of(alloc, &writes, 1, EngineKind::Memory, 0)?;
    let mut engine = MemoryEngine::new(alloc, &plan)?;
    let first = parcels_from(rt, alloc, &mut engine, 0)?;
    let second = parcels_from(rt, alloc, &mut engine, PARCELS)?;
    Ok((first, second))
}

#[test]
fn what_two_put_two_others_take(rt: HostRuntime) -> Result<(), Fail> {
    let (first, second) = all_parcels(&rt, rt.alloc())?;
    let put = both_seen(rt.alloc(), &first, &second)?;
    let (here, there) = exchange(&rt, rt.alloc(), 3, first, second)?;
    let taken = both_seen(rt.alloc(), &here, &there)?;
    same(&rt, taken.len(), 100);
    assert!(rt; taken.as_slice() == put.as_slice());
    Ok(())
}

#[test]
fn who_holds_every_part_can_settle(rt: HostRuntime) -> Result<(), Fail> {
    let (handoff, mut pass) = Handoff::new(&rt, rt.alloc(), 1)?;
    let mut other = handoff.split(&mut pass)?;
    handoff.put(&rt, &mut pass, Parcel::Stop);
    let parcel = handoff.take(&rt, &mut other);
    assert!(rt; matches!(&parcel, Parcel::Stop));
    handoff.join(&mut pass, other);
    handoff.facts(&mut pass);
    Ok(())
}
