use crate::asserts::{holds, same};
use crate::plans::{checked, plan_of};
use jr_desk::{Bad, Desk, Take};
use jr_engines::{Engine, NullEngine};
use jr_header::{Ruling, Served, rule, serve};
use jr_model::{DeskFault, Piece, Ticket, Totals, What, WriteId, is_same_ticket};
use jr_plan::Plan;
use std::alloc::Global;
use std::process::Abort;
use std::test::Fail;

// A plan over memory for two writes of 4096 bytes, and their checks by a pattern that an engine of zeros never reads.
fn two_writes(alloc: Global) -> Result<Plan, Fail> {
    plan_of(alloc, &[(checked(2), "f", 0)])
}

// The ticket that the desk hands out next, which stands under this number from then on.
fn next_ticket(desk: &mut Desk, number: u32) -> Result<Ticket, Fail> {
    let ticket = match desk.take(5) {
        Ok(Take::Io(ticket) | Take::Probe(ticket)) => ticket,
        Ok(_) => return Err(Fail::from("nothing to start")),
        Err(_) => return Err(Fail::from("refused")),
    };
    let Some(own) = desk.ticket_at(number) else {
        return Err(Fail::from("a ticket of this number"));
    };
    if !is_same_ticket(&ticket, &own) {
        return Err(Fail::from("the same ticket"));
    }
    Ok(ticket)
}

// Carries the ticket out over an engine of zeros.
fn carried_out(alloc: Global, engine: &mut NullEngine, ticket: Ticket) -> Result<Served, Fail> {
    if !ticket.fits() || engine.calls() > 99 {
        return Err(Fail::from("a ticket that fits"));
    }
    let len = ticket.piece.len;
    let buffer = vec![in alloc; 0; len as usize]?;
    Ok(serve(engine, ticket, buffer))
}

// The bad verdict on a write whose first byte is wrong.
fn bad(number: u32, offset: u64) -> Bad {
    Bad {
        write: WriteId {
            clone: 0,
            pass: 0,
            number,
        },
        piece: Piece {
            file: 0,
            offset,
            len: 4096,
        },
        what: What::Byte(0),
    }
}

// The desk hands out what is next, and takes in how it ended, and its verdict where it is a check. What it may not take in is refused.
fn carry_out_next(
    rt: &impl Abort,
    alloc: Global,
    engine: &mut NullEngine,
    desk: &mut Desk,
    number: u32,
) -> Result<(), Fail> {
    holds(rt, desk.ticket_at(number).is_none(), "no such ticket yet");
    let ticket = next_ticket(desk, number)?;
    holds(rt, !desk.has_ended(number), "it flies");
    for other in [another(&ticket), unknown(&ticket)] {
        assert_stranger(rt, desk, &carried_out(alloc, engine, other)?);
    }
    assert_taken_in(rt, desk, &carried_out(alloc, engine, ticket)?, number);
    Ok(())
}

// A ticket of this number that the desk didn't hand out.
fn another(ticket: &Ticket) -> Ticket {
    let mut other = *ticket;
    other.seed = other.seed.wrapping_add(1);
    other
}

// This ticket under a number that the desk never started.
fn unknown(ticket: &Ticket) -> Ticket {
    let mut other = *ticket;
    other.id = other.id.saturating_add(100);
    other
}

fn assert_stranger(rt: &impl Abort, desk: &mut Desk, served: &Served) {
    same(rt, desk.end(served), Err(DeskFault::Stranger));
    if served.to_judge() {
        let verdict = desk.judge(7, &rule(served));
        same(rt, verdict, Err(DeskFault::Stranger));
    }
}

// It ends once, and has one verdict where it is a check, but not before it ended.
fn assert_taken_in(rt: &impl Abort, desk: &mut Desk, served: &Served, number: u32) {
    let is_check = served.to_judge();
    if is_check {
        let early = desk.judge(7, &rule(served));
        same(rt, early, Err(DeskFault::WrongKind));
    }
    same(rt, desk.end(served), Ok(()));
    same(rt, desk.end(served), Err(DeskFault::Twice));
    holds(rt, desk.has_ended(number), "it ended");
    holds(rt, !desk.is_complete(), "more to come");
    if is_check {
        assert_judged(rt, desk, &rule(served));
    }
}

fn assert_judged(rt: &impl Abort, desk: &mut Desk, ruling: &Ruling<'_>) {
    same(rt, desk.said_of(ruling), ruling.verdict());
    same(rt, desk.judge(7, ruling), Ok(()));
    same(rt, desk.judge(7, ruling), Err(DeskFault::Twice));
}

// Both checks found something, in the order of their verdicts, and nothing that was refused is in the history.
fn assert_two_bad(rt: &impl Abort, desk: &Desk) {
    same(rt, desk.bads(), [bad(0, 0), bad(1, 4096)].as_slice());
    let totals = Totals {
        reads: 0,
        rbytes: 0,
        writes: 2,
        wbytes: 8192,
        checks: 2,
        good: 0,
        bad: 2,
        skipped: 0,
        void: 0,
        faults: 0,
    };
    same(rt, desk.totals(), [totals].as_slice());
    same(rt, desk.history().len(), 10);
}

// The run is over, and is stopped after that.
fn assert_ends(rt: &impl Abort, desk: &mut Desk) {
    holds(rt, desk.is_complete(), "the run is over");
    same(rt, desk.take(5), Ok(Take::Finished));
    holds(rt, !desk.is_stopped(), "it isn't stopped");
    desk.stop();
    holds(rt, desk.is_stopped(), "it is stopped");
    same(rt, desk.take(5), Ok(Take::Finished));
}

#[test]
fn bad_checks_are_told_in_their_order(rt: HostRuntime) -> Result<(), Fail> {
    let alloc = rt.alloc();
    let mut engine = NullEngine::new();
    let mut desk = Desk::new(alloc, two_writes(alloc)?)?;
    for number in 0..4u32 {
        carry_out_next(&rt, alloc, &mut engine, &mut desk, number)?;
    }
    assert_two_bad(&rt, &desk);
    assert_ends(&rt, &mut desk);
    Ok(())
}

// A stopped desk takes in nothing.
fn assert_stopped(rt: &impl Abort, desk: &mut Desk, served: &Served) {
    desk.stop();
    same(rt, desk.end(served), Err(DeskFault::Stopped));
    same(rt, desk.take(5), Ok(Take::Finished));
    same(rt, desk.history().len(), 1);
}

#[test]
fn what_ends_behind_a_stop_is_refused(rt: HostRuntime) -> Result<(), Fail> {
    let alloc = rt.alloc();
    let mut engine = NullEngine::new();
    let mut desk = Desk::new(alloc, two_writes(alloc)?)?;
    let ticket = next_ticket(&mut desk, 0)?;
    let served = carried_out(alloc, &mut engine, ticket)?;
    assert_stopped(&rt, &mut desk, &served);
    Ok(())
}
