use crate::asserts::{holds, same};
use crate::plans::plan_of;
use jr_desk_tickets::{IoState, TicketTable};
use jr_model::{
    Expected, IoType, Method, Outcome, Pattern, Piece, Ticket, TicketKind, VerifyKind, WriteId,
    is_same_ticket,
};
use jr_plan::{Plan, Workload};
use std::alloc::Global;
use std::process::Abort;
use std::test::Fail;

// A plan over memory: a clone whose blocks are a pattern, and one whose blocks have headers.
fn two_clones(alloc: Global) -> Result<Plan, Fail> {
    let pattern = Workload {
        method: Method {
            kind: VerifyKind::Pattern,
            pattern: Pattern::new(&[1, 2]),
            interval: 0,
        },
        ..Workload::plain(IoType::Write, 4096, 4)
    };
    let digest = Workload {
        method: Method {
            kind: VerifyKind::Md5,
            pattern: None,
            interval: 0,
        },
        ..pattern
    };
    plan_of(alloc, &[(pattern, "f", 0), (digest, "g", 0)])
}

// The header of the digest's clone: of draw 2 of clone 1 in pass 0, 4096 bytes at 8192 by MD5. Its second half is this byte.
fn header(back: u8) -> Expected {
    let mut header = [back; 64];
    header[..32].copy_from_slice(&[
        b'J', b'R', b'V', b'1', 1, 16, 0, 0, 0, 16, 0, 0, 1, 0, 0, 0, 0, 32, 0, 0, 0, 0, 0, 0, 2,
        0, 0, 0, 0, 0, 0, 0,
    ]);
    Expected::Header(header)
}

// The ticket of a clone's draw of this number.
fn ticket_of(
    plan: &Plan,
    id: u32,
    kind: TicketKind,
    clone: u32,
    expected: Expected,
) -> Result<Ticket, Fail> {
    if clone as usize >= plan.clones() {
        return Err(Fail::from("no such clone"));
    }
    Ok(Ticket {
        id,
        worker: 3,
        kind,
        write: WriteId {
            clone,
            pass: 0,
            number: 2,
        },
        piece: Piece {
            file: clone,
            offset: 8192,
            len: 4096,
        },
        seed: 1_000_000_007,
        method: plan.clone_at(clone as usize).method(),
        expected,
    })
}

// Hands the ticket out, and all that were handed out before it are as they were.
fn hand_out(
    rt: &impl Abort,
    plan: &Plan,
    table: &mut TicketTable,
    tickets: &[Ticket],
    id: u32,
) -> Result<(), Fail> {
    same(rt, table.count(), id as usize);
    holds(rt, table.ticket(plan, id).is_none(), "no ticket yet");
    holds(rt, table.seed(id).is_none(), "no seed yet");
    holds(rt, table.piece(id).is_none(), "no piece yet");
    holds(rt, table.worker(id).is_none(), "no worker yet");
    holds(rt, table.kind(id).is_none(), "no kind yet");
    let ticket = tickets.get(id as usize).ok_or("no ticket")?;
    holds(rt, !table.is_own(plan, ticket), "not its own yet");
    table.reserve()?;
    holds(rt, table.headers.len() < 9, "few headers");
    table.hand(ticket);
    assert_handed(rt, plan, table, tickets, id)
}

// All up to this one are there.
fn assert_handed(
    rt: &impl Abort,
    plan: &Plan,
    table: &TicketTable,
    tickets: &[Ticket],
    id: u32,
) -> Result<(), Fail> {
    for (number, ticket) in tickets.iter().enumerate().take(id as usize + 1) {
        let own = table.ticket(plan, number as u32).ok_or("not there")?;
        same(rt, (number, is_same_ticket(&own, ticket)), (number, true));
        same(rt, (number, table.is_own(plan, ticket)), (number, true));
        same(rt, table.seed(number as u32), Some(1_000_000_007));
        same(rt, table.worker(number as u32), Some(ticket.worker));
        same(rt, table.kind(number as u32), Some(ticket.kind));
        same(rt, table.piece(number as u32), Some(ticket.piece));
    }
    Ok(())
}

#[test]
fn tickets_come_back_as_they_were_handed_out(rt: HostRuntime) -> Result<(), Fail> {
    let plan = two_clones(rt.alloc())?;
    let pattern = Pattern::new(&[1, 2]).ok_or("no pattern")?;
    let tickets = [
        ticket_of(&plan, 0, TicketKind::Write, 1, Expected::Nothing)?,
        ticket_of(&plan, 1, TicketKind::Probe, 1, header(7))?,
        ticket_of(&plan, 2, TicketKind::Read, 0, Expected::Nothing)?,
        ticket_of(&plan, 3, TicketKind::Probe, 0, Expected::Pattern(pattern))?,
        ticket_of(&plan, 4, TicketKind::Probe, 1, header(9))?,
    ];
    let mut table = TicketTable::new(rt.alloc());
    for id in 0..5u32 {
        hand_out(&rt, &plan, &mut table, &tickets, id)?;
    }
    same(&rt, table.headers.len(), 2);
    assert_strangers(&rt, &plan, &table, &tickets[1]);
    Ok(())
}

// A ticket that differs from this one in one part is a stranger's.
fn assert_strangers(rt: &impl Abort, plan: &Plan, table: &TicketTable, own: &Ticket) {
    let expected = header(8);
    let other_worker = Ticket { worker: 9, ..*own };
    let other_seed = Ticket { seed: 9, ..*own };
    let other_header = Ticket { expected, ..*own };
    let other_number = Ticket { id: 4, ..*own };
    for stranger in [other_worker, other_seed, other_header, other_number] {
        holds(rt, !table.is_own(plan, &stranger), "a stranger's");
    }
}

fn end(rt: &impl Abort, table: &mut TicketTable, id: u32, outcome: Outcome, raced: bool) {
    same(rt, (id as usize) < table.states.len(), true);
    table.end(id, outcome, raced);
}

// How far the I/O of this number has come, as each call says.
fn is_at(table: &TicketTable, id: u32, ended: bool, whole: bool, judged: bool) -> bool {
    table.has_ended(id) == ended
        && table.has_ended_whole(id) == whole
        && table.is_judged(id) == judged
}

// Hands out a check.
fn hand_check(rt: &impl Abort, plan: &Plan, table: &mut TicketTable, id: u32) -> Result<(), Fail> {
    let ticket = ticket_of(plan, id, TicketKind::Probe, 1, header(7))?;
    table.reserve()?;
    same(rt, table.headers.len() < 9, true);
    table.hand(&ticket);
    Ok(())
}

#[test]
fn each_goes_its_own_way(rt: HostRuntime) -> Result<(), Fail> {
    let plan = two_clones(rt.alloc())?;
    let mut table = TicketTable::new(rt.alloc());
    for id in 0..4u32 {
        same(&rt, is_at(&table, id, false, false, false), true);
        hand_check(&rt, &plan, &mut table, id)?;
        same(&rt, is_at(&table, id, false, false, false), true);
    }
    same(&rt, table.states.len(), 4);
    end(&rt, &mut table, 2, Outcome::Short(512), false);
    end(&rt, &mut table, 1, Outcome::Whole, false);
    end(&rt, &mut table, 3, Outcome::Whole, true);
    same(&rt, is_at(&table, 0, false, false, false), true);
    same(&rt, is_at(&table, 1, true, true, false), true);
    same(&rt, is_at(&table, 2, true, false, false), true);
    same(&rt, is_at(&table, 3, true, true, false), true);
    same(&rt, table.has_raced(3) && !table.has_raced(1), true);
    same(&rt, table.states.len(), 4);
    table.judge(1);
    same(&rt, is_at(&table, 1, true, true, true), true);
    end(&rt, &mut table, 0, Outcome::Failed, true);
    let states = [
        IoState::Faulty,
        IoState::Judged,
        IoState::Faulty,
        IoState::Raced,
    ];
    same(&rt, table.states.as_slice(), states.as_slice());
    same(&rt, is_at(&table, 4, false, false, false), true);
    Ok(())
}
