// Two desks side by side, each with a memory of its own. Where a request for memory is refused, the call says so and changes
// nothing, and made again it answers as the other desk does. `checks/build/wants.py` runs this with each request refused in turn.
use crate::asserts::same;
use crate::random::{draw, draw_plan, draw_reply};
use jr_desk::{Desk, Take};
use jr_engines::{Engine, MemoryEngine, ScriptedEngine};
use jr_header::{Served, room_for, rule, serve};
use jr_model::{DeskFault, Reply, Ticket};
use std::alloc::Global;
use std::process::Abort;
use std::test::Fail;

// What is asked of a desk.
#[derive(Clone, Copy)]
enum Call<'a> {
    Take(u32),
    End(&'a Served),
    Judge(u32, &'a Served),
}

// What it answers: what was taken, if that was asked.
fn answer_of(desk: &mut Desk, call: &Call<'_>) -> Result<Option<Take>, DeskFault> {
    match call {
        Call::Take(worker) => {
            let take = desk.take(*worker)?;
            return Ok(Some(take));
        }
        Call::End(served) => desk.end(served)?,
        Call::Judge(by, served) if served.to_judge() => desk.judge(*by, &rule(served))?,
        Call::Judge(..) => return Err(DeskFault::WrongKind),
    }
    Ok(None)
}

fn name_of(call: &Call<'_>) -> &'static str {
    match call {
        Call::Take(_) => "take",
        Call::End(_) => "end",
        Call::Judge(..) => "judge",
    }
}

// Do two desks say the same?
fn assert_alike(rt: &impl Abort, desk: &Desk, other: &Desk) {
    assert!(rt; desk.history() == other.history());
    assert!(rt; desk.totals() == other.totals());
    assert!(rt; desk.bads() == other.bads());
    same(rt, desk.is_stopped(), other.is_stopped());
    same(rt, desk.is_complete(), other.is_complete());
    for id in 0..1000 {
        let ticket = desk.ticket_at(id);
        same(rt, ticket, other.ticket_at(id));
        same(rt, desk.has_ended(id), other.has_ended(id));
        if ticket.is_none() {
            break;
        }
    }
}

// A desk for the plan of this seed. Where it is refused it is asked for once more.
fn new_desk(rt: &(impl Abort + Eprint), alloc: Global, seed: u64) -> Result<Desk, Fail> {
    let mut first = seed;
    match Desk::new(alloc, draw_plan(alloc, &mut first)?) {
        Ok(desk) => Ok(desk),
        Err(fault) => {
            let _ = eprintln!(rt; "refused: new");
            same(rt, fault, DeskFault::Memory);
            let mut again = seed;
            Ok(Desk::new(alloc, draw_plan(alloc, &mut again)?)?)
        }
    }
}

// What a desk answers that is as the other one is. Where it is refused it is asked once more.
fn asked(
    rt: &(impl Abort + Eprint),
    desk: &mut Desk,
    other: &Desk,
    call: &Call<'_>,
) -> Option<Take> {
    match answer_of(desk, call) {
        Ok(answer) => answer,
        Err(fault) => {
            let _ = eprintln!(rt; "refused: {}", name_of(call));
            same(rt, fault, DeskFault::Memory);
            assert_alike(rt, desk, other);
            asked_again(rt, desk, call)
        }
    }
}

// What a desk answers that is refused no more.
fn asked_again(rt: &impl Abort, desk: &mut Desk, call: &Call<'_>) -> Option<Take> {
    match answer_of(desk, call) {
        Ok(answer) => answer,
        Err(fault) => panic!(rt; "refused once more: {fault:?}"),
    }
}

// What a desk answers that may be refused once.
fn asked_twice(rt: &impl Abort, desk: &mut Desk, call: &Call<'_>) -> Option<Take> {
    match answer_of(desk, call) {
        Ok(answer) => answer,
        Err(_) => asked_again(rt, desk, call),
    }
}

// A desk and its engine, what is in flight, and the checks and checked reads that ended whole and have no verdict.
#[derive(Drop)]
struct Side {
    desk: Desk,
    engine: ScriptedEngine,
    open: Vec<Ticket>,
    ended: Vec<Served>,
}

impl Side {
    fn new(rt: &(impl Abort + Eprint), alloc: Global, seed: u64) -> Result<Side, Fail> {
        let desk = new_desk(rt, alloc, seed)?;
        let memory = MemoryEngine::new(alloc, desk.plan())?;
        Ok(Side {
            desk,
            engine: ScriptedEngine::new(memory, Vec::new(alloc)),
            open: Vec::new(alloc),
            ended: Vec::new(alloc),
        })
    }

    // Keeps what was handed out.
    fn keep(&mut self, answer: Option<Take>) -> Result<(), Fail> {
        match answer {
            Some(Take::Io(ticket)) => self.open.extend_from_slice(&[ticket])?,
            Some(Take::Probe(ticket)) => self.open.extend_from_slice(&[ticket])?,
            _ => {}
        }
        Ok(())
    }

    // Carries out one of those in flight.
    fn carried_out(&mut self, alloc: Global, place: usize, reply: Reply) -> Result<Served, Fail> {
        if place >= self.open.len() || self.engine.calls() > 99_999 {
            return Err(Fail::from("a ticket of this place"));
        }
        let ticket = self.open.swap_remove(place);
        let buffer = room_for(alloc, &ticket)?;
        self.engine.set_next(reply);
        if !ticket.fits() {
            return Err(Fail::from("a ticket that fits"));
        }
        Ok(serve(&mut self.engine, ticket, buffer))
    }
}

// Two sides that do the same.
#[derive(Drop)]
struct Pair {
    alloc: Global,
    one: Side,
    other: Side,
    seed: u64,
    is_over: bool,
}

impl Pair {
    fn new(rt: &(impl Abort + Eprint), alloc: Global, seed: u64) -> Result<Pair, Fail> {
        Ok(Pair {
            alloc,
            one: Side::new(rt, alloc, seed)?,
            other: Side::new(rt, alloc, seed)?,
            seed,
            is_over: false,
        })
    }

    fn step(&mut self, rt: &(impl Abort + Eprint)) -> Result<(), Fail> {
        match draw(&mut self.seed, 20) {
            0..=8 => self.take(rt)?,
            9..=15 => self.end(rt)?,
            _ => self.judge(rt)?,
        }
        assert_alike(rt, &self.one.desk, &self.other.desk);
        Ok(())
    }

    fn take(&mut self, rt: &(impl Abort + Eprint)) -> Result<(), Fail> {
        let call = Call::Take(draw(&mut self.seed, 4));
        let one = asked(rt, &mut self.one.desk, &self.other.desk, &call);
        let other = asked_twice(rt, &mut self.other.desk, &call);
        assert!(rt; one == other);
        self.is_over = one == Some(Take::Finished);
        self.one.keep(one)?;
        self.other.keep(other)
    }

    fn end(&mut self, rt: &(impl Abort + Eprint)) -> Result<(), Fail> {
        let place = draw(&mut self.seed, 8) as usize;
        if place >= self.one.open.len() {
            return Ok(());
        }
        let mut seed = self.seed;
        let reply = draw_reply(&mut seed);
        let again = draw_reply(&mut self.seed);
        let one = self.one.carried_out(self.alloc, place, reply)?;
        let other = self.other.carried_out(self.alloc, place, again)?;
        same(rt, one.outcome(), other.outcome());
        asked(rt, &mut self.one.desk, &self.other.desk, &Call::End(&one));
        asked_twice(rt, &mut self.other.desk, &Call::End(&other));
        if one.to_judge() {
            self.one.ended.push(one)?;
            self.other.ended.push(other)?;
        }
        Ok(())
    }

    fn judge(&mut self, rt: &(impl Abort + Eprint)) -> Result<(), Fail> {
        let by = draw(&mut self.seed, 4);
        let (Some(one), Some(other)) = (self.one.ended.pop(), self.other.ended.pop()) else {
            return Ok(());
        };
        asked(
            rt,
            &mut self.one.desk,
            &self.other.desk,
            &Call::Judge(by, &one),
        );
        asked_twice(rt, &mut self.other.desk, &Call::Judge(by, &other));
        Ok(())
    }
}

#[test]
fn a_refused_call_changes_nothing(rt: HostRuntime) -> Result<(), Fail> {
    for seed in 1..=6 {
        let mut pair = Pair::new(&rt, rt.alloc(), seed)?;
        for _ in 0..300 {
            if !pair.is_over {
                pair.step(&rt)?;
            }
        }
        assert!(rt; pair.one.desk.history().len() > 8);
    }
    Ok(())
}
