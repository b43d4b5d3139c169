// The desk beside the plain program of the definitions, by steps that a generator draws. One of three clones declines to wait. Both answer
// each step alike, a refused one too, and come to the same history and totals.
use crate::asserts::same;
use crate::random::{draw, draw_reply, draw_three};
use jr_desk::{Desk, Take};
use jr_engines::{Engine, MemoryEngine, ScriptedEngine};
use jr_header::{Served, room_for, rule, serve};
use jr_model::{DeskFault, Event, Outcome, Reply, StepReply, Ticket, Verdict};
use jr_plan::Plan;
use jr_replay::{choice, complete};
use jr_replay_history::Past;
use jr_replay_traces::check_stopped_trace;
use jr_stats::trace;
use std::alloc::Global;
use std::process::Abort;
use std::test::Fail;

// What happened, and whether it was stopped.
#[derive(Drop)]
struct Plain {
    alloc: Global,
    events: Vec<Event>,
    is_stopped: bool,
}

impl Plain {
    fn past(&self) -> Result<Past, Fail> {
        Ok(Past::new(self.alloc, self.events.as_slice())?)
    }

    // The number of the next I/O.
    fn next_io(&self) -> Result<u32, Fail> {
        let count = self.past()?.started().len();
        if count > 9999 {
            return Err(Fail::from("few I/Os"));
        }
        Ok(count as u32)
    }

    // Starts what is next, behind the skips before it.
    fn take(&mut self, plan: &Plan, worker: u32) -> Result<StepReply, Fail> {
        if self.is_stopped {
            return Ok(StepReply::Finished);
        }
        let io = self.next_io()?;
        for _ in 0..999 {
            let Some(event) = choice(self.alloc, plan, self.events.as_slice(), worker)? else {
                break;
            };
            self.events.push(event)?;
            match event {
                Event::Issue { .. } => return Ok(StepReply::Io(io)),
                Event::Probe { .. } => return Ok(StepReply::Probe(io)),
                _ => {}
            }
        }
        self.idle(plan)
    }

    // The answer where nothing may be started.
    fn idle(&self, plan: &Plan) -> Result<StepReply, Fail> {
        if complete(self.alloc, plan, self.events.as_slice())? {
            Ok(StepReply::Finished)
        } else {
            Ok(StepReply::Wait)
        }
    }

    fn end(&mut self, io: u32, outcome: Outcome) -> Result<StepReply, Fail> {
        if self.is_stopped {
            return Ok(StepReply::Refused(DeskFault::Stopped));
        }
        let past = self.past()?;
        let Some(started) = past.started_at(io as usize) else {
            return Ok(StepReply::Refused(DeskFault::Stranger));
        };
        if !past.flies(io as usize) {
            return Ok(StepReply::Refused(DeskFault::Twice));
        }
        self.events.push(Event::End {
            worker: started.worker,
            io,
            outcome,
        })?;
        Ok(StepReply::Ended)
    }

    // Judges a check; its bytes are good or bad.
    fn judge(&mut self, by: u32, io: u32, verdict: Verdict) -> Result<StepReply, Fail> {
        let past = self.past()?;
        if let Some(fault) = self.refusal(&past, io as usize) {
            return Ok(StepReply::Refused(fault));
        }
        let verdict = if past.has_raced(io as usize) {
            Verdict::Void
        } else {
            verdict
        };
        self.events.push(Event::Verdict {
            worker: by,
            io,
            verdict,
        })?;
        Ok(StepReply::Judged)
    }

    // Why there is no verdict on a check.
    fn refusal(&self, past: &Past, io: usize) -> Option<DeskFault> {
        if self.is_stopped {
            Some(DeskFault::Stopped)
        } else if past.started_at(io).is_none() {
            Some(DeskFault::Stranger)
        } else if past.ledger().is_judged(io) {
            Some(DeskFault::Twice)
        } else if past.ledger().outcome_of(io) != Some(Outcome::Whole) {
            Some(DeskFault::WrongKind)
        } else {
            None
        }
    }
}

// The desk's answers, in the same words.

fn reply_for(answer: Result<Take, DeskFault>) -> StepReply {
    match answer {
        Ok(Take::Io(ticket)) => StepReply::Io(ticket.id),
        Ok(Take::Probe(ticket)) => StepReply::Probe(ticket.id),
        Ok(Take::Wait) => StepReply::Wait,
        Ok(Take::Finished) => StepReply::Finished,
        Err(fault) => StepReply::Refused(fault),
    }
}

fn reply_or_refused(answer: Result<(), DeskFault>, reply: StepReply) -> StepReply {
    match answer {
        Ok(()) => reply,
        Err(fault) => StepReply::Refused(fault),
    }
}

// A desk with its engine, what its checks and checked reads gave, and the plain program beside it.
#[derive(Drop)]
struct Pair {
    alloc: Global,
    desk: Desk,
    engine: ScriptedEngine,
    reads: Vec<Served>,
    plain: Plain,
    seed: u64,
}

impl Pair {
    fn new(alloc: Global, seed: u64) -> Result<Pair, Fail> {
        let mut seed = seed;
        let desk = Desk::new(alloc, draw_three(alloc, &mut seed)?)?;
        let memory = MemoryEngine::new(alloc, desk.plan())?;
        Ok(Pair {
            alloc,
            desk,
            engine: ScriptedEngine::new(memory, Vec::new(alloc)),
            reads: Vec::new(alloc),
            plain: Plain {
                alloc,
                events: Vec::new(alloc),
                is_stopped: false,
            },
            seed,
        })
    }

    fn step(&mut self, rt: &impl Abort) -> Result<(), Fail> {
        match draw(&mut self.seed, 1600) {
            0 => self.stop(),
            1..=639 => self.take(rt)?,
            640..=1199 => self.end(rt)?,
            _ => self.judge(rt)?,
        }
        assert!(rt; self.desk.history() == self.plain.events.as_slice());
        Ok(())
    }

    fn stop(&mut self) {
        self.desk.stop();
        self.plain.is_stopped = true;
    }

    fn take(&mut self, rt: &impl Abort) -> Result<(), Fail> {
        let worker = draw(&mut self.seed, 4);
        let wanted = self.plain.take(self.desk.plan(), worker)?;
        same(rt, reply_for(self.desk.take(worker)), wanted);
        Ok(())
    }

    // Ends what is in flight; now and then it isn't, or it has ended, or a check is judged before its end.
    fn end(&mut self, rt: &impl Abort) -> Result<(), Fail> {
        let Some(ticket) = self.draw_ticket()? else {
            return Ok(());
        };
        let id = ticket.id;
        let served = self.carried_out(ticket)?;
        if draw(&mut self.seed, 9) != 0 {
            let wanted = self.plain.end(id, served.outcome())?;
            let found = reply_or_refused(self.desk.end(&served), StepReply::Ended);
            same(rt, found, wanted);
        }
        if served.to_judge() {
            self.reads.push(served)?;
        }
        Ok(())
    }

    // Mostly one that is in flight, and now and then one that no desk hands out.
    fn draw_ticket(&mut self) -> Result<Option<Ticket>, Fail> {
        let past = self.plain.past()?;
        let count = 1 + (past.started().len() % 9999) as u32;
        let mut io = draw(&mut self.seed, count);
        for _ in 0..24 {
            if past.flies(io as usize) {
                break;
            }
            io = draw(&mut self.seed, count);
        }
        let Some(mut ticket) = self.desk.ticket_at(io) else {
            return Ok(None);
        };
        if draw(&mut self.seed, 24) == 0 {
            ticket.id = 9999;
        }
        Ok(Some(ticket))
    }

    fn carried_out(&mut self, ticket: Ticket) -> Result<Served, Fail> {
        if self.engine.calls() > 99_999 {
            return Err(Fail::from("few calls"));
        }
        let buffer = room_for(self.alloc, &ticket)?;
        let reply = if draw(&mut self.seed, 4) == 0 {
            draw_reply(&mut self.seed)
        } else {
            Reply::Pass
        };
        self.engine.set_next(reply);
        if !ticket.fits() {
            return Err(Fail::from("a ticket that fits"));
        }
        Ok(serve(&mut self.engine, ticket, buffer))
    }

    // Judges one of the checks, in any order, and some of them twice.
    fn judge(&mut self, rt: &impl Abort) -> Result<(), Fail> {
        let by = draw(&mut self.seed, 4);
        let count = 1 + (self.reads.len() % 9999) as u32;
        let place = draw(&mut self.seed, count) as usize;
        match self.reads.get(place) {
            Some(served) if served.to_judge() => {
                let id = served.ticket().id;
                let ruling = rule(served);
                let wanted = self.plain.judge(by, id, ruling.verdict())?;
                let found = reply_or_refused(self.desk.judge(by, &ruling), StepReply::Judged);
                same(rt, found, wanted);
            }
            _ => {}
        }
        Ok(())
    }

    // How many verdicts are void. The trace is legal, and its totals are the desk's.
    fn void(&self, rt: &impl Abort) -> Result<u64, Fail> {
        let text = trace(self.alloc, &self.desk)?;
        let totals = check_stopped_trace(self.alloc, self.desk.plan(), text.as_slice())?;
        same(rt, self.desk.totals(), totals.as_slice());
        let mut void = 0u64;
        for found in totals.iter() {
            void = void.saturating_add(found.void);
        }
        Ok(void)
    }
}

#[test]
fn the_desk_is_the_plain_program(rt: HostRuntime) -> Result<(), Fail> {
    let mut void = 0u64;
    for seed in 1..=40 {
        let mut pair = Pair::new(rt.alloc(), seed)?;
        for _ in 0..240 {
            pair.step(&rt)?;
        }
        void = void.saturating_add(pair.void(&rt)?);
    }
    assert!(rt; void > 0);
    Ok(())
}
