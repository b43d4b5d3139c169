ghost use Rattle.std.specs.Prelude.{◌≡◌, ◌++◌, ◌∷◌, [], true, false, Some, All, map, IfOk, IfErr, OnOk, OnErr};
ghost use Rattle.jr_model.specs.Legal.{is_void};
ghost use Rattle.jr_model.specs.Machine.{said_of};
ghost use Rattle.jr_model.specs.Races.{has_raced};
ghost use Rattle.jr_header.specs.Served.{answer_verdict};
ghost use Rattle.jr_desk_state.specs.Takes.{HandsOutOwn, is_fitting};
ghost use Rattle.jr_crew_threads.specs.Halts.{first_cause};
ghost use Rattle.jr_crew.specs.Working.{CanBeServed, CanStart};

use crate::outcomes::{CarriedOut, TakenIn};
use jr_crew_threads::{
    Crowd, Halt, MOST_BYTES, MOST_IOS, Naming, Recorded, Shares, Turns, Watch, asked_at,
    none_recorded, note_bad, note_start, note_verdict, push, record_due, record_rest,
};
use jr_desk::{Desk, DeskFault, Take};
use jr_header::{Ruling, Served};
use jr_model::{Event, Ticket, Verdict};
use std::marker::PhantomData;
use std::sync::atomic::{AtomicU64, Ordering};
use std::sync::{Condvar, Mutex, MutexGuard, Wait};
use std::thread;
use std::time::{Clock, Duration};

// What lies under the lock.
#[derive(Drop)]
pub struct Held<P: Naming> {
    // The desk of the plan that has this name.
    desk: Desk,
    // Why the run was ended before its time, if it was.
    halt: Option<Halt>,
    // How many I/Os and checks the workers have in hand.
    in_hand: u64,
    // How many workers haven't begun.
    absent: u64,
    // How many workers wait for something to do.
    waiting: u64,
    // How many workers rest, since there are more of them than the lock can serve.
    resting: u64,
    // Whether one that waits was called and hasn't come yet.
    is_called: bool,
    // Whether one that rests was called and hasn't come yet.
    is_roused: bool,
    of: PhantomData<P>,
    ghost plan_is: { desk.plan ≡ P.plan },
}

impl<P: Naming> Held<P> {
    fn take(&mut self, worker: u32) -> Result<Take, DeskFault>
        ensures fits { IfOk result (λ answer. is_fitting answer ≡ true) }
        ensures own { IfOk result HandsOutOwn }
        ensures err { OnErr result ((self.new.desk ≡ self.old.desk) × (self.new.halt ≡ self.old.halt)) }
        ensures memory { IfErr result (λ fault. fault ≡ DeskFault.Memory) }
    {
        self.desk.take(worker)
    }

    fn end(&mut self, served: &Served) -> Result<(), DeskFault>
        ensures ok { OnOk result (self.new.desk.history
            ≡ self.old.desk.history ++ Event.End served.now.ticket.worker served.now.ticket.id served.now.outcome ∷ []) }
        ensures err { OnErr result ((self.new.desk ≡ self.old.desk) × (self.new.halt ≡ self.old.halt)) }
    {
        self.desk.end(served)
    }

    // Takes in how a check ended and the verdict on it, and says that: the ruling's verdict, unless the check raced.
    fn end_judged(&mut self, by: u32, ruling: &Ruling<'_>) -> Result<Verdict, DeskFault>
        ensures says { IfOk result (λ said. is_void said ≡ false → said ≡ answer_verdict ruling.now) }
    {
        let said = self.desk.end_judged(by, ruling)?;
        Ok(said)
    }

    // Takes in how a worker's ticket ended, and the verdict where the worker judged it: then the desk compares the ticket once.
    fn take_in<'a>(&mut self, worker: u32, one: &CarriedOut<'a>) -> Result<TakenIn<'a>, DeskFault>
        ensures { IfOk result (λ told. told.served.now ≡ one.now.served.now) }
    {
        self.in_hand = self.in_hand.saturating_sub(1);
        match &one.ruling {
            None => {
                self.end(one.served)?;
                Ok(TakenIn {
                    served: one.served,
                    inline: one.inline,
                    said: None,
                })
            }
            Some(ruling) => {
                let said = self.end_judged(worker, ruling)?;
                Ok(TakenIn {
                    served: one.served,
                    inline: one.inline,
                    said: Some(said),
                })
            }
        }
    }

    // Takes in the verdict, where there is a ruling.
    fn judge_one<'a>(&mut self, by: u32, one: &CarriedOut<'a>) -> Result<TakenIn<'a>, DeskFault>
        ensures { IfOk result (λ told. told.served.now ≡ one.now.served.now) }
    {
        let said = match &one.ruling {
            None => None,
            Some(ruling) => Some(self.judge(by, ruling)?),
        };
        Ok(TakenIn {
            served: one.served,
            inline: one.inline,
            said,
        })
    }

    // What was taken in: the ruling's verdict, unless the check raced.
    fn judge(&mut self, by: u32, ruling: &Ruling<'_>) -> Result<Verdict, DeskFault>
        ensures ok { OnOk result (self.new.desk.history ≡ self.old.desk.history ++ Event.Verdict by ruling.now.ticket.id
            (said_of (has_raced self.old.desk.history ruling.now.ticket.id) (answer_verdict ruling.now)) ∷ []) }
        ensures says { IfOk result (λ said. is_void said ≡ false → said ≡ answer_verdict ruling.now) }
        ensures err { OnErr result ((self.new.desk ≡ self.old.desk) × (self.new.halt ≡ self.old.halt)) }
    {
        let said = self.desk.said_of(ruling);
        self.desk.judge(by, ruling)?;
        Ok(said)
    }

    // How many workers do nothing.
    fn idle(&self) -> u64 {
        let idle = self.waiting.saturating_add(self.resting);
        self.absent.saturating_add(idle)
    }

    fn stop(&mut self, halt: Halt)
        ensures stopped { self.new.desk.is_stopped ≡ true }
        ensures cause { self.new.halt ≡ Some (first_cause halt self.old.halt) }
    {
        self.halt = Some(first_cause(halt, self.halt));
        self.desk.stop();
    }

    // The desk and the cause, once no thread shares them any more.
    fn into_parts(self) -> (Desk, Option<Halt>)
        ensures desk { result.0.plan ≡ P.plan }
        ensures halt { result.1 ≡ self.halt }
    {
        let Held {
            desk,
            halt,
            in_hand: _,
            absent: _,
            waiting: _,
            resting: _,
            is_called: _,
            is_roused: _,
            of: _,
        } = self;
        (desk, halt)
    }
}

// The first cause stays, but want of memory comes before others.
fn first_cause(halt: Halt, before: Option<Halt>) -> Halt
    ensures { result ≡ first_cause halt before }
{
    match (halt, before) {
        (Halt::Memory, _) => Halt::Memory,
        (Halt::Books, None) => Halt::Books,
        (Halt::Books, Some(first)) => first,
    }
}

// How often a thread looks whether the lock is free before it sleeps until it is; and how often before it lets others run between two
// looks. A call of the desk takes about a microsecond, and to sleep and be woken takes several.
const LOOKS: u32 = 1000;

const EAGER_LOOKS: u32 = 10;

// So many milliseconds a worker rests at most: then it takes a share, for all others may be in a device that has just stalled. (One that
// comes back takes a processor from another, maybe from one that has the lock.)
const REST: u64 = 1000;

// What was started: a ticket, or nothing, and how the worker goes on.
pub enum NextTicket {
    Ticket(Ticket),
    Nothing(GoOn),
}

// Whom a worker that gives the lock away calls then, so that who is called finds it free: one that waits, one that rests, or all.
#[derive(Clone, Copy)]
struct Calls {
    waiting: bool,
    resting: bool,
    all: bool,
}

impl Calls {
    // Nobody.
    fn none() -> Calls {
        Calls {
            waiting: false,
            resting: false,
            all: false,
        }
    }
}

// How a worker goes on: with the tickets that it took, not before others have ended something, or not at all.
#[derive(Clone, Copy)]
pub enum GoOn {
    Go,
    Wait,
    End,
}

// What the workers of a run share.
#[derive(Drop)]
pub struct Shared<'p, P: Naming> {
    // The desk, under its lock.
    held: Mutex<Held<P>>,
    // How many have come for the lock and haven't got it.
    coming: AtomicU64,
    // What workers sleep on that wait for something to do.
    changed: Condvar,
    // What workers sleep on that rest.
    rested: Condvar,
    // How much a worker takes at once.
    shares: Shares,
    // Whether the workers are too many.
    crowd: Crowd,
    // What another thread has of the run.
    watch: Watch<'p>,
}

impl<'p, P: Naming> Shared<'p, P> {
    pub fn new(
        desk: Desk,
        workers: usize,
        shares: Shares,
        crowd: Crowd,
        watch: Watch<'p>,
    ) -> Shared<'p, P>
        requires { desk.plan ≡ P.plan }
    {
        let held = Held {
            desk,
            halt: None,
            in_hand: 0,
            absent: workers as u64,
            waiting: 0,
            resting: 0,
            is_called: false,
            is_roused: false,
            of: PhantomData,
        };
        Shared {
            held: Mutex::new(held),
            coming: AtomicU64::new(0),
            changed: Condvar::new(),
            rested: Condvar::new(),
            shares,
            crowd,
            watch,
        }
    }

    // The desk, and why the run was ended before its time, if it was, once all threads have ended.
    pub fn into_parts(self) -> (Desk, Option<Halt>)
        ensures { result.0.plan ≡ P.plan }
    {
        let Shared {
            held,
            coming: _,
            changed: _,
            rested: _,
            shares: _,
            crowd: _,
            watch: _,
        } = self;
        held.into_inner().into_parts()
    }

    // Whether the workers are too many.
    pub fn crowd(&self) -> &Crowd {
        &self.crowd
    }

    // Looks into the bad blocks among these, while the lock is free.
    pub fn note_bad<R: Wait>(&self, rt: &R, settled: &[CarriedOut<'_>]) {
        for one in settled {
            if let Some(ruling) = &one.ruling {
                note_bad(rt, self.watch.diagnoses, ruling);
            }
        }
    }

    // Nothing of a share that begins now is in the ledger.
    pub fn none_recorded<R: Clock>(&self, rt: &R) -> Recorded {
        none_recorded(rt, &self.watch)
    }

    // Has the ledger take in the last of these, with those before it that it doesn't have, if that one took long or its file is to be synced
    // now. Answers what it has then.
    pub fn record_due<R: Wait + Clock>(
        &self,
        rt: &R,
        served: &[Served],
        recorded: Recorded,
    ) -> Recorded {
        record_due(rt, &self.watch, served, recorded)
    }

    // Has the ledger take in all of these that it doesn't have.
    pub fn record_rest<R: Wait>(&self, rt: &R, served: &[Served], recorded: Recorded) {
        record_rest(rt, &self.watch, served, recorded);
    }

    // Takes the lock. Who doesn't get it at once comes until it has it: nobody is counted who has the lock.
    fn enter<R: Wait>(&self, rt: &R) -> MutexGuard<'_, Held<P>> {
        if let Some(held) = self.held.try_lock() {
            return held;
        }
        self.coming.fetch_add(1, Ordering::Relaxed);
        let held = self.come(rt);
        self.coming.fetch_sub(1, Ordering::Relaxed);
        held
    }

    // Looks for a while whether the lock is free before it waits for it.
    fn come<R: Wait>(&self, rt: &R) -> MutexGuard<'_, Held<P>> {
        for look in 0..LOOKS {
            if let Some(held) = self.held.try_lock() {
                return held;
            }
            if look >= EAGER_LOOKS {
                thread::yield_now();
            }
        }
        self.held.lock(rt)
    }

    // Puts what this worker is to carry out next behind its tickets; nothing where the run has ended, or is asked to stop. It waits
    // while nothing may be started: nothing but an end, a verdict or a stop lets anything start again. One of these comes as long as
    // anybody waits, for then something flies or awaits its verdict.
    pub fn next<R: Wait + Clock>(
        &self,
        rt: &R,
        worker: u32,
        tickets: &mut Vec<Ticket>,
    ) -> Result<GoOn, Halt>
        requires { All CanBeServed tickets.old.items }
        ensures next { OnOk result (All CanBeServed tickets.new.items) }
        ensures memory { IfErr result (λ halt. halt ≡ Halt.Memory) }
    {
        let held = self.enter(rt);
        let mut held = self.make_way(rt, held);
        for _ in rt.forever() {
            let mut calls = Calls::none();
            let step = self.share(&mut held, worker, tickets, &mut calls)?;
            if let GoOn::Wait = step {
                self.call(calls);
                held = self.pause(rt, held);
            } else {
                drop(held);
                self.call(calls);
                return Ok(step);
            }
        }
        unreachable!()
    }

    // Counts a worker that begins. Where no thread can be started, each begins when the one before it has ended.
    pub fn begin<R: Wait>(&self, rt: &R) {
        let mut held = self.enter(rt);
        held.absent = held.absent.saturating_sub(1);
    }

    // Whether more workers are at work than are of use.
    fn is_crowded(&self, held: &Held<P>) -> bool {
        self.crowd.is_too_large(held.idle())
    }

    // Does nothing for a while: the others take what may be started where they are enough for it.
    fn pause<'a, R: Wait + Clock>(
        &self,
        rt: &R,
        held: MutexGuard<'a, Held<P>>,
    ) -> MutexGuard<'a, Held<P>> {
        if self.is_crowded(&held) {
            return self.rest(rt, held);
        }
        self.sleep(rt, held)
    }

    // Rests where the workers are too many.
    fn make_way<'a, R: Wait + Clock>(
        &self,
        rt: &R,
        held: MutexGuard<'a, Held<P>>,
    ) -> MutexGuard<'a, Held<P>> {
        if self.is_crowded(&held) {
            return self.rest(rt, held);
        }
        held
    }

    // Gives the lock away, rests for a while, and takes it again.
    fn rest<'a, R: Wait + Clock>(
        &self,
        rt: &R,
        held: MutexGuard<'a, Held<P>>,
    ) -> MutexGuard<'a, Held<P>> {
        let mut held = held;
        held.resting = held.resting.saturating_add(1);
        let limit = Duration::from_millis(REST);
        let (mut held, _) = self.rested.wait_timeout(rt, held, limit);
        held.resting = held.resting.saturating_sub(1);
        held.is_roused = false;
        held
    }

    // Gives the lock away, sleeps until something changes, and takes it again.
    fn sleep<'a, R: Wait>(&self, rt: &R, held: MutexGuard<'a, Held<P>>) -> MutexGuard<'a, Held<P>> {
        let mut held = held;
        held.waiting = held.waiting.saturating_add(1);
        let mut held = self.changed.wait(rt, held);
        held.waiting = held.waiting.saturating_sub(1);
        held.is_called = false;
        held
    }

    // Takes in how a worker's tickets ended, in their order, and takes what is next for the worker, unless the workers are too many. The
    // lock is taken once for all of it, and nothing is waited for.
    pub fn hand_in<'a, R: Wait + Clock>(
        &self,
        rt: &R,
        worker: u32,
        turns: &mut Turns,
        settled: &[CarriedOut<'a>],
        told: &mut Vec<TakenIn<'a>>,
        tickets: &mut Vec<Ticket>,
    ) -> Result<GoOn, Halt>
        requires { All CanBeServed tickets.old.items }
        ensures told { OnOk result (map (λ one. one.served.now) told.new.items
            ≡ map (λ one. one.served.now) told.old.items ++ map (λ one. one.served.now) settled.now) }
        ensures next { OnOk result (All CanBeServed tickets.new.items) }
    {
        turns.arrive(rt);
        let mut held = self.enter(rt);
        turns.enter(rt);
        for one in settled {
            let said = held.take_in(worker, one)?;
            note_said(&self.watch, &said);
            push(told, said)?;
        }
        if self.is_crowded(&held) {
            return Ok(GoOn::Wait);
        }
        let mut calls = Calls::none();
        let step = self.share(&mut held, worker, tickets, &mut calls)?;
        turns.leave(rt, &self.crowd, held.idle());
        drop(held);
        self.call(calls);
        Ok(step)
    }

    // Calls those that are to be called.
    fn call(&self, calls: Calls) {
        if calls.all {
            self.wake_all();
            return;
        }
        if calls.waiting {
            self.changed.notify_one();
        }
        if calls.resting {
            self.rested.notify_one();
        }
    }

    // Takes a worker's share of what may be started. If the run has ended all are to be called; and one that rests if it may be of use.
    fn share(
        &self,
        held: &mut Held<P>,
        worker: u32,
        tickets: &mut Vec<Ticket>,
        calls: &mut Calls,
    ) -> Result<GoOn, Halt>
        requires { All CanBeServed tickets.old.items }
        ensures next { OnOk result (All CanBeServed tickets.new.items) }
        ensures memory { IfErr result (λ halt. halt ≡ Halt.Memory) }
    {
        if held.resting > 0 && !held.is_roused && self.crowd.is_too_small(held.idle()) {
            held.is_roused = true;
            calls.resting = true;
        }
        let step = self.take_share(held, worker, tickets, calls)?;
        if let GoOn::End = step {
            calls.all = true;
        }
        Ok(step)
    }

    // Takes tickets until this worker has its share, and then has one called that may take more; or until nothing more may be started.
    #[tactic(auto, using(crate::proofs::Worked::taken))]
    fn take_share(
        &self,
        held: &mut Held<P>,
        worker: u32,
        tickets: &mut Vec<Ticket>,
        calls: &mut Calls,
    ) -> Result<GoOn, Halt>
        requires { All CanBeServed tickets.old.items }
        ensures next { OnOk result (All CanBeServed tickets.new.items) }
        ensures memory { IfErr result (λ halt. halt ≡ Halt.Memory) }
    {
        let mut bytes: u64 = 0;
        for taken in 0..MOST_IOS {
            match self.start(held, worker)? {
                NextTicket::Ticket(ticket) => {
                    push(tickets, ticket)?;
                    bytes = bytes.saturating_add(u64::from(ticket.piece.len));
                    let share = self
                        .shares
                        .share_for(&ticket, held.waiting > 0, held.resting);
                    if taken + 1 >= share || bytes >= MOST_BYTES {
                        self.call_next(held, calls);
                        return Ok(GoOn::Go);
                    }
                }
                NextTicket::Nothing(step) => return Ok(or_go(taken, step)),
            }
        }
        self.call_next(held, calls);
        Ok(GoOn::Go)
    }

    // Wakes all workers, for the run has ended.
    fn wake_all(&self) {
        self.changed.notify_all();
        self.rested.notify_all();
    }

    // Has one called that may take what this worker left. Where workers have as much in hand as all depths allow, nothing is left; and where
    // one was called already, or another comes for the lock, that one takes it.
    fn call_next(&self, held: &mut Held<P>, calls: &mut Calls) {
        if held.in_hand < self.shares.depths()
            && held.waiting > 0
            && !held.is_called
            && self.coming.load(Ordering::Relaxed) == 0
        {
            held.is_called = true;
            calls.waiting = true;
        }
    }

    // Starts one I/O or check, if one may be started.
    fn start(&self, held: &mut Held<P>, worker: u32) -> Result<NextTicket, Halt>
        ensures can { IfOk result CanStart }
        ensures memory { IfErr result (λ halt. halt ≡ Halt.Memory) }
    {
        if asked_at(self.watch.stop).is_some() {
            return Ok(NextTicket::Nothing(GoOn::End));
        }
        let ticket = match held.take(worker)? {
            Take::Io(ticket) => {
                note_start(self.watch.progress, &ticket);
                ticket
            }
            Take::Probe(ticket) => ticket,
            Take::Wait => return Ok(NextTicket::Nothing(GoOn::Wait)),
            Take::Finished => return Ok(NextTicket::Nothing(GoOn::End)),
        };
        held.in_hand = held.in_hand.saturating_add(1);
        Ok(NextTicket::Ticket(ticket))
    }

    // Takes in the verdicts on checks, one after another.
    pub fn judge<'a, R: Wait>(
        &self,
        rt: &R,
        by: u32,
        settled: &[CarriedOut<'a>],
        told: &mut Vec<TakenIn<'a>>,
    ) -> Result<(), Halt>
        ensures { OnOk result (map (λ one. one.served.now) told.new.items
            ≡ map (λ one. one.served.now) told.old.items ++ map (λ one. one.served.now) settled.now) }
    {
        let mut held = self.enter(rt);
        for one in settled {
            let said = held.judge_one(by, one)?;
            note_said(&self.watch, &said);
            push(told, said)?;
        }
        self.changed.notify_all();
        Ok(())
    }

    // Ends the run for all threads.
    pub fn stop<R: Wait>(&self, rt: &R, halt: Halt) {
        self.enter(rt).stop(halt);
        self.wake_all();
    }
}

// How a worker goes on that has taken so many tickets and can't take more.
fn or_go(taken: u64, step: GoOn) -> GoOn {
    if taken == 0 { step } else { GoOn::Go }
}

// Notes the verdict on a check, where there is one.
fn note_said(watch: &Watch<'_>, told: &TakenIn<'_>) {
    if let Some(said) = told.said {
        note_verdict(watch.progress, told.served.ticket().piece.len, said);
    }
}
