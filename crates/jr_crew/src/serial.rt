ghost use Rattle.std.specs.Prelude.{◌≡◌, ◌-◌, ◌^◌, ◌<◌, ◌≤◌, ◌++◌, ◌∷◌, [], true, false, None, IfOk, IfErr, IfSome, IsSome, OnOk, OnErr, IsFalse};
ghost use Rattle.std.specs.Bool.{MatchBool};
ghost use Rattle.jr_model.specs.Legal.{is_complete};
ghost use Rattle.jr_model.specs.Serial.{serial_history};
ghost use Rattle.jr_header.specs.Served.{is_to_judge};
ghost use Rattle.jr_crew_threads.specs.Stops.{IsCompleteOrAsked, WasAsked};
ghost use Rattle.jr_crew.specs.Runs.{IsFresh};
ghost use Rattle.jr_crew.specs.Turns.{IsBetweenTurns, IsOpen, IsCarriedOut, IsTurn, IsLastTurn, ended_by};
ghost use Rattle.jr_crew.specs.Whole.{IsRun, IsEndedRun};

use jr_crew_threads::{
    StopFlag, StopRequest, Watch, asked_at, fit_buffer, note_alone, note_start, note_verdict,
    record_alone,
};
use jr_desk::{Desk, Take};
use jr_engines::Engine;
use jr_header::{Served, rule, serve_own};
use jr_model::{Event, Ticket};
use jr_plan::Plan;
use jr_run_faults::RunFault;
use std::alloc::Global;
use std::io::ErrorKind;
use std::time::{Clock, Duration};
use std::{io, mem};

/// What `run_serial_asked` gives: the desk, and what asked the run to stop, if it did so before it was complete.
#[derive(Drop)]
pub struct SerialRun<'w> {
    pub desk: Desk,
    pub asked: Option<StopRequest<'w>>,
}

// Tells no time.
struct NoClock;

impl Clock for NoClock {
    fn monotonic(&self) -> io::Result<Duration> {
        Err(io::Error::from(ErrorKind::Unsupported))
    }

    fn since_1970(&self) -> io::Result<Duration> {
        Err(io::Error::from(ErrorKind::Unsupported))
    }
}

/// Runs a plan with one worker, 0, which waits for nobody and judges its own checks. If it is asked to stop it does so between
/// two I/Os: the desk says whether the run is complete. It has no clock, so each line of a ledger goes out at once.
pub fn run_serial(
    alloc: Global,
    plan: Plan,
    engine: &mut dyn Engine,
    watch: Watch<'_>,
) -> Result<Desk, RunFault>
    requires { (state engine.old).calls ≤ 2 ^ 63 }
    ensures plan { IfOk result (λ desk. desk.plan ≡ plan) }

    // All that was started has come to its end; and a run that is complete, or that nobody can stop, is a whole one.
    ensures ended { IfOk result (λ desk. IsEndedRun plan desk.history (state engine.old) (state engine.new)) }
    ensures run { IfOk result (λ desk. is_complete plan desk.history ≡ true
        → IsRun plan desk.history (state engine.old) (state engine.new)) }
    ensures unasked { watch.entry.stop ≡ None → IfOk result (λ desk. is_complete plan desk.history ≡ true) }
    ensures going { IfOk result (λ desk. IsFalse desk.is_stopped) }

    // Over a fresh memory the history of a complete run is known.
    ensures serial { IsFresh plan (state engine.old) → IfOk result (λ desk. is_complete plan desk.history ≡ true
        → desk.history ≡ serial_history plan) }
    ensures memory { IfErr result (λ fault. fault ≡ RunFault.Memory) }
{
    let SerialRun { desk, asked: _ } = run_serial_asked(&NoClock, alloc, plan, engine, watch)?;
    Ok(desk)
}

/// Runs a plan as `run_serial` does. Where the run isn't complete, it shows that it was asked to stop. The clock is looked at if a ledger is
/// kept: lines of quick writes wait for one another.
pub fn run_serial_asked<'w, R: Clock>(
    rt: &R,
    alloc: Global,
    plan: Plan,
    engine: &mut dyn Engine,
    watch: Watch<'w>,
) -> Result<SerialRun<'w>, RunFault>
    requires { (state engine.old).calls ≤ 2 ^ 63 }
    ensures plan { IfOk result (λ ran. ran.desk.plan ≡ plan) }
    ensures ended { IfOk result (λ ran. IsEndedRun plan ran.desk.history (state engine.old) (state engine.new)) }
    ensures run { IfOk result (λ ran. is_complete plan ran.desk.history ≡ true
        → IsRun plan ran.desk.history (state engine.old) (state engine.new)) }
    ensures unasked { watch.entry.stop ≡ None → IfOk result (λ ran. is_complete plan ran.desk.history ≡ true) }

    // It is complete, or the flag was set.
    ensures asked { IfOk result (λ ran. IsCompleteOrAsked watch.entry.stop (is_complete plan ran.desk.history) ran.asked) }
    ensures going { IfOk result (λ ran. IsFalse ran.desk.is_stopped) }
    ensures serial { IsFresh plan (state engine.old) → IfOk result (λ ran. is_complete plan ran.desk.history ≡ true
        → ran.desk.history ≡ serial_history plan) }
    ensures memory { IfErr result (λ fault. fault ≡ RunFault.Memory) }
{
    // Its contract says what holds of every plan.
    plan.facts();
    let mut desk = Desk::new(alloc, plan)?;
    let mut buffer = Vec::new(alloc);
    'turns: loop {
        if let Some(request) = asked_before_end(&desk, watch.stop) {
            return Ok(SerialRun {
                desk,
                asked: Some(request),
            });
        }
        if !turn(rt, alloc, &mut desk, engine, &mut buffer, &watch)? {
            return Ok(SerialRun { desk, asked: None });
        }
    }
}

// What asks the run to stop before it is complete.
fn asked_before_end<'w>(desk: &Desk, stop: Option<&'w StopFlag>) -> Option<StopRequest<'w>>
    ensures left { IsSome result → is_complete desk.now.plan desk.now.history ≡ false }
    ensures asked { IfSome result (WasAsked stop.entry) }
{
    let request = asked_at(stop)?;
    if desk.is_complete() {
        return None;
    }
    Some(request)
}

// Starts what is next, if anything is, and carries it out.
fn turn<R: Clock>(
    rt: &R,
    alloc: Global,
    desk: &mut Desk,
    engine: &mut dyn Engine,
    buffer: &mut Vec<u8>,
    watch: &Watch<'_>,
) -> Result<bool, RunFault>
    requires between { IsBetweenTurns desk.old }
    requires calls { (state engine.old).calls < 2 ^ 64 - 1 }
    ensures turn { IfOk result (λ goes_on. MatchBool goes_on
        (IsTurn desk.old.plan desk.old.history desk.new.history (state engine.old) (state engine.new))
        (IsLastTurn desk.old.plan desk.old.history desk.new.history (state engine.old) (state engine.new))) }
    ensures plan { desk.new.plan ≡ desk.old.plan }
    ensures stop { desk.new.is_stopped ≡ desk.old.is_stopped }
    ensures memory { IfErr result (λ fault. fault ≡ RunFault.Memory) }
{
    match desk.take(0) {
        Ok(Take::Io(ticket)) => {
            note_start(watch.progress, &ticket);
            carry_out(rt, alloc, desk, engine, &ticket, buffer, watch)?;
            Ok(true)
        }
        Ok(Take::Probe(ticket)) => {
            carry_out(rt, alloc, desk, engine, &ticket, buffer, watch)?;
            Ok(true)
        }
        Ok(Take::Finished) => Ok(false),
        Ok(Take::Wait) => unreachable!(),
        Err(_) => Err(RunFault::Memory),
    }
}

// Carries out a ticket, and judges it if it is a check that ended whole. The buffer was used before, and is used again.
fn carry_out<R: Clock>(
    rt: &R,
    alloc: Global,
    desk: &mut Desk,
    engine: &mut dyn Engine,
    ticket: &Ticket,
    buffer: &mut Vec<u8>,
    watch: &Watch<'_>,
) -> Result<(), RunFault>
    requires open { IsOpen desk.old ticket.now }
    requires calls { (state engine.old).calls < 2 ^ 64 - 1 }
    ensures ok { OnOk result (IsCarriedOut ticket.now desk.old.history desk.new.history (state engine.old) (state engine.new)) }
    ensures plan { desk.new.plan ≡ desk.old.plan }
    ensures stop { desk.new.is_stopped ≡ desk.old.is_stopped }
    ensures memory { IfErr result (λ fault. fault ≡ RunFault.Memory) }
{
    fit_buffer(buffer, ticket)?;
    let served = serve_own(engine, *ticket, mem::replace(buffer, Vec::new(alloc)));
    record_alone(rt, watch, &served);
    settle(desk, &served, watch)?;
    *buffer = served.into_buf();
    Ok(())
}

// Takes in how a ticket ended, with the verdict where it is a check that ended whole.
fn settle(desk: &mut Desk, served: &Served, watch: &Watch<'_>) -> Result<(), RunFault>
    requires { IsOpen desk.old served.now.ticket }
    ensures ok { OnOk result (desk.new ≡ record desk.old { history = desk.old.history ++ ended_by served.now }) }
    ensures plan { desk.new.plan ≡ desk.old.plan }
    ensures stop { desk.new.is_stopped ≡ desk.old.is_stopped }
    ensures memory { IfErr result (λ fault. fault ≡ RunFault.Memory) }
{
    if !served.to_judge() {
        end(desk, served)?;
        return Ok(());
    }
    end_judged(desk, served, watch)?;
    Ok(())
}

// Takes in how a ticket ended.
fn end(desk: &mut Desk, served: &Served) -> Result<(), RunFault>
    requires { IsOpen desk.old served.now.ticket }
    ensures ok { OnOk result (desk.new ≡ record desk.old
        { history = desk.old.history ++ Event.End served.now.ticket.worker served.now.ticket.id served.now.outcome ∷ [] }) }
    ensures err { OnErr result (desk.new ≡ desk.old) }
    ensures memory { IfErr result (λ fault. fault ≡ RunFault.Memory) }
{
    match desk.end(served) {
        Ok(()) => Ok(()),
        Err(_) => Err(RunFault::Memory),
    }
}

// Hands in a check that ended whole, which it judges.
fn end_judged(desk: &mut Desk, served: &Served, watch: &Watch<'_>) -> Result<(), RunFault>
    requires open { IsOpen desk.old served.now.ticket }
    requires whole { is_to_judge served.now ≡ true }
    ensures ok { OnOk result (desk.new ≡ record desk.old { history = desk.old.history ++ ended_by served.now }) }
    ensures plan { desk.new.plan ≡ desk.old.plan }
    ensures stop { desk.new.is_stopped ≡ desk.old.is_stopped }
    ensures memory { IfErr result (λ fault. fault ≡ RunFault.Memory) }
{
    let ruling = rule(served);
    match desk.end_judged(0, &ruling) {
        Ok(_) => {
            note_verdict(watch.progress, served.ticket().piece.len, ruling.verdict());
            note_alone(watch.diagnoses, &ruling);
            Ok(())
        }
        Err(_) => Err(RunFault::Memory),
    }
}
