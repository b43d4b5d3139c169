ghost use Rattle.std.specs.Prelude.{◌≡◌, ◌-◌, ◌^◌, ◌<◌, true, [], Some, None, IfOk, IfErr, OnOk, slice_get};
ghost use Rattle.std.specs.Option.{option_copied};
ghost use Rattle.jr_model.specs.declared.events.Started.{Started};
ghost use Rattle.jr_model.specs.Machine.{end_refusal, first_state, judge_refusal, machine_end, machine_judge, machine_run};
ghost use Rattle.jr_model.specs.Machine.{machine_step, machine_take};
ghost use Rattle.jr_model.specs.PlanFacts.{IsPlanned};
ghost use Rattle.jr_header.specs.Served.{is_to_judge};
ghost use Rattle.jr_desk_tickets.specs.Kept.{IsOwn, tickets_of};
ghost use Rattle.jr_desk.specs.DeskOf.{desk_in};
ghost use Rattle.jr_desk.specs.Plays.{GoesOn, IsJudgeable, IsReady, judge_reply, judged_desk, kept_by, last_read, reply_for, state_of};
ghost use Rattle.jr_desk.specs.Refusals.{judge_fault};

use crate::desk::Desk;
use crate::scripted::{carried_out, copy_of};
use jr_desk_state::Take;
use jr_engines::{MemoryEngine, ScriptedEngine};
use jr_header::{Served, room_for, rule};
use jr_model::{DeskFault, IoId, Memory, Reply, Step, StepReply, Ticket, TicketKind};
use jr_plan::Plan;
use std::alloc::Global;

/// What a list of steps came to.
#[derive(Drop)]
pub struct Played {
    /// The desk after the last step.
    pub desk: Desk,
    /// The reply to each step.
    pub replies: Vec<StepReply>,
}

/// Runs a list of steps over a memory of its own, each End with its scripted reply.
///
/// The replies and the history are the machine's, and so are the totals. An End or a verdict of an I/O that
/// wasn't handed out is refused as a stranger's, a second one is refused without another call of the engine,
/// and so is a verdict on what is no check that ended whole. Once stopped, every End and verdict is refused.
/// Any want of memory ends the play.
pub fn play(alloc: Global, plan: Plan, steps: &[Step]) -> Result<Played, Memory>
    ensures replies { IfOk result (λ played. played.replies.items ≡ (machine_run plan (first_state plan) steps.now).replies) }
    ensures desk { IfOk result (λ played. played.desk ≡ desk_in plan (machine_run plan (first_state plan) steps.now).state) }
{
    // Its contract says what holds of every plan.
    plan.facts();
    let mut player = Player::new(alloc, plan)?;
    let replies = player.answer_all(steps)?;
    Ok(player.into_played(replies))
}

// Plays steps one by one: a desk, an engine over a memory of its own, and all that was read so far.
#[derive(Drop)]
struct Player {
    alloc: Global,
    desk: Desk,
    engine: ScriptedEngine,
    reads: Vec<Served>,
}

impl Player {
    // Before the first step.
    fn new(alloc: Global, plan: Plan) -> Result<Player, Memory>
        ensures first { IfOk result (λ player. state_of player ≡ first_state plan) }
        ensures plan { IfOk result (λ player. player.desk.plan ≡ plan) }
        ensures calls { IfOk result (λ player. player.engine.calls ≡ 0) }
        ensures reads { IfOk result (λ player. player.reads.items ≡ []) }
    {
        let memory = MemoryEngine::new(alloc, &plan)?;
        match Desk::new(alloc, plan) {
            Ok(desk) => Ok(Player {
                alloc,
                desk,
                engine: ScriptedEngine::new(memory, Vec::new(alloc)),
                reads: Vec::new(alloc),
            }),
            Err(_) => Err(Memory),
        }
    }

    // What it came to, with these replies.
    fn into_played(self, replies: Vec<StepReply>) -> Played
        ensures desk { result.desk ≡ self.desk }
        ensures replies { result.replies ≡ replies }
    {
        Played {
            desk: self.desk,
            replies,
        }
    }

    // Makes all steps, where none was made before. These are the replies.
    fn answer_all(&mut self, steps: &[Step]) -> Result<Vec<StepReply>, Memory>
        requires planned { IsPlanned self.old.desk.plan }
        requires first { state_of self.old ≡ first_state self.old.desk.plan }
        requires calls { self.old.engine.calls ≡ 0 }
        requires reads { self.old.reads.items ≡ [] }
        ensures replies { let plan = self.old.desk.plan in
            IfOk result (λ replies. replies.items ≡ (machine_run plan (first_state plan) steps.now).replies) }
        ensures desk { let plan = self.old.desk.plan in
            OnOk result (self.new.desk ≡ desk_in plan (machine_run plan (first_state plan) steps.now).state) }
    {
        let mut replies = Vec::new(self.alloc);
        for step in steps {
            let reply = self.answer(step)?;
            replies.push(reply)?;
        }
        Ok(replies)
    }

    // Makes a step.
    fn answer(&mut self, step: &Step) -> Result<StepReply, Memory>
        requires ready { IsReady self.old }
        requires calls { self.old.engine.calls < 2 ^ 64 - 1 }
        ensures { IfOk result (λ reply. GoesOn self.old (machine_step self.old.desk.plan (state_of self.old) step.now) reply self.new) }
    {
        match step {
            Step::Take(worker) => self.take(*worker),
            Step::End(io, reply) => self.end(*io, reply),
            Step::Judge(by, io) => self.judge(*by, *io),
            Step::Stop => {
                self.desk.stop();
                Ok(StepReply::Stopped)
            }
        }
    }

    // Hands out the next I/O or check to a worker.
    fn take(&mut self, worker: u32) -> Result<StepReply, Memory>
        requires { IsReady self.old }
        ensures { IfOk result (λ reply. GoesOn self.old (machine_take self.old.desk.plan (state_of self.old) worker) reply self.new) }
    {
        match self.desk.take(worker) {
            Ok(take) => Ok(reply_for(&take)),
            Err(_) => Err(Memory),
        }
    }

    // Carries out an I/O with this reply of the engine, and ends it.
    fn end(&mut self, io: IoId, reply: &Reply) -> Result<StepReply, Memory>
        requires ready { IsReady self.old }
        requires calls { self.old.engine.calls < 2 ^ 64 - 1 }
        ensures { IfOk result (λ answer. GoesOn self.old (machine_end self.old.desk.plan (state_of self.old) io reply.now) answer self.new) }
    {
        let ticket = match self.open_ticket(io) {
            Ok(ticket) => ticket,
            Err(fault) => return Ok(StepReply::Refused(fault)),
        };
        let buffer = room_for(self.alloc, &ticket)?;
        self.engine.set_next(copy_of(self.alloc, reply)?);
        let served = carried_out(&mut self.engine, ticket, buffer);
        if self.desk.end(&served).is_err() {
            return Err(Memory);
        }
        keep(&mut self.reads, served)?;
        Ok(StepReply::Ended)
    }

    // Judges a check that ended whole; anything else is refused.
    fn judge(&mut self, by: u32, io: IoId) -> Result<StepReply, Memory>
        requires { IsReady self.old }
        ensures { IfOk result (λ reply. GoesOn self.old (machine_judge self.old.desk.plan (state_of self.old) by io) reply self.new) }
    {
        match last_read(self.reads.as_slice(), io) {
            Some(served) if served.to_judge() => judged(&mut self.desk, by, served),
            _ => Ok(StepReply::Refused(self.unjudgeable(io))),
        }
    }

    // The ticket of an I/O that was handed out and has not ended.
    fn open_ticket(&self, io: IoId) -> Result<Ticket, DeskFault>
        ensures open { IfOk result (λ _. end_refusal (state_of self.now) io ≡ None) }
        ensures own { IfOk result (λ ticket. slice_get (tickets_of self.now.desk.plan self.now.desk.history) io ≡ Some ticket) }
        ensures refused { IfErr result (λ fault. end_refusal (state_of self.now) io ≡ Some fault) }
    {
        if self.desk.is_stopped() {
            return Err(DeskFault::Stopped);
        }
        let Some(ticket) = self.desk.ticket_at(io) else {
            return Err(DeskFault::Stranger);
        };
        if self.desk.has_ended(io) {
            return Err(DeskFault::Twice);
        }
        Ok(ticket)
    }

    // Why there is no verdict on an I/O that is no check to judge.
    fn unjudgeable(&self, io: IoId) -> DeskFault
        requires ready { IsReady self.now }
        requires nothing { (s : Started) → ¬ IsJudgeable self.now.desk.history io s }
        ensures { judge_refusal (state_of self.now) io ≡ Some result }
    {
        if self.desk.is_stopped() {
            DeskFault::Stopped
        } else if self.desk.ticket_at(io).is_none() {
            DeskFault::Stranger
        } else {
            DeskFault::WrongKind
        }
    }
}

// The reply to a step that takes.
fn reply_for(take: &Take) -> StepReply
    ensures { result ≡ reply_for take.now }
{
    match take {
        Take::Io(ticket) => StepReply::Io(ticket.id),
        Take::Probe(ticket) => StepReply::Probe(ticket.id),
        Take::Wait => StepReply::Wait,
        Take::Finished => StepReply::Finished,
    }
}

// Keeps what a read or check gave.
fn keep(reads: &mut Vec<Served>, served: Served) -> Result<(), Memory>
    ensures { IfOk result (λ _. reads.new.items ≡ kept_by served.ticket.kind reads.old.items served) }
{
    match served.ticket().kind {
        TicketKind::Write => Ok(()),
        TicketKind::Read | TicketKind::Probe | TicketKind::ReadCheck => {
            reads.push(served)?;
            Ok(())
        }
    }
}

// What was kept last for this I/O.
fn last_read(reads: &[Served], io: IoId) -> Option<&Served>
    ensures { option_copied result ≡ last_read reads.now io }
{
    reads.iter().rev().find(|served| served.ticket().id == io)
}

// Judges a check that ended whole.
fn judged(desk: &mut Desk, by: u32, served: &Served) -> Result<StepReply, Memory>
    requires check { is_to_judge served.now ≡ true }
    requires own { IsOwn desk.old.plan desk.old.history served.now.ticket }
    ensures reply { IfOk result (λ reply. reply ≡ judge_reply (judge_fault desk.old served.now.ticket.id true)) }
    ensures desk { OnOk result (desk.new ≡ judged_desk desk.old by served.now (judge_fault desk.old served.now.ticket.id true)) }
{
    match desk.judge(by, &rule(served)) {
        Ok(()) => Ok(StepReply::Judged),
        Err(fault) if fault != DeskFault::Memory => Ok(StepReply::Refused(fault)),
        Err(_) => Err(Memory),
    }
}
