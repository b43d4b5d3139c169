ghost use Rattle.std.specs.Prelude.{◌≡◌, ◌≢◌, ◌⊎◌, ◌++◌, ◌∷◌, [], ◌||◌, Bool, true, false, IfOk, IfErr, IfSome, OnOk, OnErr, IsTrue};
ghost use Rattle.std.specs.Prelude.{IsFalse, Ok, Err, None, map, slice_get, is_some};
ghost use Rattle.jr_model.specs.History.{started, outcome_of, ended_whole, is_judged};
ghost use Rattle.jr_model.specs.Legal.{is_legal, is_complete, is_void};
ghost use Rattle.jr_model.specs.Machine.{said_of};
ghost use Rattle.jr_model.specs.Races.{has_raced};
ghost use Rattle.jr_model.specs.Report.{all_totals, miscompares};
ghost use Rattle.jr_header.specs.Served.{answer_verdict};
ghost use Rattle.jr_desk_tickets.specs.Handing.{IsHanded};
ghost use Rattle.jr_desk_tickets.specs.Kept.{tickets_of, IsOwn};
ghost use Rattle.jr_desk.specs.Refusals.{Owns, end_fault, judge_fault};
ghost use Rattle.jr_desk_state.specs.Boards.{IsBoard};
ghost use Rattle.jr_desk_state.specs.Takes.{HandsOutOwn, IsTaken, is_finished, is_fitting, WaitsRightly};
ghost use Rattle.jr_desk_totals.specs.Bads.{miscompare_of};

use jr_desk_state::{
    Board, Take, answer_to, end, is_complete, judge, new_board, prepare, start_next,
};
use jr_desk_tickets::TicketTable;
use jr_desk_totals::Bad;
use jr_header::{Ruling, Served};
use jr_model::{DeskFault, Event, Memory, Ticket, Totals, Verdict};
use jr_plan::Plan;
use std::alloc::Global;
use std::marker::Model;

/// The shared state of a run. Every I/O is handed out by it and ends in it.
///
/// A refused call leaves it unchanged, but for `end_judged`: if memory is wanting for the verdict alone, the end was taken in. A call costs
/// a logarithm of what happened; a take also goes past the clones that wait for an overlap, their phase or their round, and past the writes
/// of a round whose checks fly or are barred. It does so again for each write that it skips. It doesn't look at the clones at the front that
/// are at rest, nor at those that have as much in flight as they may.
#[derive(Drop)]
pub struct Desk {
    alloc: Global,
    plan: Plan,
    // (in a box, so that who owns a desk has one thing to give back of it)
    board: Box<Board>,
    is_stopped: bool,
}

impl Model for Desk {
    ghost use Rattle.jr_desk_state.specs.Boards.{IsBoard};
    ghost use Rattle.jr_desk.specs.DeskState.{DeskState};

    ghost Value = { DeskState };

    ghost view = { λ d. record { plan = d.plan; history = d.board.value.history.items; is_stopped = d.is_stopped } };

    ghost invariant = { λ d. IsBoard d.plan d.board.value };
}

impl Desk {
    /// A desk for this plan, before anything is started.
    pub fn new(alloc: Global, plan: Plan) -> Result<Desk, DeskFault>
        ensures ok { IfOk result (λ desk. desk ≡ record { plan = plan; history = []; is_stopped = false }) }
        ensures err { IfErr result (λ fault. fault ≡ DeskFault.Memory) }
    {
        let board = boxed_board(alloc, &plan)?;
        Ok(Desk {
            alloc,
            plan,
            board,
            is_stopped: false,
        })
    }

    /// Hands out the next I/O or check to a worker, if one may be started; writes that are not
    /// checked are skipped on the way.
    pub fn take(&mut self, worker: u32) -> Result<Take, DeskFault>
        ensures stopped { IsTrue self.old.is_stopped → (result ≡ Ok Take.Finished) × (self.new ≡ self.old) }

        // What is appended are the machine's choices, one after another, and the answer is what they start.
        ensures taken { IsFalse self.old.is_stopped → IfOk result (IsTaken self.old.plan worker self.old.history self.new.history) }
        ensures fits { IfOk result (λ answer. is_fitting answer ≡ true) }
        ensures own { IfOk result HandsOutOwn }
        ensures waits { IfOk result (WaitsRightly self.old.plan worker self.new.history) }
        ensures finished { IfOk result (λ answer. is_finished answer
            ≡ (self.old.is_stopped || is_complete self.old.plan self.new.history)) }
        ensures plan { self.new.plan ≡ self.old.plan }
        ensures stop { self.new.is_stopped ≡ self.old.is_stopped }
        ensures err { OnErr result (self.new ≡ self.old) }
        ensures memory { IfErr result (λ fault. fault ≡ DeskFault.Memory) }
    {
        if self.is_stopped {
            return Ok(Take::Finished);
        }
        let board = &mut *self.board;
        prepare(self.alloc, &self.plan, board)?;
        let ticket = start_next(&self.plan, board, worker);
        Ok(answer_to(&self.plan, board, &ticket))
    }

    /// Takes in how an I/O or check ended. The ticket must be one of this desk's.
    pub fn end(&mut self, served: &Served) -> Result<(), DeskFault>
        // Refused as the machine refuses it, and else only for want of memory.
        ensures refused { (own : Bool) → Owns self.old served.now.ticket own
            → IfSome (end_fault self.old served.now.ticket.id own) (λ fault. result ≡ Err fault) }
        ensures taken_in { Owns self.old served.now.ticket true → end_fault self.old served.now.ticket.id true ≡ None
            → IfErr result (λ fault. fault ≡ DeskFault.Memory) }
        ensures ok { OnOk result (self.new ≡ record self.old
            { history = self.old.history ++ Event.End served.now.ticket.worker served.now.ticket.id served.now.outcome ∷ [] }) }
        ensures err { OnErr result (self.new ≡ self.old) }
    {
        self.end_own(served)
    }

    // Takes in an end. A ticket that isn't refused is the desk's own, and had not ended.
    fn end_own(&mut self, served: &Served) -> Result<(), DeskFault>
        ensures refused { (own : Bool) → Owns self.old served.now.ticket own
            → IfSome (end_fault self.old served.now.ticket.id own) (λ fault. result ≡ Err fault) }
        ensures taken_in { Owns self.old served.now.ticket true → end_fault self.old served.now.ticket.id true ≡ None
            → IfErr result (λ fault. fault ≡ DeskFault.Memory) }
        ensures ok { OnOk result (self.new ≡ record self.old
            { history = self.old.history ++ Event.End served.now.ticket.worker served.now.ticket.id served.now.outcome ∷ [] }) }
        ensures own { OnOk result (IsOwn self.old.plan self.old.history served.now.ticket) }
        ensures flying { OnOk result (is_some (outcome_of self.old.history served.now.ticket.id) ≡ false) }
        ensures err { OnErr result (self.new ≡ self.old) }
    {
        let ticket = served.ticket();
        self.check_flying(ticket)?;
        end(
            &self.plan,
            &mut self.board,
            ticket,
            served.outcome(),
            served.expected(),
        )?;
        Ok(())
    }

    /// Takes in how a check ended that ended whole, and the verdict on it, which it gives: what `end` and then `judge` do, but its
    /// ticket is compared once. Where memory is wanting for the verdict alone, the end was taken in.
    pub fn end_judged(&mut self, by: u32, ruling: &Ruling<'_>) -> Result<Verdict, DeskFault>
        // Refused as the machine refuses the end, and else only for want of memory.
        ensures refused { (own : Bool) → Owns self.old ruling.now.ticket own
            → IfSome (end_fault self.old ruling.now.ticket.id own) (λ fault. (result ≡ Err fault) × (self.new ≡ self.old)) }
        ensures taken_in { Owns self.old ruling.now.ticket true → end_fault self.old ruling.now.ticket.id true ≡ None
            → IfErr result (λ fault. fault ≡ DeskFault.Memory) }
        ensures ok { let check = ruling.now.ticket in
            let ended = self.old.history ++ Event.End check.worker check.id ruling.now.outcome ∷ [] in
            IfOk result (λ said. (self.new ≡ record self.old { history = ended ++ Event.Verdict by check.id said ∷ [] })
            × (said ≡ said_of (has_raced ended check.id) (answer_verdict ruling.now))) }
        ensures says { IfOk result (λ said. is_void said ≡ false → said ≡ answer_verdict ruling.now) }
        ensures err { OnErr result ((self.new.plan ≡ self.old.plan) × (self.new.is_stopped ≡ self.old.is_stopped)) }

        // It is as it was, or has taken in the end alone.
        ensures kept { let check = ruling.now.ticket in
            let ended = self.old.history ++ Event.End check.worker check.id ruling.now.outcome ∷ [] in
            IfErr result (λ fault. (self.new ≡ self.old) ⊎ ((fault ≡ DeskFault.Memory) × (self.new ≡ record self.old { history = ended }))) }
    {
        let _ = &self.plan;
        self.end_own(ruling.served())?;
        self.judge_own(by, ruling)
    }

    // Takes in the verdict on a check of this desk's own that ended whole and has none, and gives it.
    fn judge_own(&mut self, by: u32, ruling: &Ruling<'_>) -> Result<Verdict, DeskFault>
        requires own { IsOwn self.old.plan self.old.history ruling.now.ticket }
        requires whole { ended_whole (outcome_of self.old.history ruling.now.ticket.id) ≡ true }
        requires unjudged { is_judged self.old.history ruling.now.ticket.id ≡ false }
        ensures ok { IfOk result (λ said. self.new
            ≡ record self.old { history = self.old.history ++ Event.Verdict by ruling.now.ticket.id said ∷ [] }) }
        ensures said { IfOk result (λ said. said
            ≡ said_of (has_raced self.old.history ruling.now.ticket.id) (answer_verdict ruling.now)) }
        ensures says { IfOk result (λ said. is_void said ≡ false → said ≡ answer_verdict ruling.now) }
        ensures memory { IfErr result (λ fault. fault ≡ DeskFault.Memory) }
        ensures err { OnErr result (self.new ≡ self.old) }
    {
        let ticket = ruling.served().ticket();
        let said = self.said_of(ruling);
        judge(&self.plan, &mut self.board, by, ticket, said)?;
        Ok(said)
    }

    /// Takes in the verdict on a check that ended whole; `by` is the worker or verifier that judged. If the check raced its verdict
    /// is `Void`, whatever the ruling says.
    pub fn judge(&mut self, by: u32, ruling: &Ruling<'_>) -> Result<(), DeskFault>
        // Refused as the machine refuses it, and else only for want of memory.
        ensures refused { (own : Bool) → Owns self.old ruling.now.ticket own
            → IfSome (judge_fault self.old ruling.now.ticket.id own) (λ fault. result ≡ Err fault) }
        ensures taken_in { Owns self.old ruling.now.ticket true → judge_fault self.old ruling.now.ticket.id true ≡ None
            → IfErr result (λ fault. fault ≡ DeskFault.Memory) }
        ensures ok { OnOk result (self.new
            ≡ record self.old {
              history = self.old.history ++ Event.Verdict by ruling.now.ticket.id
                  (said_of (has_raced self.old.history ruling.now.ticket.id) (answer_verdict ruling.now)) ∷ [];
            }) }
        ensures err { OnErr result (self.new ≡ self.old) }
    {
        self.check_judgeable(ruling.served().ticket())?;
        self.judge_own(by, ruling)?;
        Ok(())
    }

    /// What `judge` takes in by this ruling, if the check ended whole and has no verdict: `Void` if it raced, and else the
    /// ruling's verdict.
    pub fn said_of(&self, ruling: &Ruling<'_>) -> Verdict
        ensures verdict { ended_whole (outcome_of self.now.history ruling.now.ticket.id) ≡ true → is_judged self.now.history ruling.now.ticket.id ≡ false
            → result ≡ said_of (has_raced self.now.history ruling.now.ticket.id) (answer_verdict ruling.now) }
        ensures says { is_void result ≡ false → result ≡ answer_verdict ruling.now }
    {
        if self.board.tickets.has_raced(ruling.served().ticket().id) {
            Verdict::Void
        } else {
            ruling.verdict()
        }
    }

    /// Nothing more is handed out or taken in.
    pub fn stop(&mut self)
        ensures { self.new ≡ record self.old { is_stopped = true } }
    {
        self.is_stopped = true;
    }

    /// The plan that it was made for.
    pub fn plan(&self) -> &Plan
        ensures { result.now ≡ self.now.plan }
    {
        &self.plan
    }

    /// What each clone did so far, in the order of the clones.
    pub fn totals(&self) -> &[Totals]
        ensures { result.now ≡ all_totals self.now.plan self.now.history }
    {
        self.board.tallies.totals.as_slice()
    }

    /// The bad verdicts so far, in the order in which they were given.
    pub fn bads(&self) -> &[Bad]
        ensures value { map miscompare_of result.now ≡ miscompares self.now.history }
        ensures legal { is_legal self.now.plan self.now.history ≡ true }
    {
        self.board.tallies.bads.as_slice()
    }

    /// All that happened so far, the oldest first.
    pub fn history(&self) -> &[Event]
        ensures value { result.now ≡ self.now.history }
        ensures legal { is_legal self.now.plan self.now.history ≡ true }
    {
        self.board.history.as_slice()
    }

    /// Whether nothing is in flight, no verdict is missing, and each clone is finished or halted.
    pub fn is_complete(&self) -> bool
        ensures { result ≡ is_complete self.now.plan self.now.history }
    {
        is_complete(&self.plan, &self.board)
    }

    /// Whether it was stopped.
    pub fn is_stopped(&self) -> bool
        ensures { result ≡ self.now.is_stopped }
    {
        self.is_stopped
    }

    /// The ticket that was handed out under this number, if any was.
    pub fn ticket_at(&self, id: u32) -> Option<Ticket>
        ensures { result ≡ slice_get (tickets_of self.now.plan self.now.history) id }
    {
        self.board.tickets.ticket(&self.plan, id)
    }

    /// The tickets that were handed out.
    pub fn tickets(&self) -> &TicketTable
        ensures { IsHanded self.now.plan self.now.history result.now }
    {
        &self.board.tickets
    }

    /// Whether an I/O or check that was handed out has ended.
    pub fn has_ended(&self, id: u32) -> bool
        ensures { result ≡ is_some (outcome_of self.now.history id) }
    {
        self.board.tickets.has_ended(id)
    }

    // Whether it ended with all its bytes.
    fn has_ended_whole(&self, id: u32) -> bool
        ensures { result ≡ ended_whole (outcome_of self.now.history id) }
    {
        self.board.tickets.has_ended_whole(id)
    }

    // Whether it has its verdict.
    fn is_judged(&self, id: u32) -> bool
        ensures { result ≡ is_judged self.now.history id }
    {
        self.board.tickets.is_judged(id)
    }

    // Refuses a ticket whose end would be refused.
    fn check_flying(&self, ticket: &Ticket) -> Result<(), DeskFault>
        ensures refused { (own : Bool) → Owns self.now ticket.now own
            → IfSome (end_fault self.now ticket.now.id own) (λ fault. result ≡ Err fault) }
        ensures taken_in { OnErr result (Owns self.now ticket.now true → end_fault self.now ticket.now.id true ≢ None) }
        ensures own { OnOk result (IsOwn self.now.plan self.now.history ticket.now) }
        ensures flying { OnOk result (is_some (outcome_of self.now.history ticket.now.id) ≡ false) }
    {
        self.check_own(ticket)?;
        if self.has_ended(ticket.id) {
            return Err(DeskFault::Twice);
        }
        Ok(())
    }

    // Refuses a ticket whose verdict would be refused.
    fn check_judgeable(&self, ticket: &Ticket) -> Result<(), DeskFault>
        ensures refused { (own : Bool) → Owns self.now ticket.now own
            → IfSome (judge_fault self.now ticket.now.id own) (λ fault. result ≡ Err fault) }
        ensures taken_in { OnErr result (Owns self.now ticket.now true → judge_fault self.now ticket.now.id true ≢ None) }
        ensures own { OnOk result (IsOwn self.now.plan self.now.history ticket.now) }
        ensures whole { OnOk result (ended_whole (outcome_of self.now.history ticket.now.id) ≡ true) }
        ensures unjudged { OnOk result (is_judged self.now.history ticket.now.id ≡ false) }
    {
        self.check_own(ticket)?;
        if self.is_judged(ticket.id) {
            return Err(DeskFault::Twice);
        }
        if !self.has_ended_whole(ticket.id) {
            return Err(DeskFault::WrongKind);
        }
        Ok(())
    }

    // Refuses a ticket that isn't this desk's own, and every ticket once the desk was stopped.
    fn check_own(&self, ticket: &Ticket) -> Result<(), DeskFault>
        ensures stopped { IsTrue self.now.is_stopped → result ≡ Err DeskFault.Stopped }
        ensures ok { OnOk result (IsOwn self.now.plan self.now.history ticket.now) }
        ensures err { OnErr result (IsFalse self.now.is_stopped → (¬ IsOwn self.now.plan self.now.history ticket.now)
            × (result ≡ Err DeskFault.Stranger)) }
    {
        if self.is_stopped {
            return Err(DeskFault::Stopped);
        }
        if self.board.tickets.is_own(&self.plan, ticket) {
            Ok(())
        } else {
            Err(DeskFault::Stranger)
        }
    }
}

// Before anything happened.
fn boxed_board(alloc: Global, plan: &Plan) -> Result<Box<Board>, Memory>
    ensures board { IfOk result (λ board. IsBoard plan.now board.value) }
    ensures history { IfOk result (λ board. board.value.history.items ≡ []) }
{
    Ok(Box::new(alloc, new_board(alloc, plan)?)?)
}
