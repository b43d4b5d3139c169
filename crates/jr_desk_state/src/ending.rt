ghost use Rattle.std.specs.Prelude.{◌≡◌, ◌+◌, ◌≤◌, ◌++◌, ◌∷◌, [], ℕ, true, false, List, slice_get, Some, OnOk, OnErr};
ghost use Rattle.jr_model.specs.declared.events.Event.{Event as Happening};
ghost use Rattle.jr_model.specs.declared.events.Event.TheVariants.{End, Verdict as Judged};
ghost use Rattle.jr_model.specs.declared.events.Outcome.TheVariants.{Whole};
ghost use Rattle.jr_model.specs.declared.events.Started.{Started};
ghost use Rattle.jr_model.specs.History.{started, is_probe, is_write};
ghost use Rattle.jr_model.specs.Legal.{may_happen, is_halted as is_halted_after};
ghost use Rattle.jr_model.specs.Plan.{Plan as Planned, SubJob as Clone, clone_of};
ghost use Rattle.jr_header.specs.Served.{ticket_expected};
ghost use Rattle.jr_backlog.specs.Rounds.{is_to_check};
ghost use Rattle.jr_backlog.specs.Deferred.{is_committed};
ghost use Rattle.jr_desk_state.specs.Boards.{IsBoard};
ghost use Rattle.jr_desk_tickets.specs.Kept.{IsOwn};
ghost use Rattle.jr_laws_steps.specs.Nexts.{IsNext, grown};
ghost use Rattle.jr_desk_state.specs.Standings.{IsPrepared, IsStanding, left_in};
ghost use Rattle.jr_desk_state.specs.Waitings.{is_marked};

use crate::board::Board;
use crate::standings::Standing;
use crate::waiting::{mark_rested, release};
use crate::written::log_end;
use jr_model::{Event, Expected, Memory, Outcome, Ticket, TicketKind, Verdict};
use jr_plan::Plan;

/// Takes in how an I/O or check ended.
pub fn end(
    plan: &Plan,
    board: &mut Board,
    ticket: &Ticket,
    outcome: Outcome,
    expected: &Expected,
) -> Result<(), Memory>
    requires board { IsBoard plan.now board.old }
    requires own { IsOwn plan.now board.old.history.items ticket.now }
    requires may { may_happen plan.now board.old.history.items (End ticket.now.worker ticket.now.id outcome) ≡ true }
    requires expected { is_write ticket.now.kind ≡ true → expected.now ≡ ticket_expected ticket.now }
    ensures board { IsBoard plan.now board.new }
    ensures ok { OnOk result (board.new.history.items ≡ board.old.history.items ++ End ticket.now.worker ticket.now.id outcome ∷ []) }
    ensures err { OnErr result (board.new.history.items ≡ board.old.history.items) }
{
    let clone = ticket.write.clone as usize;
    release(plan, board, clone);
    end_released(plan, board, ticket, outcome, expected)?;
    mark_rested(plan, board, clone);
    Ok(())
}

// Takes in an end whose clone isn't known to wait for one.
fn end_released(
    plan: &Plan,
    board: &mut Board,
    ticket: &Ticket,
    outcome: Outcome,
    expected: &Expected,
) -> Result<(), Memory>
    requires board { IsBoard plan.now board.old }
    requires own { IsOwn plan.now board.old.history.items ticket.now }
    requires may { may_happen plan.now board.old.history.items (End ticket.now.worker ticket.now.id outcome) ≡ true }
    requires free { is_marked board.old.waiting.words.items ticket.now.write.clone ≡ false }
    requires expected { is_write ticket.now.kind ≡ true → expected.now ≡ ticket_expected ticket.now }
    ensures board { IsBoard plan.now board.new }
    ensures ok { OnOk result (board.new.history.items ≡ board.old.history.items ++ End ticket.now.worker ticket.now.id outcome ∷ []) }
    ensures err { OnErr result (board.new.history.items ≡ board.old.history.items) }
{
    plan.facts();
    let clone = ticket.write.clone as usize;
    board.history.reserve(1)?;
    board.standings[clone].rounds.commit()?;
    let raced = board.flying.has_raced(ticket.id);
    log_end(&mut board.log, ticket, outcome, raced, expected)?;
    board.history.push_reserved(Event::End {
        worker: ticket.worker,
        io: ticket.id,
        outcome,
    });
    let is_halted = board.tallies.counts[clone].is_halted;
    let passed = check_off(&mut board.standings[clone], ticket, outcome, is_halted);
    board.left -= passed;
    board.tickets.end(ticket.id, outcome, raced);
    board.flying.end(ticket.id);
    board
        .tallies
        .ended(clone, ticket.kind, ticket.piece.len, outcome);
    Ok(())
}

/// Takes in the verdict on a check that ended whole.
pub fn judge(
    plan: &Plan,
    board: &mut Board,
    by: u32,
    ticket: &Ticket,
    verdict: Verdict,
) -> Result<(), Memory>
    requires board { IsBoard plan.now board.old }
    requires own { IsOwn plan.now board.old.history.items ticket.now }
    requires may { may_happen plan.now board.old.history.items (Judged by ticket.now.id verdict) ≡ true }
    ensures board { IsBoard plan.now board.new }
    ensures ok { OnOk result (board.new.history.items ≡ board.old.history.items ++ Judged by ticket.now.id verdict ∷ []) }
    ensures err { OnErr result (board.new.history.items ≡ board.old.history.items) }
{
    judge_one(plan, board, by, ticket, verdict)?;
    mark_rested(plan, board, ticket.write.clone as usize);
    Ok(())
}

// Takes in a verdict where no clone is marked for it.
fn judge_one(
    plan: &Plan,
    board: &mut Board,
    by: u32,
    ticket: &Ticket,
    verdict: Verdict,
) -> Result<(), Memory>
    requires board { IsBoard plan.now board.old }
    requires own { IsOwn plan.now board.old.history.items ticket.now }
    requires may { may_happen plan.now board.old.history.items (Judged by ticket.now.id verdict) ≡ true }
    ensures board { IsBoard plan.now board.new }
    ensures ok { OnOk result (board.new.history.items ≡ board.old.history.items ++ Judged by ticket.now.id verdict ∷ []) }
    ensures err { OnErr result (board.new.history.items ≡ board.old.history.items) }
{
    plan.facts();
    board.history.reserve(1)?;
    board.tallies.reserve()?;
    board.history.push_reserved(Event::Verdict {
        worker: by,
        io: ticket.id,
        verdict,
    });
    let is_fatal = plan.clone_at(ticket.write.clone as usize).is_fatal();
    board.tickets.judge(ticket.id);
    board
        .tallies
        .judged(ticket.write, ticket.piece, is_fatal, verdict);
    Ok(())
}

// Takes the end of an I/O into where its clone stands: a check that ended whole leaves its round, unless the clone was halted. Says
// how many did.
fn check_off(standing: &mut Standing, ticket: &Ticket, outcome: Outcome, is_halted: bool) -> usize
    requires settled { is_committed standing.old.rounds ≡ true }
    requires left { is_probe ticket.now.kind ≡ true → outcome ≡ Whole → is_halted ≡ false
        → is_to_check standing.old.rounds.round ticket.now.write ≡ true }
    ensures kept { (plan : Planned) (history : List Happening) (job : Clone) (worker id : ℕ) (io : Started)
        → IsNext plan history (End worker id outcome) → slice_get (started history) id ≡ Some io
        → io.kind ≡ ticket.now.kind → io.write ≡ ticket.now.write → clone_of plan io.write.clone ≡ Some job
        → is_halted ≡ is_halted_after history job → IsStanding history job standing.old
        → IsStanding (grown history (End worker id outcome)) job standing.new }
    ensures prepared { (job : Clone) → IsPrepared job standing.old → IsPrepared job standing.new }
    ensures left { left_in standing.new + result ≤ left_in standing.old }
{
    if ticket.kind == TicketKind::Probe && outcome == Outcome::Whole && !is_halted {
        standing.checked(ticket.write);
        1
    } else {
        0
    }
}
