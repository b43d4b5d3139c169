ghost use Rattle.std.specs.Prelude.{◌≡◌, ◌<◌, ℕ, List, [], length, slice_get, IfOk, OnOk, Option, Some};
ghost use Rattle.jr_model.specs.declared.events.Event.{Event as Happening};
ghost use Rattle.jr_model.specs.History.{started};
ghost use Rattle.jr_model.specs.declared.events.Started.{Started};
ghost use Rattle.jr_model.specs.Plan.{SubJob as Clone, clone_of};
ghost use Rattle.jr_desk_state.specs.Boards.{IsBoard, IsReady, left_of};
ghost use Rattle.jr_desk_state.specs.Standings.{AreOthersPrepared, ArePrepared, AreStanding};
ghost use Rattle.jr_desk_state.specs.declared.standings.Standing.{Standing as Stood};
ghost use Rattle.jr_model.specs.Legal.{is_complete};
ghost use Rattle.jr_desk_state.specs.Takes.{IsChosen, answer_with, ticket_for};

use crate::board::Board;
use crate::choosing::{choose, expected_of};
use crate::flying::Flying;
use crate::resting::{Rested, go_past_rested, is_complete, last_phase};
use crate::standings::Standing;
use crate::starting::{issue, probe, skip};
use crate::takes::{Take, answer_with};
use crate::waiting::{Waiting, mark_full};
use crate::written::CheckedLog;
use jr_desk_tickets::TicketTable;
use jr_desk_totals::Tallies;
use jr_model::{Event, Memory, Ticket};
use jr_plan::Plan;
use std::alloc::Global;

/// Before anything happened.
pub fn new_board(alloc: Global, plan: &Plan) -> Result<Board, Memory>
    ensures board { IfOk result (IsBoard plan.now) }
    ensures history { IfOk result (λ board. board.history.items ≡ []) }
{
    let waiting = Waiting::new(alloc, plan.clones())?;
    let standings = first_standings(alloc, plan)?;
    let flying = Flying::new(alloc)?;
    let tallies = Tallies::new(alloc, plan)?;
    let log = CheckedLog::new(alloc, plan)?;
    Ok(Board {
        history: Vec::new(alloc),
        tickets: TicketTable::new(alloc),
        flying,
        log,
        tallies,
        standings,
        rested: Rested {
            leading: 0,
            earliest: plan.clones(),
            last_phase: last_phase(plan),
        },
        waiting,
        last_issued: 0,
        left: 0,
    })
}

// Where each clone stands before its first draw, for which it is prepared.
fn first_standings(alloc: Global, plan: &Plan) -> Result<Vec<Standing>, Memory>
    ensures stand { IfOk result (λ standings. AreStanding plan.now [] standings.items) }
    ensures prepared { IfOk result (λ standings. ArePrepared plan.now standings.items) }
    ensures left { IfOk result (λ standings. left_of standings.items ≡ 0) }
{
    let mut standings = Vec::new(alloc);
    for clone in 0..plan.clones() {
        let job = plan.clone_at(clone);
        standings.push(Standing::new(alloc, job)?)?;
        standings[clone].prepare(alloc, job)?;
    }
    Ok(standings)
}

/// Asks for all memory that a take can want. What happened is the same, whether it is refused or not.
pub fn prepare(alloc: Global, plan: &Plan, board: &mut Board) -> Result<(), Memory>
    requires { IsBoard plan.now board.old }
    ensures board { IsBoard plan.now board.new }
    ensures history { board.new.history.items ≡ board.old.history.items }
    ensures ready { OnOk result (IsReady plan.now board.new) }
{
    go_past_rested(plan, board);
    board.flying.commit()?;
    board.tickets.reserve()?;
    prepare_last(alloc, plan, board.last_issued, &mut board.standings)?;
    let most = board.left.saturating_add(1);
    board.history.reserve(most)?;
    Ok(())
}

/// Starts the next I/O or check for a worker, if one may be started; writes that are not checked are skipped on the way.
pub fn start_next(plan: &Plan, board: &mut Board, worker: u32) -> Option<Ticket>
    requires board { IsBoard plan.now board.old }
    requires ready { IsReady plan.now board.old }
    ensures board { IsBoard plan.now board.new }
    ensures taken { (io : Option Started) × IsChosen plan.now worker board.old.history.items board.new.history.items io
        × (result ≡ ticket_for plan.now (length (started board.old.history.items)) io) }
{
    'choices: loop {
        let Some(chosen) = choose(plan, board, worker) else {
            return None;
        };
        match chosen.event {
            Event::Skip { write, .. } => skip(plan, board, worker, write),
            Event::Issue {
                kind,
                write,
                piece,
                ..
            } => {
                let ticket = issue(plan, board, worker, kind, write, piece);
                mark_full(plan, board, write.clone as usize);
                return Some(ticket);
            }
            Event::Probe { write, piece, .. } => {
                let expected = expected_of(&chosen.found);
                let ticket = probe(plan, board, worker, write, piece, expected);
                mark_full(plan, board, write.clone as usize);
                return Some(ticket);
            }
            // These two are no choice.
            Event::End { .. } => return None,
            Event::Verdict { .. } => return None,
        }
    }
}

// Prepares the clone that issued a draw last for its next one, as the others are already. Where the clones stand is the same,
// whether it is refused or not.
fn prepare_last(
    alloc: Global,
    plan: &Plan,
    last: usize,
    standings: &mut Vec<Standing>,
) -> Result<(), Memory>
    requires count { length standings.old.items ≡ length plan.now.clones }
    requires within { (clone : ℕ) (job : Clone) (standing : Stood) → clone_of plan.now clone ≡ Some job
        → slice_get standings.old.items clone ≡ Some standing → standing.pass < job.passes }
    requires others { AreOthersPrepared plan.now last standings.old.items }
    ensures kept { (history : List Happening) → AreStanding plan.now history standings.old.items
        → AreStanding plan.now history standings.new.items }
    ensures others { AreOthersPrepared plan.now last standings.new.items }
    ensures prepared { OnOk result (ArePrepared plan.now standings.new.items) }
    ensures left { left_of standings.new.items ≡ left_of standings.old.items }
{
    if last >= plan.clones() {
        return Ok(());
    }
    standings[last].prepare(alloc, plan.clone_at(last))?;
    Ok(())
}

/// The answer to a take that handed out this ticket, if it did.
pub fn answer_to(plan: &Plan, board: &Board, ticket: &Option<Ticket>) -> Take
    requires { IsBoard plan.now board.now }
    ensures { result ≡ answer_with (is_complete plan.now board.now.history.items) ticket.now }
{
    match ticket {
        None => answer_with(is_complete(plan, board), ticket),
        Some(_) => answer_with(false, ticket),
    }
}
