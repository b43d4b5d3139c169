ghost use Rattle.std.specs.Prelude.{◌≡◌, ◌<◌, ℕ, [], true, List, None, length, map, IfOk, OnOk, OnErr};
ghost use Rattle.std.specs.List.{range_with_len};
ghost use Rattle.jr_model.specs.declared.events.Event.{Event};
ghost use Rattle.jr_model.specs.declared.events.Event.TheVariants.{End};
ghost use Rattle.jr_model.specs.History.{is_write};
ghost use Rattle.jr_model.specs.Plan.{Plan as Planned};
ghost use Rattle.jr_model.specs.Races.{has_raced};
ghost use Rattle.jr_model.specs.Tickets.{piece_fits};
ghost use Rattle.jr_header.specs.Served.{ticket_expected};
ghost use Rattle.jr_writes.specs.LoggedWrites.{logged};
ghost use Rattle.jr_desk_tickets.specs.Kept.{IsOwn};
ghost use Rattle.jr_laws_steps.specs.Nexts.{IsNext, grown};
ghost use Rattle.jr_desk_state.specs.WriteLogs.{IsLog, checks_in, is_checked_file};

use crate::standings::has_rounds;
use jr_model::{Expected, Memory, Outcome, Ticket, TicketKind};
use jr_plan::{Plan, SubJob};
use jr_writes::WriteLog;
use std::alloc::Global;

/// The intact writes in the files that a clone checks. No check asks for those in other files, so nothing is kept of them.
#[derive(Drop)]
pub struct CheckedLog {
    pub writes: WriteLog,
    /// For each file of the plan, whether a clone checks what it writes there.
    pub files: Vec<bool>,
}

impl CheckedLog {
    // Before anything happened.
    pub(crate) fn new(alloc: Global, plan: &Plan) -> Result<CheckedLog, Memory>
        ensures { IfOk result (IsLog plan.now []) }
    {
        Ok(CheckedLog {
            writes: WriteLog::new(alloc),
            files: checked_files(alloc, plan)?,
        })
    }
}

// For each file of the plan, whether a clone checks what it writes there.
fn checked_files(alloc: Global, plan: &Plan) -> Result<Vec<bool>, Memory>
    ensures { IfOk result (λ files. files.items ≡ map (is_checked_file plan.now) (range_with_len 0 (length plan.now.files))) }
{
    let mut files = Vec::new(alloc);
    for file in 0..plan.files().len() {
        files.push(is_checked_file(plan, file))?;
    }
    Ok(files)
}

fn is_checked_file(plan: &Plan, file: usize) -> bool
    ensures { result ≡ is_checked_file plan.now file }
{
    for clone in 0..plan.clones() {
        if checks_in(plan.clone_at(clone), file) {
            return true;
        }
    }
    false
}

fn checks_in(job: &SubJob, file: usize) -> bool
    ensures { result ≡ checks_in file job.now }
{
    has_rounds(job) && job.file() as usize == file
}

// Takes the end of an I/O into the log: a write that ended whole and didn't race is intact from then on, with what its check is
// judged by, and where one raced or ended otherwise no write of its blocks is. A refused call changes nothing.
pub(crate) fn log_end(
    log: &mut CheckedLog,
    ticket: &Ticket,
    outcome: Outcome,
    raced: bool,
    expected: &Expected,
) -> Result<(), Memory>
    requires file { ticket.now.piece.file < length log.old.files.items }
    requires fits { is_write ticket.now.kind ≡ true → piece_fits ticket.now.piece ≡ true }
    requires fresh { is_write ticket.now.kind ≡ true → logged log.old.writes ticket.now.write ≡ None }
    requires expected { is_write ticket.now.kind ≡ true → expected.now ≡ ticket_expected ticket.now }
    ensures kept { OnOk result ((plan : Planned) (history : List Event)
        → IsNext plan history (End ticket.now.worker ticket.now.id outcome)
        → IsOwn plan history ticket.now → raced ≡ has_raced history ticket.now.id → IsLog plan history log.old
        → IsLog plan (grown history (End ticket.now.worker ticket.now.id outcome)) log.new) }
    ensures err { OnErr result (log.new ≡ log.old) }
{
    if ticket.kind != TicketKind::Write || !log.files[ticket.piece.file as usize] {
        return Ok(());
    }
    if outcome == Outcome::Whole && !raced {
        log.writes.settle(ticket.write, ticket.piece, *expected)?;
    } else {
        log.writes.unsettle(&ticket.piece);
    }
    Ok(())
}
