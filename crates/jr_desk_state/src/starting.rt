ghost use Rattle.std.specs.Prelude.{◌≡◌, ◌<◌, ◌++◌, ◌∷◌, List, [], true, length, slice_get, Some};
ghost use Rattle.jr_model.specs.declared.events.Event.{Event as Happening};
ghost use Rattle.jr_model.specs.declared.events.Event.TheVariants.{Issue, Probe, Skip};
ghost use Rattle.jr_model.specs.declared.tickets.TicketKind.TheVariants as ticket;
ghost use Rattle.jr_model.specs.declared.tickets.Ticket.{Ticket as Handed};
ghost use Rattle.jr_model.specs.History.{kind_for, started};
ghost use Rattle.jr_model.specs.Legal.{may_happen};
ghost use Rattle.jr_model.specs.Plan.{Plan as Planned};
ghost use Rattle.jr_laws_log.specs.Flying.{dir_of};
ghost use Rattle.jr_desk_state.specs.Boards.{IsBoard, IsReady, left_of};
ghost use Rattle.jr_desk_state.specs.WriteLogs.{judged_by};
ghost use Rattle.jr_desk_tickets.specs.Handing.{IsHanded};
ghost use Rattle.jr_desk_tickets.specs.Kept.{tickets_of};
ghost use Rattle.jr_desk_tickets.specs.Tickets.{ticket_of};

use crate::board::Board;
use crate::standings::added_by;
use jr_desk_tickets::TicketTable;
use jr_flight::Io;
use jr_model::{Dir, Event, Expected, IoId, IssueKind, Piece, Ticket, TicketKind, WriteId};
use jr_plan::Plan;

// Skips a write.
pub(crate) fn skip(plan: &Plan, board: &mut Board, worker: u32, write: WriteId)
    requires board { IsBoard plan.now board.old }
    requires ready { IsReady plan.now board.old }
    requires may { may_happen plan.now board.old.history.items (Skip worker write) ≡ true }
    ensures board { IsBoard plan.now board.new }
    ensures ready { IsReady plan.now board.new }
    ensures history { board.new.history.items ≡ board.old.history.items ++ Skip worker write ∷ [] }
    ensures fewer { left_of board.new.standings.items < left_of board.old.standings.items }
{
    plan.facts();
    let clone = write.clone as usize;
    board.history.push_reserved(Event::Skip { worker, write });
    board.tallies.skipped(clone);
    board.standings[clone].skip(write);
    board.left -= 1;
}

// Issues a clone's next draw, and gives its ticket.
pub(crate) fn issue(
    plan: &Plan,
    board: &mut Board,
    worker: u32,
    kind: IssueKind,
    write: WriteId,
    piece: Piece,
) -> Ticket
    requires board { IsBoard plan.now board.old }
    requires ready { IsReady plan.now board.old }
    requires may { may_happen plan.now board.old.history.items (Issue worker kind write piece) ≡ true }
    ensures board { IsBoard plan.now board.new }
    ensures history { board.new.history.items ≡ board.old.history.items ++ Issue worker kind write piece ∷ [] }
    ensures ticket { result ≡ ticket_of plan.now (
      length (started board.old.history.items),
      record { worker = worker; kind = kind_for kind; write = write; piece = piece },
    ) }
{
    plan.facts();
    let clone = write.clone as usize;
    let job = plan.clone_at(clone);
    let id = board.tickets.count() as u32;
    let ticket = Ticket {
        id,
        worker,
        kind: kind_for(kind),
        write,
        piece,
        seed: board.standings[clone].issue(job, id, kind, write),
        method: job.method(),
        expected: Expected::Nothing,
    };
    board.history.push_reserved(Event::Issue {
        worker,
        kind,
        write,
        piece,
    });
    board.tickets.hand(&ticket);
    board.flying.start(Io {
        id,
        clone: write.clone,
        piece,
        dir: dir_for(kind),
        declines: job.declines(),
    });
    board.tallies.issued(clone);
    board.last_issued = clone;
    board.left += added_by(job, kind);
    ticket
}

// Checks a write, and gives the check's ticket: that of the write with what its bytes are judged by.
pub(crate) fn probe(
    plan: &Plan,
    board: &mut Board,
    worker: u32,
    write: WriteId,
    piece: Piece,
    expected: Expected,
) -> Ticket
    requires board { IsBoard plan.now board.old }
    requires ready { IsReady plan.now board.old }
    requires may { may_happen plan.now board.old.history.items (Probe worker write piece) ≡ true }
    requires judged { judged_by board.old.log.writes (Probe worker write piece) ≡ Some expected }
    ensures board { IsBoard plan.now board.new }
    ensures history { board.new.history.items ≡ board.old.history.items ++ Probe worker write piece ∷ [] }
    ensures ticket { result ≡ ticket_of plan.now (
      length (started board.old.history.items),
      record { worker = worker; kind = ticket.Probe; write = write; piece = piece },
    ) }
{
    plan.facts();
    let clone = write.clone as usize;
    let job = plan.clone_at(clone);
    let id = board.tickets.count() as u32;
    let io = board.standings[clone].take_up(write.number);
    let ticket = Ticket {
        id,
        worker,
        kind: TicketKind::Probe,
        write,
        piece,
        seed: seed_of(&board.tickets, io),
        method: job.method(),
        expected,
    };
    board.history.push_reserved(Event::Probe {
        worker,
        write,
        piece,
    });
    board.tickets.hand(&ticket);
    board.flying.start(Io {
        id,
        clone: write.clone,
        piece,
        dir: Dir::Read,
        declines: job.declines(),
    });
    board.tallies.probed(clone);
    ticket
}

// The seed of what was handed out under this number.
fn seed_of(tickets: &TicketTable, id: IoId) -> u64
    ensures { (plan : Planned) (history : List Happening) (ticket : Handed) → IsHanded plan history tickets.now
        → slice_get (tickets_of plan history) id ≡ Some ticket → result ≡ ticket.seed }
{
    match tickets.seed(id) {
        None => 0,
        Some(seed) => seed,
    }
}

// The kind of ticket for a draw that is issued so.
fn kind_for(kind: IssueKind) -> TicketKind
    ensures { result ≡ kind_for kind }
{
    match kind {
        IssueKind::Read => TicketKind::Read,
        IssueKind::Write => TicketKind::Write,
        IssueKind::ReadCheck => TicketKind::ReadCheck,
    }
}

// Which way its bytes go.
fn dir_for(kind: IssueKind) -> Dir
    ensures { result ≡ dir_of (kind_for kind) }
{
    match kind {
        IssueKind::Read | IssueKind::ReadCheck => Dir::Read,
        IssueKind::Write => Dir::Write,
    }
}
