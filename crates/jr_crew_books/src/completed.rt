ghost use Rattle.std.specs.Prelude.{◌≡◌, ℕ, List, Option, Some, IsTrue, slice_get};
ghost use Rattle.std.specs.Option.{option_copied, unwrap_or};
ghost use Rattle.jr_model.specs.declared.blocks.Piece.{Piece};
ghost use Rattle.jr_model.specs.declared.contents.Method.{Method as MethodIs};
ghost use Rattle.jr_model.specs.declared.events.Event.{Event as Happened};
ghost use Rattle.jr_model.specs.Plan.{Plan as Planned, clone_of};
ghost use Rattle.jr_desk_tickets.specs.declared.launches.Launch.{Launch as Kept};
ghost use Rattle.jr_desk_tickets.specs.Handing.{IsHanded, expected_again, ticket_again};
ghost use Rattle.jr_desk_tickets.specs.Kept.{tickets_of};
ghost use Rattle.jr_desk_tickets.specs.Tickets.{method_of};
ghost use Rattle.jr_writes.specs.declared.kept.Known.{Known as KnownBytes};
ghost use Rattle.jr_writes.specs.KeptEntries.{made_at};
ghost use Rattle.jr_crew_books.specs.Accounts.{AreMethodsOf, completed_by};
ghost use Rattle.jr_crew_books.specs.BookEntries.{IsKnown, done_as, last_of, no_method};

use crate::account::Account;
use crate::accounts::BookedEnd;
use crate::entries::{BookEntry, BookValues};
use jr_desk_tickets::{Launch, TicketTable};
use jr_model::{IoId, Method, Outcome, TicketKind, is_same_kind, same_write};
use jr_writes::Place;

// Whether an entry of a book stands for what ended so, as the account has it.
pub(crate) fn is_completed(
    account: &Account<'_>,
    methods: &[Method],
    known: &BookValues,
    entry: &BookEntry,
    ending: &BookedEnd,
) -> bool
    requires methods { AreMethodsOf account.now.plan methods.now }
    requires known { IsKnown known.now entry.now }
    ensures { IsTrue result
        → Some (done_as known.now entry.now) ≡ completed_by account.now.plan account.now.history ending.now }
{
    entry.id == ending.io
        && is_same_outcome(entry.outcome, ending.outcome)
        && known.has_verdict(entry, ending.verdict)
        && account.is_own_entry(methods, known, entry)
}

// Whether the ticket of an entry is the one that was handed out under its number, and its bytes are judged by nothing.
pub(crate) fn is_handed(
    tickets: &TicketTable,
    methods: &[Method],
    known: &BookValues,
    entry: &BookEntry,
) -> bool
    ensures { IsTrue result → (plan : Planned) (history : List Happened) → IsHanded plan history tickets.now → AreMethodsOf plan methods.now
        → slice_get (tickets_of plan history) entry.now.id ≡ Some (done_as known.now entry.now).ticket }
{
    match launch_at(tickets, entry.id) {
        Some(launch) => is_launched(methods, known, entry, launch),
        None => false,
    }
}

// What is kept of the ticket of this number.
fn launch_at(tickets: &TicketTable, id: IoId) -> Option<&Launch>
    ensures { option_copied result ≡ slice_get tickets.now.launches.items id }
{
    tickets.launches.get(id as usize)
}

// Whether the entry is of the ticket of which this is kept.
fn is_launched(methods: &[Method], known: &BookValues, entry: &BookEntry, launch: &Launch) -> bool
    ensures { IsTrue result → (plan : Planned) (headers : List (List ℕ)) → AreMethodsOf plan methods.now
        → ticket_again plan headers entry.now.id launch.now ≡ (done_as known.now entry.now).ticket }
{
    entry.worker == launch.worker
        && entry.seed == launch.seed
        && entry.offset == launch.offset
        && entry.file == launch.file
        && entry.len == launch.len
        && is_same_kind(entry.kind, launch.kind)
        && same_write(&entry.write, &launch.write)
        && is_unjudged(launch.kind, entry.expected)
        && has_method(methods, known, entry)
}

// Whether nothing is kept that its bytes are judged by, and nothing is to be.
fn is_unjudged(kind: TicketKind, place: Place) -> bool
    ensures { IsTrue result → (known : KnownBytes) (piece : Piece) (method : MethodIs) (launch : Kept) (back : Option (List ℕ))
        → expected_again kind method launch back ≡ made_at known place piece }
{
    match place {
        Place::Nothing => match kind {
            TicketKind::Read | TicketKind::Write | TicketKind::ReadCheck => true,
            TicketKind::Probe => false,
        },
        Place::Whole(_) | Place::Head(_) | Place::Seed(_) => false,
    }
}

// Whether it is the check of a write.
pub(crate) fn is_probe(kind: TicketKind) -> bool {
    matches!(kind, TicketKind::Probe)
}

// Whether it has the method of its clone.
fn has_method(methods: &[Method], known: &BookValues, entry: &BookEntry) -> bool
    ensures { IsTrue result → (plan : Planned) → AreMethodsOf plan methods.now
        → method_of (clone_of plan entry.now.write.clone) ≡ unwrap_or (last_of known.now.methods.items entry.now.method) no_method }
{
    match methods.get(entry.write.clone as usize) {
        Some(method) => known.has_method(entry, method),
        None => false,
    }
}

fn is_same_outcome(a: Outcome, b: Outcome) -> bool
    ensures { IsTrue result → a ≡ b }
{
    a == b
}
