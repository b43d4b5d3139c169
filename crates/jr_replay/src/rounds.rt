ghost use Rattle.std.specs.Prelude.{◌≡◌, ◌==◌, ◌&&◌, not, length, reverse};
ghost use Rattle.std.specs.List.{list_any, list_all, range_with_len};
ghost use Rattle.jr_model.specs.declared.events.Started.{Started};
ghost use Rattle.jr_model.specs.History.{in_flight_of};
ghost use Rattle.jr_model.specs.Rounds.{write_id, group_of, group_count, issued_count, all_issued, is_full, is_settled};
ghost use Rattle.jr_model.specs.Rounds.{is_closed, no_issue_flies, is_open, waits_for_round, rounds_closed, nothing_flies_of};
ghost use Rattle.jr_model.specs.Rounds.{nothing_flies_in, pass_finished};
ghost use Rattle.jr_replay.specs.Rounds.{is_full_at};

use jr_model::{Draw, WriteId};
use jr_replay_history::{Ledger, Past, is_of_clone, is_probe};
use jr_replay_passes::{PlannedPass, has_rounds};

/// How many I/Os and checks a clone has in flight.
pub(crate) fn flying_count(past: &Past, clone: u32) -> usize
    ensures { result ≡ length (in_flight_of past.now clone) }
{
    past.in_flight()
        .iter()
        .filter(|io| is_of_clone(clone, io))
        .count()
}

/// How many draws of a pass were issued.
pub(crate) fn issued_count(ledger: &Ledger, pass: &PlannedPass<'_>) -> usize
    ensures { result ≡ issued_count ledger.now pass.now }
{
    ledger.issued_count(pass.job().clone_number(), pass.number())
}

/// Whether all draws of a pass were issued.
pub(crate) fn all_issued(ledger: &Ledger, pass: &PlannedPass<'_>) -> bool
    ensures { result ≡ all_issued ledger.now pass.now }
{
    issued_count(ledger, pass) == pass.draws().len()
}

// Whether a group has as many issued writes as it can have, where so many draws of its pass were
// issued.
fn is_full_at(issued: usize, pass: &PlannedPass<'_>, g: usize) -> bool
    ensures { result ≡ is_full_at issued pass.now g }
{
    issued == pass.draws().len() || pass.is_reached(g, issued)
}

/// Whether a group has as many issued writes as it can have: all, or as many as the backlog.
pub(crate) fn is_full(ledger: &Ledger, pass: &PlannedPass<'_>, g: usize) -> bool
    ensures { result ≡ is_full ledger.now pass.now g }
{
    is_full_at(issued_count(ledger, pass), pass, g)
}

/// Whether a write was skipped, or its check ended.
pub(crate) fn is_settled(ledger: &Ledger, write: &WriteId) -> bool
    ensures { result ≡ is_settled ledger.now write.now }
{
    ledger.is_settled(write)
}

// Whether each write of some draws is settled; the last ones are the least likely to be.
fn all_settled(ledger: &Ledger, pass: &PlannedPass<'_>, draws: &[Draw]) -> bool
    ensures { result
        ≡ list_all (λ draw. is_settled ledger.now (write_id pass.now draw)) (reverse draws.now) }
{
    draws
        .iter()
        .rev()
        .all(|draw| is_settled(ledger, &pass.write_id(draw)))
}

// Whether each write of a group is settled.
fn group_settled(ledger: &Ledger, pass: &PlannedPass<'_>, g: usize) -> bool
    ensures { result
        ≡ list_all (λ draw. is_settled ledger.now (write_id pass.now draw)) (group_of pass.now g) }
{
    all_settled(ledger, pass, pass.group(g))
}

/// Whether a group is full and each of its writes is settled.
pub(crate) fn is_closed(ledger: &Ledger, pass: &PlannedPass<'_>, g: usize) -> bool
    ensures { result ≡ is_closed ledger.now pass.now g }
{
    is_full(ledger, pass, g) && group_settled(ledger, pass, g)
}

/// Whether no read or write of the clone is in flight; checks may be.
pub(crate) fn no_issue_flies(past: &Past, clone: u32) -> bool
    ensures { result ≡ no_issue_flies past.now clone }
{
    past.in_flight()
        .iter()
        .filter(|io| is_of_clone(clone, io))
        .all(|io| is_probe(io.kind))
}

/// Whether the writes of a group are to be checked or skipped now.
pub(crate) fn is_open(past: &Past, pass: &PlannedPass<'_>, g: usize) -> bool
    ensures { result ≡ is_open past.now pass.now g }
{
    is_full(past.ledger(), pass, g)
        && !is_closed(past.ledger(), pass, g)
        && no_issue_flies(past, pass.job().clone_number())
}

// Whether a group is full and not closed, where so many draws of its pass were issued.
pub(crate) fn is_pending(ledger: &Ledger, pass: &PlannedPass<'_>, issued: usize, g: usize) -> bool
    requires { issued ≡ issued_count ledger.now pass.now }
    ensures { result ≡ (is_full ledger.now pass.now g && not (is_closed ledger.now pass.now g)) }
{
    is_full_at(issued, pass, g) && !group_settled(ledger, pass, g)
}

fn any_pending(ledger: &Ledger, pass: &PlannedPass<'_>, issued: usize) -> bool
    requires { issued ≡ issued_count ledger.now pass.now }
    ensures { result
        ≡ list_any (λ g. is_full ledger.now pass.now g && not (is_closed ledger.now pass.now g))
        (range_with_len 0 (group_count pass.now)) }
{
    (0..pass.group_count()).any(|g| is_pending(ledger, pass, issued, g))
}

/// Whether some group of the pass is full and not closed.
pub(crate) fn waits_for_round(ledger: &Ledger, pass: &PlannedPass<'_>) -> bool
    ensures { result ≡ waits_for_round ledger.now pass.now }
{
    has_rounds(pass.job()) && any_pending(ledger, pass, issued_count(ledger, pass))
}

// Whether a group is closed, where so many draws of its pass were issued.
fn is_closed_at(ledger: &Ledger, pass: &PlannedPass<'_>, issued: usize, g: usize) -> bool
    requires { issued ≡ issued_count ledger.now pass.now }
    ensures { result ≡ is_closed ledger.now pass.now g }
{
    is_full_at(issued, pass, g) && group_settled(ledger, pass, g)
}

fn all_closed(ledger: &Ledger, pass: &PlannedPass<'_>, issued: usize) -> bool
    requires { issued ≡ issued_count ledger.now pass.now }
    ensures { result
        ≡ list_all (λ g. is_closed ledger.now pass.now g) (range_with_len 0 (group_count pass.now)) }
{
    (0..pass.group_count()).all(|g| is_closed_at(ledger, pass, issued, g))
}

/// Whether each group of the pass is closed.
pub(crate) fn rounds_closed(ledger: &Ledger, pass: &PlannedPass<'_>) -> bool
    ensures { result ≡ rounds_closed ledger.now pass.now }
{
    !has_rounds(pass.job()) || all_closed(ledger, pass, issued_count(ledger, pass))
}

/// Whether nothing of the clone is in flight.
pub(crate) fn nothing_flies_of(past: &Past, clone: u32) -> bool
    ensures { result ≡ nothing_flies_of past.now clone }
{
    flying_count(past, clone) == 0
}

// Whether something of the clone's pass is in flight.
fn flies_in(past: &Past, clone: u32, pass: u32) -> bool
    ensures { result
        ≡ list_any (λ (io : Started). io.write.pass == pass) (in_flight_of past.now clone) }
{
    past.in_flight()
        .iter()
        .filter(|io| is_of_clone(clone, io))
        .any(|io| io.write.pass == pass)
}

/// Whether nothing of the pass is in flight.
pub(crate) fn nothing_flies_in(past: &Past, pass: &PlannedPass<'_>) -> bool
    ensures { result ≡ nothing_flies_in past.now pass.now }
{
    !flies_in(past, pass.job().clone_number(), pass.number())
}

/// Whether all draws of the pass were issued, none is in flight, and its rounds are closed.
pub(crate) fn pass_finished(past: &Past, pass: &PlannedPass<'_>) -> bool
    ensures { result ≡ pass_finished past.now pass.now }
{
    all_issued(past.ledger(), pass)
        && nothing_flies_in(past, pass)
        && rounds_closed(past.ledger(), pass)
}
