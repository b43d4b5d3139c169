ghost use Rattle.std.specs.Prelude.{◌≡◌, ◌∷◌, [], ◌++◌, IfOk, filter, filter_map, slice_get};
ghost use Rattle.jr_model.specs.History.{started, flies, in_flight, awaiting, if_flying, if_awaiting};
ghost use Rattle.jr_model.specs.Races.{has_raced};
ghost use Rattle.jr_replay_history.specs.Raced.{AreRaced};
ghost use Rattle.jr_replay_history.specs.Unfinished.{is_unfinished, unfinished};

use crate::events::{ended_whole, is_judged_kind, started_by};
use crate::ledgers::Ledger;
use crate::races::mark_raced;
use jr_model::{Event, Memory, Started};
use std::alloc::Global;
use std::collections::HashSet;
use std::marker::Model;

/// A history, with what many questions about it need worked out. Contracts see the list of its
/// events.
#[derive(Drop)]
pub struct Past {
    ledger: Ledger,
    // What is in flight or awaits its verdict, with its numbers.
    pending: Vec<(usize, Started)>,
    flying: Vec<Started>,
    waiting: Vec<Started>,
    // The numbers of those that raced.
    raced: HashSet<usize>,
}

impl Model for Past {
    ghost use Rattle.std.specs.Prelude.{List};
    ghost use Rattle.jr_model.specs.declared.events.Event.{Event};
    ghost use Rattle.jr_replay_history.specs.Unfinished.{IsWorkedOut};

    ghost Value = { List Event };

    ghost view = { λ p. p.ledger };

    ghost invariant = { λ p. IsWorkedOut p.ledger p.pending.items p.flying.items p.waiting.items p.raced };
}

impl Past {
    /// Works a history out.
    pub fn new(alloc: Global, events: &[Event]) -> Result<Past, Memory>
        ensures { IfOk result (λ past. past ≡ events.now) }
    {
        let mut past = nothing(alloc)?;
        for event in events {
            past = past.followed_by(alloc, *event)?;
        }
        Ok(past)
    }

    /// The history with one more event, from what was worked out of the one before.
    pub fn followed_by(self, alloc: Global, event: Event) -> Result<Past, Memory>
        ensures { IfOk result (λ past. past ≡ self ++ event ∷ []) }
    {
        let Past {
            ledger,
            mut pending,
            flying,
            mut raced,
            ..
        } = self;
        let new = started_by(&event);
        mark_raced(
            &mut raced,
            &ledger,
            pending.as_slice(),
            flying.as_slice(),
            new,
        )?;
        match new {
            None => {}
            Some(io) => pending.push((ledger.started().len(), io))?,
        }
        let ledger = ledger.followed_by(alloc, event)?;
        over(alloc, ledger, pending.as_slice(), raced)
    }

    /// What its events say, to be looked up.
    pub fn ledger(&self) -> &Ledger
        ensures { result.now ≡ self.now }
    {
        &self.ledger
    }

    /// Its events, the oldest first.
    pub fn events(&self) -> &[Event]
        ensures { result.now ≡ self.now }
    {
        self.ledger.events()
    }

    /// All I/Os and checks that were started, each at the place of its number.
    pub fn started(&self) -> &[Started]
        ensures { result.now ≡ started self.now }
    {
        self.ledger.started()
    }

    /// What is in flight.
    pub fn in_flight(&self) -> &[Started]
        ensures { result.now ≡ in_flight self.now }
    {
        self.flying.as_slice()
    }

    /// The checks and checked reads whose verdicts are still to come.
    pub fn awaiting(&self) -> &[Started]
        ensures { result.now ≡ awaiting self.now }
    {
        self.waiting.as_slice()
    }

    /// The I/O or check of this number.
    pub fn started_at(&self, io: usize) -> Option<Started>
        ensures { result ≡ slice_get (started self.now) io }
    {
        self.ledger.started_at(io)
    }

    /// Whether the I/O or check of this number is in flight.
    pub fn flies(&self, io: usize) -> bool
        ensures { result ≡ flies self.now io }
    {
        self.ledger.flies(io)
    }

    /// Whether a write overlapped the I/O or check of this number while both were in flight.
    pub fn has_raced(&self, io: usize) -> bool
        ensures { result ≡ has_raced self.now io }
    {
        self.raced.contains(&io)
    }

    // The numbers of those that raced.
    pub(crate) fn raced(&self) -> &HashSet<usize>
        ensures { AreRaced self.now result.now }
    {
        &self.raced
    }
}

// The history in which nothing happened.
fn nothing(alloc: Global) -> Result<Past, Memory>
    ensures { IfOk result (λ past. past ≡ []) }
{
    let ledger = Ledger::new(alloc, Vec::new(alloc))?;
    over(alloc, ledger, &[], HashSet::new(alloc))
}

// A history, where the unfinished among these are all that it has, and these raced.
fn over(
    alloc: Global,
    ledger: Ledger,
    among: &[(usize, Started)],
    raced: HashSet<usize>,
) -> Result<Past, Memory>
    requires unfinished { filter (is_unfinished ledger) among.now ≡ unfinished ledger }
    requires raced { AreRaced ledger raced }
    ensures { IfOk result (λ past. past ≡ ledger) }
{
    let pending = unfinished_among(alloc, &ledger, among)?;
    let flying = flying_among(alloc, &ledger, pending.as_slice())?;
    let waiting = waiting_among(alloc, &ledger, pending.as_slice())?;
    Ok(Past {
        ledger,
        pending,
        flying,
        waiting,
        raced,
    })
}

// Those of these I/Os that are in flight or await their verdicts.
fn unfinished_among(
    alloc: Global,
    ledger: &Ledger,
    ios: &[(usize, Started)],
) -> Result<Vec<(usize, Started)>, Memory>
    ensures { IfOk result (λ v. v.items ≡ filter (is_unfinished ledger.now) ios.now) }
{
    let pending: Vec<(usize, Started)> = ios
        .iter()
        .filter(|io| is_unfinished(ledger, io))
        .copied()
        .collect(alloc)?;
    Ok(pending)
}

#[tactic(auto, unfolding(crate::specs::Unfinished::is_unfinished))]
fn is_unfinished(ledger: &Ledger, io: &(usize, Started)) -> bool
    ensures { result ≡ is_unfinished ledger.now io.now }
{
    if_flying(ledger, io).is_some() || if_awaiting(ledger, io).is_some()
}

// Those of these I/Os that have not ended.
fn flying_among(
    alloc: Global,
    ledger: &Ledger,
    ios: &[(usize, Started)],
) -> Result<Vec<Started>, Memory>
    ensures { IfOk result (λ v. v.items ≡ filter_map (if_flying ledger.now) ios.now) }
{
    let flying: Vec<Started> = ios
        .iter()
        .filter_map(|io| if_flying(ledger, io))
        .collect(alloc)?;
    Ok(flying)
}

// This I/O, where it has not ended.
fn if_flying(ledger: &Ledger, io: &(usize, Started)) -> Option<Started>
    ensures { result ≡ if_flying ledger.now io.now }
{
    if ledger.outcome_of(io.0).is_none() {
        Some(io.1)
    } else {
        None
    }
}

// Those of these I/Os that get a verdict, ended whole and have none.
fn waiting_among(
    alloc: Global,
    ledger: &Ledger,
    ios: &[(usize, Started)],
) -> Result<Vec<Started>, Memory>
    ensures { IfOk result (λ v. v.items ≡ filter_map (if_awaiting ledger.now) ios.now) }
{
    let waiting: Vec<Started> = ios
        .iter()
        .filter_map(|io| if_awaiting(ledger, io))
        .collect(alloc)?;
    Ok(waiting)
}

// This I/O, where it gets a verdict, ended whole and has none.
fn if_awaiting(ledger: &Ledger, io: &(usize, Started)) -> Option<Started>
    ensures { result ≡ if_awaiting ledger.now io.now }
{
    if is_judged_kind(io.1.kind)
        && ended_whole(ledger.outcome_of(io.0))
        && !ledger.is_judged(io.0)
    {
        Some(io.1)
    } else {
        None
    }
}
