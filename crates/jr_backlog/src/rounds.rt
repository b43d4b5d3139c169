ghost use Rattle.std.specs.Prelude.{◌≡◌, ◌<◌, ◌-◌, ◌^◌, length, HoldsAt, IfErr, IfOk, IsTrue, OnOk, OnErr, slice_get};
ghost use Rattle.std.specs.List.Sorted.{IsPartitionPoint};
ghost use Rattle.std.specs.declared.cmp.Ordering.TheVariants.{Less, Equal, Greater};
ghost use Rattle.jr_model.specs.History.{write_order};
ghost use Rattle.jr_backlog.specs.Rounds.{comes_last, is_closed, is_due, is_to_check, IsInOrder, new_round, next_to_check};
ghost use Rattle.jr_backlog.specs.Rounds.{next_to_check_after, takes_writes, with_exhausted, with_passed, with_written};

use jr_model::{Memory, WriteId, same_write};
use std::alloc::Global;
use std::collections::VecDeque;
use std::marker::Model;

/// The rounds of a clone's writes, one after another: a round is filled with writes until it is
/// due, and is closed once each of them was passed, that is, checked or skipped.
#[derive(Drop)]
pub struct Rounds {
    limit: u32,
    // The round's writes, counted no further than the limit.
    count: u32,
    exhausted: bool,
    // In order: a write that is added comes behind all others.
    to_check: VecDeque<WriteId>,
}

// Clauses see the current round.
impl Model for Rounds {
    ghost use Rattle.std.specs.Prelude.{◌≤◌};
    ghost use Rattle.jr_backlog.specs.Rounds.{Round, IsInOrder};

    ghost Value = { Round };

    ghost view = { λ r. record { limit = r.limit; count = r.count; exhausted = r.exhausted; to_check = r.to_check.items } };

    ghost invariant = { λ r. (r.count ≤ r.limit) × IsInOrder r.to_check.items };
}

impl Rounds {
    /// A first round that has no write. A round is due after `limit` writes; if `limit` is 0,
    /// only once all draws were issued.
    pub fn new(alloc: Global, limit: u32) -> Rounds
        ensures { result ≡ new_round limit }
    {
        Rounds {
            limit,
            count: 0,
            exhausted: false,
            to_check: VecDeque::new(alloc),
        }
    }

    /// Adds a write that was issued. It begins the next round if this one is closed. The only
    /// call that takes memory.
    pub fn written(&mut self, write: WriteId) -> Result<(), Memory>
        requires room { IsTrue (takes_writes self.old) }
        requires last { IsTrue (comes_last self.old write) }
        ensures ok { OnOk result (self.new ≡ with_written self.old write) }
        ensures err { OnErr result (self.new ≡ self.old) }
    {
        let begins = self.closed();
        self.to_check.push_back(write)?;
        if begins {
            self.count = 0;
            self.exhausted = false;
        }
        if self.count < self.limit {
            self.count += 1;
        }
        Ok(())
    }

    /// Says that all draws were issued, so that the round is due with the writes that it has.
    pub fn exhausted(&mut self)
        ensures { self.new ≡ with_exhausted self.old }
    {
        self.exhausted = true;
    }

    /// The round has as many writes as the limit, or all draws were issued.
    pub fn due(&self) -> bool
        ensures { result ≡ is_due self.now }
    {
        (self.limit != 0 && self.count == self.limit) || self.exhausted
    }

    /// How many writes of the round are still to check.
    pub fn left(&self) -> usize
        ensures { result ≡ length self.now.to_check }
    {
        self.to_check.len()
    }

    /// The first write to check, once the round is due.
    pub fn next_check(&self) -> Option<WriteId>
        ensures value { result ≡ next_to_check self.now }
        ensures in_order { IsInOrder self.now.to_check }
    {
        let first = self.to_check.front().copied();
        if self.due() { first } else { None }
    }

    /// The first write to check after this one, once the round is due.
    pub fn next_after(&self, write: &WriteId) -> Option<WriteId>
        ensures value { result ≡ next_to_check_after self.now write.now }
        ensures in_order { IsInOrder self.now.to_check }
    {
        let place = match self.place_of(write) {
            Ok(place) => place + 1,
            Err(place) => place,
        };
        let next = self.to_check.get(place).copied();
        if self.due() { next } else { None }
    }

    /// The write to check at this place, counted from 0, whether the round is due or not.
    pub fn write_at(&self, place: usize) -> Option<WriteId>
        ensures { result ≡ slice_get self.now.to_check place }
    {
        self.to_check.get(place).copied()
    }

    /// Takes out a write that was checked or skipped.
    pub fn passed(&mut self, write: WriteId)
        requires { IsTrue (is_to_check self.old write) }
        ensures { self.new ≡ with_passed self.old write }
    {
        if let Ok(place) = self.place_of(&write) {
            let _ = self.to_check.remove(place);
        }
    }

    /// The round is due, and each of its writes was passed.
    pub fn closed(&self) -> bool
        ensures { result ≡ is_closed self.now }
    {
        self.due() && self.to_check.is_empty()
    }

    // Where a write stands among those to check, or where it would. Writes that were issued in a row have numbers in a row: so it is looked
    // for as far behind the first, and then as far before the last, as their numbers are apart, before it is searched for.
    fn place_of(&self, write: &WriteId) -> Result<usize, usize>
        ensures bound { IfOk result (λ place. place < length self.now.to_check) }
        ensures few { IfOk result (λ place. place < 2 ^ 64 - 1) }
        ensures found { IfOk result (HoldsAt (λ other. write_order other write.now ≡ Equal) self.now.to_check) }
        ensures missed { IfErr result (IsPartitionPoint (λ other. write_order other write.now ≡ Less)
            (λ other. write_order other write.now ≡ Greater) self.now.to_check) }
    {
        let near_first = self.behind_first(write);
        if self.is_at(near_first, write) {
            return Ok(near_first);
        }
        let near_last = self.before_last(write);
        if self.is_at(near_last, write) {
            return Ok(near_last);
        }
        match self.to_check.binary_search(write) {
            Ok(place) => Ok(place),
            Err(place) => Err(place),
        }
    }

    // As far behind the first as the numbers are apart.
    fn behind_first(&self, write: &WriteId) -> usize {
        match self.to_check.front() {
            Some(first) => write.number.saturating_sub(first.number) as usize,
            None => 0,
        }
    }

    // As far before the last as the numbers are apart.
    fn before_last(&self, write: &WriteId) -> usize {
        let last_place = self.to_check.len().saturating_sub(1);
        match self.to_check.back() {
            Some(last) => last_place.saturating_sub(
                last.number.saturating_sub(write.number) as usize,
            ),
            None => 0,
        }
    }

    // Whether the write stands at this place.
    fn is_at(&self, place: usize, write: &WriteId) -> bool
        ensures within { IsTrue result → place < length self.now.to_check }
        ensures few { IsTrue result → place < 2 ^ 64 - 1 }
        ensures found { IsTrue result → HoldsAt (λ other. write_order other write.now ≡ Equal) self.now.to_check place }
    {
        match self.to_check.get(place) {
            Some(other) => same_write(other, write),
            None => false,
        }
    }
}
