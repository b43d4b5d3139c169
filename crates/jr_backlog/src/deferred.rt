use crate::rounds::Rounds;
use jr_model::{Memory, WriteId};
use std::alloc::Global;
use std::marker::Model;

/// The rounds of a clone's writes. A draw is taken in at once and without memory; it is put into its round by the next
/// `commit`, which alone can want memory.
#[derive(Drop)]
pub struct DeferredRounds {
    rounds: Rounds,
    waiting: Option<WriteId>,
    ended: bool,
}

impl Model for DeferredRounds {
    ghost use Rattle.std.specs.Prelude.{◌≡◌, true, IfSome};
    ghost use Rattle.jr_backlog.specs.Rounds.{comes_last, takes_writes};
    ghost use Rattle.jr_backlog.specs.Deferred.{Deferred};

    ghost Value = { Deferred };

    ghost view = { λ d. record { round = d.rounds; waiting = d.waiting; ended = d.ended } };

    // The write that waits can be put in.
    ghost invariant = { λ d. IfSome d.waiting (λ write. (takes_writes d.rounds ≡ true) × (comes_last d.rounds write ≡ true)) };
}

impl DeferredRounds {
    ghost use Rattle.std.specs.Prelude.{◌≡◌, not, ◌&&◌, length, IfSome, IsTrue, OnOk, OnErr, slice_get};
    ghost use Rattle.jr_backlog.specs.Rounds.{comes_last, is_closed, is_due, is_to_check, IsInOrder, new_round};
    ghost use Rattle.jr_backlog.specs.Rounds.{next_to_check, next_to_check_after, takes_writes, with_passed};
    ghost use Rattle.jr_backlog.specs.Deferred.{is_committed, round_now, committed_round, with_draw};

    /// A first round that has no write. A round is due after `limit` writes; if `limit` is 0, only once all draws were
    /// issued.
    pub fn new(alloc: Global, limit: u32) -> DeferredRounds
        ensures { result ≡ committed_round (new_round limit) }
    {
        DeferredRounds {
            rounds: Rounds::new(alloc, limit),
            waiting: None,
            ended: false,
        }
    }

    /// Puts in what was taken in since. The only call that can want memory; a refused one changes nothing.
    pub fn commit(&mut self) -> Result<(), Memory>
        ensures ok { OnOk result (self.new ≡ committed_round (round_now self.old)) }
        ensures err { OnErr result (self.new ≡ self.old) }
    {
        if let Some(write) = self.waiting {
            self.rounds.written(write)?;
        }
        self.waiting = None;
        if self.ended {
            self.rounds.exhausted();
        }
        self.ended = false;
        Ok(())
    }

    /// Takes in a draw that was issued: the write, if it is one, and whether it was the last of its pass.
    pub fn issued(&mut self, write: Option<WriteId>, ended: bool)
        requires settled { IsTrue (is_committed self.old) }
        requires room { IfSome write (λ _. IsTrue (takes_writes self.old.round)) }
        requires last { IfSome write (λ write. IsTrue (comes_last self.old.round write)) }
        ensures { self.new ≡ with_draw self.old write ended }
    {
        self.waiting = write;
        self.ended = ended;
    }

    /// The round is due, and not each of its writes was checked or skipped.
    pub fn is_under_way(&self) -> bool
        requires { IsTrue (is_committed self.now) }
        ensures { result ≡ (is_due self.now.round && not (is_closed self.now.round)) }
    {
        self.rounds.due() && !self.rounds.closed()
    }

    /// The round is due, and each of its writes was checked or skipped.
    pub fn is_closed(&self) -> bool
        ensures { result ≡ is_closed (round_now self.now) }
    {
        self.waiting.is_none() && self.rounds.left() == 0 && (self.ended || self.rounds.due())
    }

    /// How many writes of the round are still to check.
    pub fn left(&self) -> usize
        requires { IsTrue (is_committed self.now) }
        ensures { result ≡ length self.now.round.to_check }
    {
        self.rounds.left()
    }

    /// The first write to check, once the round is due. The desk asks `write_at`; only tests call this.
    pub fn next_check(&self) -> Option<WriteId>
        requires { IsTrue (is_committed self.now) }
        ensures value { result ≡ next_to_check self.now.round }
        ensures in_order { IsInOrder self.now.round.to_check }
    {
        self.rounds.next_check()
    }

    /// The first write to check after this one, once the round is due. The desk asks `write_at`; only tests call this.
    pub fn next_after(&self, write: &WriteId) -> Option<WriteId>
        requires { IsTrue (is_committed self.now) }
        ensures value { result ≡ next_to_check_after self.now.round write.now }
        ensures in_order { IsInOrder self.now.round.to_check }
    {
        self.rounds.next_after(write)
    }

    /// The write to check at this place, counted from 0, whether the round is due or not.
    pub fn write_at(&self, place: usize) -> Option<WriteId>
        requires { IsTrue (is_committed self.now) }
        ensures { result ≡ slice_get self.now.round.to_check place }
    {
        self.rounds.write_at(place)
    }

    /// Takes out a write that was checked or skipped.
    pub fn passed(&mut self, write: WriteId)
        requires settled { IsTrue (is_committed self.old) }
        requires there { IsTrue (is_to_check self.old.round write) }
        ensures { self.new ≡ committed_round (with_passed self.old.round write) }
    {
        self.rounds.passed(write);
    }
}
