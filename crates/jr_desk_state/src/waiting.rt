ghost use Rattle.std.specs.Prelude.{◌≡◌, ◌+◌, ◌*◌, ◌^◌, ◌<◌, ◌≤◌, ◌⊎◌, ℕ, true, false, length, IfOk};
ghost use Rattle.std.specs.Int.{bit_at};
ghost use Rattle.jr_desk_state.specs.Boards.{IsBoard};
ghost use Rattle.jr_desk_state.specs.Waitings.{is_marked};

use crate::board::Board;
use crate::resting::is_at_rest;
use jr_desk_totals::Counts;
use jr_model::Memory;
use jr_plan::{Plan, SubJob};
use std::alloc::Global;

// How many clones have their bits in one word.
const BITS: usize = 64;

/// Which clones are known to wait: they start nothing before an I/O or check of their own ends, or are at rest. A clone that isn't marked
/// may wait too.
#[derive(Drop)]
pub struct Waiting {
    /// A bit for each clone, from the lowest bit of the first word on.
    pub words: Vec<u64>,
}

impl Waiting {
    // None of so many is known to.
    pub fn new(alloc: Global, clones: usize) -> Result<Waiting, Memory>
        requires { clones < 2 ^ 32 }
        ensures few { IfOk result (λ waiting. 64 * length waiting.words.items < 2 ^ 64) }
        ensures none { IfOk result (λ waiting. (clone : ℕ) → is_marked waiting.words.items clone ≡ false) }
    {
        Ok(Waiting {
            words: vec![in alloc; 0; clones / BITS + 1]?,
        })
    }

    // The first clone from this one on that isn't known to wait.
    pub fn next_unmarked(&self, from: usize) -> usize
        requires { 64 * length self.now.words.items < 2 ^ 64 }
        ensures start { from ≤ result }
        ensures passed { (clone : ℕ) → from ≤ clone → clone < result → is_marked self.now.words.items clone ≡ true }
    {
        for place in from / BITS..self.words.len() {
            let start = from.max(BITS * place);
            let clone = start + marked_run(self.words[place], start - BITS * place);
            if clone < BITS * (place + 1) {
                return clone;
            }
        }
        from.max(BITS * self.words.len())
    }

    // Marks a clone.
    pub fn mark(&mut self, clone: usize)
        ensures len { length self.new.words.items ≡ length self.old.words.items }
        ensures others { (other : ℕ) → is_marked self.new.words.items other ≡ true
            → (other ≡ clone) ⊎ (is_marked self.old.words.items other ≡ true) }
    {
        let place = clone / BITS;
        if place < self.words.len() {
            self.words[place] |= 1 << (clone % BITS);
        }
    }

    // Takes the mark from a clone.
    pub fn release(&mut self, clone: usize)
        ensures len { length self.new.words.items ≡ length self.old.words.items }
        ensures free { is_marked self.new.words.items clone ≡ false }
        ensures others { (other : ℕ) → is_marked self.new.words.items other ≡ true → is_marked self.old.words.items other ≡ true }
    {
        let place = clone / BITS;
        if place < self.words.len() {
            self.words[place] &= !(1 << (clone % BITS));
        }
    }
}

// How many bits of a word from this one on are set without a gap.
fn marked_run(word: u64, bit: usize) -> usize
    requires { bit < 64 }
    ensures within { bit + result ≤ 64 }
    ensures set { (k : ℕ) → bit ≤ k → k < bit + result → bit_at word k ≡ 1 }
{
    let clear = !word >> bit;
    if clear == 0 {
        return BITS - bit;
    }
    clear.trailing_zeros() as usize
}

// Marks a clone where it has as much in flight as it may.
pub(crate) fn mark_full(plan: &Plan, board: &mut Board, clone: usize)
    requires { IsBoard plan.now board.old }
    ensures board { IsBoard plan.now board.new }
    ensures history { board.new.history.items ≡ board.old.history.items }
{
    if clone < plan.clones()
        && clone < board.tallies.counts.len()
        && is_full(&board.tallies.counts[clone], plan.clone_at(clone))
    {
        board.waiting.mark(clone);
    }
}

// Marks a clone that has come to rest. One that is halted with draws left isn't marked: a look at it costs no more.
pub(crate) fn mark_rested(plan: &Plan, board: &mut Board, clone: usize)
    requires { IsBoard plan.now board.old }
    ensures board { IsBoard plan.now board.new }
    ensures history { board.new.history.items ≡ board.old.history.items }
{
    if clone < board.standings.len()
        && board.standings[clone].draws.is_over()
        && is_at_rest(plan, board, clone)
    {
        board.waiting.mark(clone);
    }
}

// Whether that much is in flight.
fn is_full(counts: &Counts, job: &SubJob) -> bool
    ensures { result ≡ true → job.now.depth ≤ counts.now.issues + counts.now.checks }
{
    counts.issues.saturating_add(counts.checks) >= job.depth()
}

// Takes the mark from a clone of which something ends.
pub(crate) fn release(plan: &Plan, board: &mut Board, clone: usize)
    requires { IsBoard plan.now board.old }
    ensures board { IsBoard plan.now board.new }
    ensures history { board.new.history.items ≡ board.old.history.items }
    ensures free { is_marked board.new.waiting.words.items clone ≡ false }
{
    // Its invariant is the board's.
    let _ = plan;
    board.waiting.release(clone);
}
