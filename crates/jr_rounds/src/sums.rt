ghost use Rattle.std.specs.Prelude.{◌≡◌, ◌++◌, ◌∷◌, [], IfOk, length, List, replicate};
ghost use Rattle.jr_model.specs.declared.totals.Totals.{Totals as TotalsRecord};
ghost use Rattle.jr_rounds.specs.Adding.{added, all_added, nothing_done};
ghost use Rattle.jr_rounds.specs.Sums.{AreSums, sum_of};

use jr_model::{Memory, Totals};
use jr_plan::Plan;
use std::alloc::{AllocError, Global};
use std::marker::Model;

/// What each clone did over all rounds so far, and how many rounds these were. A count of 64 bits stays at the last one.
#[derive(Drop)]
pub struct Sums {
    rounds: u64,
    totals: Vec<Totals>,
}

impl Model for Sums {
    ghost use Rattle.jr_rounds.specs.Sums.{RoundSums};

    ghost Value = { RoundSums };

    ghost view = { λ s. record { rounds = s.rounds; totals = s.totals.items } };
}

impl Sums {
    /// Those of no round of this plan.
    pub fn new(alloc: Global, plan: &Plan) -> Result<Sums, Memory>
        ensures none { IfOk result (λ sums. AreSums [] sums) }
        ensures clones { IfOk result (λ sums. length sums.totals ≡ length plan.now.clones) }
    {
        Ok(Sums {
            rounds: 0,
            totals: nothing_done(alloc, plan.clones())?,
        })
    }

    /// Adds what the clones did in one more round. It takes no memory.
    pub fn add(&mut self, totals: &[Totals])
        requires { length totals.now ≡ length self.old.totals }
        ensures sums { (rounds : List (List TotalsRecord)) → AreSums rounds self.old → AreSums (rounds ++ totals.now ∷ []) self.new }
        ensures clones { length self.new.totals ≡ length self.old.totals }
    {
        self.rounds = self.rounds.saturating_add(1);
        add_all(self.totals.as_mut_slice(), totals);
    }

    /// How many rounds they are of.
    pub fn rounds(&self) -> u64
        ensures { result ≡ self.now.rounds }
    {
        self.rounds
    }

    /// What each clone did in them, in the order of the clones.
    pub fn totals(&self) -> &[Totals]
        ensures { result.now ≡ self.now.totals }
    {
        self.totals.as_slice()
    }
}

/// What clones did together. A count of 64 bits stays at the last one.
pub fn total_of(totals: &[Totals]) -> Totals
    ensures { result ≡ sum_of totals.now }
{
    let mut sum = nothing();
    for i in 0..totals.len() {
        sum = added(sum, totals[i]);
    }
    sum
}

// The totals of clones that did nothing, one for each.
fn nothing_done(alloc: Global, clones: usize) -> Result<Vec<Totals>, AllocError>
    ensures { IfOk result (λ totals. totals.items ≡ replicate clones nothing_done) }
{
    let nothing = nothing();
    let mut totals = Vec::new(alloc);
    for _ in 0..clones {
        totals.push(nothing)?;
    }
    Ok(totals)
}

// The totals of a clone that did nothing.
pub(crate) fn nothing() -> Totals
    ensures { result ≡ nothing_done }
{
    Totals {
        reads: 0,
        rbytes: 0,
        writes: 0,
        wbytes: 0,
        checks: 0,
        good: 0,
        bad: 0,
        skipped: 0,
        void: 0,
        faults: 0,
    }
}

// Adds to each sum what its clone did more.
fn add_all(sums: &mut [Totals], totals: &[Totals])
    requires { length totals.now ≡ length sums.old }
    ensures { sums.new ≡ all_added sums.old totals.now }
{
    for i in 0..totals.len() {
        sums[i] = added(sums[i], totals[i]);
    }
}

pub(crate) fn added(sum: Totals, more: Totals) -> Totals
    ensures { result ≡ added sum more }
{
    Totals {
        reads: sum.reads.saturating_add(more.reads),
        rbytes: sum.rbytes.saturating_add(more.rbytes),
        writes: sum.writes.saturating_add(more.writes),
        wbytes: sum.wbytes.saturating_add(more.wbytes),
        checks: sum.checks.saturating_add(more.checks),
        good: sum.good.saturating_add(more.good),
        bad: sum.bad.saturating_add(more.bad),
        skipped: sum.skipped.saturating_add(more.skipped),
        void: sum.void.saturating_add(more.void),
        faults: sum.faults.saturating_add(more.faults),
    }
}
