ghost use Rattle.std.specs.Prelude.{◌≡◌, ◌≤◌, ◌<◌, ◌^◌, ◌-◌, ◌&&◌, ◌||◌, ℕ, List, [], slice_get, Some};
ghost use Rattle.std.specs.Prelude.{IfOk, OnOk, vec_len, vec_capacity, ◌+◌, if◌then◌else◌};
ghost use Rattle.jr_model.specs.declared.events.IssueKind.{IssueKind as Way};
ghost use Rattle.jr_model.specs.declared.blocks.Piece.{Piece as Place};
ghost use Rattle.jr_model.specs.declared.events.Event.{Event};
ghost use Rattle.jr_model.specs.declared.events.Event.TheVariants.{Issue, Probe, Skip, End, Verdict as Judged};
ghost use Rattle.jr_model.specs.declared.events.Started.{Started};
ghost use Rattle.jr_model.specs.declared.events.WriteId.{WriteId as Name};
ghost use Rattle.jr_model.specs.History.{started, ended_whole};
ghost use Rattle.jr_model.specs.Legal.{is_fault, is_bad};
ghost use Rattle.jr_model.specs.Plan.{Plan as Planned, SubJob, clone_of};
ghost use Rattle.jr_model.specs.Totals.{totals_of};
ghost use Rattle.jr_desk_totals.specs.Tallies.{tally_ended, totals_ended, totals_judged};
ghost use Rattle.jr_laws_steps.specs.Nexts.{IsNext, grown};
ghost use Rattle.jr_desk_totals.specs.Tallying.{AreLow, AreSmall, CanCount, IsTallied, counts_with, flying_in, tally_in, tally_judged};
ghost use Rattle.jr_desk_totals.specs.declared.tallies.Counts.{Counts as Kept};

use jr_model::{Memory, Outcome, Piece, TicketKind, Totals, Verdict, What, WriteId};
use jr_plan::Plan;
use std::alloc::Global;

/// A bad verdict: on which write, over which piece, and what is wrong with its bytes.
#[derive(Clone, Copy, Debug, PartialEq, Eq)]
pub struct Bad {
    pub write: WriteId,
    pub piece: Piece,
    pub what: What,
}

/// What a clone has in flight (reads and writes, and checks), its verdicts to come, and whether it is halted.
#[derive(Clone, Copy, Debug, PartialEq, Eq)]
pub struct Counts {
    pub issues: u32,
    pub checks: u32,
    pub verdicts: u32,
    pub is_halted: bool,
}

/// The running counts and totals of all clones, and the bad verdicts in the order in which they were given.
///
/// Only `new` and `reserve` can want memory. Which clone an event is about, the caller says; the caller also says that each
/// event may happen if it is told.
#[derive(Drop)]
pub struct Tallies {
    pub counts: Vec<Counts>,
    pub totals: Vec<Totals>,
    pub bads: Vec<Bad>,
}

impl Tallies {
    /// Before anything happened.
    pub fn new(alloc: Global, plan: &Plan) -> Result<Tallies, Memory>
        ensures { IfOk result (IsTallied plan.now []) }
    {
        let mut counts = Vec::new(alloc);
        let mut totals = Vec::new(alloc);
        for _ in 0..plan.clones() {
            counts.push(Counts {
                issues: 0,
                checks: 0,
                verdicts: 0,
                is_halted: false,
            })?;
            totals.push(no_totals())?;
        }
        Ok(Tallies {
            counts,
            totals,
            bads: Vec::new(alloc),
        })
    }

    /// Makes room for one more bad verdict. What was counted is the same, whether it is refused or not.
    pub fn reserve(&mut self) -> Result<(), Memory>
        ensures counts { self.new.counts ≡ self.old.counts }
        ensures totals { self.new.totals ≡ self.old.totals }
        ensures bads { self.new.bads.items ≡ self.old.bads.items }
        ensures room { OnOk result (vec_len self.new.bads < vec_capacity self.new.bads) }
    {
        self.bads.reserve(1)?;
        Ok(())
    }

    /// A read or write of the clone was issued.
    pub fn issued(&mut self, clone: usize)
        requires { CanCount self.old clone }
        ensures { (plan : Planned) (history : List Event) (worker : ℕ) (kind : Way) (write : Name) (piece : Place) → write.clone ≡ clone
            → IsNext plan history (Issue worker kind write piece) → IsTallied plan history self.old
            → IsTallied plan (grown history (Issue worker kind write piece)) self.new }
    {
        self.counts[clone].issues += 1;
    }

    /// A write of the clone is being checked.
    pub fn probed(&mut self, clone: usize)
        requires { CanCount self.old clone }
        ensures { (plan : Planned) (history : List Event) (worker : ℕ) (write : Name) (piece : Place) → write.clone ≡ clone
            → IsNext plan history (Probe worker write piece) → IsTallied plan history self.old
            → IsTallied plan (grown history (Probe worker write piece)) self.new }
    {
        self.counts[clone].checks += 1;
    }

    /// A write of the clone was skipped.
    pub fn skipped(&mut self, clone: usize)
        requires { CanCount self.old clone }
        ensures { (plan : Planned) (history : List Event) (worker : ℕ) (write : Name) → write.clone ≡ clone
            → IsNext plan history (Skip worker write) → IsTallied plan history self.old
            → IsTallied plan (grown history (Skip worker write)) self.new }
    {
        self.totals[clone].skipped += 1;
    }

    /// An I/O or check of the clone, of so many bytes, ended.
    pub fn ended(&mut self, clone: usize, kind: TicketKind, len: u32, outcome: Outcome)
        requires count { CanCount self.old clone }
        requires block { len ≤ 2 ^ 24 }
        requires flying { (counts : Kept) → slice_get self.old.counts.items clone ≡ Some counts → 1 ≤ flying_in kind counts }
        ensures { (plan : Planned) (history : List Event) (worker id : ℕ) (io : Started) → slice_get (started history) id ≡ Some io
            → io.write.clone ≡ clone → io.kind ≡ kind → io.piece.len ≡ len
            → IsNext plan history (End worker id outcome) → IsTallied plan history self.old
            → IsTallied plan (grown history (End worker id outcome)) self.new }
    {
        count_end(&mut self.counts[clone], kind, outcome);
        total_end(&mut self.totals[clone], kind, len, outcome);
    }

    /// A check of this write over this piece got its verdict; a bad one halts the clone if that is fatal.
    pub fn judged(&mut self, write: WriteId, piece: Piece, is_fatal: bool, verdict: Verdict)
        requires count { CanCount self.old write.clone }
        requires awaited { (counts : Kept) → slice_get self.old.counts.items write.clone ≡ Some counts → 1 ≤ counts.verdicts }
        requires room { vec_len self.old.bads < vec_capacity self.old.bads }
        ensures { (plan : Planned) (history : List Event) (worker id : ℕ) (io : Started) (job : SubJob)
            → slice_get (started history) id ≡ Some io → io.write ≡ write → io.piece ≡ piece
            → clone_of plan write.clone ≡ Some job → job.is_fatal ≡ is_fatal
            → IsNext plan history (Judged worker id verdict) → IsTallied plan history self.old
            → IsTallied plan (grown history (Judged worker id verdict)) self.new }
    {
        let clone = write.clone as usize;
        count_verdict(&mut self.counts[clone], is_fatal, verdict);
        total_verdict(&mut self.totals[clone], verdict);
        if let Verdict::Bad(what) = verdict {
            self.bads.push_reserved(Bad { write, piece, what });
        }
    }
}

// What each clone did before anything happened.
fn no_totals() -> Totals
    ensures { (clone : ℕ) → result ≡ totals_of [] clone }
{
    Totals {
        reads: 0,
        rbytes: 0,
        writes: 0,
        wbytes: 0,
        checks: 0,
        good: 0,
        bad: 0,
        skipped: 0,
        void: 0,
        faults: 0,
    }
}

// An I/O or check of the clone ended.
fn count_end(counts: &mut Counts, kind: TicketKind, outcome: Outcome)
    requires low { AreLow counts.old }
    requires flying { 1 ≤ flying_in kind counts.old }
    ensures { counts.new ≡ counts_with (tally_ended kind outcome (tally_in counts.old)) (counts.old.is_halted || is_fault outcome) }
{
    match kind {
        TicketKind::Read | TicketKind::Write => counts.issues -= 1,
        TicketKind::ReadCheck => {
            counts.issues -= 1;
            await_verdict(counts, outcome);
        }
        TicketKind::Probe => {
            counts.checks -= 1;
            await_verdict(counts, outcome);
        }
    }
    if outcome != Outcome::Whole {
        counts.is_halted = true;
    }
}

// One verdict more is to come, where what gets one ended whole.
fn await_verdict(counts: &mut Counts, outcome: Outcome)
    requires { counts.old.verdicts + 1 < 2 ^ 32 }
    ensures { counts.new ≡ (if ended_whole (Some outcome) then record counts.old { verdicts = counts.old.verdicts + 1 } else counts.old) }
{
    if outcome == Outcome::Whole {
        counts.verdicts += 1;
    }
}

// The end of an I/O or a check, in the totals of its clone.
fn total_end(totals: &mut Totals, kind: TicketKind, len: u32, outcome: Outcome)
    requires small { AreSmall totals.old }
    requires block { len ≤ 2 ^ 24 }
    ensures { totals.new ≡ totals_ended kind len outcome totals.old }
{
    if outcome != Outcome::Whole {
        totals.faults += 1;
        return;
    }
    match kind {
        TicketKind::Read | TicketKind::ReadCheck => {
            totals.reads += 1;
            totals.rbytes += u64::from(len);
        }
        TicketKind::Write => {
            totals.writes += 1;
            totals.wbytes += u64::from(len);
        }
        TicketKind::Probe => {}
    }
}

// A check of the clone got its verdict.
fn count_verdict(counts: &mut Counts, is_fatal: bool, verdict: Verdict)
    requires { 1 ≤ counts.old.verdicts }
    ensures { counts.new ≡ counts_with (tally_judged (tally_in counts.old)) (counts.old.is_halted || is_fatal && is_bad verdict) }
{
    counts.verdicts -= 1;
    if is_fatal && matches!(verdict, Verdict::Bad(_)) {
        counts.is_halted = true;
    }
}

// A verdict, in the totals of its clone.
fn total_verdict(totals: &mut Totals, verdict: Verdict)
    requires { AreSmall totals.old }
    ensures { totals.new ≡ totals_judged verdict totals.old }
{
    match verdict {
        Verdict::Good => {
            totals.checks += 1;
            totals.good += 1;
        }
        Verdict::Bad(_) => {
            totals.checks += 1;
            totals.bad += 1;
        }
        Verdict::Void => totals.void += 1,
    }
}
