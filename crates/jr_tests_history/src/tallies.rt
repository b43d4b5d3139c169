ghost use Rattle.std.specs.Prelude.{◌≡◌, ◌≤◌, slice_get, Some, IsTrue};
ghost use Rattle.jr_desk_totals.specs.Tallying.{AreLow, AreSmall, CanCount, flying_in};
ghost use Rattle.jr_desk_totals.specs.declared.tallies.Counts.{Counts as Kept};

use crate::asserts::same;
use crate::plans::plan_of;
use jr_desk_totals::{Bad, Counts, Tallies};
use jr_model::{IoType, Outcome, Piece, TicketKind, Totals, Verdict, What, WriteId};
use jr_plan::{Plan, Workload};
use std::alloc::Global;
use std::process::Abort;
use std::test::Fail;

// A plan over memory of two clones.
fn two_clones(alloc: Global) -> Result<Plan, Fail> {
    plan_of(alloc, &[(writes(), "f", 0), (writes(), "g", 0)])
}

fn writes() -> Workload {
    Workload::plain(IoType::Write, 4096, 4)
}

fn is_low(counts: &Counts) -> bool
    ensures { IsTrue result → AreLow counts.now }
{
    counts.issues < 99 && counts.checks < 99 && counts.verdicts < 99
}

fn is_small(totals: &Totals) -> bool
    ensures { IsTrue result → AreSmall totals.now }
{
    let moved = totals.reads < 99
        && totals.rbytes < 99_999
        && totals.writes < 99
        && totals.wbytes < 99_999;
    let checked = totals.checks < 99 && totals.good < 99 && totals.bad < 99;
    moved && checked && totals.skipped < 99 && totals.void < 99 && totals.faults < 99
}

// Whether the clone is there, and what is kept of it is small.
fn can_count(tallies: &Tallies, clone: usize) -> bool
    ensures { IsTrue result → CanCount tallies.now clone }
{
    if clone >= tallies.counts.len() || clone >= tallies.totals.len() {
        return false;
    }
    is_low(&tallies.counts[clone]) && is_small(&tallies.totals[clone])
}

// Whether an I/O of this kind is in flight.
fn flies(tallies: &Tallies, clone: usize, kind: TicketKind) -> bool
    ensures { IsTrue result → (counts : Kept) → slice_get tallies.now.counts.items clone ≡ Some counts
        → 1 ≤ flying_in kind counts }
{
    match tallies.counts.get(clone) {
        None => false,
        Some(counts) => match kind {
            TicketKind::Read | TicketKind::Write | TicketKind::ReadCheck => counts.issues > 0,
            TicketKind::Probe => counts.checks > 0,
        },
    }
}

// Whether a verdict is to come.
fn awaits(tallies: &Tallies, clone: usize) -> bool
    ensures { IsTrue result → (counts : Kept) → slice_get tallies.now.counts.items clone ≡ Some counts
        → 1 ≤ counts.verdicts }
{
    match tallies.counts.get(clone) {
        None => false,
        Some(counts) => counts.verdicts > 0,
    }
}

fn end(rt: &impl Abort, tallies: &mut Tallies, clone: usize, kind: TicketKind, outcome: Outcome) {
    same(rt, can_count(tallies, clone), true);
    same(rt, flies(tallies, clone, kind), true);
    tallies.ended(clone, kind, 4096, outcome);
}

// A write is issued, ends, and is being checked; and its check ends.
fn write_and_check(rt: &impl Abort, tallies: &mut Tallies, clone: usize) {
    same(rt, can_count(tallies, clone), true);
    tallies.issued(clone);
    end(rt, tallies, clone, TicketKind::Write, Outcome::Whole);
    same(rt, can_count(tallies, clone), true);
    tallies.probed(clone);
    end(rt, tallies, clone, TicketKind::Probe, Outcome::Whole);
}

fn judge(
    rt: &impl Abort,
    tallies: &mut Tallies,
    bad: &Bad,
    is_fatal: bool,
    verdict: Verdict,
) -> Result<(), Fail> {
    let clone = bad.write.clone as usize;
    tallies.reserve()?;
    same(rt, can_count(tallies, clone), true);
    same(rt, awaits(tallies, clone), true);
    tallies.judged(bad.write, bad.piece, is_fatal, verdict);
    Ok(())
}

// The bad verdict on a clone's first write, whose byte 5 is wrong.
fn bad(clone: u32) -> Bad {
    Bad {
        write: WriteId {
            clone,
            pass: 0,
            number: 0,
        },
        piece: Piece {
            file: 0,
            offset: 0,
            len: 4096,
        },
        what: What::Byte(5),
    }
}

fn counts(issues: u32, checks: u32, verdicts: u32, is_halted: bool) -> Counts {
    Counts {
        issues,
        checks,
        verdicts,
        is_halted,
    }
}

#[test]
fn each_clone_has_its_own(rt: HostRuntime) -> Result<(), Fail> {
    let plan = two_clones(rt.alloc())?;
    let mut tallies = Tallies::new(rt.alloc(), &plan)?;
    let none = [counts(0, 0, 0, false), counts(0, 0, 0, false)];
    same(&rt, tallies.counts.as_slice(), none.as_slice());
    write_and_check(&rt, &mut tallies, 0);
    write_and_check(&rt, &mut tallies, 1);
    let awaited = [counts(0, 0, 1, false), counts(0, 0, 1, false)];
    same(&rt, tallies.counts.as_slice(), awaited.as_slice());
    judge(
        &rt,
        &mut tallies,
        &bad(1),
        false,
        Verdict::Bad(What::Byte(5)),
    )?;
    judge(&rt, &mut tallies, &bad(0), true, Verdict::Good)?;
    write_and_check(&rt, &mut tallies, 0);
    judge(&rt, &mut tallies, &bad(0), true, Verdict::Void)?;
    same(&rt, can_count(&tallies, 0), true);
    tallies.issued(0);
    same(&rt, can_count(&tallies, 1), true);
    tallies.skipped(1);
    let going = [counts(1, 0, 0, false), counts(0, 0, 0, false)];
    same(&rt, tallies.counts.as_slice(), going.as_slice());
    end(&rt, &mut tallies, 0, TicketKind::Read, Outcome::Short(512));
    write_and_check(&rt, &mut tallies, 1);
    judge(
        &rt,
        &mut tallies,
        &bad(1),
        true,
        Verdict::Bad(What::Byte(5)),
    )?;
    let halted = [counts(0, 0, 0, true), counts(0, 0, 0, true)];
    same(&rt, tallies.counts.as_slice(), halted.as_slice());
    same(&rt, tallies.bads.as_slice(), [bad(1), bad(1)].as_slice());
    let first = Totals {
        reads: 0,
        rbytes: 0,
        writes: 2,
        wbytes: 8192,
        checks: 1,
        good: 1,
        bad: 0,
        skipped: 0,
        void: 1,
        faults: 1,
    };
    let second = Totals {
        checks: 2,
        good: 0,
        bad: 2,
        skipped: 1,
        void: 0,
        faults: 0,
        ..first
    };
    same(&rt, tallies.totals.as_slice(), [first, second].as_slice());
    Ok(())
}
