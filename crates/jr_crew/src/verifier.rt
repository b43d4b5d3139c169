ghost use Rattle.std.specs.Prelude.{◌≡◌, [], All, Contains, IfOk, List, OnOk};
ghost use Rattle.jr_crew_channel.specs.declared.parcel.Parcel.{Parcel};
ghost use Rattle.jr_crew_channel.specs.Passes.{pass_state};
ghost use Rattle.jr_crew_threads.specs.Judging.{AreChecksOf, IsJudging, IsSaidOfOne};
ghost use Rattle.jr_crew_threads.specs.Parts.{IsTaker, one_part};

use crate::held::Shared;
use crate::outcomes::{note_said, rule_all};
use jr_crew_books::Said;
use jr_crew_channel::Parcel;
use jr_crew_threads::{ChannelEnd, Halt, Judged, Naming, Verifier, push};
use jr_header::Served;
use std::alloc::Global;
use std::sync::Wait;

// No verifier takes more checks than these before it judges them: what the hand-over holds for each of them.
const MOST_CHECKS: usize = 4;

// Judges what is handed over until a stop comes. Where it can't go on it ends the run for all, and drops what still comes, so
// that no worker waits for room.
pub(crate) fn verify<P: Naming, R: Wait>(
    rt: &R,
    shared: &Shared<'_, P>,
    alloc: Global,
    verifier: Verifier<'_, P>,
) -> Judged<P>
    ensures { IfOk result.book (λ book. IsJudging (pass_state result.part.pass) book.items) }
{
    let Verifier { number, channel } = verifier;
    let mut channel = channel;
    let mut goes_on = true;
    let book = work(rt, shared, alloc, number, &mut channel, &mut goes_on);
    if let Err(halt) = &book {
        shared.stop(rt, *halt);
        if goes_on {
            drop_all(rt, &mut channel);
        }
    }
    Judged {
        book,
        part: channel.into_part(),
    }
}

// Goes on until a stop was taken, which the last parameter says also where this fails.
fn work<P: Naming, R: Wait>(
    rt: &R,
    shared: &Shared<'_, P>,
    alloc: Global,
    number: u32,
    channel: &mut ChannelEnd<'_, P>,
    goes_on: &mut bool,
) -> Result<Vec<Said>, Halt>
    requires { pass_state channel.old.pass ≡ one_part }
    ensures { IfOk result (λ book. IsJudging (pass_state channel.new.pass) book.items) }
{
    let mut served = Vec::new(alloc);
    let mut book = Vec::new(alloc);
    for _ in rt.forever() {
        served.clear();
        *goes_on = gather(rt, channel, &mut served)?;
        judge(rt, shared, alloc, number, &served, &mut book)?;
        if !*goes_on {
            return Ok(book);
        }
    }
    unreachable!()
}

// Takes what was handed over, up to so many checks. It waits for the first of them alone. A stop is the last thing that it takes.
fn gather<P: Naming, R: Wait>(
    rt: &R,
    channel: &mut ChannelEnd<'_, P>,
    served: &mut Vec<Served>,
) -> Result<bool, Halt>
    requires { served.old.items ≡ [] }
    ensures taker { IsTaker (pass_state channel.old.pass) (pass_state channel.new.pass) }
    ensures checks { OnOk result (AreChecksOf (pass_state channel.new.pass).taken served.new.items) }
{
    let mut next = channel.take(rt);
    for _ in 1..MOST_CHECKS {
        if !keep(next, served)? {
            return Ok(false);
        }
        let Some(parcel) = channel.take_now(rt) else {
            return Ok(true);
        };
        next = parcel;
    }
    keep(next, served)
}

// Puts a check to the others; a stop is none.
fn keep(parcel: Parcel, served: &mut Vec<Served>) -> Result<bool, Halt>
    ensures { OnOk result ((parcels : List Parcel) → Contains parcels parcel
        → AreChecksOf parcels served.old.items → AreChecksOf parcels served.new.items) }
{
    match parcel {
        Parcel::Check(one) => {
            push(served, one)?;
            Ok(true)
        }
        Parcel::Stop => Ok(false),
    }
}

// Judges checks with no lock held, tells the desk all at once, and writes what it said into the book.
fn judge<P: Naming, R: Wait>(
    rt: &R,
    shared: &Shared<'_, P>,
    alloc: Global,
    number: u32,
    served: &[Served],
    book: &mut Vec<Said>,
) -> Result<(), Halt>
    ensures { OnOk result ((parcels : List Parcel) → AreChecksOf parcels served.now
        → All (IsSaidOfOne parcels) book.old.items → All (IsSaidOfOne parcels) book.new.items) }
{
    if served.is_empty() {
        return Ok(());
    }
    let mut settled = Vec::new(alloc);
    rule_all(true, served, &mut settled)?;
    shared.note_bad(rt, &settled);
    let mut told = Vec::with_capacity(alloc, settled.len())?;
    shared.judge(rt, number, &settled, &mut told)?;
    note_said(&told, book)
}

fn drop_all<P: Naming, R: Wait>(rt: &R, channel: &mut ChannelEnd<'_, P>) {
    for _ in rt.forever() {
        if let Parcel::Stop = channel.take(rt) {
            return;
        }
    }
    unreachable!()
}
