ghost use Rattle.std.specs.Prelude.{◌≡◌, ◌++◌, ◌&&◌, All, List, false, map, IsTrue, OnOk, Some, None, is_some, if◌then◌else◌};
ghost use Rattle.jr_model.specs.declared.events.Verdict.{Verdict};
ghost use Rattle.jr_model.specs.Legal.{is_void};
ghost use Rattle.jr_crew_channel.specs.declared.parcel.Parcel.{Parcel};
ghost use Rattle.jr_header.specs.Served.{answer_verdict, is_to_judge};
ghost use Rattle.jr_crew_threads.specs.Judging.{AreChecksOf, IsSaidOfOne};
ghost use Rattle.jr_crew.specs.Working.{AreDone};

use jr_crew_books::{Book, Said};
use jr_crew_threads::{Halt, push};
use jr_header::{Ruling, Served, rule};
use jr_model::Verdict;

// A ticket that was carried out, with the ruling on it where it is judged here and is a check that ended whole.
#[derive(Drop)]
pub struct CarriedOut<'a> {
    pub served: &'a Served,
    pub inline: bool,
    pub ruling: Option<Ruling<'a>>,
    ghost ruled: { ruling ≡ (if inline && is_to_judge served.now then Some served.now else None) },
}

// What was carried out, once the desk has taken it in, with what is said of it where it was judged here.
#[derive(Drop)]
pub struct TakenIn<'a> {
    pub served: &'a Served,
    pub inline: bool,
    pub said: Option<Verdict>,
    ghost judged: { is_some said ≡ (inline && is_to_judge served.now) },
    ghost saying: { (verdict : Verdict) → said ≡ Some verdict → is_void verdict ≡ false → verdict ≡ answer_verdict served.now },
}

impl<'a> CarriedOut<'a> {
    // Judges it with no lock held, if it is to be judged here.
    fn of(served: &'a Served, inline: bool) -> CarriedOut<'a>
        ensures { result.served.now ≡ served.now }
    {
        if inline && served.to_judge() {
            CarriedOut {
                served,
                inline,
                ruling: Some(rule(served)),
            }
        } else {
            CarriedOut {
                served,
                inline,
                ruling: None,
            }
        }
    }
}

// Judges those that are to be judged, if that is done here.
pub(crate) fn rule_all<'a>(
    inline: bool,
    served: &'a [Served],
    settled: &mut Vec<CarriedOut<'a>>,
) -> Result<(), Halt>
    ensures { OnOk result (map (λ one. one.served.now) settled.new.items
        ≡ map (λ one. one.served.now) settled.old.items ++ served.now) }
{
    for one in served {
        push(settled, CarriedOut::of(one, inline))?;
    }
    Ok(())
}

// Writes what the desk has taken in into a worker's book.
pub(crate) fn note_all(inline: bool, told: &[TakenIn<'_>], book: &mut Book) -> Result<(), Halt>
    ensures { OnOk result (AreDone inline (map (λ one. one.served.now) told.now) book.old book.new) }
{
    for one in told {
        if !is_same_flag(one.inline, inline) {
            return Err(Halt::Books);
        }
        book.push(one.served.ticket(), one.served.outcome(), one.said)?;
    }
    Ok(())
}

fn is_same_flag(a: bool, b: bool) -> bool
    ensures { IsTrue result → a ≡ b }
{
    match (a, b) {
        (true, true) | (false, false) => true,
        (true, false) | (false, true) => false,
    }
}

// Writes what the desk has taken in into a verifier's book.
pub(crate) fn note_said(told: &[TakenIn<'_>], book: &mut Vec<Said>) -> Result<(), Halt>
    ensures { OnOk result ((parcels : List Parcel) → AreChecksOf parcels (map (λ one. one.served.now) told.now)
        → All (IsSaidOfOne parcels) book.old.items → All (IsSaidOfOne parcels) book.new.items) }
{
    for one in told {
        let Some(verdict) = one.said else {
            return Err(Halt::Books);
        };
        let io = one.served.ticket().id;
        push(book, Said { io, verdict })?;
    }
    Ok(())
}
