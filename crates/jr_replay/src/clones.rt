// What is asked of a clone of a legal run: its counts, and what flies where a draw of it lies.
ghost use Rattle.std.specs.Prelude.{◌≡◌, ◌&&◌, not, true, Some, slice_get};
ghost use Rattle.std.specs.List.{list_any};
ghost use Rattle.jr_model.specs.History.{awaiting, is_of_clone};
ghost use Rattle.jr_model.specs.Legal.{has_room, is_clear, is_halted};
ghost use Rattle.jr_model.specs.Plan.{clone_of};
ghost use Rattle.jr_model.specs.Rounds.{no_issue_flies, nothing_flies_of};
ghost use Rattle.jr_model.specs.Tickets.{piece_fits};
ghost use Rattle.jr_flight.specs.Flights.{is_clear as is_clear_of, writes as is_write_way};
ghost use Rattle.jr_desk_totals.specs.Tallying.{counts_of};
ghost use Rattle.jr_replay.specs.Courses.{IsCourse};

use crate::courses::Course;
use jr_desk_totals::Counts;
use jr_flight::Flight;
use jr_model::{Dir, Draw, Piece};
use jr_plan::{Plan, SubJob};
use jr_replay_passes::PlannedPass;

// What is counted of a clone.
fn counts_of(plan: &Plan, course: &Course<'_>, job: &SubJob) -> Counts
    requires course { IsCourse plan.now course.now }
    requires there { clone_of plan.now job.now.clone ≡ Some job.now }
    ensures { result ≡ counts_of course.now.history job.now }
{
    course.indexes.tallies.counts[job.clone_number() as usize]
}

// Whether a fault, or a bad verdict if that is fatal, has halted a clone.
pub(crate) fn is_halted(plan: &Plan, course: &Course<'_>, job: &SubJob) -> bool
    requires course { IsCourse plan.now course.now }
    requires there { clone_of plan.now job.now.clone ≡ Some job.now }
    ensures { result ≡ is_halted course.now.history job.now }
{
    counts_of(plan, course, job).is_halted
}

// Whether a clone has fewer I/Os in flight than its depth.
pub(crate) fn has_room(plan: &Plan, course: &Course<'_>, job: &SubJob) -> bool
    requires course { IsCourse plan.now course.now }
    requires there { clone_of plan.now job.now.clone ≡ Some job.now }
    ensures { result ≡ has_room course.now.history job.now }
{
    let counts = counts_of(plan, course, job);
    u64::from(counts.issues) + u64::from(counts.checks) < u64::from(job.depth())
}

// Whether no read or write of the clone is in flight; checks may be.
pub(crate) fn no_issue_flies(plan: &Plan, course: &Course<'_>, job: &SubJob) -> bool
    requires course { IsCourse plan.now course.now }
    requires there { clone_of plan.now job.now.clone ≡ Some job.now }
    ensures { result ≡ no_issue_flies course.now.history job.now.clone }
{
    counts_of(plan, course, job).issues == 0
}

// Whether nothing of the clone is in flight.
pub(crate) fn nothing_flies_of(plan: &Plan, course: &Course<'_>, job: &SubJob) -> bool
    requires course { IsCourse plan.now course.now }
    requires there { clone_of plan.now job.now.clone ≡ Some job.now }
    ensures { result ≡ nothing_flies_of course.now.history job.now.clone }
{
    let counts = counts_of(plan, course, job);
    u64::from(counts.issues) + u64::from(counts.checks) == 0
}

// Whether no verdict of the clone is to come.
fn none_awaited(plan: &Plan, course: &Course<'_>, job: &SubJob) -> bool
    requires course { IsCourse plan.now course.now }
    requires there { clone_of plan.now job.now.clone ≡ Some job.now }
    ensures { result ≡ not (list_any (is_of_clone job.now.clone) (awaiting course.now.history)) }
{
    counts_of(plan, course, job).verdicts == 0
}

// Whether nothing of a clone is in flight, and no verdict is to come.
pub(crate) fn is_quiet(plan: &Plan, course: &Course<'_>, job: &SubJob) -> bool
    requires course { IsCourse plan.now course.now }
    requires there { clone_of plan.now job.now.clone ≡ Some job.now }
    ensures { result ≡ (nothing_flies_of course.now.history job.now.clone
        && not (list_any (is_of_clone job.now.clone) (awaiting course.now.history))) }
{
    nothing_flies_of(plan, course, job) && none_awaited(plan, course, job)
}

// Which way bytes go.
fn way(writes: bool) -> Dir
    ensures { is_write_way result ≡ writes }
{
    if writes { Dir::Write } else { Dir::Read }
}

// Whether a piece has to wait for nothing that flies.
fn flight_is_clear(flight: &Flight, piece: &Piece, way: Dir, declines: bool) -> bool
    requires { piece_fits piece.now ≡ true }
    ensures { result ≡ is_clear_of declines way piece.now flight.now }
{
    flight.clear(piece, way, declines)
}

// Whether an I/O over the piece of a draw of a pass has to wait for nothing in flight.
pub(crate) fn is_clear(
    plan: &Plan,
    course: &Course<'_>,
    pass: &PlannedPass<'_>,
    draw: &Draw,
    writes: bool,
) -> bool
    requires course { IsCourse plan.now course.now }
    requires there { clone_of plan.now pass.now.job.clone ≡ Some pass.now.job }
    requires drawn { slice_get pass.now.draws draw.now.number ≡ Some draw.now }
    ensures { result ≡ is_clear plan.now course.now.history pass.now.job writes draw.now.piece }
{
    pass.facts();
    let declines = pass.job().declines();
    flight_is_clear(&course.indexes.flight, &draw.piece, way(writes), declines)
}
