ghost use Rattle.std.specs.Prelude.{◌≡◌, ◌<◌, true, [], None, Err, IfOk, IfErr, map};
ghost use Rattle.jr_model.specs.Legal.{is_complete};
ghost use Rattle.jr_crew.specs.Whole.{IsCrewRun, IsEndedCrewRun};

use crate::crew::{Booked, run_booked};
use jr_crew_books::{Book, Done};
use jr_crew_threads::Watch;
use jr_desk::Desk;
use jr_engines::Engine;
use jr_model::Memory;
use jr_plan::Plan;
use jr_run_faults::RunFault;
use std::alloc::Global;
use std::sync::Wait;
use std::thread::Threads;
use std::time::Clock;

/// What a run gives: the desk with its history, and of each worker its engine and its book.
#[derive(Drop)]
pub struct Ran {
    pub desk: Desk,
    pub engines: Vec<Box<dyn Engine + Send>>,
    pub books: Vec<Vec<Done>>,
}

/// Runs a plan with one worker an engine, numbered from 0, and as many verifiers as the plan wants, numbered on from them; all
/// work at once. Without verifiers each worker judges its own checks. A `Progress` tells another thread how far the run is.
pub fn run<R: Threads + Wait + Clock + Sync>(
    rt: &R,
    alloc: Global,
    plan: Plan,
    engines: Vec<Box<dyn Engine + Send>>,
    watch: Watch<'_>,
) -> Result<Ran, RunFault>
    ensures plan { IfOk result (λ ran. ran.desk.plan ≡ plan) }

    // All that was started has come to its end; and a run that is complete, or that nobody can stop, is a whole one.
    ensures ended { IfOk result (λ ran. IsEndedCrewRun plan ran.desk.history (map (λ engine. state engine) engines.items)
        (map (λ engine. state engine) ran.engines.items) (map (λ book. book.items) ran.books.items)) }
    ensures run { IfOk result (λ ran. is_complete plan ran.desk.history ≡ true
        → IsCrewRun plan ran.desk.history (map (λ engine. state engine) engines.items)
        (map (λ engine. state engine) ran.engines.items) (map (λ book. book.items) ran.books.items)) }
    ensures unasked { watch.entry.stop ≡ None → IfOk result (λ ran. is_complete plan ran.desk.history ≡ true) }
    ensures none { engines.items ≡ [] → result ≡ Err RunFault.NoEngine }
    ensures no_engine { IfErr result (λ fault. fault ≡ RunFault.NoEngine → engines.items ≡ []) }

    // All but verifiers can do without a thread of their own.
    ensures thread { IfErr result (λ fault. fault ≡ RunFault.Thread → 0 < plan.verifiers) }
{
    let Booked {
        desk,
        engines,
        books,
        asked: _,
    } = run_booked(rt, alloc, plan, engines, watch)?;
    let books = all_dones(alloc, books)?;
    Ok(Ran {
        desk,
        engines,
        books,
    })
}

// What stands in each book. A book is let go once it was read.
fn all_dones(alloc: Global, books: Vec<Book>) -> Result<Vec<Vec<Done>>, Memory>
    ensures { IfOk result (λ all. map (λ dones. dones.items) all.items ≡ books.items) }
{
    let mut all = Vec::new(alloc);
    for book in books {
        all.push(book.dones(alloc)?)?;
    }
    Ok(all)
}
