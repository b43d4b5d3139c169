ghost use Rattle.std.specs.Prelude.{◌≡◌, ℕ, ◌+◌, ◌<◌, true, false, [], Some, None, Ok, Err, All, Contains, IfOk, IfErr, OnOk, IsTrue, IsFalse, map};
ghost use Rattle.std.specs.Prelude.{replicate, length, slice_get, slice_index_or};
ghost use Rattle.std.specs.List.{list_all};
ghost use Rattle.jr_model.specs.Legal.{is_legal, is_complete};
ghost use Rattle.jr_desk_tickets.specs.Kept.{tickets_of};
ghost use Rattle.jr_model.specs.declared.events.Verdict.{Verdict as GivenVerdict};
ghost use Rattle.jr_crew_books.specs.Books.{IsVerdictIn, dones_of};
ghost use Rattle.jr_crew_books.specs.Numbers.{judges_inline, is_own_verdict, is_numbered};
ghost use Rattle.jr_run_faults.specs.Faults.{IsRefusal, IsUnmanned};
ghost use Rattle.jr_crew_threads.specs.Stops.{IsCompleteOrAsked};
ghost use Rattle.jr_crew_books.specs.Finished.{AllFinished};
ghost use Rattle.jr_crew.specs.Whole.{IsBooked};
ghost use Rattle.jr_crew_channel.specs.declared.parcel.Parcel.TheVariants.{Stop};
ghost use Rattle.jr_crew_channel.specs.PassStates.{first_state};
ghost use Rattle.jr_crew_channel.specs.Passes.{IsPassOf, pass_state};
ghost use Rattle.jr_crew_threads.specs.Judging.{IsJudging, IsSourced};
ghost use Rattle.jr_crew_threads.specs.Parts.{IsLess, IsMore, IsPutter, one_part};
ghost use Rattle.jr_crew.specs.Working.{AreWorks, IsWork};

use crate::held::Shared;
use crate::verifier::verify;
use crate::work::{Post, work};
use jr_crew_books::{
    Account, Book, all_finished, are_books, are_numbered, are_own_verdicts, are_said,
};
use jr_crew_channel::{Handoff, Pass};
use jr_crew_threads::{
    Books, ChannelEnd, Crowd, Halt, Judged, Judgements, Judges, Naming, Seat, Shares, StopFlag,
    StopRequest, Verifiers, Watch, Worked, Worker, WorkerEnd, asked_at, books_of, parcel_room,
    staff_for,
};
use jr_desk::Desk;
use jr_engines::Engine;
use jr_model::Event;
use jr_plan::Plan;
use jr_run_faults::RunFault;
use std::alloc::Global;
use std::marker::Brand;
use std::sync::Wait;
use std::thread;
use std::thread::{PromisedHandle, Threads};
use std::time::Clock;

/// What `run_booked` gives: what `run` does, with books that take less memory.
#[derive(Drop)]
pub struct Booked<'w> {
    /// The desk, with the history of the run.
    pub desk: Desk,
    /// The engines of the workers, in their order.
    pub engines: Vec<Box<dyn Engine + Send>>,
    /// What each worker completed.
    pub books: Vec<Book>,
    /// What asked the run to stop, if it did so before it was complete.
    pub asked: Option<StopRequest<'w>>,
}

/// Runs a plan as `run` does. The books take some 72 bytes for each I/O, and are made into lists of `Done` only on request: this is for
/// who wants the desk alone, as the program does.
pub fn run_booked<'w, R: Threads + Wait + Clock + Sync>(
    rt: &R,
    alloc: Global,
    plan: Plan,
    engines: Vec<Box<dyn Engine + Send>>,
    watch: Watch<'w>,
) -> Result<Booked<'w>, RunFault>
    ensures booked { IfOk result (λ ran. IsBooked plan watch.entry.stop ran.desk (map (λ engine. state engine) engines.items)
        (map (λ engine. state engine) ran.engines.items) ran.books.items) }

    // It is complete, or the flag was set.
    ensures asked { IfOk result (λ ran. IsCompleteOrAsked watch.entry.stop (is_complete plan ran.desk.history) ran.asked) }
    ensures none { engines.items ≡ [] → result ≡ Err RunFault.NoEngine }
    ensures no_engine { IfErr result (λ fault. fault ≡ RunFault.NoEngine → engines.items ≡ []) }
    ensures thread { IfErr result (λ fault. fault ≡ RunFault.Thread → 0 < plan.verifiers) }
{
    if engines.is_empty() {
        return Err(RunFault::NoEngine);
    }
    let (handoff, pass) = Handoff::new(rt, alloc, parcel_room(plan.verifiers()))?;
    run_as::<Brand, R>(rt, alloc, plan, engines, watch, &handoff, pass)
}

// Runs where the plan and the hand-over have their names.
fn run_as<'w, P: Naming + Send + Sync, R: Threads + Wait + Clock + Sync>(
    rt: &R,
    alloc: Global,
    plan: Plan,
    engines: Vec<Box<dyn Engine + Send>>,
    watch: Watch<'w>,
    handoff: &Handoff,
    pass: Pass,
) -> Result<Booked<'w>, RunFault>
    requires plan { plan ≡ P.plan }
    requires handoff { P.handoff ≡ Some handoff.now }
    requires pass { IsPassOf handoff.now pass }
    requires first { pass_state pass ≡ first_state }
    ensures booked { IfOk result (λ ran. IsBooked plan watch.entry.stop ran.desk (map (λ engine. state engine) engines.items)
        (map (λ engine. state engine) ran.engines.items) ran.books.items) }
    ensures asked { IfOk result (λ ran. IsCompleteOrAsked watch.entry.stop (is_complete plan ran.desk.history) ran.asked) }
    ensures failed { IfErr result (IsRefusal plan.verifiers) }
{
    // Its contract says what holds of every plan.
    plan.facts();
    let channel = ChannelEnd::<P>::new(handoff, pass);
    let (workers, verifiers) = staff_for(alloc, engines, plan.verifiers(), channel)?;
    let (desk, ended, judgements) = run_manned::<P, R>(rt, alloc, plan, workers, verifiers, watch)?;
    let (engines, books, asked) = gathered(alloc, &desk, watch.stop, ended, judgements)?;
    Ok(Booked {
        desk,
        engines,
        books,
        asked,
    })
}

// Runs a plan that has its name with these workers and verifiers: the desk, and what they bring back, where nothing ended the run
// before its time.
fn run_manned<'a, P: Naming + Send + Sync, R: Threads + Wait + Clock + Sync>(
    rt: &R,
    alloc: Global,
    plan: Plan,
    workers: Vec<Worker<'a, P>>,
    verifiers: Verifiers<'a, P>,
    watch: Watch<'_>,
) -> Result<(Desk, Vec<WorkerEnd<P>>, Judgements<'a, P>), RunFault>
    requires plan { plan ≡ P.plan }
    requires workers { verifiers.workers ≡ length workers.items }
    ensures plan { IfOk result (λ all. all.0.plan ≡ plan) }
    ensures len { IfOk result (λ all. length all.1.items ≡ length workers.entry.items) }
    ensures workers { IfOk result (λ all. all.2.workers ≡ length all.1.items) }
    ensures each { IfOk result (λ all. AreWorks (judges_inline plan) workers.entry.items all.1.items (λ worker. state worker.0) (λ one. state one.0)
        (λ one. one.1.book) (λ one. pass_state one.1.part.pass)) }
    ensures judged { IfOk result (λ all. All (λ one. IfOk one.book (λ book. IsJudging (pass_state one.part.pass) book.items)) all.2.all.items) }
    ensures failed { IfErr result (IsRefusal (length verifiers.entry.all.items)) }
{
    let inline = judges_inline(&plan);
    let shared = shared_for::<P, R>(rt, alloc, plan, workers.len(), watch)?;
    let brought = man(rt, &shared, alloc, inline, workers, verifiers);
    let desk = desk_of(shared)?;
    let (ended, judgements) = brought?;
    Ok((desk, ended, judgements))
}

// What this many workers share, before any begins.
fn shared_for<'w, P: Naming, R: Threads + Clock>(
    rt: &R,
    alloc: Global,
    plan: Plan,
    workers: usize,
    watch: Watch<'w>,
) -> Result<Shared<'w, P>, RunFault>
    requires { plan ≡ P.plan }
    ensures { IfErr result (λ fault. fault ≡ RunFault.Memory) }
{
    let shares = Shares::new(alloc, &plan, workers)?;
    let desk = Desk::new(alloc, plan)?;
    let crowd = Crowd::new(rt, workers);
    Ok(Shared::new(desk, workers, shares, crowd, watch))
}

// The desk, once all have ended, if nothing halted them.
fn desk_of<P: Naming>(shared: Shared<'_, P>) -> Result<Desk, RunFault>
    ensures plan { IfOk result (λ desk. desk.plan ≡ P.plan) }
    ensures halted { (verifiers : ℕ) → IfErr result (IsRefusal verifiers) }
{
    let (desk, halt) = shared.into_parts();
    match halt {
        None => Ok(desk),
        Some(halt) => Err(RunFault::from(halt)),
    }
}

// What a run has beside its desk: its engines, its books, and what asked it to stop.
type Gathered<'w> = (
    Vec<Box<dyn Engine + Send>>,
    Vec<Book>,
    Option<StopRequest<'w>>,
);

// The engines, the books and what asked the run to stop, where what all threads say is what the desk holds.
fn gathered<'a, 'w, P: Naming>(
    alloc: Global,
    desk: &Desk,
    stop: Option<&'w StopFlag>,
    ended: Vec<WorkerEnd<P>>,
    judgements: Judgements<'a, P>,
) -> Result<Gathered<'w>, Halt>
    requires workers { judgements.workers ≡ length ended.items }
    requires ended { All (λ one. IfOk one.1.book (λ book. IsPutter (pass_state one.1.part.pass))) ended.items }
    requires judged { All (λ one. IfOk one.book (λ book. IsJudging (pass_state one.part.pass) book.items)) judgements.all.items }
    ensures engines { IfOk result (λ all. all.0.items ≡ map (λ one. one.0) ended.items) }
    ensures books { IfOk result (λ all. map Ok all.1.items ≡ map (λ one. one.1.book) ended.items) }
    ensures legal { OnOk result (is_legal desk.now.plan desk.now.history ≡ true) }
    ensures settled { OnOk result (AllFinished desk.now.history) }
    ensures asked { IfOk result (λ all. IsCompleteOrAsked stop.entry (is_complete desk.now.plan desk.now.history) all.2) }
    ensures own { judges_inline desk.now.plan ≡ true
        → OnOk result (list_all (is_own_verdict (tickets_of desk.now.plan desk.now.history)) desk.now.history ≡ true) }
    ensures each { IfOk result (λ all. (i : ℕ) (book : _) → slice_get all.1.items i ≡ Some book
        → book ≡ dones_of desk.now.plan (judges_inline desk.now.plan) desk.now.history i) }
    ensures numbered { IfOk result (λ all. list_all (is_numbered (length all.1.items) desk.now.plan.verifiers) desk.now.history ≡ true) }
    ensures sourced { judges_inline desk.now.plan ≡ false → OnOk result ((w io : ℕ) (v : GivenVerdict)
        → Contains desk.now.history (Event.Verdict w io v) → IsSourced (map (λ one. (pass_state one.1.part.pass).put) ended.items) io v) }
{
    let inline = judges_inline(desk.plan());
    let books = books_of(alloc, ended, judgements)?;
    let asked = check(alloc, desk, stop, inline, &books)?;
    let Books {
        engines,
        dones,
        said: _,
    } = books;
    Ok((engines, dones, asked))
}

// Whether workers judge their own checks.
fn judges_inline(plan: &Plan) -> bool
    ensures { result ≡ judges_inline plan.now }
{
    plan.verifiers() == 0
}

// Lets the verifiers judge and the workers work at once, and waits for them. Once the workers are back, each verifier that was
// started is told to stop.
fn man<'a, P: Naming + Send + Sync, R: Threads + Wait + Clock + Sync>(
    rt: &R,
    shared: &Shared<'_, P>,
    alloc: Global,
    inline: bool,
    workers: Vec<Worker<'a, P>>,
    verifiers: Verifiers<'a, P>,
) -> Result<(Vec<WorkerEnd<P>>, Judgements<'a, P>), RunFault>
    requires { verifiers.workers ≡ length workers.items }
    ensures failed { IfErr result (IsUnmanned (length verifiers.entry.all.items)) }
    ensures len { IfOk result (λ both. length both.0.items ≡ length workers.entry.items) }
    ensures workers { IfOk result (λ both. both.1.workers ≡ length both.0.items) }
    ensures each { IfOk result (λ both. AreWorks inline workers.entry.items both.0.items (λ worker. state worker.0) (λ one. state one.0)
        (λ one. one.1.book) (λ one. pass_state one.1.part.pass)) }
    ensures judged { IfOk result (λ both. All (λ one. IfOk one.book (λ book. IsJudging (pass_state one.part.pass) book.items)) both.1.all.items) }
{
    thread::scope(
        thread::scope_env(),
        rt,
        move |scope| -> Result<(Vec<WorkerEnd<P>>, Judgements<P>), RunFault>
            requires workers { verifiers.workers ≡ length workers.items }
            requires whole { IsLess (verifiers.workers + length verifiers.all.items) first_state (pass_state verifiers.channel.pass) }
            ensures failed { IfErr result (IsUnmanned (length verifiers.entry.all.items)) }
            ensures len { IfOk result (λ both. length both.0.items ≡ length workers.entry.items) }
            ensures workers { IfOk result (λ both. both.1.workers ≡ length both.0.items) }
            ensures each { IfOk result (λ both. AreWorks inline workers.entry.items both.0.items (λ worker. state worker.0) (λ one. state one.0)
                (λ one. one.1.book) (λ one. pass_state one.1.part.pass)) }
            ensures judged { IfOk result (λ both. All (λ one. IfOk one.book (λ book. IsJudging (pass_state one.part.pass) book.items)) both.1.all.items) }
        {
            let Verifiers {
                all,
                channel,
                workers: count,
            } = verifiers;
            let mut channel = channel;
            let wanted = all.len();
            let mut started = Vec::with_capacity(alloc, wanted)?;
            for verifier in all {
                let judging = scope.spawn_with(
                    Judges,
                    move || -> Judged<P>
                        ensures { IfOk result.book (λ book. IsJudging (pass_state result.part.pass) book.items) }
                    { verify(rt, shared, alloc, verifier) },
                );
                if let Ok(handle) = judging {
                    started.push_reserved(handle);
                }
            }
            let are_judged = started.len() == wanted;
            let ended = work_all(rt, shared, alloc, inline, workers, are_judged);
            stop_all(rt, &mut channel, started.len());
            let judged = join_all(rt, started);
            Ok((
                ended?,
                Judgements {
                    all: judged?,
                    channel,
                    workers: count,
                },
            ))
        },
    )
}

// Waits for the verifiers.
fn join_all<P: Naming, R: Threads>(
    rt: &R,
    started: Vec<PromisedHandle<Judged<P>, Judges>>,
) -> Result<Vec<Judged<P>>, RunFault>
    ensures len { IfOk result (λ judged. length judged.items ≡ length started.items) }
    ensures judged { IfOk result (λ judged. All (λ one. IfOk one.book (λ book. IsJudging (pass_state one.part.pass) book.items)) judged.items) }
    ensures memory { IfErr result (λ fault. fault ≡ RunFault.Memory) }
{
    match thread::join_promised(rt, started) {
        Ok(judged) => Ok(judged),
        Err(_) => Err(RunFault::Memory),
    }
}

// Tells so many verifiers that nothing more comes.
fn stop_all<P: Naming, R: Wait>(rt: &R, channel: &mut ChannelEnd<'_, P>, verifiers: usize)
    ensures { IsMore 0 (replicate verifiers Stop) [] (pass_state channel.old.pass) (pass_state channel.new.pass) }
{
    for told in 0..verifiers {
        channel.stop(rt);
    }
}

// Lets all workers work at once, and waits for them. None begins where a verifier couldn't be started.
fn work_all<'a, P: Naming + Send + Sync, R: Threads + Wait + Clock + Sync>(
    rt: &R,
    shared: &Shared<'_, P>,
    alloc: Global,
    inline: bool,
    workers: Vec<Worker<'a, P>>,
    are_judged: bool,
) -> Result<Vec<WorkerEnd<P>>, RunFault>
    ensures thread { IsFalse are_judged → result ≡ Err RunFault.Thread }
    ensures memory { IsTrue are_judged → IfErr result (λ fault. fault ≡ RunFault.Memory) }
    ensures len { IfOk result (λ ended. length ended.items ≡ length workers.entry.items) }
    ensures each { IfOk result (λ ended. AreWorks inline workers.entry.items ended.items (λ worker. state worker.0) (λ one. state one.0)
        (λ one. one.1.book) (λ one. pass_state one.1.part.pass)) }
{
    if !are_judged {
        return Err(RunFault::Thread);
    }
    let ended = thread::map_vec(
        rt,
        workers,
        &|worker: Worker<P>| -> WorkerEnd<P>
            ensures { IfOk result.1.book (λ book. IsWork inline (state worker.entry.0) one_part book
                (state result.0) (pass_state result.1.part.pass)) }
        { worked_by(rt, shared, alloc, inline, worker) },
    )?;
    Ok(ended)
}

// Lets one worker work.
fn worked_by<'a, P: Naming, R: Wait + Clock>(
    rt: &R,
    shared: &Shared<'_, P>,
    alloc: Global,
    inline: bool,
    worker: Worker<'a, P>,
) -> WorkerEnd<P>
    ensures { IfOk result.1.book (λ book. IsWork inline (state worker.entry.0) one_part book
        (state result.0) (pass_state result.1.part.pass)) }
{
    let (engine, seat) = worker;
    let Seat { number, channel } = seat;
    let mut engine = engine;
    let mut channel = channel;
    let post = Post {
        alloc,
        shared,
        inline,
        number,
    };
    let book = work(rt, &post, &mut channel, &mut *engine);
    let part = channel.into_part();
    (engine, Worked { book, part })
}

// Compares what all threads say with what the desk holds, and gives what asked the run to stop.
fn check<'w>(
    alloc: Global,
    desk: &Desk,
    stop: Option<&'w StopFlag>,
    inline: bool,
    books: &Books,
) -> Result<Option<StopRequest<'w>>, Halt>
    ensures legal { OnOk result (is_legal desk.now.plan desk.now.history ≡ true) }
    ensures settled { OnOk result (AllFinished desk.now.history) }
    ensures asked { IfOk result (IsCompleteOrAsked stop.entry (is_complete desk.now.plan desk.now.history)) }
    ensures own { IsTrue inline
        → OnOk result (list_all (is_own_verdict (tickets_of desk.now.plan desk.now.history)) desk.now.history ≡ true) }
    ensures each { OnOk result ((i : ℕ) (book : _) → slice_get books.now.dones.items i ≡ Some book
        → book ≡ dones_of desk.now.plan inline desk.now.history i) }
    ensures numbered { OnOk result (list_all (is_numbered (length books.now.dones.items) desk.now.plan.verifiers) desk.now.history ≡ true) }
    ensures said { IsFalse inline → OnOk result (All (IsVerdictIn books.now.said.items (λ book. book.items)) desk.now.history) }
{
    let account = Account::new(desk.plan(), desk.history(), desk.tickets());
    let asked = asked_or_complete(desk, &account, stop)?;
    if inline && !are_own_verdicts(&account) {
        return Err(Halt::Books);
    }
    if !are_numbered(&account, books.dones.len()) {
        return Err(Halt::Books);
    }
    if !are_books(alloc, &account, inline, &books.dones)? {
        return Err(Halt::Books);
    }
    if !inline && !are_said(alloc, desk.history(), books.dones.len(), &books.said)? {
        return Err(Halt::Books);
    }
    Ok(asked)
}

// What asked a run to stop that isn't complete. All that it had started must have come to its end.
fn asked_or_complete<'w>(
    desk: &Desk,
    account: &Account<'_>,
    stop: Option<&'w StopFlag>,
) -> Result<Option<StopRequest<'w>>, Halt>
    requires history { account.now.history ≡ desk.now.history }
    requires legal { is_legal account.now.plan account.now.history ≡ true }
    ensures settled { OnOk result (AllFinished desk.now.history) }
    ensures asked { IfOk result (IsCompleteOrAsked stop.entry (is_complete desk.now.plan desk.now.history)) }
{
    if desk.is_complete() {
        return Ok(None);
    }
    let Some(request) = asked_at(stop) else {
        return Err(Halt::Books);
    };
    if !all_finished(account) {
        return Err(Halt::Books);
    }
    Ok(Some(request))
}
