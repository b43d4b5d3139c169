ghost use Rattle.std.specs.Prelude.{◌≡◌, ◌+◌, ◌*◌, ◌^◌, ◌<◌, ◌≤◌, ◌++◌, ◌∷◌, [], IfOk, IfErr, OnOk, OnErr, map, length};
ghost use Rattle.jr_crew_channel.specs.Passes.{pass_state};
ghost use Rattle.jr_crew_channel.specs.PassStates.{PARTS, first_state};
ghost use Rattle.jr_crew_threads.specs.Parts.{IsCountedFrom, IsLess, one_part};

use crate::channels::ChannelEnd;
use crate::halts::Halt;
use crate::naming::Naming;
use jr_engines::Engine;
use std::alloc::Global;

/// What a thread of the crew begins with, a worker beside its engine: its number, and its part of the hand-over.
#[derive(Drop)]
pub struct Seat<'a, P: Naming> {
    pub number: u32,
    pub channel: ChannelEnd<'a, P>,
    pub ghost part: { pass_state channel.pass ≡ one_part },
}

/// A worker: its engine, and the rest.
pub type Worker<'a, P> = (Box<dyn Engine + Send>, Seat<'a, P>);

/// A verifier: its number, and its part of the hand-over.
pub type Verifier<'a, P> = Seat<'a, P>;

/// The verifiers, and the part of the hand-over that was given to nobody: with those of the verifiers and of so many workers it is the
/// whole.
#[derive(Drop)]
pub struct Verifiers<'a, P: Naming> {
    pub all: Vec<Verifier<'a, P>>,
    pub channel: ChannelEnd<'a, P>,
    pub workers: usize,
    pub ghost whole: { IsLess (workers + length all.items) first_state (pass_state channel.pass) },
}

/// A worker for each engine, and so many verifiers.
pub fn staff_for<'a, P: Naming>(
    alloc: Global,
    engines: Vec<Box<dyn Engine + Send>>,
    verifiers: u32,
    channel: ChannelEnd<'a, P>,
) -> Result<(Vec<Worker<'a, P>>, Verifiers<'a, P>), Halt>
    requires { pass_state channel.pass ≡ first_state }
    ensures engines { IfOk result (λ staff. map (λ worker. worker.0) staff.0.items ≡ engines.items) }
    ensures verifiers { IfOk result (λ staff. length staff.1.all.items ≡ verifiers) }
    ensures workers { IfOk result (λ staff. staff.1.workers ≡ length staff.0.items) }
{
    let mut channel = channel;
    let all = verifiers_for(alloc, engines.len(), verifiers, &mut channel)?;
    let workers = workers_for(alloc, engines, &mut channel)?;
    let verifiers = Verifiers {
        all,
        channel,
        workers: workers.len(),
    };
    Ok((workers, verifiers))
}

// A worker for each engine, numbered from 0.
fn workers_for<'a, P: Naming>(
    alloc: Global,
    engines: Vec<Box<dyn Engine + Send>>,
    channel: &mut ChannelEnd<'a, P>,
) -> Result<Vec<Worker<'a, P>>, Halt>
    requires parts { 2 ^ 33 < (pass_state channel.old.pass).parts }
    requires of { (pass_state channel.old.pass).of ≡ PARTS }
    ensures less { IfOk result (λ workers. IsLess (length workers.items) (pass_state channel.old.pass) (pass_state channel.new.pass)) }
    ensures ok { IfOk result (λ workers. map (λ worker. worker.0) workers.items ≡ engines.items) }
    ensures numbers { IfOk result (λ workers. IsCountedFrom 0 (map (λ worker. worker.1.number) workers.items)) }
    ensures books { IfErr result (λ halt. halt ≡ Halt.Books → 2 ^ 32 < length engines.items) }
{
    let mut workers = Vec::new(alloc);
    for engine in engines {
        let number = number_of(workers.len())?;
        let channel = channel.another()?;
        push(&mut workers, (engine, Seat { number, channel }))?;
    }
    Ok(workers)
}

// So many verifiers, numbered on from the workers.
fn verifiers_for<'a, P: Naming>(
    alloc: Global,
    workers: usize,
    verifiers: u32,
    channel: &mut ChannelEnd<'a, P>,
) -> Result<Vec<Verifier<'a, P>>, Halt>
    requires parts { 2 ^ 33 < (pass_state channel.old.pass).parts }
    requires of { (pass_state channel.old.pass).of ≡ PARTS }
    ensures less { IfOk result (λ all. IsLess (length all.items) (pass_state channel.old.pass) (pass_state channel.new.pass)) }
    ensures ok { IfOk result (λ all. length all.items ≡ verifiers) }
    ensures numbers { IfOk result (λ all. IsCountedFrom workers (map (λ one. one.number) all.items)) }
    ensures books { IfErr result (λ halt. halt ≡ Halt.Books → 2 ^ 32 ≤ workers + verifiers) }
{
    let first = number_of(workers)?;
    let mut all = Vec::new(alloc);
    for place in 0..verifiers {
        let number = number_behind(first, place)?;
        let channel = channel.another()?;
        push(&mut all, Verifier { number, channel })?;
    }
    Ok(all)
}

/// How many parcels the hand-over holds: four for each verifier.
pub fn parcel_room(verifiers: u32) -> usize
    ensures least { 1 ≤ result }
    ensures room { 1 ≤ verifiers → result ≡ 4 * verifiers }
{
    if verifiers == 0 {
        return 1;
    }
    4 * verifiers as usize
}

fn number_of(place: usize) -> Result<u32, Halt>
    ensures ok { IfOk result (λ number. number ≡ place) }
    ensures books { IfErr result (λ halt. (halt ≡ Halt.Books) × (2 ^ 32 ≤ place)) }
{
    match u32::try_from(place) {
        Ok(number) => Ok(number),
        Err(_) => Err(Halt::Books),
    }
}

fn number_behind(first: u32, place: u32) -> Result<u32, Halt>
    ensures ok { IfOk result (λ number. number ≡ first + place) }
    ensures books { IfErr result (λ halt. (halt ≡ Halt.Books) × (2 ^ 32 ≤ first + place)) }
{
    match first.checked_add(place) {
        Some(number) => Ok(number),
        None => Err(Halt::Books),
    }
}

/// Puts it behind the last one.
pub fn push<X: Drop>(all: &mut Vec<X>, one: X) -> Result<(), Halt>
    ensures ok { OnOk result (all.new.items ≡ all.old.items ++ one ∷ []) }
    ensures err { OnErr result (all.new.items ≡ all.old.items) }
    ensures memory { IfErr result (λ halt. halt ≡ Halt.Memory) }
{
    match all.push(one) {
        Ok(()) => Ok(()),
        Err(_) => Err(Halt::Memory),
    }
}
