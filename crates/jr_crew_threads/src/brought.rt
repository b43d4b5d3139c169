ghost use Rattle.std.specs.Prelude.{◌≡◌, ◌+◌, [], All, IfOk, Ok, OnOk, flat_map, length, map, replicate};
ghost use Rattle.jr_crew_channel.specs.declared.parcel.Parcel.TheVariants.{Stop};
ghost use Rattle.jr_crew_channel.specs.PassStates.{PARTS};
ghost use Rattle.jr_crew_channel.specs.Passes.{pass_state};
ghost use Rattle.jr_crew_threads.specs.Judging.{AreSaidOf, IsJudging};
ghost use Rattle.jr_crew_threads.specs.Parts.{IsMore, IsPutter};

use crate::channels::{ChannelEnd, ChannelPart};
use crate::halts::Halt;
use crate::naming::Naming;
use crate::staff::push;
use jr_crew_books::{Book, Said};
use jr_engines::Engine;
use std::alloc::Global;
use std::thread::Promise;

/// What a worker brings back beside its engine: what it completed, and its part of the hand-over.
#[derive(Drop)]
pub struct Worked<P: Naming> {
    pub book: Result<Book, Halt>,
    pub part: ChannelPart<P>,
}

/// A worker that has ended: its engine, and the rest.
pub type WorkerEnd<P> = (Box<dyn Engine + Send>, Worked<P>);

/// What a verifier brings back: what it said of the checks that it took, and its part of the hand-over.
#[derive(Drop)]
pub struct Judged<P: Naming> {
    pub book: Result<Vec<Said>, Halt>,
    pub part: ChannelPart<P>,
}

/// What is known of it once its thread has ended.
#[derive(Clone, Copy)]
pub struct Judges;

impl<P: Naming> Promise<Judged<P>> for Judges {
    ghost use Rattle.std.specs.Prelude.{IfOk};
    ghost use Rattle.jr_crew_channel.specs.Passes.{pass_state};
    ghost use Rattle.jr_crew_threads.specs.Judging.{IsJudging};

    ghost kept_by = { λ promise judged. IfOk judged.book (λ book. IsJudging (pass_state judged.part.pass) book.items) };
}

/// What the verifiers bring back, and the part of the hand-over that was given to nobody: with those of the verifiers and of so many
/// workers it is the whole.
#[derive(Drop)]
pub struct Judgements<'a, P: Naming> {
    pub all: Vec<Judged<P>>,
    pub channel: ChannelEnd<'a, P>,
    pub workers: usize,
    pub ghost parts: { (pass_state channel.pass).parts + workers + length all.items ≡ PARTS },
    pub ghost of: { (pass_state channel.pass).of ≡ PARTS },
    pub ghost put: { (pass_state channel.pass).put ≡ replicate (length all.items) Stop },
    pub ghost taken: { (pass_state channel.pass).taken ≡ [] },
}

/// The engines, and what each worker and each verifier says.
#[derive(Drop)]
pub struct Books {
    pub engines: Vec<Box<dyn Engine + Send>>,
    pub dones: Vec<Book>,
    pub said: Vec<Vec<Said>>,
}

/// The engines and all books, if nobody met a fault. All parts of the hand-over come together: what a verifier took was put.
pub fn books_of<P: Naming>(
    alloc: Global,
    ended: Vec<WorkerEnd<P>>,
    judgements: Judgements<'_, P>,
) -> Result<Books, Halt>
    requires workers { judgements.workers ≡ length ended.items }
    requires ended { All (λ one. IfOk one.1.book (λ book. IsPutter (pass_state one.1.part.pass))) ended.items }
    requires judged { All (λ one. IfOk one.book (λ book. IsJudging (pass_state one.part.pass) book.items)) judgements.all.items }
    ensures engines { IfOk result (λ books. books.engines.items ≡ map (λ one. one.0) ended.items) }
    ensures dones { IfOk result (λ books. map Ok books.dones.items ≡ map (λ one. one.1.book) ended.items) }
    ensures said { IfOk result (λ books. AreSaidOf (λ book. book.items)
        (flat_map (λ one. (pass_state one.1.part.pass).put) ended.items) books.said.items) }
{
    let Judgements {
        all,
        channel,
        workers: _,
    } = judgements;
    let mut channel = channel;
    let (engines, dones) = worked_books(alloc, &mut channel, ended)?;
    let said = judged_books(alloc, &mut channel, all)?;
    channel.facts();
    Ok(Books {
        engines,
        dones,
        said,
    })
}

// The engines and books of workers, whose parts are taken in.
fn worked_books<P: Naming>(
    alloc: Global,
    channel: &mut ChannelEnd<'_, P>,
    ended: Vec<WorkerEnd<P>>,
) -> Result<(Vec<Box<dyn Engine + Send>>, Vec<Book>), Halt>
    requires of { (pass_state channel.old.pass).of ≡ PARTS }
    requires ended { All (λ one. IfOk one.1.book (λ book. IsPutter (pass_state one.1.part.pass))) ended.items }
    ensures engines { IfOk result (λ both. both.0.items ≡ map (λ one. one.0) ended.items) }
    ensures books { IfOk result (λ both. map Ok both.1.items ≡ map (λ one. one.1.book) ended.items) }
    ensures more { OnOk result (IsMore (length ended.items) (flat_map (λ one. (pass_state one.1.part.pass).put) ended.items) []
        (pass_state channel.old.pass) (pass_state channel.new.pass)) }
{
    let mut engines = Vec::new(alloc);
    let mut books = Vec::new(alloc);
    for one in ended {
        let (engine, worked) = one;
        push(&mut engines, engine)?;
        let Worked { book, part } = worked;
        push(&mut books, book?)?;
        channel.join(part);
    }
    Ok((engines, books))
}

// The books of verifiers, whose parts are taken in.
fn judged_books<P: Naming>(
    alloc: Global,
    channel: &mut ChannelEnd<'_, P>,
    judged: Vec<Judged<P>>,
) -> Result<Vec<Vec<Said>>, Halt>
    requires of { (pass_state channel.old.pass).of ≡ PARTS }
    requires judged { All (λ one. IfOk one.book (λ book. IsJudging (pass_state one.part.pass) book.items)) judged.items }
    ensures books { IfOk result (λ books. AreSaidOf (λ book. book.items)
        (flat_map (λ one. (pass_state one.part.pass).taken) judged.items) books.items) }
    ensures more { OnOk result (IsMore (length judged.items) [] (flat_map (λ one. (pass_state one.part.pass).taken) judged.items)
        (pass_state channel.old.pass) (pass_state channel.new.pass)) }
{
    let mut books = Vec::new(alloc);
    for one in judged {
        let Judged { book, part } = one;
        push(&mut books, book?)?;
        channel.join(part);
    }
    Ok(books)
}
