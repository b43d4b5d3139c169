ghost use Rattle.std.specs.Prelude.{◌≡◌, ◌<◌, ◌-◌, ◌^◌, All, IfOk, OnOk, replicate, vec_len};
ghost use Rattle.jr_model.specs.Replies.{EngineState};
ghost use Rattle.jr_model.specs.Tickets.{ticket_fits};
ghost use Rattle.jr_crew_channel.specs.Passes.{pass_state};
ghost use Rattle.jr_header.specs.Served.{ExpectsOwn, asked_with};
ghost use Rattle.jr_crew_channel.specs.declared.parcel.PassState.{PassState};
ghost use Rattle.jr_crew.specs.Working.{AreAnswered, AreDone, CanBeServed, IsAnswered, IsWork, all_handed_on};

use crate::held::{GoOn, Shared};
use crate::outcomes::{note_all, rule_all};
use jr_crew_books::Book;
use jr_crew_threads::{ChannelEnd, Crowd, Halt, Naming, Turns, fit_buffer, push};
use jr_engines::Engine;
use jr_header::{Served, ready_own, serve_own};
use jr_model::Ticket;
use std::alloc::Global;
use std::sync::Wait;
use std::time::Clock;

// Where a worker stands.
#[derive(Drop)]
pub struct Post<'a, P: Naming> {
    pub alloc: Global,
    // What it shares with all others.
    pub shared: &'a Shared<'a, P>,
    // Whether it judges its own checks.
    pub inline: bool,
    // Its number among the workers.
    pub number: u32,
}

// Carries out tickets until the run has ended, and answers all that this worker completed. Where it can't go on it ends the
// run for all.
pub(crate) fn work<P: Naming, R: Wait + Clock>(
    rt: &R,
    post: &Post<'_, P>,
    channel: &mut ChannelEnd<'_, P>,
    engine: &mut dyn Engine,
) -> Result<Book, Halt>
    ensures { IfOk result (λ book. IsWork post.now.inline (state engine.old) (pass_state channel.old.pass) book
        (state engine.new) (pass_state channel.new.pass)) }
{
    post.shared.begin(rt);
    let book = work_on(rt, post, channel, engine);
    if let Err(halt) = &book {
        post.shared.stop(rt, *halt);
    }
    book
}

// What a worker has in hand.
#[derive(Drop)]
pub struct Load {
    // The tickets that it took and hasn't carried out.
    pub tickets: Vec<Ticket>,
    // The buffers that it has free.
    pub buffers: Vec<Vec<u8>>,
    // What it has completed.
    pub book: Book,
    // How long its turns take.
    pub turns: Turns,
}

fn work_on<P: Naming, R: Wait + Clock>(
    rt: &R,
    post: &Post<'_, P>,
    channel: &mut ChannelEnd<'_, P>,
    engine: &mut dyn Engine,
) -> Result<Book, Halt>
    ensures { IfOk result (λ book. IsWork post.now.inline (state engine.old) (pass_state channel.old.pass) book
        (state engine.new) (pass_state channel.new.pass)) }
{
    let mut load = Load {
        tickets: Vec::new(post.alloc),
        buffers: Vec::new(post.alloc),
        book: Book::new(post.alloc),
        turns: Turns::new(),
    };
    let mut step = GoOn::Wait;
    for _ in rt.forever() {
        step = match step {
            GoOn::Go => carry_out(rt, post, channel, engine, &mut load)?,
            GoOn::Wait => {
                load.turns.give_up();
                post.shared.next(rt, post.number, &mut load.tickets)?
            }
            GoOn::End => return Ok(load.book),
        };
    }
    unreachable!()
}

// Carries out what a worker took with no lock held, tells the desk all of it at once, and takes what is next. Checks for others are
// handed over before the worker may wait.
#[tactic(auto, using(crate::proofs::Worked::worked_on))]
fn carry_out<P: Naming, R: Wait + Clock>(
    rt: &R,
    post: &Post<'_, P>,
    channel: &mut ChannelEnd<'_, P>,
    engine: &mut dyn Engine,
    load: &mut Load,
) -> Result<GoOn, Halt>
    requires { All CanBeServed load.old.tickets.items }
    ensures worked { OnOk result ((before : EngineState) (first : PassState)
        → IsWork post.now.inline before first load.old.book (state engine.old) (pass_state channel.old.pass)
        → IsWork post.now.inline before first load.new.book (state engine.new) (pass_state channel.new.pass)) }
    ensures next { OnOk result (All CanBeServed load.new.tickets.items) }
{
    let served = serve_all(rt, post, engine, &load.tickets, &mut load.buffers)?;
    load.tickets.clear();
    let step = exchange(rt, post, &served, load)?;
    part_with(rt, post.inline, channel, served, &mut load.buffers)?;
    Ok(step)
}

// Asks the engine for each ticket, one after another, and has the ledger take them in. The first call is timed.
#[tactic(auto, using(crate::proofs::Worked::answered_on))]
fn serve_all<P: Naming, R: Wait + Clock>(
    rt: &R,
    post: &Post<'_, P>,
    engine: &mut dyn Engine,
    tickets: &[Ticket],
    buffers: &mut Vec<Vec<u8>>,
) -> Result<Vec<Served>, Halt>
    requires { All CanBeServed tickets.now }
    ensures { IfOk result (λ served. AreAnswered (state engine.old) served.items (state engine.new)) }
{
    let mut all = Vec::with_capacity(post.alloc, tickets.len())?;
    let mut recorded = post.shared.none_recorded(rt);
    for ticket in tickets {
        let buffer = match buffers.pop() {
            Some(buffer) => buffer,
            None => Vec::new(post.alloc),
        };
        let is_timed = all.is_empty();
        let crowd = post.shared.crowd();
        push(
            &mut all,
            serve(rt, crowd, is_timed, engine, ticket, buffer)?,
        )?;
        recorded = post.shared.record_due(rt, &all, recorded);
    }
    post.shared.record_rest(rt, &all, recorded);
    Ok(all)
}

// Asks the engine for one.
fn serve<R: Clock>(
    rt: &R,
    crowd: &Crowd,
    is_timed: bool,
    engine: &mut dyn Engine,
    ticket: &Ticket,
    buffer: Vec<u8>,
) -> Result<Served, Halt>
    requires { CanBeServed ticket.now }
    ensures { IfOk result (λ served. IsAnswered (state engine.old) served (state engine.new)) }
{
    if engine.calls() == u64::MAX {
        return Err(Halt::Books);
    }
    let mut buffer = buffer;
    fit_buffer(&mut buffer, ticket)?;
    if is_timed {
        return Ok(serve_timed(rt, crowd, engine, ticket, buffer));
    }
    Ok(serve_own(engine, *ticket, buffer))
}

// Asks the engine for one, and notes how long its call takes.
fn serve_timed<R: Clock>(
    rt: &R,
    crowd: &Crowd,
    engine: &mut dyn Engine,
    ticket: &Ticket,
    buffer: Vec<u8>,
) -> Served
    requires can { CanBeServed ticket.now }
    requires calls { (state engine.old).calls < 2 ^ 64 - 1 }
    requires room { vec_len buffer ≡ ticket.now.piece.len }
    requires asked { asked_with ticket.now.kind ticket.now buffer.items
        ≡ asked_with ticket.now.kind ticket.now (replicate ticket.now.piece.len 0) }
    ensures { IsAnswered (state engine.old) result (state engine.new) }
{
    let ready = ready_own(*ticket, buffer);
    let begun = crowd.now(rt);
    let served = ready.ask(engine);
    crowd.note_call(rt, begun, ticket.piece.len);
    served
}

// Judges what is judged here, tells the desk, takes what is next, and only then writes into the book: the lock isn't held for it.
fn exchange<P: Naming, R: Wait + Clock>(
    rt: &R,
    post: &Post<'_, P>,
    served: &[Served],
    load: &mut Load,
) -> Result<GoOn, Halt>
    requires { All CanBeServed load.old.tickets.items }
    ensures done { OnOk result (AreDone post.now.inline served.now load.old.book load.new.book) }
    ensures next { OnOk result (All CanBeServed load.new.tickets.items) }
{
    let mut settled = Vec::with_capacity(post.alloc, served.len())?;
    rule_all(post.inline, served, &mut settled)?;
    post.shared.note_bad(rt, &settled);
    let mut told = Vec::with_capacity(post.alloc, settled.len())?;
    let step = post.shared.hand_in(
        rt,
        post.number,
        &mut load.turns,
        &settled,
        &mut told,
        &mut load.tickets,
    )?;
    note_all(post.inline, &told, &mut load.book)?;
    Ok(step)
}

// Hands over the checks that others judge, and keeps all other buffers.
#[tactic(auto, using(crate::proofs::Worked::handed_all))]
fn part_with<P: Naming, R: Wait>(
    rt: &R,
    inline: bool,
    channel: &mut ChannelEnd<'_, P>,
    served: Vec<Served>,
    buffers: &mut Vec<Vec<u8>>,
) -> Result<(), Halt>
    ensures { OnOk result (pass_state channel.new.pass ≡ all_handed_on inline served.items (pass_state channel.old.pass)) }
{
    for one in served {
        if !inline && one.to_judge() {
            channel.put(rt, one);
        } else {
            push(buffers, one.into_buf())?;
        }
    }
    Ok(())
}
