ghost use Rattle.std.specs.Prelude.{◌≡◌, ◌-◌, ◌^◌, ◌<◌, true, vec_len, IfOk};
ghost use Rattle.jr_model.specs.Tickets.{ticket_fits};
ghost use Rattle.jr_engines.specs.Answers.{Answers};
ghost use Rattle.jr_engines.specs.States.{scripted_state};
ghost use Rattle.jr_header.specs.Served.{asked_with};

use jr_engines::ScriptedEngine;
use jr_header::{Served, serve};
use jr_model::{Memory, Reply, ReplyBytes, Ticket};
use std::alloc::Global;

// Carries out a ticket over a scripted engine.
pub(crate) fn carried_out(engine: &mut ScriptedEngine, ticket: Ticket, buffer: Vec<u8>) -> Served
    requires fits { ticket_fits ticket ≡ true }
    requires room { vec_len buffer ≡ ticket.piece.len }
    requires calls { engine.old.calls < 2 ^ 64 - 1 }
    ensures { Answers (scripted_state engine.old) ticket (asked_with ticket.kind ticket buffer.items) result (scripted_state engine.new) }
{
    serve(engine, ticket, buffer)
}

// The reply once more.
pub(crate) fn copy_of(alloc: Global, reply: &Reply) -> Result<Reply, Memory>
    ensures { IfOk result (λ copy. copy ≡ reply.now) }
{
    match reply {
        Reply::Pass => Ok(Reply::Pass),
        Reply::Fail => Ok(Reply::Fail),
        Reply::Short(count) => Ok(Reply::Short(*count)),
        Reply::Torn(count) => Ok(Reply::Torn(*count)),
        Reply::Flip(place) => Ok(Reply::Flip(*place)),
        Reply::Drop => Ok(Reply::Drop),
        Reply::Bytes(bytes) => {
            let copy = Vec::from_slice(alloc, bytes.as_slice())?;
            Ok(Reply::Bytes(ReplyBytes::new(copy)))
        }
    }
}
