ghost use Rattle.std.specs.Prelude.{◌≡◌, Some};
ghost use Rattle.jr_crew_channel.specs.declared.handoff.Handoff.{Handoff};
ghost use Rattle.jr_crew_channel.specs.Passes.{IsPassOf};

use crate::halts::Halt;
use crate::naming::Naming;
use jr_crew_channel::{Handoff, Parcel, Pass};
use jr_header::Served;
use std::marker::PhantomData;
use std::sync::Wait;

/// What one thread has of the hand-over: the channel, which is that of the run, and its own pass.
#[derive(Drop)]
pub struct ChannelEnd<'a, P: Naming> {
    pub handoff: &'a Handoff,
    pub pass: Pass,
    of: PhantomData<P>,
    ghost own: { IsPassOf handoff.now pass },
    ghost one: { P.handoff ≡ Some handoff.now },
}

/// What is left of it once its thread has ended: a part of the run's hand-over.
#[derive(Drop)]
pub struct ChannelPart<P: Naming> {
    pub pass: Pass,
    of: PhantomData<P>,
    ghost own: { (handoff : Handoff) → P.handoff ≡ Some handoff → IsPassOf handoff pass },
}

impl<'a, P: Naming> ChannelEnd<'a, P> {
    ghost use Rattle.std.specs.Prelude.{◌≡◌, ◌<◌, ◌++◌, List, IfNone, IfSome, IsOkAnd, OnOk, Some};
    ghost use Rattle.std.specs.List.Sorted.{IsPermutation};
    ghost use Rattle.jr_crew_channel.specs.PassStates.{IsWhole, PARTS, with_put, with_taken};
    ghost use Rattle.jr_crew_channel.specs.Passes.{pass_state};
    ghost use Rattle.jr_crew_threads.specs.Parts.{IsLess, IsMore, one_part};

    /// The end that has this pass of the hand-over.
    pub fn new(handoff: &'a Handoff, pass: Pass) -> ChannelEnd<'a, P>
        requires pass { IsPassOf handoff.now pass }
        requires one { P.handoff ≡ Some handoff.now }
        ensures { result.pass ≡ pass }
    {
        ChannelEnd {
            handoff,
            pass,
            of: PhantomData,
        }
    }

    /// An end for another thread, with one of this one's parts.
    #[tactic(auto, using(crate::proofs::PartLemmas::one_less, crate::proofs::PartLemmas::one_given))]
    pub fn another(&mut self) -> Result<ChannelEnd<'a, P>, Halt>
        requires parts { 1 < (pass_state self.old.pass).parts }
        requires of { (pass_state self.old.pass).of ≡ PARTS }
        ensures kept { IsLess 1 (pass_state self.old.pass) (pass_state self.new.pass) }
        ensures given { IsOkAnd result (λ channel. pass_state channel.pass ≡ one_part) }
    {
        let pass = self.handoff.split(&mut self.pass)?;
        Ok(ChannelEnd::new(self.handoff, pass))
    }

    /// What its thread leaves when it ends.
    pub fn into_part(self) -> ChannelPart<P>
        ensures { result.pass ≡ self.entry.pass }
    {
        let ChannelEnd {
            handoff: _,
            pass,
            of: _,
        } = self;
        ChannelPart {
            pass,
            of: PhantomData,
        }
    }

    /// Takes in the part of a thread that has ended.
    pub fn join(&mut self, part: ChannelPart<P>)
        requires { (pass_state self.old.pass).of ≡ (pass_state part.pass).of }
        ensures { let more = pass_state part.pass in
            IsMore more.parts more.put more.taken (pass_state self.old.pass) (pass_state self.new.pass) }
    {
        let ChannelPart { pass, of: _ } = part;
        self.handoff.join(&mut self.pass, pass);
    }

    /// What holds once all other ends were joined into this one: what was taken was put.
    pub fn facts(&mut self)
        requires { IsWhole (pass_state self.old.pass) }
        ensures same { pass_state self.new.pass ≡ pass_state self.old.pass }
        ensures left { (left : List Parcel) × IsPermutation (pass_state self.new.pass).put ((pass_state self.new.pass).taken ++ left) }
    {
        self.handoff.facts(&mut self.pass);
    }

    /// Hands over a check that ended whole, and waits while there is no room.
    pub fn put<R: Wait>(&mut self, rt: &R, served: Served)
        ensures { pass_state self.new.pass ≡ with_put (pass_state self.old.pass) (Parcel.Check served) }
    {
        self.handoff.put(rt, &mut self.pass, Parcel::Check(served));
    }

    /// Tells one verifier that nothing more comes.
    pub fn stop<R: Wait>(&mut self, rt: &R)
        ensures { pass_state self.new.pass ≡ with_put (pass_state self.old.pass) Parcel.Stop }
    {
        self.handoff.put(rt, &mut self.pass, Parcel::Stop);
    }

    /// Takes what was handed over first, and waits while there is nothing.
    pub fn take<R: Wait>(&mut self, rt: &R) -> Parcel
        ensures { pass_state self.new.pass ≡ with_taken (pass_state self.old.pass) result }
    {
        self.handoff.take(rt, &mut self.pass)
    }

    /// Takes it if it is there, and waits for nothing.
    pub fn take_now<R: Wait>(&mut self, rt: &R) -> Option<Parcel>
        ensures taken { IfSome result (λ parcel. pass_state self.new.pass ≡ with_taken (pass_state self.old.pass) parcel) }
        ensures none { IfNone result (pass_state self.new.pass ≡ pass_state self.old.pass) }
    {
        self.handoff.take_now(rt, &mut self.pass)
    }
}
