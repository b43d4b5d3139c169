ghost use Rattle.std.specs.Prelude.{◌≡◌};
ghost use Rattle.crossbeam_channel.specs.Ends.{sends_on, receives_on};

use crate::balance::{Balance, Cut, Puts, Remainder, Takes};
use crate::parcel::{Parcel, PassState};
use crossbeam_channel::{RuledReceiver, RuledSender, bounded_with};
use jr_model::Memory;
use std::alloc::Global;
use std::sync::Wait;

/// The channel from workers to verifiers, which threads share by reference.
#[derive(Drop)]
pub struct Handoff {
    sender: RuledSender<Parcel, PassState, Balance>,
    receiver: RuledReceiver<Parcel, PassState, Balance>,
    ghost joined: { receives_on receiver ≡ sends_on sender },
}

/// What one thread knows of a hand-over: what it put and what it took. It has no bytes.
#[derive(Drop)]
pub struct Pass {
    seat: crossbeam_channel::Pass<Parcel, PassState>,
}

impl Handoff {
    ghost use Rattle.std.specs.Prelude.{◌≡◌, ◌+◌, ◌++◌, ◌<◌, ◌≤◌, List, length, IfErr, IfNone, IfOk, IfSome, IsOkAnd, OnErr, OnOk};
    ghost use Rattle.std.specs.List.Sorted.{IsPermutation};
    ghost use Rattle.jr_crew_channel.specs.PassStates.{first_state, kept_of, given_of, joined_of, with_put, with_taken, IsWhole};
    ghost use Rattle.jr_crew_channel.specs.Passes.{IsPassOf, pass_state, room_of};

    /// A channel for so many parcels, and the pass of the thread that makes it.
    pub fn new<R>(_rt: &R, alloc: Global, capacity: usize) -> Result<(Handoff, Pass), Memory>
        requires { 1 ≤ capacity }
        ensures pass { IfOk result (λ made. IsPassOf made.0 made.1) }
        ensures nothing { IfOk result (λ made. pass_state made.1 ≡ first_state) }
        ensures capacity { IfOk result (λ made. room_of made.0 ≡ capacity) }
    {
        let (sender, receiver, seat) = bounded_with(alloc, capacity)?;
        Ok((Handoff { sender, receiver }, Pass { seat }))
    }

    /// A pass for another thread, with both lists empty. It takes no memory, so it isn't refused.
    pub fn split(&self, pass: &mut Pass) -> Result<Pass, Memory>
        requires { IsPassOf self.now pass.old }
        ensures pass { IsPassOf self.now pass.new }
        ensures kept { pass_state pass.new ≡ kept_of (pass_state pass.old) }

        // While a pass has parts to give, they are as large as before.
        ensures parts { let old = pass_state pass.old in let new = pass_state pass.new in
            1 < old.parts → (new.parts + 1 ≡ old.parts) × (new.of ≡ old.of) }
        ensures given { IsOkAnd result (λ given. IsPassOf self.now given × (pass_state given ≡ given_of (pass_state pass.old))) }
    {
        let seat = self.sender.another::<Cut>(&mut pass.seat);
        Ok(Pass { seat })
    }

    /// Takes in the pass of a thread that has ended: its lists come behind this one's.
    pub fn join(&self, pass: &mut Pass, other: Pass)
        requires pass { IsPassOf self.now pass.old }
        requires other { IsPassOf self.now other }
        ensures pass { IsPassOf self.now pass.new }
        ensures joined { pass_state pass.new ≡ joined_of (pass_state pass.old) (pass_state other) }

        // Parts that are as large as one another add up.
        ensures parts { let old = pass_state pass.old in let new = pass_state pass.new in let more = pass_state other in
            old.of ≡ more.of → (new.parts ≡ old.parts + more.parts) × (new.of ≡ old.of) }
    {
        let Pass { seat } = other;
        self.sender.absorb::<Cut>(&mut pass.seat, seat);
    }

    /// Puts the parcel at the back, and waits while the channel is full.
    pub fn put<R: Wait>(&self, rt: &R, pass: &mut Pass, parcel: Parcel)
        requires { IsPassOf self.now pass.old }
        ensures pass { IsPassOf self.now pass.new }
        ensures put { pass_state pass.new ≡ with_put (pass_state pass.old) parcel }
    {
        let mut parcel = parcel;
        for _ in rt.forever() {
            match self.try_put(rt, pass, parcel) {
                Ok(()) => return,
                Err(refused) => parcel = refused,
            }
        }
        unreachable!()
    }

    // One try, which a channel that seems to have no other end refuses.
    fn try_put<R: Wait>(&self, rt: &R, pass: &mut Pass, parcel: Parcel) -> Result<(), Parcel>
        requires { IsPassOf self.now pass.old }
        ensures pass { IsPassOf self.now pass.new }
        ensures put { OnOk result (pass_state pass.new ≡ with_put (pass_state pass.old) parcel) }
        ensures same { OnErr result (pass_state pass.new ≡ pass_state pass.old) }
        ensures refused { IfErr result (λ refused. refused ≡ parcel) }
    {
        match self.sender.send_as::<Puts, R>(rt, &mut pass.seat, parcel) {
            Ok(()) => Ok(()),
            Err(refused) => Err(refused.into_inner()),
        }
    }

    /// Takes the parcel at the front, and waits while there is none.
    pub fn take<R: Wait>(&self, rt: &R, pass: &mut Pass) -> Parcel
        requires { IsPassOf self.now pass.old }
        ensures pass { IsPassOf self.now pass.new }
        ensures taken { pass_state pass.new ≡ with_taken (pass_state pass.old) result }
    {
        for _ in rt.forever() {
            if let Some(parcel) = self.try_take(rt, pass) {
                return parcel;
            }
        }
        unreachable!()
    }

    // One try, which an empty channel that seems to have no other end refuses.
    fn try_take<R: Wait>(&self, rt: &R, pass: &mut Pass) -> Option<Parcel>
        requires { IsPassOf self.now pass.old }
        ensures pass { IsPassOf self.now pass.new }
        ensures taken { IfSome result (λ parcel. pass_state pass.new ≡ with_taken (pass_state pass.old) parcel) }
        ensures same { IfNone result (pass_state pass.new ≡ pass_state pass.old) }
    {
        match self.receiver.recv_as::<Takes, R>(rt, &mut pass.seat) {
            Ok(parcel) => Some(parcel),
            Err(_) => None,
        }
    }

    /// Takes the parcel at the front, if there is one now. It waits for none.
    pub fn take_now<R: Wait>(&self, rt: &R, pass: &mut Pass) -> Option<Parcel>
        requires { IsPassOf self.now pass.old }
        ensures pass { IsPassOf self.now pass.new }
        ensures taken { IfSome result (λ parcel. pass_state pass.new ≡ with_taken (pass_state pass.old) parcel) }
        ensures none { IfNone result (pass_state pass.new ≡ pass_state pass.old) }
    {
        match self.receiver.try_recv_as::<Takes, R>(rt, &mut pass.seat) {
            Ok(parcel) => Some(parcel),
            Err(_) => None,
        }
    }

    /// What holds once every pass was joined into this one.
    pub fn facts(&self, pass: &mut Pass)
        requires pass { IsPassOf self.now pass.old }
        requires whole { IsWhole (pass_state pass.old) }
        ensures pass { IsPassOf self.now pass.new }
        ensures same { pass_state pass.new ≡ pass_state pass.old }
        ensures left { (left : List Parcel) × IsPermutation (pass_state pass.new).put ((pass_state pass.new).taken ++ left) }
        ensures all_taken { length (pass_state pass.new).taken ≡ length (pass_state pass.new).put
            → IsPermutation (pass_state pass.new).put (pass_state pass.new).taken }
    {
        self.sender.learn_as::<Remainder>(&mut pass.seat);
    }
}
