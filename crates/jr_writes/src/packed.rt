// Slots, some of which are taken; what is in those is kept packed.
ghost use Rattle.std.specs.Prelude.{◌≡◌, ◌==◌, ◌<◌, ◌%◌, ◌^◌, ◌/◌, None, Some, length, count_ones, IsSome, MatchOption, IfOk, OnOk, OnErr, if◌then◌else◌};
ghost use Rattle.std.specs.Int.{bit_at};
ghost use Rattle.std.specs.Option.{option_copied};
ghost use Rattle.jr_writes.specs.Slots.{IsLastTaken, slot_at};

use jr_model::Memory;
use std::alloc::Global;
use std::mem;

// How many slots there are.
pub(crate) const SLOTS: u32 = 64;

// 64 slots: a bit for each that is taken, and what is in those, in their order.
#[derive(Drop)]
pub struct Packed<T> {
    pub taken: u64,
    pub items: Vec<T>,
    ghost fits: { taken < 2 ^ 64 },
    ghost counted: { count_ones taken ≡ length items.items },
}

impl<T> Packed<T> {
    // Slots of which one is taken.
    pub(crate) fn of_one(alloc: Global, slot: u32, value: T) -> Result<Packed<T>, Memory>
    where
        T: Drop,
        requires { slot < 64 }
        ensures { IfOk result (λ one. (k : _) → slot_at one.taken one.items.items k ≡ (if k == slot then Some value else None)) }
    {
        let mut one = Packed {
            taken: 0,
            items: Vec::with_capacity(alloc, 1)?,
        };
        one.insert(slot, value)?;
        Ok(one)
    }

    // Whether a slot is taken.
    pub(crate) fn is_taken(&self, slot: u32) -> bool
        requires { slot < 64 }
        ensures { result ≡ (bit_at self.now.taken slot == 1) }
    {
        (self.taken >> slot) % 2 == 1
    }

    // How many slots below this one are taken.
    pub(crate) fn rank(&self, slot: u32) -> usize
        requires { slot < 64 }
        ensures { result ≡ count_ones (self.now.taken % 2 ^ slot) }
    {
        (self.taken % (1 << slot)).count_ones() as usize
    }

    // What is in a slot.
    pub(crate) fn get(&self, slot: u32) -> Option<&T>
        requires { slot < 64 }
        ensures { option_copied result ≡ slot_at self.now.taken self.now.items.items slot }
    {
        if !self.is_taken(slot) {
            return None;
        }
        let rank = self.rank(slot);
        Some(&self.items[rank])
    }

    // Puts a value into a slot that is free.
    pub(crate) fn insert(&mut self, slot: u32, value: T) -> Result<(), Memory>
    where
        T: Drop,
        requires within { slot < 64 }
        requires free { slot_at self.old.taken self.old.items.items slot ≡ None }
        ensures ok { OnOk result ((k : _) → slot_at self.new.taken self.new.items.items k
            ≡ (if k == slot then Some value else slot_at self.old.taken self.old.items.items k)) }
        ensures err { OnErr result ((self.new.taken ≡ self.old.taken) × (self.new.items.items ≡ self.old.items.items)) }
    {
        let rank = self.rank(slot);
        self.items.insert(rank, value)?;
        self.taken |= 1 << slot;
        Ok(())
    }

    // Puts a value into a slot, and gives what was in it. A slot that is taken wants no memory.
    pub(crate) fn put(&mut self, slot: u32, value: T) -> Result<Option<T>, Memory>
    where
        T: Drop,
        requires { slot < 64 }
        ensures old { IfOk result (λ old. old ≡ slot_at self.old.taken self.old.items.items slot) }
        ensures ok { OnOk result ((k : _) → slot_at self.new.taken self.new.items.items k
            ≡ (if k == slot then Some value else slot_at self.old.taken self.old.items.items k)) }
        ensures err { OnErr result ((self.new.taken ≡ self.old.taken) × (self.new.items.items ≡ self.old.items.items)) }
    {
        if self.is_taken(slot) {
            let rank = self.rank(slot);
            let older = mem::replace(&mut self.items[rank], value);
            return Ok(Some(older));
        }
        self.insert(slot, value)?;
        Ok(None)
    }

    // Takes out what is in a slot.
    pub(crate) fn remove(&mut self, slot: u32) -> Option<T>
        requires { slot < 64 }
        ensures value { result ≡ slot_at self.old.taken self.old.items.items slot }
        ensures slots { (k : _) → slot_at self.new.taken self.new.items.items k
            ≡ (if k == slot then None else slot_at self.old.taken self.old.items.items k) }
    {
        if !self.is_taken(slot) {
            return None;
        }
        let rank = self.rank(slot);
        let value = self.items.remove(rank);
        self.taken &= !(1 << slot);
        Some(value)
    }

    // The last taken slot below the end.
    pub(crate) fn last_below(&self, end: u32) -> Option<u32>
        requires { end < 64 }
        ensures { IsLastTaken (λ k. slot_at self.now.taken self.now.items.items k) end result }
    {
        last_bit(self.taken % (1 << end))
    }

    // The last taken slot.
    pub(crate) fn last(&self) -> Option<u32>
        ensures { IsLastTaken (λ k. slot_at self.now.taken self.now.items.items k) 64 result }
    {
        last_bit(self.taken)
    }
}

// The highest bit that is set.
fn last_bit(word: u64) -> Option<u32>
    ensures { MatchOption result (word ≡ 0) (λ bit. word / 2 ^ bit ≡ 1) }
{
    if word == 0 {
        return None;
    }
    Some(word.ilog2())
}
