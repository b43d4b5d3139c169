ghost use Rattle.std.specs.Prelude.{◌≡◌, ◌/◌, ◌%◌, length};
ghost use Rattle.rand_xoshiro.specs.Xoshiro256.{plus_plus};
ghost use Rattle.jr_model.specs.Words.{seeded, words_from, state_after, word_bytes};

use rand_core::SeedableRng;
use rand_core::utils::{self, NextWord};
use rand_xoshiro::Xoshiro256PlusPlus;
use std::marker::Model;

/// The words of a seed in order: Xoshiro256++ (Blackman and Vigna), seeded through SplitMix64 as by
/// `seed_from_u64`.
#[derive(PartialEq, Eq, Drop)]
pub struct Words {
    generator: Xoshiro256PlusPlus,
}

impl Model for Words {
    ghost use Rattle.std.specs.Prelude.{List, ℕ};

    ghost Value = { List ℕ };

    ghost view = { λ words. words.generator };

    ghost inverse = { λ state. record { generator = state } };
}

impl Words {
    /// The words of this seed, from the first.
    pub fn new(seed: u64) -> Words
        ensures { result ≡ seeded seed }
    {
        Words {
            generator: Xoshiro256PlusPlus::seed_from_u64(seed),
        }
    }

    /// The next word.
    pub fn next(&mut self) -> u64
        ensures word { result ≡ (plus_plus self.old).0 }
        ensures after { self.new ≡ (plus_plus self.old).1 }
    {
        self.generator.next_word()
    }

    /// Fills the buffer with the next words, 8 bytes each, the low byte first. An empty buffer draws
    /// no word.
    pub fn fill(&mut self, buffer: &mut [u8])
        requires { length buffer.old % 8 ≡ 0 }
        ensures bytes { buffer.new ≡ word_bytes (words_from self.old (length buffer.old / 8)) }
        ensures after { self.new ≡ state_after self.old (length buffer.old / 8) }
    {
        utils::fill_bytes_via_u64(&mut self.generator, buffer);
    }
}
