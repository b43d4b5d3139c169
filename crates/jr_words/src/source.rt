ghost use Rattle.std.specs.Prelude.{◌≡◌, ℕ, suc, List, ◌∷◌};
ghost use Rattle.jr_model.specs.Words.{words_from, listed_words};

use crate::generator::Words;

/// Where draws take their words from.
pub trait WordSource {
    // The next words that it will give, as many as asked.
    ghost upcoming: { Self → ℕ → List ℕ };

    /// The next word.
    fn next(&mut self) -> u64
        ensures { (n : ℕ) → upcoming self.old (suc n) ≡ result ∷ upcoming self.new n };
}

impl WordSource for Words {
    ghost upcoming = { words_from };

    fn next(&mut self) -> u64 {
        Words::next(self)
    }
}

/// Words handed in, and zeros after the last of them: a source for tests and worked examples.
#[derive(Clone, Copy)]
pub struct WordList<'a> {
    /// The words still to come.
    pub rest: &'a [u64],
}

impl WordSource for WordList<'_> {
    ghost upcoming = { λ list. listed_words list.rest.now };

    fn next(&mut self) -> u64 {
        match self.rest.split_first() {
            Some((first, rest)) => {
                self.rest = rest;
                *first
            }
            None => 0,
        }
    }
}
