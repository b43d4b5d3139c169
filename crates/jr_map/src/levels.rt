ghost use Rattle.std.specs.Prelude.{◌≡◌, ◌+◌, ◌*◌, ◌^◌, ◌<◌, ◌≤◌, false, length, IfOk};
ghost use Rattle.jr_map.specs.Levels.{words_for, HasShape, IsSummed};
ghost use Rattle.jr_map.specs.Words.{is_set, Adds, IsSetFrom, NextClear, IsClearRun};

use crate::words::{self, BITS};
use jr_model::Memory;
use std::alloc::Global;

/// Levels of words: a bit for each cell, and above them a bit for each word of the level below.
#[derive(Drop)]
pub struct Levels {
    lowest: Vec<u64>,
    second: Vec<u64>,
    third: Vec<u64>,
    top: Vec<u64>,
}

impl Levels {
    /// The levels over so many cells, all clear.
    pub fn new(alloc: Global, cells: usize) -> Result<Levels, Memory>
        requires { cells ≤ 2 ^ 24 }
        ensures shape { IfOk result HasShape }
        ensures len { IfOk result (λ levels. length levels.lowest.items ≡ words_for cells) }
        ensures clear { IfOk result (λ levels. IsSetFrom cells levels.lowest.items) }
        ensures summed { IfOk result IsSummed }
    {
        let lowest = words::clear_words(alloc, cells)?;
        let second = words::clear_words(alloc, lowest.len())?;
        let third = words::clear_words(alloc, second.len())?;
        let top = words::clear_words(alloc, third.len())?;
        Ok(Levels {
            lowest,
            second,
            third,
            top,
        })
    }

    /// Clears so many cells, which are all.
    pub fn clear(&mut self, cells: usize)
        requires shape { HasShape self.old }
        requires len { length self.old.lowest.items ≡ words_for cells }
        ensures shape { HasShape self.new }
        ensures len { length self.new.lowest.items ≡ words_for cells }
        ensures clear { IsSetFrom cells self.new.lowest.items }
        ensures summed { IsSummed self.new }
    {
        let words = self.lowest.len();
        words::clear_all(&mut self.lowest, cells);
        words::clear_all(&mut self.second, words);
        let words = self.second.len();
        words::clear_all(&mut self.third, words);
        let words = self.third.len();
        words::clear_all(&mut self.top, words);
    }

    /// The least clear cell from `from` on.
    pub fn next_clear(&self, from: usize) -> Option<usize>
        requires shape { HasShape self.now }
        requires summed { IsSummed self.now }
        ensures { NextClear self.now.lowest.items from result }
    {
        if let Some(cell) = words::next_in_word(&self.lowest, from) {
            return Some(cell);
        }
        let word = self.next_in_second(from / BITS + 1)?;
        Some(words::least_clear_in(&self.lowest, word))
    }

    // The least clear bit of the second level from `from` on.
    fn next_in_second(&self, from: usize) -> Option<usize>
        requires shape { HasShape self.now }
        requires summed { IsSummed self.now }
        ensures { NextClear self.now.second.items from result }
    {
        if let Some(bit) = words::next_in_word(&self.second, from) {
            return Some(bit);
        }
        let word = self.next_in_third(from / BITS + 1)?;
        Some(words::least_clear_in(&self.second, word))
    }

    // The least clear bit of the third level from `from` on.
    fn next_in_third(&self, from: usize) -> Option<usize>
        requires shape { HasShape self.now }
        requires summed { IsSummed self.now }
        ensures { NextClear self.now.third.items from result }
    {
        if let Some(bit) = words::next_in_word(&self.third, from) {
            return Some(bit);
        }
        let word = words::next_in_word(&self.top, from / BITS + 1)?;
        Some(words::least_clear_in(&self.third, word))
    }

    /// How many cells from the clear cell `from` on are clear without a gap, at most `want`.
    pub fn run(&self, from: usize, want: usize) -> usize
        requires shape { HasShape self.now }
        requires clear { is_set self.now.lowest.items from ≡ false }
        ensures { IsClearRun self.now.lowest.items from want result }
    {
        words::clear_run(&self.lowest, from, want)
    }

    /// Sets the cells from `start` up to `end`.
    pub fn mark(&mut self, start: usize, end: usize)
        requires shape { HasShape self.old }
        requires within { start < end → end ≤ 64 * length self.old.lowest.items }
        requires summed { IsSummed self.old }
        ensures shape { HasShape self.new }
        ensures len { length self.new.lowest.items ≡ length self.old.lowest.items }
        ensures set { Adds is_set self.old.lowest.items self.new.lowest.items start end }
        ensures summed { IsSummed self.new }
    {
        let (start, end) = words::mark(&mut self.lowest, start, end);
        let (start, end) = words::mark(&mut self.second, start, end);
        let (start, end) = words::mark(&mut self.third, start, end);
        words::mark(&mut self.top, start, end);
    }
}
