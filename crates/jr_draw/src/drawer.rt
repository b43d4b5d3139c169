ghost use Rattle.std.specs.Prelude.{◌≡◌, ◌≤◌, ℕ, suc, ◌*◌, true, List, [], ◌∷◌, length, IfOk, IfNone, MatchOption};
ghost use Rattle.jr_model.specs.Draws.{draws_over, draws_of_job};
ghost use Rattle.jr_model.specs.Words.{words_from, pass_words};
ghost use Rattle.jr_draw.specs.Drawing.{draws_left, pass_of};
ghost use Rattle.jr_laws_draws.specs.PassLaw.{is_mapped, CoversOnce, PassLaw};

use crate::course::Course;
use jr_model::{Draw, Memory};
use jr_plan::SubJob;
use jr_words::{WordSource, Words};
use std::alloc::Global;

/// Gives the draws of a pass, one after another.
#[derive(Drop)]
pub struct Drawer<W> {
    course: Course,
    pass: u32,
    source: W,
}

impl Drawer<Words> {
    /// The draws of a pass of this clone, over the words of the clone's own seed.
    pub fn of_pass(alloc: Global, job: &SubJob, pass: u32) -> Result<Drawer<Words>, Memory>
        ensures draws { IfOk result (λ drawer. (n : ℕ)
            → draws_left words_from drawer n ≡ draws_over job.now (pass_words job.now pass (4 * n))) }
        ensures whole { IfOk result (λ drawer. (n : ℕ) → job.now.cells ≤ n
            → draws_left words_from drawer n ≡ draws_of_job job.now pass) }
        ensures pass { IfOk result (λ drawer. pass_of drawer ≡ pass) }

        // A pass has at most a draw a cell, and with a map it covers each cell once.
        ensures count { length (draws_of_job job.now pass) ≤ job.now.cells }
        ensures once { is_mapped job.now ≡ true → CoversOnce job.now (draws_of_job job.now pass) }
    {
        let seed = jr_words::pass_seed(job.seed(), job.clone_number(), pass);
        Drawer::new(alloc, job, pass, Words::new(seed))
    }
}

impl<W: WordSource + Drop> Drawer<W> {
    /// The draws of a pass of this clone, over the words of a source.
    pub fn new(alloc: Global, job: &SubJob, pass: u32, source: W) -> Result<Drawer<W>, Memory>
        ensures draws { IfOk result (λ drawer. (n : ℕ)
            → draws_left W.upcoming drawer n ≡ draws_over job.now (W.upcoming source (4 * n))) }
        ensures pass { IfOk result (λ drawer. pass_of drawer ≡ pass) }

        // Whatever the words are.
        ensures law { PassLaw job.now }
    {
        job.facts();
        let course = Course::new(alloc, job)?;
        Ok(Drawer {
            course,
            pass,
            source,
        })
    }

    /// The next draw, which takes four words; `None` once all cells are drawn.
    pub fn next(&mut self) -> Option<Draw>
        ensures draws { (n : ℕ) → let before = draws_left W.upcoming self.old (suc n) in
            MatchOption result (before ≡ [])
            (λ draw. before ≡ draw ∷ draws_left W.upcoming self.new n) }
        ensures end { IfNone result (self.new ≡ self.old) }
        ensures pass { pass_of self.new ≡ pass_of self.old }
    {
        if self.course.is_over() {
            return None;
        }
        let direction = self.source.next();
        let size = self.source.next();
        let place = self.source.next();
        let seed = self.source.next();
        Some(self.course.draw(direction, size, place, seed))
    }

    /// The pass, counted from 0.
    pub fn pass(&self) -> u32
        ensures { result ≡ pass_of self.now }
    {
        self.pass
    }
}
