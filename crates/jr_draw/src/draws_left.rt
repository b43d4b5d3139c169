use crate::drawer::Drawer;
use jr_model::{Draw, Memory};
use jr_plan::SubJob;
use jr_words::Words;
use std::alloc::Global;
use std::marker::Model;

/// The draws of a pass that are still to come, of which the next one can be looked at.
#[derive(Drop)]
pub struct DrawsLeft {
    next: Option<Draw>,
    rest: Drawer<Words>,
}

// Contracts see the list of these draws.
impl Model for DrawsLeft {
    ghost use Rattle.std.specs.Prelude.{List};
    ghost use Rattle.jr_model.specs.Words.{words_from};
    ghost use Rattle.jr_model.specs.declared.workloads.Draw.{Draw as OneDraw};
    ghost use Rattle.jr_draw.specs.ComingDraws.{coming, IsComing};

    ghost Value = { List OneDraw };

    ghost view = { λ d. coming words_from d.next d.rest };

    ghost invariant = { λ d. IsComing words_from d.next d.rest };
}

impl DrawsLeft {
    ghost use Rattle.std.specs.Prelude.{◌≡◌, ◌==◌, length, drop, slice_get, IfOk};
    ghost use Rattle.jr_model.specs.Draws.{draws_of_job};

    /// All draws of a pass of this clone.
    pub fn of_pass(alloc: Global, job: &SubJob, pass: u32) -> Result<DrawsLeft, Memory>
        ensures { IfOk result (λ draws. draws ≡ draws_of_job job.now pass) }
    {
        job.facts();
        let mut rest = Drawer::of_pass(alloc, job, pass)?;
        let next = rest.next();
        Ok(DrawsLeft { next, rest })
    }

    /// The next draw, if one is still to come.
    pub fn next(&self) -> Option<Draw>
        ensures { result ≡ slice_get self.now 0 }
    {
        self.next
    }

    /// Whether none is still to come.
    pub fn is_over(&self) -> bool
        ensures { result ≡ (length self.now == 0) }
    {
        self.next.is_none()
    }

    /// Goes past the next draw, if there is one.
    pub fn skip_next(&mut self)
        ensures { self.new ≡ drop 1 self.old }
    {
        self.next = self.rest.next();
    }
}
