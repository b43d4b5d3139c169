ghost use Rattle.std.specs.Prelude.{◌≡◌, IfOk};
ghost use Rattle.jr_draw.specs.Drawing.{draws_left};
ghost use Rattle.jr_model.specs.Draws.{draws_of_job};
ghost use Rattle.jr_model.specs.Words.{words_from};

use jr_draw::Drawer;
use jr_model::{Draw, Memory};
use jr_plan::SubJob;
use jr_words::{Words, pass_seed};
use std::alloc::Global;

/// The draws of a clone's pass, in order.
pub(crate) fn draws_of(alloc: Global, job: &SubJob, pass: u32) -> Result<Vec<Draw>, Memory>
    ensures { IfOk result (λ draws. draws.items ≡ draws_of_job job.now pass) }
{
    let words = Words::new(pass_seed(job.seed(), job.clone_number(), pass));
    let drawer = Drawer::new(alloc, job, pass, words)?;
    draws_left(alloc, drawer, job.cells())
}

// The draws that a drawer is still to give, where so many are enough.
fn draws_left(alloc: Global, mut drawer: Drawer<Words>, most: u32) -> Result<Vec<Draw>, Memory>
    ensures { IfOk result (λ draws. draws.items ≡ draws_left words_from drawer most) }
{
    let mut draws = Vec::new(alloc);
    for _ in 0..most {
        match drawer.next() {
            Some(draw) => draws.push(draw)?,
            None => return Ok(draws),
        }
    }
    Ok(draws)
}
