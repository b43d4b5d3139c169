ghost use Rattle.std.specs.Prelude.{◌≡◌, ◌==◌, ◌&&◌, IfOk, MatchOption, filter, count_by, nat_lt, slice_get};
ghost use Rattle.jr_replay_passes.specs.Passes.{IsLastBelow, NoneBelow, is_below};
ghost use Rattle.jr_model.specs.declared.workloads.Draw.{Draw};
ghost use Rattle.jr_model.specs.Rounds.{pass_of, passes_of, write_id, is_write_draw, writes_of, has_rounds, group_of};
ghost use Rattle.jr_model.specs.Rounds.{group_count, group_index};

use crate::draws::draws_of;
use jr_model::{Dir, Draw, Memory, WriteId};
use jr_plan::SubJob;
use std::alloc::Global;
use std::marker::Model;

/// One pass of a clone, with its draws.
#[derive(Drop)]
pub struct PlannedPass<'a> {
    job: &'a SubJob,
    number: u32,
    draws: Vec<Draw>,
    writes: Vec<Draw>,
}

impl<'a> Model for PlannedPass<'a> {
    ghost use Rattle.jr_model.specs.Rounds.{Pass as PassRecord};
    ghost use Rattle.jr_replay_passes.specs.Passes.{ArePassDraws};

    ghost Value = { PassRecord };

    ghost view = { λ p. record { job = p.job.now; number = p.number; draws = p.draws.items } };

    ghost invariant = { λ p. ArePassDraws p.job.now p.number p.draws.items p.writes.items };
}

impl<'a> PlannedPass<'a> {
    /// Works out a pass of a clone.
    pub fn new(alloc: Global, job: &'a SubJob, number: u32) -> Result<PlannedPass<'a>, Memory>
        ensures { IfOk result (λ pass. pass ≡ pass_of job.now number) }
    {
        let draws = draws_of(alloc, job, number)?;
        let writes = writes_among(alloc, &draws)?;
        Ok(PlannedPass {
            job,
            number,
            draws,
            writes,
        })
    }

    /// Nothing: its contract says that its draws are those of the clone's pass.
    pub fn facts(&self)
        ensures { self.now ≡ pass_of self.now.job self.now.number }
    {
        let _ = &self.number;
    }

    /// The clone.
    pub fn job(&self) -> &SubJob
        ensures { result.now ≡ self.now.job }
    {
        self.job
    }

    /// Its place among the clone's passes, from 0.
    pub fn number(&self) -> u32
        ensures { result ≡ self.now.number }
    {
        self.number
    }

    /// Its draws, in order.
    pub fn draws(&self) -> &[Draw]
        ensures { result.now ≡ self.now.draws }
    {
        self.draws.as_slice()
    }

    /// The draw of this number, if there is one.
    pub fn draw_at(&self, number: u32) -> Option<Draw>
        ensures { result ≡ slice_get self.now.draws number }
    {
        self.draws.get(number as usize).copied()
    }

    /// Its writes, in order.
    pub fn writes(&self) -> &[Draw]
        ensures { result.now ≡ writes_of self.now }
    {
        self.writes.as_slice()
    }

    /// The name of one of its draws in the run.
    pub fn write_id(&self, draw: &Draw) -> WriteId
        ensures { result ≡ write_id self.now draw.now }
    {
        WriteId {
            clone: self.job.clone_number(),
            pass: self.number,
            number: draw.number,
        }
    }

    /// The writes of a group: they are cut, in order, into groups of the backlog.
    pub fn group(&self, g: usize) -> &[Draw]
        ensures { result.now ≡ group_of self.now g }
    {
        let backlog = self.job.backlog() as usize;
        if backlog == 0 {
            return &self.writes;
        }
        let end = self.writes.len();
        let start = g.saturating_mul(backlog).min(end);
        &self.writes[start..start.saturating_add(backlog).min(end)]
    }

    /// How many groups there are.
    pub fn group_count(&self) -> usize
        ensures { result ≡ group_count self.now }
    {
        let backlog = self.job.backlog() as usize;
        if backlog == 0 {
            1
        } else {
            (self.writes.len() + backlog - 1) / backlog
        }
    }

    /// The group of the write that has this number.
    pub fn group_index(&self, number: u32) -> usize
        ensures { result ≡ group_index self.now number }
    {
        let backlog = self.job.backlog() as usize;
        if backlog == 0 {
            0
        } else {
            self.writes_below(number as usize) / backlog
        }
    }

    // How many of its writes have a lower number: they are numbered in order.
    fn writes_below(&self, number: usize) -> usize
        ensures { result ≡ count_by (λ (draw : Draw). nat_lt draw.number number) (writes_of self.now) }
    {
        self.facts();
        let mut low = 0;
        let mut high = self.writes().len();
        while low < high {
            let middle = low + (high - low) / 2;
            if is_below(at_place(self.writes(), middle), number) {
                low = middle + 1;
            } else {
                high = middle;
            }
        }
        low
    }

    /// The last of its writes with a lower number, if there is one.
    pub fn last_below(&self, number: usize) -> Option<Draw>
        ensures { MatchOption result (NoneBelow (writes_of self.now) number)
            (λ draw. IsLastBelow (writes_of self.now) number draw) }
    {
        self.facts();
        let count = self.writes_below(number);
        if count == 0 {
            return None;
        }
        at_place(self.writes(), count - 1)
    }

    /// Whether a group has as many writes with lower numbers as the backlog, the most that it can have.
    pub fn is_reached(&self, g: usize, number: usize) -> bool
        ensures { result ≡ (nat_lt 0 self.now.job.backlog
            && (count_by (λ (draw : Draw). nat_lt draw.number number) (group_of self.now g)
            == self.now.job.backlog)) }
    {
        self.facts();
        let backlog = self.job().backlog() as usize;
        if backlog == 0 {
            return false;
        }
        is_below(at_place(self.group(g), backlog - 1), number)
    }
}

// The draw at a place of some draws.
fn at_place(draws: &[Draw], place: usize) -> Option<Draw>
    ensures { result ≡ slice_get draws.now place }
{
    draws.get(place).copied()
}

// Whether there is a draw, with a lower number.
fn is_below(draw: Option<Draw>, number: usize) -> bool
    ensures { result ≡ is_below draw number }
{
    match draw {
        None => false,
        Some(draw) => (draw.number as usize) < number,
    }
}

/// Whether a draw is a write.
pub fn is_write_draw(draw: &Draw) -> bool
    ensures { result ≡ is_write_draw draw.now }
{
    draw.dir == Dir::Write
}

// The writes among the draws.
fn writes_among(alloc: Global, draws: &[Draw]) -> Result<Vec<Draw>, Memory>
    ensures { IfOk result (λ writes. writes.items ≡ filter is_write_draw draws.now) }
{
    let writes: Vec<Draw> = draws
        .iter()
        .filter(|draw| is_write_draw(draw))
        .copied()
        .collect(alloc)?;
    Ok(writes)
}

/// Whether a clone's writes are checked in rounds.
pub fn has_rounds(job: &SubJob) -> bool
    ensures { result ≡ has_rounds job.now }
{
    job.verifies()
}
