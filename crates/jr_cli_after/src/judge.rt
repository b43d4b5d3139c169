ghost use Rattle.std.specs.Prelude.{◌≡◌, ◌≤◌, ◌<◌, ◌+◌, ◌^◌, length, IfOk, OnOk};
ghost use Rattle.jr_after.specs.Findings.{finding_on};
ghost use Rattle.jr_after.specs.Ledgers.{kept_lines};
ghost use Rattle.jr_after.specs.Writes.{writes_of};
ghost use Rattle.jr_cli_after.specs.Judges.{longest};

use jr_after::{Finding, Named};
use jr_after_chunks::{Index, chunk_finding, index_of, longest_block, named_writes};
use jr_after_plans::planned_writes;
use jr_ledger::LedgerLine;
use jr_model::{Memory, Piece};
use jr_plan::Plan;
use std::alloc::Global;
use std::marker::Model;

// By what chunks are judged: a plan and the ledger of its run, with the plan's writes in an index.
#[derive(Drop)]
pub(crate) struct Judge<'a> {
    plan: &'a Plan,
    lines: &'a [LedgerLine],
    named: Vec<Named>,
    index: Index,
    // The length of the longest block of the plan's writes.
    longest: u32,
}

impl<'a> Model for Judge<'a> {
    ghost use Rattle.jr_cli_after.specs.Found.{Asked};
    ghost use Rattle.jr_cli_after.specs.Judges.{IsJudge};

    ghost Value = { Asked };

    ghost view = { λ j. record { plan = j.plan.now; lines = j.lines.now } };

    ghost invariant = { λ j. IsJudge j.plan.now j.lines.now j.named.items j.index j.longest };
}

impl<'a> Judge<'a> {
    // By this plan and ledger.
    pub(crate) fn new(
        alloc: Global,
        plan: &'a Plan,
        lines: &'a [LedgerLine],
    ) -> Result<Judge<'a>, Memory>
        ensures { IfOk result (λ judge. judge ≡ record { plan = plan.now; lines = lines.now }) }
    {
        let writes = planned_writes(alloc, plan)?;
        let named = named_writes(alloc, lines, writes.as_slice())?;
        let index = index_of(alloc, named.as_slice())?;
        let longest = longest_block(named.as_slice());
        Ok(Judge {
            plan,
            lines,
            named,
            index,
            longest,
        })
    }

    pub(crate) fn plan(&self) -> &'a Plan
        ensures { result.now ≡ self.now.plan }
    {
        self.plan
    }

    pub(crate) fn lines(&self) -> &'a [LedgerLine]
        ensures { result.now ≡ self.now.lines }
    {
        self.lines
    }

    // Lets a room be long enough for the bytes that a chunk's are compared with.
    pub(crate) fn make_room(&self, room: &mut Vec<u8>) -> Result<(), Memory>
        ensures { OnOk result (longest self.now ≤ length room.new.items) }
    {
        if room.len() < self.longest as usize {
            room.resize(self.longest as usize, 0)?;
        }
        Ok(())
    }

    // The finding on the bytes of a chunk. What the room holds afterwards says nothing.
    pub(crate) fn finding(
        &self,
        alloc: Global,
        kept: usize,
        chunk: &Piece,
        bytes: &[u8],
        room: &mut [u8],
    ) -> Result<Finding, Memory>
        requires kept { kept ≡ kept_lines chunk.now.file self.now.lines }
        requires some { 0 < chunk.now.len }
        requires room { longest self.now ≤ length room.old }
        requires length { length bytes.now ≡ chunk.now.len }
        requires end { chunk.now.offset + chunk.now.len < 2 ^ 64 }
        ensures { IfOk result (λ finding. finding ≡ finding_on (writes_of self.now.plan) self.now.lines chunk.now bytes.now) }
    {
        chunk_finding(
            alloc,
            kept,
            self.named.as_slice(),
            &self.index,
            chunk,
            bytes,
            room,
        )
    }
}
