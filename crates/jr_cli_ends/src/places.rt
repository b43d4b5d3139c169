ghost use Rattle.std.specs.Prelude.{IfOk};
ghost use Rattle.jr_cli_ends.specs.Places.{IsListOf, IsListWithFaults};

use crate::findings::Findings;
use jr_cli_words::BlockSize;
use jr_model::Memory;
use jr_report_maps::{bad_blocks, blocks_text, wrong_blocks};
use std::alloc::Global;

/// The list of the bad blocks of a run over one file: a number a line.
pub fn list_text(
    alloc: Global,
    findings: &Findings<'_>,
    size: &BlockSize,
) -> Result<Vec<u8>, Memory>
    ensures { IfOk result (λ text. IsListOf findings.now.plan findings.now.history size.now text.items) }
{
    let blocks = bad_blocks(alloc, findings.plan(), findings.bads(), 0, size.bytes())?;
    blocks_text(alloc, blocks.as_slice())
}

/// The list of the bad blocks of a run over one file, and of the blocks of its I/Os and checks that failed or ended short.
pub fn list_text_with_faults(
    alloc: Global,
    findings: &Findings<'_>,
    size: &BlockSize,
) -> Result<Vec<u8>, Memory>
    ensures { IfOk result (λ text. IsListWithFaults findings.now.plan findings.now.history size.now text.items) }
{
    let (plan, history) = (findings.plan(), findings.history());
    let blocks = wrong_blocks(alloc, plan, history, findings.bads(), 0, size.bytes())?;
    blocks_text(alloc, blocks.as_slice())
}
