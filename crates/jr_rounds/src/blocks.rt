// The bad blocks of rounds, for a list of them.
ghost use Rattle.std.specs.Prelude.{◌≡◌, true, false, IfOk};
ghost use Rattle.jr_model.specs.Report.{miscompares};
ghost use Rattle.jr_report_maps.specs.BadBlocks.{AreBadBlocks};
ghost use Rattle.jr_report_maps.specs.WrongBlocks.{AreWrongBlocks};

use jr_cli_ends::Findings;
use jr_cli_words::{BlockSize, CliFault};
use jr_desk::Desk;
use jr_report_maps::{bad_blocks, wrong_blocks};
use std::alloc::Global;

/// The blocks that were bad in the desk's run, with those of faults where these are wanted.
pub fn round_blocks(
    alloc: Global,
    desk: &Desk,
    size: &BlockSize,
    has_faults: bool,
) -> Result<Vec<u64>, CliFault>
    ensures bad { has_faults ≡ false → IfOk result (λ blocks.
        AreBadBlocks desk.now.plan (miscompares desk.now.history) 0 size.now blocks.items) }
    ensures wrong { has_faults ≡ true → IfOk result (λ blocks.
        AreWrongBlocks desk.now.plan desk.now.history (miscompares desk.now.history) 0 size.now blocks.items) }
{
    let findings = Findings::of_desk(alloc, desk)?;
    blocks_of(alloc, &findings, size, has_faults)
}

// The blocks that were bad in a run, with those of faults where these are wanted.
fn blocks_of(
    alloc: Global,
    findings: &Findings<'_>,
    size: &BlockSize,
    has_faults: bool,
) -> Result<Vec<u64>, CliFault>
    ensures bad { has_faults ≡ false → IfOk result (λ blocks.
        AreBadBlocks findings.now.plan (miscompares findings.now.history) 0 size.now blocks.items) }
    ensures wrong { has_faults ≡ true → IfOk result (λ blocks.
        AreWrongBlocks findings.now.plan findings.now.history (miscompares findings.now.history) 0 size.now blocks.items) }
{
    let (plan, bads) = (findings.plan(), findings.bads());
    if has_faults {
        let history = findings.history();
        Ok(wrong_blocks(alloc, plan, history, bads, 0, size.bytes())?)
    } else {
        Ok(bad_blocks(alloc, plan, bads, 0, size.bytes())?)
    }
}

/// Adds the blocks of a run to those of the runs before it: each once, ascending.
pub fn add_blocks(blocks: &mut Vec<u64>, more: &[u64]) -> Result<(), CliFault> {
    blocks.extend_from_slice(more)?;
    blocks.sort_unstable();
    blocks.dedup();
    Ok(())
}
