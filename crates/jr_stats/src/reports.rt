ghost use Rattle.std.specs.Prelude.{◌≡◌, IfOk, map};
ghost use Rattle.jr_model.specs.Report.{in_order, miscompares, report_of};
ghost use Rattle.jr_desk_totals.specs.Bads.{miscompare_of};

use jr_desk::{Bad, Desk};
use jr_model::Memory;
use jr_report_lines::{bads_in_order, push_bads, totals_text};
use std::alloc::Global;

/// The report of a run: a line for each clone, then one for each bad verdict, by clone, pass and number.
pub fn report(alloc: Global, desk: &Desk) -> Result<Vec<u8>, Memory>
    ensures { IfOk result (λ text. text.items ≡ report_of desk.now.plan desk.now.history) }
{
    let plan = desk.plan();
    let mut text = totals_text(alloc, plan, desk.totals())?;
    let bads = sorted_bads(alloc, desk)?;
    push_bads(&mut text, plan, bads.as_slice())?;
    Ok(text)
}

// The bad verdicts of a desk's run by clone, pass and number.
fn sorted_bads(alloc: Global, desk: &Desk) -> Result<Vec<Bad>, Memory>
    ensures { IfOk result (λ bads. map miscompare_of bads.items ≡ in_order desk.now.plan (miscompares desk.now.history)) }
{
    bads_in_order(alloc, desk.plan(), desk.bads())
}
