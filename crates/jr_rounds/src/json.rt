ghost use Rattle.std.specs.Prelude.{◌≡◌, IfOk};
ghost use Rattle.jr_report_json.specs.Rows.{notes_of};
ghost use Rattle.jr_rounds.specs.Json.{round_line, sums_line};

use crate::seeds::seed_offset;
use crate::sums::Sums;
use jr_cli_ends::{Findings, Storage, json_text};
use jr_desk::Desk;
use jr_model::{Memory, push_number, push_text};
use jr_plan::Plan;
use jr_report_json::{RunNotes, push_clones};
use std::alloc::Global;

/// A round as a line of JSON: its number, how far its seeds are from those of the plan, and the report as `json_text` has it.
pub fn round_json(
    alloc: Global,
    round: u32,
    findings: &Findings<'_>,
    notes: &RunNotes<'_>,
    storage: &Storage,
) -> Result<Vec<u8>, Memory>
    ensures { IfOk result (λ text. text.items ≡ round_line round findings.now (notes_of notes.now) storage.now) }
{
    let mut report = json_text(alloc, findings, notes, storage)?;
    // Its line feed.
    let _ = report.pop();
    let mut text = Vec::new(alloc);
    push_text(&mut text, "{\"round\":")?;
    push_number(&mut text, u64::from(round))?;
    push_text(&mut text, ",\"randseed_offset\":")?;
    push_number(&mut text, seed_offset(round))?;
    push_text(&mut text, ",\"report\":")?;
    text.extend_from_slice(report.as_slice())?;
    push_text(&mut text, "}\n")?;
    Ok(text)
}

/// The line of `round_json` of a round that has this desk.
pub fn round_line(
    alloc: Global,
    round: u32,
    desk: &Desk,
    notes: &RunNotes<'_>,
    storage: &Storage,
) -> Result<Vec<u8>, Memory>
    ensures { IfOk result (λ text. text.items ≡ round_line round (record { plan = desk.now.plan; history = desk.now.history }) (notes_of notes.now) storage.now) }
{
    let findings = Findings::of_desk(alloc, desk)?;
    round_json(alloc, round, &findings, notes, storage)
}

/// The sums as a line of JSON: how many rounds there were, and what each clone did in them, as a report has it.
pub fn sums_json(alloc: Global, plan: &Plan, sums: &Sums) -> Result<Vec<u8>, Memory>
    ensures { IfOk result (λ text. text.items ≡ sums_line plan.now sums.now) }
{
    let mut text = Vec::new(alloc);
    push_text(&mut text, "{\"rounds\":")?;
    push_number(&mut text, sums.rounds())?;
    push_text(&mut text, ",\"totals\":")?;
    push_clones(&mut text, alloc, plan, sums.totals())?;
    push_text(&mut text, "}\n")?;
    Ok(text)
}
