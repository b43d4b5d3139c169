ghost use Rattle.std.specs.Prelude.{◌≡◌, ◌++◌, true, IfErr, IfOk, OnOk};
ghost use Rattle.std.specs.Io.KnownBytes.{Appends};
ghost use Rattle.jr_cli_ends.specs.Status.{is_unclean};
ghost use Rattle.jr_rounds.specs.Rounds.{is_bad, is_told, round_header, run_text, sums_line, sums_text};

use crate::seeds::seed_offset;
use crate::sums::Sums;
use jr_cli_words::{CliFault, write_out};
use jr_desk::Desk;
use jr_model::{Memory, Totals, push_field, push_text};
use jr_plan::{Plan, SubJob};
use jr_stats::{push_totals_line, report};
use std::alloc::Global;
use std::io::Write;

/// Appends the line above the report of a round; it ends in a line feed.
pub fn push_round_header(text: &mut Vec<u8>, round: u32) -> Result<(), Memory>
    ensures { OnOk result (text.new.items ≡ text.old.items ++ round_header round) }
{
    push_text(text, "round:")?;
    push_field(text, "number", u64::from(round))?;
    push_field(text, "randseed-offset", seed_offset(round))?;
    push_text(text, "\n")?;
    Ok(())
}

/// Whether a block came back wrong or an I/O failed in the desk's run.
pub fn is_bad(desk: &Desk) -> bool
    ensures { result ≡ is_bad desk.now.plan desk.now.history }
{
    desk.totals().iter().any(|totals| is_unclean(totals))
}

fn is_unclean(totals: &Totals) -> bool
    ensures { result ≡ is_unclean totals.now }
{
    totals.bad != 0 || totals.faults != 0
}

/// Prints the report of the desk's run, which was this round, below its line; nothing if nothing is wrong with it and others follow.
pub fn tell_round<V: Write>(
    alloc: Global,
    round: u32,
    desk: &Desk,
    is_last: bool,
    out: &mut V,
) -> Result<(), CliFault>
    ensures { OnOk result (Appends (V.contents out.old) (V.contents out.new)
        (run_text round desk.now.plan desk.now.history is_last)) }
{
    if !is_told(desk, is_last) {
        return Ok(());
    }
    let mut header = Vec::new(alloc);
    push_round_header(&mut header, round)?;
    write_out(header.as_slice(), out)?;
    let text = report(alloc, desk)?;
    write_out(text.as_slice(), out)?;
    Ok(())
}

// Whether the report of the desk's run is printed, where it is the last one or isn't.
fn is_told(desk: &Desk, is_last: bool) -> bool
    ensures { result ≡ is_told desk.now.plan desk.now.history is_last }
{
    is_last || is_bad(desk) || !desk.is_complete()
}

/// The lines of the sums, one for each clone.
pub fn sums_text(alloc: Global, plan: &Plan, sums: &Sums) -> Result<Vec<u8>, Memory>
    ensures { IfOk result (λ text. text.items ≡ sums_text plan.now sums.now) }
{
    let mut text = Vec::new(alloc);
    let totals = sums.totals();
    let count = plan.clones().min(totals.len());
    for i in 0..count {
        push_sums_line(&mut text, sums.rounds(), plan.clone_at(i), &totals[i])?;
    }
    Ok(text)
}

fn push_sums_line(text: &mut Vec<u8>, rounds: u64, job: &SubJob, sum: &Totals) -> Result<(), Memory>
    ensures { OnOk result (text.new.items ≡ text.old.items ++ sums_line rounds job.now sum.now) }
{
    push_text(text, "total:")?;
    push_field(text, "rounds", rounds)?;
    push_text(text, " ")?;
    push_totals_line(text, job, sum)?;
    Ok(())
}

/// Prints the lines of the sums.
pub fn tell_sums<V: Write>(
    alloc: Global,
    plan: &Plan,
    sums: &Sums,
    out: &mut V,
) -> Result<(), CliFault>
    ensures { OnOk result (Appends (V.contents out.old) (V.contents out.new) (sums_text plan.now sums.now)) }
{
    let text = sums_text(alloc, plan, sums)?;
    write_out(text.as_slice(), out)
}
