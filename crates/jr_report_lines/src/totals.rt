ghost use Rattle.std.specs.Prelude.{◌≡◌, ◌++◌, IfOk, OnOk, length};
ghost use Rattle.jr_model.specs.Report.{totals_line, totals_lines, moved_fields, judged_fields};

use jr_model::{Memory, Totals, push_field, push_text};
use jr_plan::{Plan, SubJob};
use std::alloc::Global;

/// The lines of all clones (`totals` has one for each), as a report begins with them.
pub fn totals_text(alloc: Global, plan: &Plan, totals: &[Totals]) -> Result<Vec<u8>, Memory>
    ensures { IfOk result (λ text. text.items ≡ totals_lines plan.now totals.now) }
{
    let mut text = Vec::new(alloc);
    let count = plan.clones().min(totals.len());
    for i in 0..count {
        push_totals_line(&mut text, plan.clone_at(i), &totals[i])?;
    }
    Ok(text)
}

/// Appends the line of a clone; it ends in a line feed.
pub fn push_totals_line(text: &mut Vec<u8>, job: &SubJob, totals: &Totals) -> Result<(), Memory>
    ensures { OnOk result (text.new.items ≡ text.old.items ++ totals_line job.now totals.now) }
{
    push_text(text, job.job())?;
    push_text(text, ":")?;
    push_field(text, "clone", u64::from(job.clone_number()))?;
    push_moved(text, totals)?;
    push_judged(text, totals)?;
    push_text(text, "\n")
}

// What was read and written.
fn push_moved(text: &mut Vec<u8>, totals: &Totals) -> Result<(), Memory>
    ensures { OnOk result (text.new.items ≡ text.old.items ++ moved_fields totals.now) }
{
    push_field(text, "reads", totals.reads)?;
    push_field(text, "rbytes", totals.rbytes)?;
    push_field(text, "writes", totals.writes)?;
    push_field(text, "wbytes", totals.wbytes)
}

// What was checked, and what went wrong.
fn push_judged(text: &mut Vec<u8>, totals: &Totals) -> Result<(), Memory>
    ensures { OnOk result (text.new.items ≡ text.old.items ++ judged_fields totals.now) }
{
    push_field(text, "checks", totals.checks)?;
    push_field(text, "good", totals.good)?;
    push_field(text, "bad", totals.bad)?;
    push_field(text, "skipped", totals.skipped)?;
    push_field(text, "void", totals.void)?;
    push_field(text, "faults", totals.faults)
}
