ghost use Rattle.std.specs.Prelude.{◌≡◌, ◌++◌, flat_map, IfOk, OnOk, string_bytes};
ghost use Rattle.jr_ledger.specs.Identity.{entry_text, split_text, byte_text, pattern_text, map_word, numbers_text, draws_text, job_text};
ghost use Rattle.jr_ledger.specs.Identity.{job_digest};

use jr_model::{Memory, Pattern};
use jr_plan::{Plan, Split, SubJob, plan_text};
use sha2::{Digest as _, Sha256};
use std::alloc::{AllocError, Global};

/// The digest that says which job a ledger is of, in 64 hexadecimal digits.
pub fn job_digest(alloc: Global, plan: &Plan) -> Result<String, Memory>
    ensures { IfOk result (λ digest. string_bytes digest ≡ job_digest plan.now) }
{
    let text = job_text(alloc, plan)?;
    let digest = Sha256::digest(text.as_slice());
    Ok(hex::encode(alloc, digest.as_slice())?)
}

// The text that is digested.
fn job_text(alloc: Global, plan: &Plan) -> Result<Vec<u8>, Memory>
    ensures { IfOk result (λ text. text.items ≡ job_text plan.now) }
{
    let mut text = plan_text(alloc, plan)?;
    let draws = all_draws_text(alloc, plan)?;
    text.extend_from_slice(draws.as_bytes())?;
    Ok(text)
}

fn all_draws_text(alloc: Global, plan: &Plan) -> Result<String, AllocError>
    ensures { IfOk result (λ text. string_bytes text ≡ flat_map draws_text plan.now.clones) }
{
    let mut text = String::new(alloc);
    for i in 0..plan.clones() {
        push_draws(&mut text, plan.clone_at(i))?;
    }
    Ok(text)
}

// Appends what the draws of a clone and their bytes follow from.
fn push_draws(text: &mut String, job: &SubJob) -> Result<(), AllocError>
    ensures { OnOk result (string_bytes text.new ≡ string_bytes text.old ++ draws_text job.now) }
{
    push_numbers(text, job)?;
    text.push_str(" reads=")?;
    push_split(text, job.read_split())?;
    text.push_str(" writes=")?;
    push_split(text, job.write_split())?;
    text.push_str(" pattern=")?;
    push_pattern(text, &job.method().pattern)?;
    text.push_str("\n")
}

#[tactic(auto, unfolding(crate::specs::Identity::numbers_text))]
fn push_numbers(text: &mut String, job: &SubJob) -> Result<(), AllocError>
    ensures { OnOk result (string_bytes text.new ≡ string_bytes text.old ++ numbers_text job.now) }
{
    let seed = job.seed();
    let mix = job.read_percent();
    let map = map_word(job.has_map());
    let interval = job.method().interval;
    write!(text, "seed={seed} mix={mix} map={map} interval={interval}")
}

fn map_word(has_map: bool) -> &'static str
    ensures { result.now ≡ map_word has_map }
{
    if has_map { "yes" } else { "no" }
}

fn push_split(text: &mut String, split: &Split) -> Result<(), AllocError>
    ensures { OnOk result (string_bytes text.new ≡ string_bytes text.old ++ split_text split.now) }
{
    push_entries(text, split.entries())
}

fn push_entries(text: &mut String, entries: &[(u32, u8)]) -> Result<(), AllocError>
    ensures { OnOk result (string_bytes text.new ≡ string_bytes text.old ++ flat_map entry_text entries.now) }
{
    for entry in entries {
        push_entry(text, entry.0, entry.1)?;
    }
    Ok(())
}

fn push_entry(text: &mut String, size: u32, percent: u8) -> Result<(), AllocError>
    ensures { OnOk result (string_bytes text.new ≡ string_bytes text.old ++ entry_text (size, percent)) }
{
    write!(text, " {size}/{percent}")
}

fn push_pattern(text: &mut String, pattern: &Option<Pattern>) -> Result<(), AllocError>
    ensures { OnOk result (string_bytes text.new ≡ string_bytes text.old ++ pattern_text pattern.now) }
{
    match pattern {
        None => text.push_str(" none"),
        Some(pattern) => push_bytes(text, pattern.as_slice()),
    }
}

fn push_bytes(text: &mut String, bytes: &[u8]) -> Result<(), AllocError>
    ensures { OnOk result (string_bytes text.new ≡ string_bytes text.old ++ flat_map byte_text bytes.now) }
{
    for byte in bytes {
        write!(text, " {byte}")?;
    }
    Ok(())
}
