ghost use Rattle.std.specs.Prelude.{◌≡◌, IfOk, ◌++◌, OnOk};
ghost use Rattle.jr_model.specs.Plan.{clone_of};
ghost use Rattle.jr_after_plans.specs.FaultTexts.{after_fault_text, job_name, refusal_text};

use jr_model::{Memory, push_text};
use jr_plan::Plan;
use std::alloc::Global;
use std::error::Error;
use std::fmt;

/// Why a clone's writes can't be judged after a cut.
#[derive(Clone, Copy, Debug, PartialEq, Eq)]
pub enum Refusal {
    /// It doesn't wait for what it overlaps (`serialize_overlap=0`).
    Unordered,
    /// Its blocks have no digest.
    NoDigest,
    /// Its blocks have several sizes, and no header at an interval.
    SeveralSizes,
    /// Its chunks have other places than those of the first clone that writes to its file.
    OtherGrid,
}

/// Why a plan can't be judged after a cut: its first clone that isn't taken.
#[derive(Clone, Copy, PartialEq, Eq)]
pub struct AfterFault {
    pub clone: u32,
    pub why: Refusal,
}

impl fmt::Display for Refusal {
    ghost use Rattle.std.specs.Prelude.{Some};
    ghost use Rattle.jr_after_plans.specs.FaultTexts.{refusal_text};

    ghost output = { λ why. Some (refusal_text why) };

    fn fmt<W: fmt::Write>(&self, f: &mut fmt::Formatter<W>) -> fmt::Result {
        f.write_str(refusal_text(*self))
    }
}

impl Error for Refusal {}

/// The fault by the name of its job, with what to write instead.
pub fn after_fault_text(alloc: Global, plan: &Plan, fault: &AfterFault) -> Result<Vec<u8>, Memory>
    ensures { IfOk result (λ text. text.items ≡ after_fault_text plan.now fault.now) }
{
    let mut text = Vec::new(alloc);
    push_text(&mut text, "ledger: job ")?;
    push_job_name(&mut text, plan, fault.clone)?;
    push_text(&mut text, ": ")?;
    push_text(&mut text, refusal_text(fault.why))?;
    Ok(text)
}

fn push_job_name(text: &mut Vec<u8>, plan: &Plan, clone: u32) -> Result<(), Memory>
    ensures { OnOk result (text.new.items ≡ text.old.items ++ job_name (clone_of plan.now clone)) }
{
    let i = clone as usize;
    if i < plan.clones() {
        return push_text(text, plan.clone_at(i).job());
    }
    Ok(())
}

fn refusal_text(why: Refusal) -> &'static str
    ensures { result.now ≡ refusal_text why }
{
    match why {
        Refusal::Unordered => "the order of its writes isn't known: write serialize_overlap=1",
        Refusal::NoDigest => {
            "its blocks don't say whose they are: write verify=md5, verify=sha1 or verify=sha256"
        }
        Refusal::SeveralSizes => "its blocks have several sizes: write verify_interval=512",
        Refusal::OtherGrid => {
            "its chunks have other places than an earlier job's in the file: write verify_interval=512 in both"
        }
    }
}
