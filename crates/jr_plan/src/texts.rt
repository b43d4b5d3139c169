ghost use Rattle.std.specs.Prelude.{◌≡◌, ◌++◌, ◌<◌, length, IfOk, OnOk, string_bytes};
ghost use Rattle.jr_plan.specs.PlanText.{io_type_word, verify_word, place_text, size_text, work_text, clone_line, plan_text};

use crate::clones::SubJob;
use crate::files::FileSpec;
use crate::plans::Plan;
use jr_model::{IoType, Memory, VerifyKind};
use std::alloc::{AllocError, Global};

/// The plan as text, a line for each clone.
pub fn plan_text(alloc: Global, plan: &Plan) -> Result<Vec<u8>, Memory>
    ensures { IfOk result (λ text. text.items ≡ plan_text plan.now) }
{
    let mut text = String::new(alloc);
    for i in 0..plan.clones() {
        push_clone(&mut text, plan.files(), plan.clone_at(i))?;
    }
    Ok(text.into_bytes())
}

fn push_clone(text: &mut String, files: &[FileSpec], job: &SubJob) -> Result<(), AllocError>
    requires { job.now.file < length files.now }
    ensures { OnOk result (string_bytes text.new ≡ string_bytes text.old ++ clone_line files.now job.now) }
{
    let file = &files[job.file() as usize];
    push_place(text, job, file)?;
    push_size(text, job)?;
    push_work(text, job)?;
    Ok(())
}

#[tactic(auto, unfolding(crate::specs::PlanText::place_text))]
fn push_place(text: &mut String, job: &SubJob, file: &FileSpec) -> Result<(), AllocError>
    ensures { OnOk result (string_bytes text.new ≡ string_bytes text.old ++ place_text file.now.name job.now) }
{
    let name = job.job();
    let clone = job.clone_number();
    let phase = job.phase();
    let file = file.name();
    let start = job.start();
    write!(
        text,
        "{name}: clone={clone} phase={phase} file={file} start={start}"
    )
}

#[tactic(auto, unfolding(crate::specs::PlanText::size_text))]
fn push_size(text: &mut String, job: &SubJob) -> Result<(), AllocError>
    ensures { OnOk result (string_bytes text.new ≡ string_bytes text.old ++ size_text job.now) }
{
    job.facts();
    let cell = job.cell();
    let cells = job.cells();
    let size = u64::from(cells) * u64::from(cell);
    write!(text, " size={size} cell={cell} cells={cells}")
}

#[tactic(auto, unfolding(crate::specs::PlanText::work_text))]
fn push_work(text: &mut String, job: &SubJob) -> Result<(), AllocError>
    ensures { OnOk result (string_bytes text.new ≡ string_bytes text.old ++ work_text job.now) }
{
    let io_type = io_type_word(job.io_type());
    let depth = job.depth();
    let passes = job.passes();
    let kind = verify_word(job.method().kind);
    write!(
        text,
        " rw={io_type} iodepth={depth} loops={passes} verify={kind}\n"
    )
}

/// The word of `rw` by which a plan names it.
pub fn io_type_word(io_type: IoType) -> &'static str
    ensures { result.now ≡ io_type_word io_type }
{
    match io_type {
        IoType::Read => "read",
        IoType::Write => "write",
        IoType::RandRead => "randread",
        IoType::RandWrite => "randwrite",
        IoType::ReadWrite => "rw",
        IoType::RandRw => "randrw",
    }
}

/// The word of `verify` by which a plan names it, and `none` for nothing verified.
pub fn verify_word(kind: VerifyKind) -> &'static str
    ensures { result.now ≡ verify_word kind }
{
    match kind {
        VerifyKind::Plain => "none",
        VerifyKind::Pattern => "pattern",
        VerifyKind::Md5 => "md5",
        VerifyKind::Sha1 => "sha1",
        VerifyKind::Sha256 => "sha256",
    }
}
