// Files whose calls are to go past the system's cache.
ghost use Rattle.std.specs.Prelude.{◌≡◌, ◌<◌, length, IfOk, IfErr};
ghost use Rattle.jr_io_files.specs.Engines.{IsOpenFault};
ghost use Rattle.jr_io_files.specs.Opened.{name_of};

use crate::claims::name_of;
use crate::opened::{OpenedFile, Sectors};
use crate::refusals::{Refusal, Why};
use jr_io_blocks::{DirectAnswer, Dropper, first_ragged, sector_of};
use jr_plan::{Plan, SubJob};
use std::alloc::{AllocError, Global};
use std::rt::Files;

/// Which files of a plan are to be direct, and what makes them so.
#[derive(Clone, Copy)]
pub struct Directs<'a> {
    /// For each file in the plan's order whether it is to be direct; those behind the last aren't.
    pub wanted: &'a [bool],
    /// What asks the launcher. Without it all go through the system's cache, and no block device can be held.
    pub asked: Option<&'a Dropper>,
}

impl Directs<'_> {
    /// No file is to be direct.
    pub(crate) fn none() -> Directs<'static> {
        Directs {
            wanted: &[],
            asked: None,
        }
    }

    fn wants(&self, index: usize) -> bool {
        self.wanted.get(index).is_some_and(|wanted| *wanted)
    }
}

/// The file, past the system's cache if that is wanted and the launcher can have it so.
///
/// It is refused if its file system takes no direct calls, and if a clone would use parts of sectors.
pub(crate) fn as_wanted<R: Files>(
    rt: &R,
    alloc: Global,
    plan: &Plan,
    index: usize,
    file: OpenedFile,
    directs: Directs<'_>,
) -> Result<OpenedFile, Refusal>
    requires { index < length plan.now.files }
    ensures ok { IfOk result (λ opened. name_of opened ≡ name_of file) }
    ensures err { IfErr result (λ refusal. IsOpenFault refusal.fault (length plan.now.files)) }
{
    match made_direct(rt, alloc, plan, index, &file, directs)? {
        Some(sectors) => Ok(file.past_cache(sectors)),
        None => Ok(file),
    }
}

// Has the launcher make the file direct if that is wanted. Answers in what its calls are counted, if it is direct then.
fn made_direct<R: Files>(
    rt: &R,
    alloc: Global,
    plan: &Plan,
    index: usize,
    file: &OpenedFile,
    directs: Directs<'_>,
) -> Result<Option<Sectors>, Refusal>
    requires { index < length plan.now.files }
    ensures { IfErr result (λ refusal. IsOpenFault refusal.fault (length plan.now.files)) }
{
    let Some(asked) = directs.asked else {
        return Ok(None);
    };
    if !directs.wants(index) {
        return Ok(None);
    }
    match asked.make_direct(file.file()) {
        DirectAnswer::Nothing => Ok(None),
        DirectAnswer::Direct => Ok(Some(whole_sectors(rt, alloc, plan, index, file)?)),
        DirectAnswer::Refused => {
            let name = name_of(alloc, plan, index)?;
            Err(Refusal::of_file(index, Why::NotDirect(name)))
        }
    }
}

// The sectors of a file that is direct, unless a clone would use parts of them.
fn whole_sectors<R: Files>(
    rt: &R,
    alloc: Global,
    plan: &Plan,
    index: usize,
    file: &OpenedFile,
) -> Result<Sectors, Refusal>
    requires { index < length plan.now.files }
    ensures { IfErr result (λ refusal. IsOpenFault refusal.fault (length plan.now.files)) }
{
    let Ok(sector) = sector_of(rt, alloc, file.numbers()) else {
        return Err(Refusal::memory());
    };
    match first_ragged(plan, index, sector) {
        Some(ragged) => {
            let job = plan.clone_at(ragged);
            let why = parts_used(alloc, plan, index, sector, job)?;
            Err(Refusal::of_file(index, why))
        }
        None => Ok(Sectors {
            sector,
            most: largest_block(plan, index),
        }),
    }
}

// A clone of this job would use parts of the file's sectors.
fn parts_used(
    alloc: Global,
    plan: &Plan,
    index: usize,
    sector: u64,
    job: &SubJob,
) -> Result<Why, AllocError>
    requires { index < length plan.now.files }
{
    let name = name_of(alloc, plan, index)?;
    let job = String::from_str(alloc, job.job())?;
    Ok(Why::Sectors(name, sector, job))
}

// The largest block that a clone of the plan uses in this file.
fn largest_block(plan: &Plan, file: usize) -> usize {
    let mut most = 0;
    for i in 0..plan.clones() {
        let job = plan.clone_at(i);
        if job.file() as usize == file {
            most = most.max(largest_of(job));
        }
    }
    most
}

fn largest_of(job: &SubJob) -> usize {
    let mut most = 0u32;
    for (size, _) in job.read_split().entries() {
        most = most.max(*size);
    }
    for (size, _) in job.write_split().entries() {
        most = most.max(*size);
    }
    most as usize
}
