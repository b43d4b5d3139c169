// The plans that these tests stand on, and a memory for one.
use jr_engines::MemoryEngine;
use jr_model::{EngineKind, IoType, SECTOR};
use jr_plan::{Draft, Plan, Workload};
use std::alloc::Global;
use std::test::Fail;

fn add(alloc: Global, draft: &mut Draft, clone: &(Workload, &str, u64)) -> Result<(), Fail> {
    let (workload, file, start) = clone;
    draft.add(alloc, workload, "w", String::from_str(alloc, file)?, *start)?;
    Ok(())
}

fn finished(draft: Draft) -> Result<Plan, Fail> {
    if draft.clones() == 0 {
        return Err(Fail::from("no clones"));
    }
    Ok(draft.finish(EngineKind::Memory, 0))
}

// A plan over memory: of clones with this work, in these files from these places on.
pub(crate) fn plan_of(alloc: Global, clones: &[(Workload, &str, u64)]) -> Result<Plan, Fail> {
    let mut draft = Draft::new(alloc);
    for clone in clones {
        add(alloc, &mut draft, clone)?;
    }
    finished(draft)
}

// A plan over memory: of clones with sectors, in these files from these places on, so many.
pub(crate) fn in_sectors(
    alloc: Global,
    io_type: IoType,
    clones: &[(&str, u64, u32)],
) -> Result<Plan, Fail> {
    let mut draft = Draft::new(alloc);
    for (file, start, sectors) in clones {
        let workload = Workload::plain(io_type, SECTOR, *sectors);
        add(alloc, &mut draft, &(workload, file, *start))?;
    }
    finished(draft)
}

// A memory of one file of so many sectors.
pub(crate) fn memory_of(alloc: Global, sectors: u32) -> Result<MemoryEngine, Fail> {
    let plan = in_sectors(alloc, IoType::Write, &[("f", 0, sectors)])?;
    Ok(MemoryEngine::new(alloc, &plan)?)
}
