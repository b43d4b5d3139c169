// The plans that these tests stand on.
use jr_model::{EngineKind, IoType, Method, Pattern, VerifyKind};
use jr_plan::{Draft, Plan, Workload};
use std::alloc::Global;
use std::test::Fail;

fn add(alloc: Global, draft: &mut Draft, clone: &(Workload, &str, u64)) -> Result<(), Fail> {
    let (workload, file, start) = clone;
    draft.add(alloc, workload, "w", String::from_str(alloc, file)?, *start)?;
    Ok(())
}

// A plan over memory: of clones with this work, in these files from these places on.
pub(crate) fn plan_of(alloc: Global, clones: &[(Workload, &str, u64)]) -> Result<Plan, Fail> {
    let mut draft = Draft::new(alloc);
    for clone in clones {
        add(alloc, &mut draft, clone)?;
    }
    if draft.clones() == 0 {
        return Err(Fail::from("no clones"));
    }
    Ok(draft.finish(EngineKind::Memory, 0))
}

// Writes of 4096 bytes, so many, that are checked by a pattern.
pub(crate) fn checked(cells: u32) -> Workload {
    Workload {
        method: Method {
            kind: VerifyKind::Pattern,
            pattern: Pattern::new(&[1]),
            interval: 0,
        },
        ..Workload::plain(IoType::Write, 4096, cells)
    }
}
