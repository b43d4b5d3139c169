// The plans that these tests run, and what runs of them count from.
use jr_model::{EngineKind, IoType, MOST_VERIFIERS, Method, Pattern, Totals, VerifyKind};
use jr_plan::{Draft, Plan, Workload};
use std::alloc::Global;
use std::test::Fail;

pub(crate) const NOTHING: Totals = Totals {
    reads: 0,
    rbytes: 0,
    writes: 0,
    wbytes: 0,
    checks: 0,
    good: 0,
    bad: 0,
    skipped: 0,
    void: 0,
    faults: 0,
};

// So many clones with this work, all in one file, with so many verifiers.
pub(crate) fn plan_of(
    alloc: Global,
    workload: &Workload,
    clones: u32,
    engine: EngineKind,
    verifiers: u32,
) -> Result<Plan, Fail> {
    let mut draft = Draft::new(alloc);
    for _ in 0..clones {
        draft.add(alloc, workload, "w", String::from_str(alloc, "f")?, 0)?;
    }
    finished(draft, engine, verifiers)
}

// A clone with each of these, both from the begin of one file on, with so many verifiers.
pub(crate) fn plan_of_two(
    alloc: Global,
    first: &Workload,
    second: &Workload,
    verifiers: u32,
) -> Result<Plan, Fail> {
    let mut draft = Draft::new(alloc);
    draft.add(alloc, first, "v", String::from_str(alloc, "f")?, 0)?;
    draft.add(alloc, second, "w", String::from_str(alloc, "f")?, 0)?;
    finished(draft, EngineKind::Null, verifiers)
}

fn finished(draft: Draft, engine: EngineKind, verifiers: u32) -> Result<Plan, Fail> {
    if draft.clones() == 0 || verifiers > MOST_VERIFIERS {
        return Err(Fail::from("no such plan"));
    }
    Ok(draft.finish(engine, verifiers))
}

// So many writes of 4096 bytes that are checked by a pattern of one byte.
pub(crate) fn checked(cells: u32, byte: u8) -> Workload {
    Workload {
        method: Method {
            kind: VerifyKind::Pattern,
            pattern: Pattern::new(&[byte]),
            interval: 0,
        },
        ..Workload::plain(IoType::Write, 4096, cells)
    }
}
