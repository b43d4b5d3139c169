use crate::asserts::same;
use jr_model::{EngineKind, IoType};
use jr_plan::{Draft, Plan, PlanFault, Workload, plan_text};
use std::alloc::Global;
use std::process::Abort;
use std::test::Fail;

// The draft with one more clone.
fn added(
    alloc: Global,
    mut draft: Draft,
    workload: &Workload,
    file: &str,
    start: u64,
) -> Result<Draft, Fail> {
    let file = String::from_str(alloc, file)?;
    draft.add(alloc, workload, "w", file, start)?;
    Ok(draft)
}

// The plan of a draft that has clones.
fn finished(draft: Draft) -> Result<Plan, Fail> {
    if draft.clones() == 0 {
        return Err(Fail::from("no clones"));
    }
    Ok(draft.finish(EngineKind::Memory, 2))
}

fn plain() -> Workload {
    Workload::plain(IoType::Write, 4096, 4)
}

// What a draft of one clone says of another before it is added and when it is, and how many it has then.
fn refusal(
    alloc: Global,
    workload: &Workload,
    start: u64,
) -> Result<(Option<PlanFault>, Option<PlanFault>, usize), Fail> {
    let file = String::from_str(alloc, "g")?;
    let mut draft = added(alloc, Draft::new(alloc), &plain(), "f", 0)?;
    let fault = draft.fault(workload, start);
    let refused = draft.add(alloc, workload, "w", file, start).err();
    Ok((fault, refused, draft.clones()))
}

// Three clones, the last of which has the first one's file.
fn shared(alloc: Global) -> Result<Plan, Fail> {
    let later = Workload {
        phase: 1,
        ..Workload::plain(IoType::RandRead, 512, 8)
    };
    let draft = added(alloc, Draft::new(alloc), &plain(), "f", 8192)?;
    let draft = added(alloc, draft, &plain(), "g", 0)?;
    let draft = added(alloc, draft, &later, "f", 512)?;
    finished(draft)
}

const SHARED: &str =
    "w: clone=0 phase=0 file=f start=8192 size=16384 cell=4096 cells=4 rw=write iodepth=1 loops=1 verify=none
w: clone=1 phase=0 file=g start=0 size=16384 cell=4096 cells=4 rw=write iodepth=1 loops=1 verify=none
w: clone=2 phase=1 file=f start=512 size=4096 cell=512 cells=8 rw=randread iodepth=1 loops=1 verify=none
";

#[test]
fn clones_share_a_file(rt: HostRuntime) -> Result<(), Fail> {
    let plan = shared(rt.alloc())?;
    plan.facts();
    assert_shared(&rt, &plan);
    let text = plan_text(rt.alloc(), &plan)?;
    same(&rt, text.as_slice(), SHARED.as_bytes());
    Ok(())
}

// Has the plan three clones over two files, of which the first goes from the last clone's start to the first clone's end?
fn assert_shared(rt: &impl Abort, plan: &Plan) {
    same(rt, plan.clones(), 3);
    let files = plan.files();
    assert!(rt; files.len() == 2);
    same(rt, (files[0].low(), files[0].high()), (512, 24576));
    same(rt, plan.apart(), false);
    same(rt, plan.verifiers(), 2);
    same(rt, plan.engine(), EngineKind::Memory);
}

#[test]
fn clones_decline_as_their_work_says(rt: HostRuntime) -> Result<(), Fail> {
    let declining = Workload {
        declines: true,
        ..plain()
    };
    let draft = added(rt.alloc(), Draft::new(rt.alloc()), &declining, "f", 0)?;
    let plan = finished(added(rt.alloc(), draft, &plain(), "f", 0)?)?;
    assert!(rt; plan.clones() == 2);
    same(&rt, plan.clone_at(0).declines(), true);
    same(&rt, plan.clone_at(1).declines(), false);
    Ok(())
}

// What a job file can't ask for, beside what it can.
#[test]
fn drafts_refuse_by_name(rt: HostRuntime) -> Result<(), Fail> {
    let deep = Workload {
        depth: 257,
        ..plain()
    };
    let idle = Workload {
        passes: 0,
        ..plain()
    };
    same(&rt, refusal(rt.alloc(), &plain(), 512)?, (None, None, 2));
    let block = Some(PlanFault::Block);
    same(&rt, refusal(rt.alloc(), &plain(), 100)?, (block, block, 1));
    let number = Some(PlanFault::Number);
    same(&rt, refusal(rt.alloc(), &deep, 0)?, (number, number, 1));
    same(&rt, refusal(rt.alloc(), &idle, 0)?, (number, number, 1));
    Ok(())
}
