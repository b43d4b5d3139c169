use crate::asserts::same;
use jr_job_options::JobFault;
use jr_model::EngineKind;
use jr_options::plan;
use jr_plan::Plan;
use jr_text::sections;
use std::alloc::Global;
use std::process::Abort;
use std::test::Fail;

// The plan of a job text, and its fault where it has one.
fn planned(alloc: Global, text: &str, only: Option<&str>) -> Result<Plan, JobFault> {
    match sections(alloc, text.as_bytes()) {
        Ok(sections) => plan(alloc, sections.as_slice(), only),
        Err(_) => Err(JobFault::Memory),
    }
}

#[test]
fn jobs_have_files_of_their_own(rt: HostRuntime) -> Result<(), Fail> {
    let text = "[global]\nrw=write\nsize=32k\nbs=8k\n[a]\n[global]\nbs=16k\n[b]\n";
    assert_apart(&rt, &planned(rt.alloc(), text, None)?);
    same(&rt, planned(rt.alloc(), text, Some("b"))?.clones(), 1);
    Ok(())
}

// Are these two clones over files that nobody shares?
fn assert_apart(rt: &impl Abort, plan: &Plan) {
    same(rt, plan.clones(), 2);
    same(rt, plan.files().len(), 2);
    same(rt, plan.apart(), true);
    same(rt, plan.verifiers(), 0);
    same(rt, plan.engine(), EngineKind::File);
}

#[test]
fn one_file_of_two_clones(rt: HostRuntime) -> Result<(), Fail> {
    let text =
        "[a]\nioengine=memory\nrw=randwrite\nsize=8k\nnumjobs=2\noffset_increment=4k\nfilename=f\ndirectory=/tmp\nverify=md5\nverify_async=2\n";
    assert_shared(&rt, &planned(rt.alloc(), text, None)?);
    Ok(())
}

// Is all that the clones share one file in /tmp?
fn assert_shared(rt: &impl Abort, plan: &Plan) {
    let files = plan.files();
    assert!(rt; files.len() == 1);
    same(rt, files[0].name(), "/tmp/f");
    same(rt, (files[0].low(), files[0].high()), (0, 12288));
    same(rt, plan.apart(), false);
    same(rt, plan.verifiers(), 2);
    same(rt, plan.engine(), EngineKind::Memory);
}

// Whether each of two clones declines to wait for what it overlaps.
fn two_decline(alloc: Global, text: &str) -> Result<(bool, bool), Fail> {
    let plan = planned(alloc, text, None)?;
    if plan.clones() != 2 {
        return Err(Fail::from("two clones"));
    }
    Ok((plan.clone_at(0).declines(), plan.clone_at(1).declines()))
}

#[test]
fn each_job_declines_for_its_clones(rt: HostRuntime) -> Result<(), Fail> {
    let rows = [
        ("[a]\nsize=8k\n[b]\nsize=8k\n", (false, false)),
        (
            "[a]\nsize=8k\nserialize_overlap=0\n[b]\nsize=8k\n",
            (true, false),
        ),
        (
            "[a]\nsize=8k\nserialize_overlap=0\nnumjobs=2\n",
            (true, true),
        ),
        (
            "[global]\nsize=8k\nserialize_overlap=0\n[a]\n[b]\nserialize_overlap=1\n",
            (true, false),
        ),
    ];
    for (text, want) in rows {
        same(&rt, (text, two_decline(rt.alloc(), text)?), (text, want));
    }
    Ok(())
}
