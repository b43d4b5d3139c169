// Folders of the tests' own, and the plan of a job in one.
use jr_model::{EngineKind, IoType, VerifyKind};
use jr_plan::{Draft, Plan, Workload};
use std::alloc::{AllocError, Global};
use std::rt::{Env, Files};
use std::test::Fail;
use std::{env, fs, io};

// A folder of this test's own, below the system's folder for such.
pub(crate) fn fresh_folder<R: Files + Env + AllocGlobal>(
    rt: &R,
    id: u32,
    name: &str,
) -> io::Result<String> {
    let mut folder = env::temp_dir(rt)?;
    folder.push(format!(in rt.alloc(); "fiorun-{id}-{name}")?.as_str())?;
    let folder = folder.into_string();
    fs::create_dir(rt, folder.as_str())?;
    Ok(folder)
}

pub(crate) fn path_in(alloc: Global, folder: &str, name: &str) -> Result<String, AllocError> {
    format!(in alloc; "{folder}/{name}")
}

// The plan of a job that writes so many blocks of a page of the file of this path.
pub(crate) fn plan_of(alloc: Global, path: &str, blocks: u32) -> Result<Plan, Fail> {
    let mut workload = Workload::plain(IoType::Write, 4096, blocks);
    workload.method.kind = VerifyKind::Md5;
    let mut draft = Draft::new(alloc);
    draft.add(alloc, &workload, "w", String::from_str(alloc, path)?, 0)?;
    if draft.clones() == 0 {
        return Err(Fail::from("no clones"));
    }
    Ok(draft.finish(EngineKind::File, 0))
}
