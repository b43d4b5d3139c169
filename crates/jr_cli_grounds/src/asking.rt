// What is asked of a run from outside: to stop, and to say how far it is.
use jr_cli_words::{Choice, workers_of};
use jr_plan::Plan;
use jr_system::{
    Asked, Machine, MemoryFiles, Outlet, Pace, Stop, asked_by, history_bytes, is_watched,
    stop_when_short,
};
use std::alloc::Global;
use std::sync::Arc;

/// What is asked of a run of the plan, or of each of its rounds. If its history may take much of the memory that is left, it is asked to stop
/// while there is some for the report; and if its ledger can't be written any more, it is asked too.
pub fn asked_for<R: Outlet + Machine>(
    rt: &R,
    choice: &Choice<'_>,
    plan: &Plan,
    has_limit: bool,
) -> Result<Arc<Asked, Global>, Stop> {
    let watched = files_to_watch(rt, choice, plan);
    let pace = Pace::of(rt, choice.progress);
    let is_limited = has_limit || watched.is_some() || choice.ledger.is_some();
    let asked = asked_by(rt, pace, choice.stop_fd, is_limited)?;
    if let Some(files) = watched {
        // (a run that can't be watched goes on)
        let _watches = stop_when_short(rt, &asked, files);
    }
    Ok(asked)
}

// What says how much memory is left, if the history of a run of the plan may take too much of it.
fn files_to_watch<R: Outlet>(rt: &R, choice: &Choice<'_>, plan: &Plan) -> Option<MemoryFiles> {
    let history = history_bytes(plan, workers_of(plan, choice.workers));
    let mut files = MemoryFiles::open(rt)?;
    let state = files.now(rt.alloc())?;
    if is_watched(history, state.left()) {
        Some(files)
    } else {
        None
    }
}
