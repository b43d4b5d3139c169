// The ledger of a run: whether the words may ask for one, what it takes of the run's files, and why it couldn't be kept.
ghost use Rattle.std.specs.Prelude.{◌≡◌, IfErr, OnOk, Some, None};
ghost use Rattle.jr_cli_grounds.specs.Ledgers.{has_rounds, ledger_fault, unjudgeable};

use crate::files::Taken;
use jr_after_plans::after_fault;
use jr_cli_words::{Choice, CliFault};
use jr_ledger_run::RunLedger;
use jr_model::EngineKind;
use jr_plan::Plan;
use jr_system::{Asked, Outlet, Stop};
use std::alloc::Global;
use std::fs::File;
use std::sync::Arc;

/// Refuses a ledger that the words ask for, where none can be kept of the plan's run: of several rounds, of a job that has no files, and of
/// one that can't be judged by it.
pub fn refuse_ledger(alloc: Global, choice: &Choice<'_>, plan: &Plan) -> Result<(), Stop>
    ensures fault { IfErr result (λ stop. Some stop ≡ ledger_fault choice.now plan.now) }
    ensures none { OnOk result (ledger_fault choice.now plan.now ≡ None) }
{
    refuse(alloc, plan, ledger_fault(choice, plan))
}

// Refuses it for this fault, if there is one. A job that can't be judged is told with the reason.
pub(crate) fn refuse(alloc: Global, plan: &Plan, fault: Option<CliFault>) -> Result<(), Stop>
    ensures fault { IfErr result (λ stop. Some stop ≡ fault) }
    ensures none { OnOk result (fault ≡ None) }
{
    let Some(fault) = fault else {
        return Ok(());
    };
    if let CliFault::LedgerJob = fault
        && let Some(why) = after_fault(plan)
    {
        return Err(Stop::ledger_job(alloc, plan, &why));
    }
    Err(Stop::from(fault))
}

// Why no ledger can be kept of the plan's run, where the words ask for one.
fn ledger_fault(choice: &Choice<'_>, plan: &Plan) -> Option<CliFault>
    ensures { result ≡ ledger_fault choice.now plan.now }
{
    if choice.ledger.is_none() {
        return None;
    }
    if has_rounds(choice) {
        return Some(CliFault::LedgerRounds);
    }
    unjudgeable(plan)
}

// Whether the words ask for several rounds.
pub(crate) fn has_rounds(choice: &Choice<'_>) -> bool
    ensures { result ≡ has_rounds choice.now }
{
    choice.run_for.is_some() || choice.repeat.is_some() || choice.go_on
}

// Why the plan's files can't be judged after a cut.
pub(crate) fn unjudgeable(plan: &Plan) -> Option<CliFault>
    ensures { result ≡ unjudgeable plan.now }
{
    if plan.engine() != EngineKind::File {
        return Some(CliFault::LedgerEngine);
    }
    match after_fault(plan) {
        Some(_) => Some(CliFault::LedgerJob),
        None => None,
    }
}

/// Begins to record a run of the plan: the lines go there, if anywhere, and the first one goes out now. Each file is to be synced each time
/// that so many of its writes have ended, if that is asked for. Nothing is done to the files yet.
pub fn begin_ledger(
    alloc: Global,
    plan: &Plan,
    out: Option<File>,
    every: Option<u32>,
    asked: &Asked,
) -> Result<(), Stop> {
    let Ok(ledger) = RunLedger::new(alloc, plan, out, every) else {
        return Err(Stop::from(CliFault::Memory));
    };
    let Ok(ledger) = Arc::new(alloc, ledger) else {
        return Err(Stop::from(CliFault::Memory));
    };
    ledger.write_out();
    asked.record(ledger);
    Ok(())
}

impl<'a> Taken<'a> {
    /// Has what a run writes to these files recorded by its ledger, if it has one, which syncs them on the way if that is asked for.
    pub fn record<R: Outlet>(&self, rt: &R, every: Option<u32>, asked: &Asked) -> Result<(), Stop> {
        let Some(ledger) = asked.shared_ledger() else {
            return Ok(());
        };
        if every.is_some() {
            self.sync_by(rt, ledger)?;
        }
        match self.files().record(ledger) {
            Ok(()) => Ok(()),
            Err(_) => Err(Stop::from(CliFault::Memory)),
        }
    }

    // Hands the ledger the files once more, to be synced each time that so many of their writes have ended.
    fn sync_by<R: Outlet>(&self, rt: &R, ledger: &RunLedger) -> Result<(), Stop> {
        let files = match self.files().opened_to_sync(rt, rt.alloc()) {
            Ok(files) => files,
            Err(refusal) => return Err(Stop::files(refusal)),
        };
        match ledger.sync_these(rt.alloc(), files) {
            Ok(()) => Ok(()),
            Err(_) => Err(Stop::from(CliFault::Memory)),
        }
    }
}

/// Why the ledger of a run, which goes to the file of this path, couldn't be written to its end, if it couldn't.
pub fn ledger_cut(alloc: Global, asked: &Asked, path: &str) -> Option<Stop> {
    let error = asked.ledger()?.cut_by()?;
    Some(Stop::unwritten(alloc, path, error))
}

/// Why a file of the plan couldn't be synced on the way, if one couldn't.
pub fn unsynced_on_the_way(alloc: Global, plan: &Plan, asked: &Asked) -> Option<Stop> {
    let (file, error) = asked.ledger()?.unsynced()?;
    let spec = plan.files().get(file as usize)?;
    match String::from_str(alloc, spec.name()) {
        Ok(name) => Some(Stop::unsynced(name, error)),
        Err(_) => Some(Stop::from(CliFault::Write)),
    }
}
