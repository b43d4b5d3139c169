use crate::going_on::is_going_on;
use crate::running::{Turn, run_plan};
use crate::series::{Series, run_series};
use jr_cli_grounds::refuse_ledger;
use jr_cli_words::{Choice, CliFault};
use jr_plan::Plan;
use jr_rounds::Limits;
use jr_system::{Machine, Outlet, Stop};

// Runs the plan of this job text: once, again and again, or what is left of it after faults too. A run whose workers share a memory is still
// to come.
pub fn run_job<R: Outlet + Machine>(
    rt: &R,
    choice: &Choice<'_>,
    text: &[u8],
    plan: Plan,
    has_notes: bool,
) -> Result<Turn, Stop> {
    let limits = Limits::of(choice)?;
    refuse_ledger(rt.alloc(), choice, &plan)?;
    match series_of(choice, &plan, limits)? {
        Some(series) => {
            let status = run_series(rt, choice, text, series, plan, has_notes)?;
            Ok(Turn::Ended(status))
        }
        None => run_plan(rt, choice, text, plan),
    }
}

// Which runs the words ask for, if they have these limits and ask for more than one.
fn series_of(
    choice: &Choice<'_>,
    plan: &Plan,
    limits: Option<Limits>,
) -> Result<Option<Series>, CliFault> {
    if is_going_on(choice, plan, limits.is_some())? {
        return Ok(Some(Series::Rest));
    }
    match limits {
        Some(limits) => Ok(Some(Series::Again(limits))),
        None => Ok(None),
    }
}
