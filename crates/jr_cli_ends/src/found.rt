ghost use Rattle.std.specs.Prelude.{IfOk};
ghost use Rattle.jr_report_faults.specs.Faults.{AreFaultsOf};

use crate::status::status_of;
use jr_desk::Desk;
use jr_model::Memory;
use jr_report_faults::{Faults, faults_of};
use std::alloc::Global;

/// The faults of the desk's run so far. If nothing went wrong there are none, and its history isn't looked at.
pub fn faults_found(alloc: Global, desk: &Desk) -> Result<Faults, Memory>
    ensures { IfOk result (AreFaultsOf desk.now.plan desk.now.history) }
{
    let (plan, history) = (desk.plan(), desk.history());
    plan.facts();
    if status_of(desk.totals()) == 0 {
        return Ok(Faults {
            first: Vec::new(alloc),
            more: 0,
        });
    }
    faults_of(alloc, plan, history, desk.tickets())
}
