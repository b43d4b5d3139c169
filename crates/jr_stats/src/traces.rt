ghost use Rattle.std.specs.Prelude.{◌≡◌, Err, IfOk, Ok, if◌then◌else◌};
ghost use Rattle.jr_model.specs.Legal.{is_complete};
ghost use Rattle.jr_model.specs.Report.{all_totals};
ghost use Rattle.jr_replay_traces.specs.TraceChecks.{check_of};
ghost use Rattle.jr_replay_traces.specs.Traces.{trace_of};

use jr_desk::Desk;
use jr_model::Memory;
use jr_replay_traces::trace_text;
use jr_run_faults::TraceFault;
use std::alloc::Global;

/// The trace of a run: a line for each event of its history. Checked, it is accepted if the run is complete, with its
/// totals, and else `Unfinished`.
pub fn trace(alloc: Global, desk: &Desk) -> Result<Vec<u8>, Memory>
    ensures value { IfOk result (λ text. text.items ≡ trace_of desk.now.history) }
    ensures checked { IfOk result (λ text. check_of desk.now.plan text.items
        ≡ (if is_complete desk.now.plan desk.now.history
        then Ok (all_totals desk.now.plan desk.now.history)
        else Err TraceFault.Unfinished)) }
{
    // Its contract says that the plan keeps the limits.
    desk.plan().facts();
    trace_text(alloc, desk.history())
}
