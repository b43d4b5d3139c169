// Who carries out the I/Os of a run.
ghost use Rattle.std.specs.Prelude.{◌≡◌};
ghost use Rattle.jr_cli_grounds.specs.Ways.{has_one_worker, is_alone, is_memory, shares_memory};

use jr_model::EngineKind;
use jr_plan::Plan;

/// Whether so many workers share a memory in a run of the plan.
pub fn shares_memory(plan: &Plan, workers: u32) -> bool
    ensures { result ≡ shares_memory plan.now workers }
{
    is_memory(plan.engine()) && !is_alone(workers, plan.verifiers())
}

/// Whether one of so many workers does all in a run of the plan where no memory is shared, and judges its own checks.
pub fn has_one_worker(plan: &Plan, workers: u32) -> bool
    ensures { result ≡ has_one_worker plan.now workers }
{
    is_memory(plan.engine()) || is_alone(workers, plan.verifiers())
}

fn is_memory(engine: EngineKind) -> bool
    ensures { result ≡ is_memory engine }
{
    matches!(engine, EngineKind::Memory)
}

// Whether one worker does all.
fn is_alone(workers: u32, verifiers: u32) -> bool
    ensures { result ≡ is_alone workers verifiers }
{
    workers == 1 && verifiers == 0
}
