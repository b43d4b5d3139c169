ghost use Rattle.std.specs.Prelude.{◌≡◌, IfOk};
ghost use Rattle.jr_rounds.specs.Seeds.{plan_of_round, seed_offset};

use jr_model::Memory;
use jr_plan::Plan;
use std::alloc::Global;

/// How far the seeds of a round are from those of the round before (2^26). The passes of a clone have seeds next to each other, at most
/// `MOST_PASSES` of them, so no two rounds share one.
pub const SEED_STEP: u64 = 67_108_864;

/// How far the seeds of this round are from those of the plan, before they are taken modulo 2^64.
pub fn seed_offset(round: u32) -> u64
    ensures { result ≡ seed_offset round }
{
    u64::from(round) * SEED_STEP
}

/// What this round runs: the plan with `seed_offset` added to the seed of each clone, modulo 2^64. Rounds are counted from 0.
pub fn plan_of_round(alloc: Global, plan: &Plan, round: u32) -> Result<Plan, Memory>
    ensures { IfOk result (λ made. made ≡ plan_of_round plan.now round) }
{
    Ok(plan.reseeded(alloc, seed_offset(round))?)
}
