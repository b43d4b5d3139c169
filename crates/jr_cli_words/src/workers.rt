ghost use Rattle.std.specs.Prelude.{◌≡◌, ◌≤◌, None};
ghost use Rattle.jr_cli_words.specs.Workers.{depth_of, workers_of};

use jr_plan::Plan;

// So many workers has a run at most that isn't told how many.
const MOST_WORKERS: u32 = 16;

/// How many workers a run of the plan has: as many as were asked for, else one for each I/O that its clones may have in
/// flight together, up to 16.
pub fn workers_of(plan: &Plan, asked: Option<u32>) -> u32
    ensures count { result ≡ workers_of plan.now asked }
    ensures some { asked ≡ None → 1 ≤ result }
{
    match asked {
        Some(workers) => workers,
        None => depth_of(plan).min(MOST_WORKERS),
    }
}

// How many I/Os the plan's clones may have in flight together.
fn depth_of(plan: &Plan) -> u32
    ensures value { result ≡ depth_of plan.now.clones }
    ensures some { 1 ≤ result }
{
    let mut total: u32 = 0;
    for i in 0..plan.clones() {
        total += plan.clone_at(i).depth();
    }
    total
}
