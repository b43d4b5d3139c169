ghost use Rattle.std.specs.Prelude.{◌≡◌};
ghost use Rattle.jr_rounds_rest.specs.Untried.{bytes_to_try, untried_bytes};

use crate::tasks::Task;

/// How many bytes of a clone of the job these tasks are still to try. It stays at 2^64 - 1 once it gets there.
pub fn untried_bytes(original: u32, tasks: &[Task]) -> u64
    ensures { result ≡ untried_bytes original tasks.now }
{
    tasks.iter().fold(
        0u64,
        |sum, task| sum.saturating_add(bytes_to_try(original, task)),
    )
}

// The bytes of a task, if it is to try bytes of this clone.
fn bytes_to_try(original: u32, task: &Task) -> u64
    ensures { result ≡ bytes_to_try original task.now }
{
    if task.original == original && !task.is_check {
        u64::from(task.cells) * u64::from(task.cell)
    } else {
        0
    }
}
