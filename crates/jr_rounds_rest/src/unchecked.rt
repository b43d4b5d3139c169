ghost use Rattle.std.specs.Prelude.{◌≡◌, ◌<◌, IfOk, filter_map};
ghost use Rattle.std.specs.List.{enumerate_from};
ghost use Rattle.jr_model.specs.History.{started};
ghost use Rattle.jr_model.specs.Rounds.{has_rounds};
ghost use Rattle.jr_rounds_rest.specs.Left.{check_of, checks_from, checks_of, follows, if_unchecked, longer, unchecked};

use crate::tasks::Task;
use jr_model::{MOST_CELLS, Memory, Piece, Started};
use jr_plan::SubJob;
use jr_replay_history::{Ledger, ended_whole, is_of_clone, is_write};
use std::alloc::Global;

// What the clone wrote whole and what was neither checked nor skipped, in the order in which it was started.
pub(crate) fn unchecked(alloc: Global, ledger: &Ledger, job: &SubJob) -> Result<Vec<Piece>, Memory>
    ensures { IfOk result (λ pieces. pieces.items ≡ unchecked ledger.now job.now) }
{
    if !has_rounds(job) {
        return Ok(Vec::new(alloc));
    }
    unchecked_of(alloc, ledger, job.clone_number())
}

// What this clone wrote whole and what was neither checked nor skipped.
fn unchecked_of(alloc: Global, ledger: &Ledger, clone: u32) -> Result<Vec<Piece>, Memory>
    ensures { IfOk result (λ pieces. pieces.items ≡ filter_map (if_unchecked ledger.now clone) (enumerate_from 0 (started ledger.now))) }
{
    let pieces: Vec<Piece> = ledger
        .started()
        .iter()
        .enumerate()
        .filter_map(|(io, started)| if_unchecked(ledger, clone, io, started))
        .collect(alloc)?;
    Ok(pieces)
}

fn has_rounds(job: &SubJob) -> bool
    ensures { result ≡ has_rounds job.now }
{
    job.verifies()
}

// The piece of an I/O, if it is such a write of this clone.
fn if_unchecked(ledger: &Ledger, clone: u32, io: usize, started: &Started) -> Option<Piece>
    ensures { result ≡ if_unchecked ledger.now clone (io, started.now) }
{
    if is_write(started.kind)
        && is_of_clone(clone, started)
        && ended_whole(ledger.outcome_of(io))
        && !ledger.is_taken_up(&started.write)
    {
        Some(started.piece)
    } else {
        None
    }
}

// Checks of all of these blocks of a clone of the job: one for each run of blocks of one size next to one another.
pub(crate) fn checks_of(alloc: Global, original: u32, pieces: &[Piece]) -> Result<Vec<Task>, Memory>
    ensures { IfOk result (λ tasks. tasks.items ≡ checks_of original pieces.now) }
{
    match pieces {
        [] => Ok(Vec::new(alloc)),
        [piece, more @ ..] => checks_from(alloc, original, check_of(original, piece), more),
    }
}

fn checks_from(
    alloc: Global,
    original: u32,
    first: Task,
    pieces: &[Piece],
) -> Result<Vec<Task>, Memory>
    ensures { IfOk result (λ tasks. tasks.items ≡ checks_from original first pieces.now) }
{
    let mut tasks = Vec::new(alloc);
    let mut task = first;
    for piece in pieces {
        if follows(&task, piece) {
            task = longer(task);
        } else {
            tasks.push(task)?;
            task = check_of(original, piece);
        }
    }
    tasks.push(task)?;
    Ok(tasks)
}

fn check_of(original: u32, piece: &Piece) -> Task
    ensures { result ≡ check_of original piece.now }
{
    Task {
        original,
        is_check: true,
        start: piece.offset,
        cell: piece.len,
        cells: 1,
    }
}

// Whether the piece comes next after the blocks of a check, and is of their size.
fn follows(task: &Task, piece: &Piece) -> bool
    ensures { result ≡ follows task.now piece.now }
{
    let end = u128::from(task.start) + u128::from(task.cells) * u128::from(task.cell);
    piece.len == task.cell && u128::from(piece.offset) == end && task.cells < MOST_CELLS
}

// The check with one block more.
fn longer(mut task: Task) -> Task
    requires { task.cells < MOST_CELLS }
    ensures { result ≡ longer task }
{
    task.cells += 1;
    task
}
