ghost use Rattle.std.specs.Prelude.{◌≡◌, ◌==◌, length, IfOk, if◌then◌else◌};
ghost use Rattle.jr_rounds.specs.Adding.{added};
ghost use Rattle.jr_rounds.specs.Originals.{totals_by_original, of_original};
ghost use Rattle.jr_rounds.specs.Sums.{sum_of};

use crate::sums::{added, nothing};
use jr_model::{Memory, Totals};
use std::alloc::Global;

/// What each clone of a job did in a round whose clones are parts of the job's clones: `originals` says of which each is. A count of 64 bits
/// stays at the last one.
pub fn totals_by_original(
    alloc: Global,
    clones: usize,
    originals: &[u32],
    totals: &[Totals],
) -> Result<Vec<Totals>, Memory>
    requires { length originals.now ≡ length totals.now }
    ensures { IfOk result (λ sums. sums.items ≡ totals_by_original clones originals.now totals.now) }
{
    let mut sums = Vec::new(alloc);
    for clone in 0..clones {
        sums.push(sum_of(clone, originals, totals))?;
    }
    Ok(sums)
}

// What one clone of the job did.
fn sum_of(clone: usize, originals: &[u32], totals: &[Totals]) -> Totals
    requires { length originals.now ≡ length totals.now }
    ensures { result ≡ sum_of (of_original clone originals.now totals.now) }
{
    let mut sum = nothing();
    for i in 0..originals.len() {
        sum = added_if(originals[i] as usize == clone, sum, totals[i]);
    }
    sum
}

fn added_if(is_part: bool, sum: Totals, more: Totals) -> Totals
    ensures { result ≡ (if is_part then added sum more else sum) }
{
    if is_part { added(sum, more) } else { sum }
}
