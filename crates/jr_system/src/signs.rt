// The signs of a map.
ghost use Rattle.std.specs.Prelude.{◌≡◌, ◌<◌, string_bytes, IfOk};
ghost use Rattle.jr_system.specs.Signs.{sign_of, signs_of};

use jr_report_maps::Fate;
use std::alloc::{AllocError, Global};

/// A row of a map, a sign for each cell.
pub fn signs_of(alloc: Global, row: &[Fate]) -> Result<String, AllocError>
    ensures { IfOk result (λ signs. string_bytes signs ≡ signs_of row.now) }
{
    let mut signs = String::new(alloc);
    for fate in row {
        signs.push(sign_of(*fate))?;
    }
    Ok(signs)
}

// The sign of what happened to a cell.
fn sign_of(fate: Fate) -> char
    ensures sign { result ≡ sign_of fate }
    ensures ascii { result < 128 }
{
    match fate {
        Fate::Untouched => '.',
        Fate::Read => 'r',
        Fate::Good => 'g',
        Fate::Skipped => 's',
        Fate::Unchecked => 'u',
        Fate::Void => 'v',
        Fate::Fault => 'F',
        Fate::Bad => 'B',
    }
}
