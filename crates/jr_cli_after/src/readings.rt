ghost use Rattle.std.specs.Prelude.{◌≡◌, ◌<◌, ◌-◌, ◌^◌, length, IfOk};
ghost use Rattle.jr_cli_after.specs.Reading.{HasRead};
ghost use Rattle.jr_cli_after.specs.Readings.{has_all};

use crate::faults::AfterFailure;
use jr_engines::{Engine, EngineFault};
use jr_model::Piece;

// Calls the engine once for some bytes of a file, and says whether it got all of them.
pub(crate) fn read_piece(
    engine: &mut dyn Engine,
    piece: &Piece,
    bytes: &mut [u8],
) -> Result<bool, AfterFailure>
    requires { length bytes.old ≡ piece.now.len }
    ensures { IfOk result (λ whole. HasRead piece.now (state engine.old) whole bytes.new (state engine.new)) }
{
    if engine.calls() == u64::MAX {
        return Err(AfterFailure::Calls);
    }
    let answer = engine.read(piece.file, piece.offset, bytes);
    Ok(has_all(&answer, piece.len))
}

fn has_all(answer: &Result<usize, EngineFault>, len: u32) -> bool
    ensures { result ≡ has_all answer.now len }
{
    match answer {
        Ok(count) => *count == len as usize,
        Err(_) => false,
    }
}
