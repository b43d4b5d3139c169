ghost use Rattle.std.specs.Prelude.{◌≤◌, IfOk, IfSome};
ghost use Rattle.jr_after_chunks.specs.Next.{IsReadable};
ghost use Rattle.jr_model.specs.declared.limits.TheConstants.{LARGEST_END};
ghost use Rattle.jr_cli_after.specs.Reading.{IsFollowing, IsRow};
ghost use Rattle.jr_cli_after.specs.Readings.{end_of};

use jr_after_chunks::next_chunk;
use jr_model::{Memory, Piece};
use jr_plan::Plan;
use std::alloc::Global;

// The most bytes of several chunks that are read at a time, and then judged by several threads (4 MiB).
const MOST_AT_A_TIME: u32 = 4_194_304;

// Chunks of a file that lie side by side, and all of their bytes.
#[derive(Drop)]
pub(crate) struct Row {
    pub(crate) chunks: Vec<Piece>,
    pub(crate) piece: Piece,
}

// The row that a chunk begins: with those that follow it, up to a gap or as many as are read at a time.
pub(crate) fn row_from(alloc: Global, plan: &Plan, first: &Piece) -> Result<Row, Memory>
    requires { IsReadable first.now.file first.now }
    ensures { IfOk result (λ row. IsRow plan.now first.now row.chunks.items row.piece) }
{
    let mut chunks = Vec::new(alloc);
    chunks.push(*first)?;
    let mut piece = *first;
    while let Some(chunk) = following_chunk(plan, &piece) {
        chunks.push(chunk)?;
        piece.len += chunk.len;
    }
    Ok(Row { chunks, piece })
}

// The chunk that begins where these bytes end, if there is one, and it may be read with them.
fn following_chunk(plan: &Plan, piece: &Piece) -> Option<Piece>
    requires { end_of piece.now ≤ LARGEST_END }
    ensures { IfSome result (IsFollowing plan.now piece.now) }
{
    let end = piece.offset + u64::from(piece.len);
    let chunk = next_chunk(plan, piece.file, end)?;
    let most = MOST_AT_A_TIME.checked_sub(piece.len)?;
    if chunk.offset == end && chunk.len <= most {
        Some(chunk)
    } else {
        None
    }
}
