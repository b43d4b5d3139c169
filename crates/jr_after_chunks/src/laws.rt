ghost use Rattle.jr_after_chunks.specs.Laws.{EachChunkComes, NoChunkIsParts};

/// Nothing: its contract says that in a plan that is taken each write has the chunks that it touches whole, so no chunk is parts of two.
pub fn no_chunk_is_parts()
    ensures { NoChunkIsParts }
{}

/// Nothing: its contract says that each chunk of a planned write is one of its file's.
pub fn each_chunk_comes()
    ensures { EachChunkComes }
{}
