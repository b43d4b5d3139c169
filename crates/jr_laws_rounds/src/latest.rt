ghost use Rattle.jr_laws_rounds.specs.Latest.{OpenIsLatest, TakenUpIsLatest};

/// While a round of a clone that has its file alone is open, the last write of each block of the file is the one that was
/// issued last, if nothing goes wrong.
pub fn open_is_latest()
    ensures { OpenIsLatest }
{}

/// A write that is checked was issued last over each of its blocks, and one that is skipped wasn't, if nothing goes wrong.
pub fn taken_up_is_latest()
    ensures { TakenUpIsLatest }
{}
