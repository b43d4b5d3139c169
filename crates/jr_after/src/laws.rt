ghost use Rattle.jr_after.specs.Laws.{NothingIsTold};

/// Nothing: its contract says that a storage which keeps its promise isn't blamed, whatever part of the ledger's end is missing.
pub fn nothing_is_told()
    ensures { NothingIsTold }
{}
