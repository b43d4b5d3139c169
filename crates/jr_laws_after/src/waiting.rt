ghost use Rattle.jr_laws_after.specs.Waiting.{LateWritesChangeNothing};

/// Nothing: its contract says that lines of writes that are missing at a ledger's end change no finding, so they may wait for the next sync.
pub fn late_writes_change_nothing()
    ensures { LateWritesChangeNothing }
{}
