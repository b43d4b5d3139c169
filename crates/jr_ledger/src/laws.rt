ghost use Rattle.jr_ledger.specs.Laws.{OnlySoundRecorded};

/// Nothing: its contract says that a sync is recorded only if nothing that it promises can have been lost with another one.
pub fn only_sound_recorded()
    ensures { OnlySoundRecorded }
{}
