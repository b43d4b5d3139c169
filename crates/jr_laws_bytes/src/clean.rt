ghost use Rattle.jr_laws_bytes.specs.Clean.{SerialIsClean, SerialIsGood, SerialIsQuiet};

/// The history of one worker over a right memory has no fault, and no bad verdict on the check of a write.
pub fn serial_is_clean()
    ensures { SerialIsClean }
{}

/// So it has no bad verdict at all if no clone checks its reads.
pub fn serial_is_good()
    ensures { SerialIsGood }
{}

/// If it has none, and no two clones have one file, its report is the one that the draws alone give.
pub fn serial_is_quiet()
    ensures { SerialIsQuiet }
{}
