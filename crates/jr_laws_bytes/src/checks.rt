ghost use Rattle.jr_laws_bytes.specs.Checks.{HonestIsGood, MiscomparesExactly, ChecksStayIntact, QuietPlay, KeepsLastWrites};

/// If reads are honest no check is found bad.
pub fn honest_is_good()
    ensures { HonestIsGood }
{}

/// A check is found bad exactly if the bytes that it read aren't its write's.
pub fn miscompares_exactly()
    ensures { MiscomparesExactly }
{}

/// From its start until it ends, a check that has not raced reads blocks that its own write wrote last.
pub fn checks_stay_intact()
    ensures { ChecksStayIntact }
{}

/// No check is found bad by steps of which no reply changes or drops bytes.
pub fn quiet_play()
    ensures { QuietPlay }
{}

/// After such steps the memory holds what was written last to each block.
pub fn keeps_last_writes()
    ensures { KeepsLastWrites }
{}
