ghost use Rattle.jr_laws_quiet.specs.Quiet.{NothingRaces, WriteWaits, LastIsLatest, ChecksStayLast, QuietReport};

/// If no clone declines, nothing races.
pub fn nothing_races()
    ensures { NothingRaces }
{}

/// If no clone declines, a write is issued once all that it overlaps has ended.
pub fn write_waits()
    ensures { WriteWaits }
{}

/// If nothing goes wrong, a block's last write is the one that was issued last.
pub fn last_is_latest()
    ensures { LastIsLatest }
{}

/// If nothing goes wrong, the writes that are checked are those that no later write of their group overlaps.
pub fn checks_stay_last()
    ensures { ChecksStayLast }
{}

/// If nothing goes wrong, the report is that of the draws, whatever the order of the events.
pub fn quiet_report()
    ensures { QuietReport }
{}
