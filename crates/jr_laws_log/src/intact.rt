ghost use Rattle.jr_laws_log.specs.Intact.{LogGrows, LogIsByStarted, LogIsIntact, LogIsIntactOfDraws, LoggedIsIntact, UnendedIsUnlogged};

/// The log has a write that was started exactly if it is intact.
pub fn log_is_intact()
    ensures { LogIsIntact }
{}

/// So it has each draw of a planned clone's passes, whether it was issued or not.
pub fn log_is_intact_of_draws()
    ensures { LogIsIntactOfDraws }
{}

/// And it has nothing else.
pub fn logged_is_intact()
    ensures { LoggedIsIntact }
{}

/// An event that may happen adds the one step to the log that it is, if it is one.
pub fn log_grows()
    ensures { LogGrows }
{}

/// A write that has not ended whole isn't in the log.
pub fn unended_is_unlogged()
    ensures { UnendedIsUnlogged }
{}

/// What a write that was not started would be checked by makes no difference to the log.
pub fn log_is_by_started()
    ensures { LogIsByStarted }
{}
