ghost use Rattle.jr_laws_steps.specs.Counts.{StartedAreFew, TakenIsAll, AppendsOne, SerialEnds};

/// A legal history starts at most two I/Os for each draw.
pub fn started_are_few()
    ensures { StartedAreFew }
{}

/// What the machine's take appends is all that a take can append.
pub fn taken_is_all()
    ensures { TakenIsAll }
{}

/// A take can append one list of events alone.
pub fn appends_one()
    ensures { AppendsOne }
{}

/// One worker over a right memory goes on until nothing may be started.
pub fn serial_ends()
    ensures { SerialEnds }
{}
