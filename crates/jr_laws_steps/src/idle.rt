ghost use Rattle.jr_laws_steps.specs.Idle.{IdleIsComplete, SerialIsComplete};

/// If nothing may be started, nothing flies and no verdict is missing, the run is complete.
pub fn idle_is_complete()
    ensures { IdleIsComplete }
{}

/// The history of one worker over a right memory is complete.
pub fn serial_is_complete()
    ensures { SerialIsComplete }
{}
