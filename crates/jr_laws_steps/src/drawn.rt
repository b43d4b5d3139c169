ghost use Rattle.jr_laws_steps.specs.Drawn.{StartedAreDrawn, StartedFit, StartedOnce, NoBlockTwice};

/// Each I/O and check was started for a draw of the plan.
pub fn started_are_drawn()
    ensures { StartedAreDrawn }
{}

/// Each I/O and check can be carried out, and lies within its file's bounds.
pub fn started_fit()
    ensures { StartedFit }
{}

/// No draw is issued twice, and no write is checked twice.
pub fn started_once()
    ensures { StartedOnce }
{}

/// With a random map no block is read or written twice in a clone's pass.
pub fn no_block_twice()
    ensures { NoBlockTwice }
{}
