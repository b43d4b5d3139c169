ghost use Rattle.jr_rounds.specs.SeedLaws.{DifferInSeeds, FirstRoundIsThePlan, NoSeedTwice};

/// A round's plan differs from the plan in the seeds of its clones alone.
pub fn rounds_differ_in_seeds()
    ensures { DifferInSeeds }
{}

/// Round 0 runs the plan itself.
pub fn first_round_is_the_plan()
    ensures { FirstRoundIsThePlan }
{}

/// No clone draws from one seed twice, in whatever rounds and passes.
pub fn no_seed_twice()
    ensures { NoSeedTwice }
{}
