ghost use Rattle.jr_after_plans.specs.Advice.{AdviceHelps};

/// Nothing: its contract says that a plan is taken whose jobs are written as the faults say.
pub fn advice_helps()
    ensures { AdviceHelps }
{}
