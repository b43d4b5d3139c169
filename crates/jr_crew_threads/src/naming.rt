use std::marker::Brand;

/// The plan of a run, and its hand-over. Each run picks its own.
pub trait Naming {
    ghost use Rattle.std.specs.Prelude.{Option};
    ghost use Rattle.jr_model.specs.Plan.{Plan};
    ghost use Rattle.jr_crew_channel.specs.declared.handoff.Handoff.{Handoff};

    ghost plan: { Plan };

    ghost handoff: { Option Handoff };
}

impl Naming for Brand {
    ghost use Rattle.std.specs.Prelude.{[], None};
    ghost use Rattle.jr_model.specs.declared.workloads.EngineKind.TheVariants as kind;

    ghost plan = { record { clones = []; files = []; engine = kind.Null; verifiers = 0 } };

    ghost handoff = { None };
}
