ghost use Rattle.jr_laws_races.specs.Beside.{RacedIsWrittenOver, WrittenOverHasRaced};

/// What has raced in a legal history was in flight beside another I/O, a write over its bytes.
pub fn raced_is_written_over()
    ensures { RacedIsWrittenOver }
{}

/// And what was has raced.
pub fn written_over_has_raced()
    ensures { WrittenOverHasRaced }
{}
