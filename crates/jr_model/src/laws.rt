// Laws over the definitions alone. Each function does nothing: its contract is the law, so that the
// check proves it.
ghost use Rattle.jr_model.specs.Laws.{ChoiceMayHappen, LegalGoesOn, FrontIsLegal, VerdictIsOfItsKind, OwnVerdictIsOfItsKind, EveryRunIsLegal, SerialIsLegal};

/// What is chosen to be started may happen after the history.
pub fn choice_may_happen()
    ensures { ChoiceMayHappen }
{}

/// Each front of a legal history is legal.
pub fn front_is_legal()
    ensures { FrontIsLegal }
{}

/// Whatever steps the machine is asked for, its history is legal.
pub fn every_run_is_legal()
    ensures { EveryRunIsLegal }
{}

/// An event that may happen makes a legal history a longer legal one.
pub fn legal_goes_on()
    ensures { LegalGoesOn }
{}

/// The verdict on a check's bytes is one that its kind can find.
pub fn verdict_is_of_its_kind()
    ensures { VerdictIsOfItsKind }
{}

/// The verdict on bytes by what they say of themselves is one that a checked read may get.
pub fn own_verdict_is_of_its_kind()
    ensures { OwnVerdictIsOfItsKind }
{}

/// The history of one worker over a right memory is legal.
pub fn serial_is_legal()
    ensures { SerialIsLegal }
{}
