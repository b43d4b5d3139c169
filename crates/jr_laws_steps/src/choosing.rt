ghost use Rattle.jr_laws_steps.specs.Choosing.{ChoiceIsLeast, NothingWithoutChoice};

/// If there is no choice, nothing may be issued, checked or skipped.
pub fn nothing_without_choice()
    ensures { NothingWithoutChoice }
{}

/// Nothing that may be issued, checked or skipped stands before the choice.
pub fn choice_is_least()
    ensures { ChoiceIsLeast }
{}
