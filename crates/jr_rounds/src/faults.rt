ghost use Rattle.std.specs.Prelude.{◌≡◌};

use jr_cli_words::CliFault;
use jr_model::Memory;

/// Why rounds end without a last one.
#[derive(Drop)]
pub enum RoundsFault<E> {
    /// A round couldn't be run, for this reason. The rounds before it are printed, and their sums if there were any.
    Round(E),
    /// A round couldn't be run, for this reason, and the sums of those before it couldn't be printed.
    Untold(E),
    /// Memory was refused, or writing failed; nothing is said of how much went out.
    Cli(CliFault),
}

impl<E> From<CliFault> for RoundsFault<E> {
    ghost use Rattle.jr_rounds.specs.declared.faults.RoundsFault.TheVariants as fault;

    ghost from_gives = { λ cli made. made ≡ fault.Cli cli };

    fn from(fault: CliFault) -> RoundsFault<E> {
        RoundsFault::Cli(fault)
    }
}

impl<E> From<Memory> for RoundsFault<E> {
    ghost use Rattle.jr_cli_words.specs.declared.faults.CliFault.TheVariants as cli;
    ghost use Rattle.jr_rounds.specs.declared.faults.RoundsFault.TheVariants as fault;

    ghost from_gives = { λ _ made. made ≡ fault.Cli cli.Memory };

    fn from(_error: Memory) -> RoundsFault<E> {
        RoundsFault::Cli(CliFault::Memory)
    }
}
