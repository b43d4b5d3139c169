ghost use Rattle.std.specs.Prelude.{◌≡◌};
ghost use Rattle.std.specs.List.{list_any};
ghost use Rattle.jr_cli_ends.specs.Status.{is_unclean, status_of, status_with};

use jr_model::Totals;

/// 1 where a verdict was bad or an I/O was a fault, else 0.
pub fn status_of(totals: &[Totals]) -> u8
    ensures { result ≡ status_of totals.now }
{
    if any_unclean(totals) { 1 } else { 0 }
}

fn any_unclean(totals: &[Totals]) -> bool
    ensures { result ≡ list_any is_unclean totals.now }
{
    totals.iter().any(|t| is_unclean(t))
}

fn is_unclean(totals: &Totals) -> bool
    ensures { result ≡ is_unclean totals.now }
{
    totals.bad != 0 || totals.faults != 0
}

// The exit status of a program that found this.
pub(crate) fn status_with(found: u8, is_interrupted: bool, is_stored: bool) -> u8
    ensures { result ≡ status_with found is_interrupted is_stored }
{
    if found != 0 {
        return found;
    }
    if !is_stored {
        return 3;
    }
    if is_interrupted { 130 } else { 0 }
}
