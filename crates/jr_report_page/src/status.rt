ghost use Rattle.std.specs.Prelude.{◌≡◌, ◌-◌, ◌^◌, ◌++◌, min, sum_by, OnOk, string_bytes};
ghost use Rattle.jr_report_page.specs.Status.{clean_text, count_of, ending_text, status_of, status_text, unclean_text};

use jr_model::Totals;
use std::alloc::AllocError;

// How a run ended, in numbers.
#[derive(Clone, Copy)]
pub(crate) struct Status {
    pub checks: u64,
    pub bad: u64,
    pub faults: u64,
    pub is_interrupted: bool,
}

// What is counted over all clones.
#[derive(Clone, Copy)]
pub(crate) enum Count {
    Checks,
    Bad,
    Faults,
}

impl Status {
    ghost use Rattle.std.specs.Prelude.{◌≡◌};
    ghost use Rattle.jr_report_page.specs.Status.{status_of};

    pub(crate) fn of(totals: &[Totals], is_interrupted: bool) -> Status
        ensures { result ≡ status_of totals.now is_interrupted }
    {
        Status {
            checks: sum_of(totals, Count::Checks),
            bad: sum_of(totals, Count::Bad),
            faults: sum_of(totals, Count::Faults),
            is_interrupted,
        }
    }
}

// The count over all clones, or the greatest number of 64 bits where it is above that.
fn sum_of(totals: &[Totals], what: Count) -> u64
    ensures { result ≡ min (2 ^ 64 - 1) (sum_by (count_of what) totals.now) }
{
    let mut sum = 0u64;
    for one in totals {
        sum = sum.saturating_add(count_of(one, what));
    }
    sum
}

fn count_of(totals: &Totals, what: Count) -> u64
    ensures { result ≡ count_of what totals.now }
{
    match what {
        Count::Checks => totals.checks,
        Count::Bad => totals.bad,
        Count::Faults => totals.faults,
    }
}

// What a page's title begins with.
pub(crate) fn push_status(page: &mut String, status: &Status) -> Result<(), AllocError>
    ensures { OnOk result (string_bytes page.new ≡ string_bytes page.old ++ status_text status.now) }
{
    if status.bad == 0 && status.faults == 0 {
        return push_clean(page, status);
    }
    push_unclean(page, status.bad, status.checks, status.faults)?;
    push_ending(page, status.is_interrupted)
}

// Of a run that found nothing.
fn push_clean(page: &mut String, status: &Status) -> Result<(), AllocError>
    ensures { OnOk result (string_bytes page.new ≡ string_bytes page.old ++ clean_text status.now) }
{
    let checks = status.checks;
    if status.is_interrupted {
        return write!(page, "INTERRUPTED: {checks} checks, none bad");
    }
    if checks == 0 {
        return page.push_str("NOTHING CHECKED");
    }
    write!(page, "GOOD: {checks} checks")
}

// Of a run that found something.
fn push_unclean(page: &mut String, bad: u64, checks: u64, faults: u64) -> Result<(), AllocError>
    ensures { OnOk result (string_bytes page.new ≡ string_bytes page.old ++ unclean_text bad checks faults) }
{
    if bad == 0 {
        return write!(page, "FAULTS: {faults}");
    }
    if faults == 0 {
        return write!(page, "BAD: {bad} of {checks} checks");
    }
    write!(page, "BAD: {bad} of {checks} checks, FAULTS: {faults}")
}

fn push_ending(page: &mut String, is_interrupted: bool) -> Result<(), AllocError>
    ensures { OnOk result (string_bytes page.new ≡ string_bytes page.old ++ ending_text is_interrupted) }
{
    if is_interrupted {
        page.push_str(", INTERRUPTED")?;
    }
    Ok(())
}
