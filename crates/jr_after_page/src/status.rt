ghost use Rattle.std.specs.Prelude.{◌≡◌, ◌++◌, OnOk, string_bytes};
ghost use Rattle.jr_after_page.specs.Status.{count_of, counted, status_text, sum_of, verdict_word};

use jr_after_report::FileReport;
use jr_model::Piece;
use std::alloc::AllocError;

// What is found of all files, in numbers of chunks.
#[derive(Clone, Copy)]
pub(crate) struct Status {
    pub kept: u64,
    pub lost: u64,
    pub broken: u64,
    pub torn: u64,
    pub unread: u64,
}

// What is counted over all files.
#[derive(Clone, Copy)]
pub(crate) enum Count {
    Kept,
    Lost,
    Broken,
    Torn,
}

impl Status {
    ghost use Rattle.std.specs.Prelude.{◌≡◌};
    ghost use Rattle.jr_after_page.specs.Status.{has_fault, has_loss, status_of};

    // Of these files, where these chunks couldn't be read.
    pub(crate) fn of(found: &[FileReport], unread: &[Piece]) -> Status
        ensures { result ≡ status_of found.now unread.now }
    {
        Status {
            kept: sum_of(found, Count::Kept),
            lost: sum_of(found, Count::Lost),
            broken: sum_of(found, Count::Broken),
            torn: sum_of(found, Count::Torn),
            unread: unread.len() as u64,
        }
    }

    // Whether a chunk isn't as the storage promised, or couldn't be read.
    pub(crate) fn has_fault(&self) -> bool
        ensures { result ≡ has_fault self.now }
    {
        self.has_loss() || self.unread != 0
    }

    fn has_loss(&self) -> bool
        ensures { result ≡ has_loss self.now }
    {
        self.lost != 0 || self.broken != 0
    }
}

// The count over all files, or the greatest number of 64 bits where it is above that.
fn sum_of(found: &[FileReport], what: Count) -> u64
    ensures { result ≡ sum_of what found.now }
{
    let mut sum = 0u64;
    for one in found {
        sum = sum.saturating_add(count_of(one, what));
    }
    sum
}

fn count_of(found: &FileReport, what: Count) -> u64
    ensures { result ≡ count_of what found.now }
{
    let counts = found.counts();
    match what {
        Count::Kept => counts.kept,
        Count::Lost => counts.lost,
        Count::Broken => counts.broken,
        Count::Torn => counts.torn,
    }
}

// The title of the page.
pub(crate) fn push_status(title: &mut String, status: &Status) -> Result<(), AllocError>
    ensures { OnOk result (string_bytes title.new ≡ string_bytes title.old ++ status_text status.now) }
{
    title.push_str(verdict_word(status))?;
    push_count(title, ": ", status.kept)?;
    push_count(title, " kept, ", status.lost)?;
    push_count(title, " lost, ", status.broken)?;
    push_count(title, " broken, ", status.torn)?;
    push_count(title, " torn, ", status.unread)?;
    title.push_str(" unread")?;
    Ok(())
}

// A number behind a text.
fn push_count(title: &mut String, before: &str, n: u64) -> Result<(), AllocError>
    ensures { OnOk result (string_bytes title.new ≡ string_bytes title.old ++ counted before.now n) }
{
    write!(title, "{before}{n}")
}

fn verdict_word(status: &Status) -> &'static str
    ensures { result.now ≡ verdict_word status.now }
{
    if status.has_loss() {
        return "BAD";
    }
    if status.has_fault() {
        return "FAULTS";
    }
    if status.kept == 0 && status.torn == 0 {
        "NOTHING PROMISED"
    } else {
        "GOOD"
    }
}
