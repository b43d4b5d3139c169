ghost use Rattle.std.specs.Prelude.{◌≡◌, length};
ghost use Rattle.std.specs.List.{list_any};
ghost use Rattle.jr_after.specs.Ledgers.{same_sync, is_end_of, is_return_of, line_of, is_shut, kept_lines};

use jr_ledger::{LedgerLine, SyncId};
use jr_model::{WriteId, same_write};

/// The place of the write's line in a ledger, from 0, if the ledger names it.
pub fn line_of(lines: &[LedgerLine], write: &WriteId) -> Option<usize>
    ensures { result ≡ line_of lines.now write.now }
{
    for (i, line) in lines.iter().enumerate() {
        if is_end_of(write, line) {
            return Some(i);
        }
    }
    None
}

/// How many lines of a ledger, from the first on, are above a sync of the file that returned well, or are its begin. Writes of the file
/// that they name are kept.
pub fn kept_lines(file: u32, lines: &[LedgerLine]) -> usize
    ensures { result ≡ kept_lines file lines.now }
{
    let mut count = lines.len();
    while count > 0 {
        if is_shut(file, &lines[count - 1], &lines[count..]) {
            return count;
        }
        count -= 1;
    }
    0
}

// Whether a line is the begin of a sync of the file whose return is among these below it.
fn is_shut(file: u32, line: &LedgerLine, below: &[LedgerLine]) -> bool
    ensures { result ≡ is_shut file line.now below.now }
{
    match line {
        LedgerLine::Begun(sync) => sync.file == file && has_return(sync, below),
        LedgerLine::Written(_) | LedgerLine::Returned(_) => false,
    }
}

fn has_return(sync: &SyncId, lines: &[LedgerLine]) -> bool
    ensures { result ≡ list_any (is_return_of sync.now) lines.now }
{
    lines.iter().any(|line| is_return_of(sync, line))
}

fn is_return_of(sync: &SyncId, line: &LedgerLine) -> bool
    ensures { result ≡ is_return_of sync.now line.now }
{
    match line {
        LedgerLine::Returned(other) => sync == other,
        LedgerLine::Written(_) | LedgerLine::Begun(_) => false,
    }
}

fn is_end_of(write: &WriteId, line: &LedgerLine) -> bool
    ensures { result ≡ is_end_of write.now line.now }
{
    match line {
        LedgerLine::Written(other) => same_write(write, other),
        LedgerLine::Begun(_) | LedgerLine::Returned(_) => false,
    }
}
