ghost use Rattle.std.specs.Prelude.{◌≡◌};
ghost use Rattle.jr_fields.specs.Fields.{fields_of};
ghost use Rattle.jr_ledger.specs.Fields.{if_small, small_at, write_of, sync_of, write_in, sync_in, read_line};

use crate::lines::{LedgerLine, SyncId};
use jr_fields::{field_at, field_count, field_is, number_at};
use jr_model::WriteId;

// What a line of a ledger says, without its line feed; nothing where it is no line of a ledger.
pub(crate) fn read_line(line: &[u8]) -> Option<LedgerLine>
    ensures { result ≡ read_line line.now }
{
    let tag = field_at(line, 0);
    let count = field_count(line);
    if field_is(tag, b"w") && count == 4 {
        return Some(LedgerLine::Written(write_in(line)?));
    }
    if field_is(tag, b"b") && count == 3 {
        return Some(LedgerLine::Begun(sync_in(line)?));
    }
    if field_is(tag, b"s") && count == 3 {
        return Some(LedgerLine::Returned(sync_in(line)?));
    }
    None
}

fn write_in(line: &[u8]) -> Option<WriteId>
    ensures { result ≡ write_in (fields_of line.now) }
{
    write_of(small_at(line, 1), small_at(line, 2), small_at(line, 3))
}

fn write_of(clone: Option<u32>, pass: Option<u32>, number: Option<u32>) -> Option<WriteId>
    ensures { result ≡ write_of clone pass number }
{
    Some(WriteId {
        clone: clone?,
        pass: pass?,
        number: number?,
    })
}

fn sync_in(line: &[u8]) -> Option<SyncId>
    ensures { result ≡ sync_in (fields_of line.now) }
{
    sync_of(small_at(line, 1), number_at(line, 2))
}

fn sync_of(file: Option<u32>, number: Option<u64>) -> Option<SyncId>
    ensures { result ≡ sync_of file number }
{
    Some(SyncId {
        file: file?,
        number: number?,
    })
}

fn small_at(line: &[u8], place: usize) -> Option<u32>
    ensures { result ≡ small_at (fields_of line.now) place }
{
    if_small(number_at(line, place))
}

// The number, if 32 bits hold it.
fn if_small(number: Option<u64>) -> Option<u32>
    ensures { result ≡ if_small number }
{
    let n = number?;
    if n <= u64::from(u32::MAX) {
        Some(n as u32)
    } else {
        None
    }
}
