ghost use Rattle.std.specs.Prelude.{◌≡◌, ◌<◌, ◌^◌, length};
ghost use Rattle.std.specs.List.{before_first};
ghost use Rattle.jr_fields.specs.Fields.{is_space, fields_of, field_at, field_is, is_numeral, number_in, number_at};

use jr_model::{all_digits, digits_number};

/// Whether a field is this word.
pub fn field_is(field: &[u8], word: &[u8]) -> bool
    ensures { result ≡ field_is field.now word.now }
{
    field == word
}

/// The number that the field at this place writes, if it is one and below 2 to the power of 64. The places count from 0.
pub fn number_at(line: &[u8], place: usize) -> Option<u64>
    ensures { result ≡ number_at (fields_of line.now) place }
{
    number_in(field_at(line, place))
}

// The number that a field writes in decimal digits, without leading zeros.
fn number_in(field: &[u8]) -> Option<u64>
    ensures { result ≡ number_in field.now }
{
    if is_numeral(field) {
        digits_number(field)
    } else {
        None
    }
}

fn is_numeral(field: &[u8]) -> bool
    ensures { result ≡ is_numeral field.now }
{
    !field.is_empty() && all_digits(field) && (field.len() == 1 || field[0] != b'0')
}

/// How many fields a line has: one more than it has spaces.
pub fn field_count(line: &[u8]) -> usize
    ensures { result ≡ length (fields_of line.now) }
{
    line.iter().filter(|byte| **byte == b' ').count() + 1
}

/// A field of a line; an empty one where it has none at this place. The places count from 0.
pub fn field_at(line: &[u8], place: usize) -> &[u8]
    ensures { result.now ≡ field_at (fields_of line.now) place }
{
    let mut rest = line;
    for _ in 0..place {
        let end = field_len(rest);
        let count = rest.len();
        if end >= count {
            return &[];
        }
        let (_, after) = rest.split_at(end + 1);
        rest = after;
    }
    &rest[..field_len(rest)]
}

// How many bytes stand before the first space.
fn field_len(text: &[u8]) -> usize
    ensures value { result ≡ length (before_first is_space text.now) }
    ensures bound { result < 2 ^ 63 }
{
    text.iter().take_while(|byte| **byte != b' ').count()
}
