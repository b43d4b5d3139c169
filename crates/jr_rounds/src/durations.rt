ghost use Rattle.std.specs.Prelude.{◌≡◌, ◌≤◌, All, IfSome, length, Some, take, true};
ghost use Rattle.std.specs.Char.{is_ascii_digit};
ghost use Rattle.std.specs.Str.Parse.{digits_value};
ghost use Rattle.jr_rounds.specs.Durations.{digit_count, duration_of, letter_seconds, seconds_in, unit_seconds};

use jr_model::digits_number;

/// The longest duration, in seconds (3650 days).
pub const MOST_SECONDS: u64 = 315_360_000;

/// How many seconds a text says: decimal digits, then nothing or `s` for seconds, `m` for minutes, `h` for hours or `d` for days. None if
/// it says no duration, or one that is 0 or longer than `MOST_SECONDS`.
pub fn duration_seconds(text: &str) -> Option<u64>
    ensures { result ≡ duration_of text.now }
{
    let bytes = text.as_bytes();
    let (digits, unit) = bytes.split_at(digit_count(bytes));
    match unit_seconds(unit) {
        Some(seconds) => scaled_seconds(digits, seconds),
        None => None,
    }
}

// How many digits a text begins with.
fn digit_count(text: &[u8]) -> usize
    ensures value { result ≡ digit_count text.now }
    ensures digits { All (λ b. is_ascii_digit b ≡ true) (take result text.now) }
    ensures within { result ≤ length text.now }
{
    text.iter().take_while(|byte| byte.is_ascii_digit()).count()
}

// How many seconds a unit has.
fn unit_seconds(unit: &[u8]) -> Option<u64>
    ensures value { result ≡ unit_seconds unit.now }
    ensures bound { IfSome result (λ seconds. (1 ≤ seconds) × (seconds ≤ 86400)) }
{
    match unit {
        [] => Some(1),
        [letter] => letter_seconds(*letter),
        _ => None,
    }
}

fn letter_seconds(letter: u8) -> Option<u64>
    ensures value { result ≡ letter_seconds letter }
    ensures bound { IfSome result (λ seconds. (1 ≤ seconds) × (seconds ≤ 86400)) }
{
    match letter {
        b's' => Some(1),
        b'm' => Some(60),
        b'h' => Some(3600),
        b'd' => Some(86400),
        _ => None,
    }
}

// The value of digits in a unit of this number of seconds, if it is a duration.
fn scaled_seconds(digits: &[u8], unit: u64) -> Option<u64>
    requires digits { All (λ b. is_ascii_digit b ≡ true) digits.now }
    requires unit { (1 ≤ unit) × (unit ≤ 86400) }
    ensures { result ≡ seconds_in (digits_value 10 digits.now) (Some unit) }
{
    let number = digits_number(digits)?;
    let seconds = number.checked_mul(unit)?;
    if 1 <= seconds && seconds <= MOST_SECONDS {
        Some(seconds)
    } else {
        None
    }
}
