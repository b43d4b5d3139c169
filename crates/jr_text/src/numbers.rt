ghost use Rattle.std.specs.Prelude.{◌≡◌, ◌*◌, ◌^◌, ◌<◌, All, IfOk, IfSome, length, map, SomeIff, true};
ghost use Rattle.std.specs.Char.{is_ascii_digit, to_ascii_lowercase};
ghost use Rattle.std.specs.Str.Parse.{digits_value};
ghost use Rattle.jr_text.specs.Number.{binary_fault, digits_in, is_hexadecimal, number_of, power_of, small_number, unit_of};

use crate::faults::NumFault;
use jr_model::digits_number;

/// The number that a text writes: decimal digits, then nothing, `b`, or one of `k m g t p` with an
/// optional `b`, in any case, for the powers 1 to 5 of 1024.
pub fn number(text: &str) -> Result<u64, NumFault>
    ensures { result ≡ number_of text.now }
{
    let bytes = text.as_bytes();
    let count = digit_count(bytes);
    if count == 0 {
        return Err(NumFault::NoDigits);
    }
    if is_hexadecimal(bytes) {
        return Err(NumFault::UnitOutOfScope);
    }
    let (digits, unit) = bytes.split_at(count);
    let power = unit_power(unit)?;
    scaled_number(digits, power)
}

// How many digits a text begins with.
fn digit_count(text: &[u8]) -> usize
    ensures { result ≡ length (digits_in text.now) }
{
    text.iter().take_while(|byte| byte.is_ascii_digit()).count()
}

// The text begins with `0x` or `0X`.
fn is_hexadecimal(text: &[u8]) -> bool
    ensures { result ≡ is_hexadecimal text.now }
{
    matches!(text, [b'0', b'x' | b'X', ..])
}

// The power of 1024 that a letter names.
fn letter_power(letter: u8) -> Option<u32>
    ensures value { result ≡ power_of (to_ascii_lowercase letter) }
    ensures bound { IfSome result (λ power. power < 6) }
{
    match letter.to_ascii_lowercase() {
        b'k' => Some(1),
        b'm' => Some(2),
        b'g' => Some(3),
        b't' => Some(4),
        b'p' => Some(5),
        _ => None,
    }
}

// What is wrong with a unit that begins with this letter and goes on with an `i`.
fn binary_fault(letter: u8) -> NumFault
    ensures { result ≡ binary_fault (to_ascii_lowercase letter) }
{
    match letter_power(letter) {
        Some(_) => NumFault::UnitOutOfScope,
        None => NumFault::BadUnit,
    }
}

// The power of 1024 that a unit names.
fn unit_power(unit: &[u8]) -> Result<u32, NumFault>
    ensures value { result ≡ unit_of (map to_ascii_lowercase unit.now) }
    ensures bound { IfOk result (λ power. power < 6) }
{
    match unit {
        [] => Ok(0),
        [letter] => match letter.to_ascii_lowercase() {
            b'b' => Ok(0),
            _ => letter_power(*letter).ok_or(NumFault::BadUnit),
        },
        [letter, second] => match second.to_ascii_lowercase() {
            b'b' => letter_power(*letter).ok_or(NumFault::BadUnit),
            b'i' => Err(binary_fault(*letter)),
            _ => Err(NumFault::BadUnit),
        },
        [letter, second, third] => {
            match (second.to_ascii_lowercase(), third.to_ascii_lowercase()) {
                (b'i', b'b') => Err(binary_fault(*letter)),
                _ => Err(NumFault::BadUnit),
            }
        }
        _ => Err(NumFault::BadUnit),
    }
}

// The value of digits in a unit, which is this power of 1024.
fn scaled_number(digits: &[u8], power: u32) -> Result<u64, NumFault>
    requires digits { All (λ b. is_ascii_digit b ≡ true) digits.now }
    requires power { power < 6 }
    ensures { result ≡ small_number (digits_value 10 digits.now * 1024 ^ power) }
{
    let scale = 1024u64.pow(power);
    match digits_number(digits) {
        Some(number) => number.checked_mul(scale).ok_or(NumFault::TooLarge),
        None => Err(NumFault::TooLarge),
    }
}
