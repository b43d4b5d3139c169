ghost use Rattle.std.specs.Prelude.{◌≡◌, ◌<◌, ◌^◌, All, IsTrue, true};
ghost use Rattle.std.specs.Char.{is_ascii_digit};
ghost use Rattle.std.specs.List.{list_all};
ghost use Rattle.std.specs.Option.{SomeIff};
ghost use Rattle.std.specs.Str.Parse.{digits_value};

/// Whether a text has nothing but the digits 0 to 9; an empty one has nothing else either.
pub fn all_digits(text: &[u8]) -> bool
    ensures value { result ≡ list_all is_ascii_digit text.now }
    ensures each { IsTrue result → All (λ b. is_ascii_digit b ≡ true) text.now }
{
    text.iter().all(|byte| byte.is_ascii_digit())
}

/// The value of decimal digits, if 64 bits hold it.
pub fn digits_number(digits: &[u8]) -> Option<u64>
    requires { All (λ b. is_ascii_digit b ≡ true) digits.now }
    ensures { SomeIff result (digits_value 10 digits.now < 2 ^ 64) (digits_value 10 digits.now) }
{
    let mut number = 0u64;
    for digit in digits {
        number = number
            .checked_mul(10)?
            .checked_add(u64::from(*digit - b'0'))?;
    }
    Some(number)
}
