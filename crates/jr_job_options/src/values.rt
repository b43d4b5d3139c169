ghost use Rattle.std.specs.Prelude.{◌≡◌, ◌≤◌, ◌<◌, ◌+◌, ◌/◌, ◌%◌, ◌∷◌, [], length, take, IfSome, MatchOption, option_copied};
ghost use Rattle.std.specs.List.{slice_split, list_all};
ghost use Rattle.std.specs.Char.{is_ascii_digit};
ghost use Rattle.std.specs.Option.{option_map};
ghost use Rattle.jr_job_options.specs.OptionValues.{number_within, flag_of, is_comma, by_direction, values_in, block_size};
ghost use Rattle.jr_job_options.specs.OptionValues.{block_sizes, split_part, splits, pattern_of, decimal_pattern, hex_digit};
ghost use Rattle.jr_job_options.specs.OptionValues.{hex_byte, hex_pairs, hex_pattern, with_bytes, interval_of};

use jr_model::{LARGEST_BLOCK, Pattern, SECTOR, all_digits};
use jr_sizes::{ReadSplit, Split};
use jr_text::number;

// The number that a text writes, where it lies within these bounds.
pub(crate) fn number_within(text: &str, least: u64, most: u64) -> Option<u64>
    ensures value { result ≡ number_within least most text.now }
    ensures within { IfSome result (λ n. (least ≤ n) × (n ≤ most)) }
{
    match number(text) {
        Ok(n) if least <= n && n <= most => Some(n),
        _ => None,
    }
}

// A flag is 0 or 1, and 1 where it has no value.
pub(crate) fn flag(value: Option<&str>) -> Option<bool>
    ensures { result ≡ flag_of (option_copied value.entry) }
{
    match value {
        Some(text) => number_within(text, 0, 1).map(|n| n == 1),
        None => Some(true),
    }
}

// What stands before and behind the first comma.
fn cut(text: &str) -> Option<(&str, &str)>
    ensures { MatchOption result (slice_split is_comma text.now ≡ text.now ∷ []) (λ p. slice_split is_comma text.now
        ≡ p.0.now ∷ slice_split is_comma p.1.now) }
{
    text.split_once(',')
}

// What reads, writes and trims each have of a text of one to three values with commas between them:
// the last value goes to all later ones too.
fn by_direction(text: &str) -> Option<(&str, &str, &str)>
    ensures { option_map (λ v. (v.0.now, v.1.now, v.2.now)) result ≡ by_direction (slice_split is_comma text.now) }
{
    let Some((reads, rest)) = cut(text) else {
        return Some((text, text, text));
    };
    let Some((writes, trims)) = cut(rest) else {
        return Some((reads, rest, rest));
    };
    match cut(trims) {
        Some(_) => None,
        None => Some((reads, writes, trims)),
    }
}

// The values of reads, writes and trims, if they aren't all empty.
fn values_in(text: &str) -> Option<(&str, &str, &str)>
    ensures { option_map (λ v. (v.0.now, v.1.now, v.2.now)) result ≡ values_in text.now }
{
    match by_direction(text) {
        Some((reads, writes, trims)) => {
            if reads.is_empty() && writes.is_empty() && trims.is_empty() {
                None
            } else {
                Some((reads, writes, trims))
            }
        }
        None => None,
    }
}

// One block size in bytes; where nothing stands it is 4096.
fn block_size(text: &str) -> Option<u32>
    ensures { result ≡ block_size text.now }
{
    if text.is_empty() {
        return Some(4096);
    }
    let size = number_within(text, 0, 0xffff_ffff)?;
    Some(size as u32)
}

// The block sizes of reads and of writes. That of trims is read and not used.
pub(crate) fn block_sizes(text: &str) -> Option<(u32, u32)>
    ensures { result ≡ block_sizes text.now }
{
    let (reads, writes, trims) = values_in(text)?;
    let reads = block_size(reads)?;
    let writes = block_size(writes)?;
    block_size(trims)?;
    Some((reads, writes))
}

// The split of one direction; where nothing stands there is none.
fn split_part(text: &str) -> Option<Option<Split>>
    ensures { result ≡ split_part text.now }
{
    if text.is_empty() {
        return Some(None);
    }
    match Split::read(text) {
        Ok(split) => Some(Some(split)),
        Err(_) => None,
    }
}

// The splits of reads and of writes. That of trims is read and not used.
pub(crate) fn splits(text: &str) -> Option<(Option<Split>, Option<Split>)>
    ensures { result ≡ splits text.now }
{
    match values_in(text) {
        Some((reads, writes, trims)) => match (
            split_part(reads),
            split_part(writes),
            split_part(trims),
        ) {
            (Some(reads), Some(writes), Some(_)) => Some((reads, writes)),
            _ => None,
        },
        None => None,
    }
}

// A verify pattern: hexadecimal digits behind `0x`, two a byte, or one byte in decimal.
pub(crate) fn pattern(text: &str) -> Option<Pattern>
    ensures { result ≡ pattern_of text.now }
{
    match text.as_bytes() {
        [b'0', b'x' | b'X', digits @ ..] => hexadecimal(digits),
        _ => decimal(text),
    }
}

// One byte, in decimal digits alone.
fn decimal(text: &str) -> Option<Pattern>
    ensures { result ≡ decimal_pattern text.now }
{
    if !all_digits(text.as_bytes()) {
        return None;
    }
    let byte = number_within(text, 0, 255)?;
    Pattern::new(&[byte as u8])
}

// The bytes from one header to the next: whole 512-byte blocks, up to the largest block.
pub(crate) fn interval(text: &str) -> Option<u32>
    ensures { result ≡ interval_of text.now }
{
    let bytes = number_within(text, 0, u64::from(LARGEST_BLOCK))?;
    if bytes % u64::from(SECTOR) != 0 {
        return None;
    }
    Some(bytes as u32)
}

fn hexadecimal_digit(byte: u8) -> Option<u8>
    ensures value { result ≡ hex_digit byte }
    ensures most { IfSome result (λ digit. digit < 16) }
{
    match byte {
        b'0'..=b'9' => Some(byte - b'0'),
        b'a'..=b'f' => Some(byte - b'a' + 10),
        b'A'..=b'F' => Some(byte - b'A' + 10),
        _ => None,
    }
}

// Two hexadecimal digits as a byte.
fn hexadecimal_byte(high: u8, low: u8) -> Option<u8>
    ensures { result ≡ hex_byte high low }
{
    match (hexadecimal_digit(high), hexadecimal_digit(low)) {
        (Some(high), Some(low)) => Some(high * 16 + low),
        _ => None,
    }
}

// 1 to 128 hexadecimal digits; an odd count has a 0 put before.
fn hexadecimal(digits: &[u8]) -> Option<Pattern>
    ensures { result ≡ hex_pattern digits.now }
{
    if digits.is_empty() || digits.len() > 128 {
        return None;
    }
    if digits.len() % 2 == 0 {
        with_pairs([0; 64], 0, digits)
    } else {
        odd_pairs(digits[0], &digits[1..])
    }
}

// The pattern of an odd count of digits.
fn odd_pairs(first: u8, others: &[u8]) -> Option<Pattern>
    requires even { length others.now % 2 ≡ 0 }
    requires most { length others.now ≤ 127 }
    ensures { result ≡ hex_pairs (48 ∷ first ∷ others.now) }
{
    match hexadecimal_byte(b'0', first) {
        Some(byte) => {
            let mut bytes = [0; 64];
            bytes[0] = byte;
            with_pairs(bytes, 1, others)
        }
        None => None,
    }
}

// The pattern of some bytes and of those that an even count of digits say.
fn with_pairs(bytes: [u8; 64], count: usize, digits: &[u8]) -> Option<Pattern>
    requires even { length digits.now % 2 ≡ 0 }
    requires least { 1 ≤ count + length digits.now / 2 }
    requires most { count + length digits.now / 2 ≤ 64 }
    ensures { result ≡ with_bytes (take count bytes) (hex_pairs digits.now) }
{
    let mut bytes = bytes;
    let pairs = digits.len() / 2;
    for i in 0..pairs {
        let high = digits[2 * i];
        let low = digits[2 * i + 1];
        bytes[count + i] = hexadecimal_byte(high, low)?;
    }
    Pattern::new(&bytes[..count + pairs])
}
