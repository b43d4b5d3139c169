use crate::asserts::same;
use jr_model::{all_digits, digits_number};
use jr_text::{NumFault, number};
use std::process::Abort;
use std::test::Fail;

// (none where the text has something else than digits)
fn digits_number_or_none(text: &[u8]) -> Option<Option<u64>> {
    if all_digits(text) {
        Some(digits_number(text))
    } else {
        None
    }
}

#[test]
fn digits_have_their_value_where_64_bits_hold_it(rt: HostRuntime) {
    same(&rt, digits_number_or_none(b""), Some(Some(0)));
    same(&rt, digits_number_or_none(b"007"), Some(Some(7)));
    let most = b"18446744073709551615";
    same(&rt, digits_number_or_none(most), Some(Some(u64::MAX)));
    let more = b"18446744073709551616";
    same(&rt, digits_number_or_none(more), Some(None));
    same(&rt, digits_number_or_none(b"12/4"), None);
    same(&rt, digits_number_or_none(b":"), None);
}

// The other units are seen in the plans that the program prints.
#[test]
fn numbers_have_units(rt: HostRuntime) {
    same(&rt, number("3"), Ok(3));
    same(&rt, number("3Kb"), Ok(3 << 10));
    same(&rt, number("3PB"), Ok(3 << 50));
    same(&rt, number("16777215t"), Ok(18_446_742_974_197_923_840));
    same(&rt, number("18446744073709551615"), Ok(u64::MAX));
    same(&rt, number("k"), Err(NumFault::NoDigits));
    same(&rt, number("0x10"), Err(NumFault::UnitOutOfScope));
    same(&rt, number("1ki"), Err(NumFault::UnitOutOfScope));
    same(&rt, number("1x"), Err(NumFault::BadUnit));
    same(&rt, number("16777216t"), Err(NumFault::TooLarge));
}

// Is this what the fault says?
fn assert_says(rt: &(impl AllocGlobal + Abort), fault: NumFault, want: &str) -> Result<(), Fail> {
    let shown = format!(in rt.alloc(); "{fault}")?;
    same(rt, shown.as_str(), want);
    Ok(())
}

#[test]
fn what_is_no_number_is_said(rt: HostRuntime) -> Result<(), Fail> {
    assert_says(&rt, NumFault::NoDigits, "no digits")?;
    assert_says(&rt, NumFault::UnitOutOfScope, "unit out of scope")?;
    assert_says(&rt, NumFault::BadUnit, "no such unit")?;
    assert_says(&rt, NumFault::TooLarge, "number too large")
}
