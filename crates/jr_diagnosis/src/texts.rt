// What is told of a bad block, in words and numbers.
ghost use Rattle.std.specs.Prelude.{◌≡◌, ◌++◌, IfOk, OnOk, flat_map, map, string_bytes};
ghost use Rattle.std.specs.Option.{option_map};
ghost use Rattle.jr_diagnosis.specs.Rulings.{told};
ghost use Rattle.jr_diagnosis.specs.Texts.{diagnosis_text, flips_text, number_text, sector_text, told_of_write, told_text, torn_text};

use crate::bits::Flips;
use crate::diagnoses::Diagnosis;
use crate::rulings::Diagnosed;
use jr_model::WriteId;
use std::alloc::{AllocError, Global};

/// What is told of a bad block, as JSON and page have it: a word, and its numbers. Offsets and lengths are in bytes.
pub fn text_of(alloc: Global, found: &Diagnosed) -> Result<String, AllocError>
    ensures { IfOk result (λ text. string_bytes text ≡ told_text (told found.now)) }
{
    let mut text = String::new(alloc);
    push_diagnosis(&mut text, &found.diagnosis, &found.sectors)?;
    Ok(text)
}

fn push_diagnosis(
    text: &mut String,
    diagnosis: &Diagnosis,
    sectors: &[bool],
) -> Result<(), AllocError>
    ensures { OnOk result (string_bytes text.new ≡ string_bytes text.old ++ diagnosis_text sectors.now diagnosis.now) }
{
    match *diagnosis {
        Diagnosis::Zeros => text.push_str("zeros"),
        Diagnosis::Repeated(byte) => push_number(text, "byte=", u64::from(byte)),
        Diagnosis::Flipped(flips) => push_flips(text, &flips),
        Diagnosis::OtherKind(kind) => push_number(text, "kind=", u64::from(kind)),
        Diagnosis::OtherLength(len) => push_number(text, "length=", u64::from(len)),
        Diagnosis::Elsewhere(offset) => push_number(text, "elsewhere offset=", offset),
        Diagnosis::OtherWrite(clone, number) => {
            push_number(text, "write clone=", u64::from(clone))?;
            push_number(text, " number=", number)?;
            Ok(())
        }
        Diagnosis::OtherPass(pass) => push_number(text, "pass=", u64::from(pass)),
        Diagnosis::Torn(right) => push_torn(text, right, sectors),
        Diagnosis::Damaged => text.push_str("damaged"),
        Diagnosis::Foreign => text.push_str("foreign"),
    }
}

// A number behind its word.
fn push_number(text: &mut String, word: &str, number: u64) -> Result<(), AllocError>
    ensures { OnOk result (string_bytes text.new ≡ string_bytes text.old ++ number_text word.now number) }
{
    text.push_str(word)?;
    write!(text, "{number}")
}

fn push_flips(text: &mut String, flips: &Flips) -> Result<(), AllocError>
    ensures { OnOk result (string_bytes text.new ≡ string_bytes text.old ++ flips_text flips.now) }
{
    push_number(text, "bits raised=", u64::from(flips.raised))?;
    push_number(text, " cleared=", u64::from(flips.cleared))?;
    push_number(text, " first=", u64::from(flips.first))?;
    Ok(())
}

fn push_torn(text: &mut String, right: u32, sectors: &[bool]) -> Result<(), AllocError>
    ensures { OnOk result (string_bytes text.new ≡ string_bytes text.old ++ torn_text right sectors.now) }
{
    push_number(text, "torn right=", u64::from(right))?;
    text.push_str(" sectors=")?;
    push_sectors(text, sectors)?;
    Ok(())
}

fn push_sectors(text: &mut String, sectors: &[bool]) -> Result<(), AllocError>
    ensures { OnOk result (string_bytes text.new ≡ string_bytes text.old ++ flat_map sector_text sectors.now) }
{
    for is_right in sectors {
        text.push_str(sector_text(*is_right))?;
    }
    Ok(())
}

// A sector that is right is a 1, and one that isn't a 0.
fn sector_text(is_right: bool) -> &'static str
    ensures { result.now ≡ sector_text is_right }
{
    if is_right { "1" } else { "0" }
}

/// What was found of the block of this write, if it is among these.
pub fn found_of<'a>(all: &'a [Diagnosed], write: &WriteId) -> Option<&'a Diagnosed>
    ensures { option_map (λ found. told found.now) result ≡ told_of_write (map told all.now) write.now }
{
    for found in all {
        if found.write == *write {
            return Some(found);
        }
    }
    None
}
