// What stands in bad blocks, in words.
ghost use Rattle.std.specs.Prelude.{◌≡◌, ◌/◌, ◌++◌, IfOk, OnOk, flat_map, string_bytes};
ghost use Rattle.jr_diagnosis.specs.Texts.{sector_text};
ghost use Rattle.jr_cli_notes.specs.Words.{flips_words, kind_words, place_words, torn_words, words_of};

use crate::common::{Common, Trait, most_common};
use jr_diagnosis::{Diagnosed, Diagnosis, Flips};
use jr_escape::Escaped;
use jr_model::SECTOR;
use jr_plan::Plan;
use std::alloc::{AllocError, AllocGlobal, Global};

// So many bad blocks are told of one by one.
const MOST_TOLD: usize = 10;

/// Says on standard error what stands in the first bad blocks, and what many have in common.
pub fn tell_found<R: Eprint + AllocGlobal>(rt: &R, plan: &Plan, found: &[Diagnosed]) {
    for one in found.iter().take(MOST_TOLD) {
        tell_one(rt, plan, one);
    }
    if found.len() > MOST_TOLD {
        let _ = eprintln!(rt;
            "fiorun: note: {} more bad blocks were looked into: --json and --page have them",
            found.len() - MOST_TOLD
        );
    }
    if let Some(common) = most_common(found) {
        tell_common(rt, common, found.len());
    }
}

fn tell_one<R: Eprint + AllocGlobal>(rt: &R, plan: &Plan, found: &Diagnosed) {
    let Ok(words) = words_of(rt.alloc(), found) else {
        return;
    };
    let name = Escaped(&plan.file_name(found.place.file));
    let (offset, len) = (found.place.offset, found.place.len);
    let _ = eprintln!(rt; "fiorun: note: {name} at {offset}, {len} bytes: {words}");
}

fn words_of(alloc: Global, found: &Diagnosed) -> Result<String, AllocError>
    ensures { IfOk result (λ text. string_bytes text ≡ words_of found.now) }
{
    match found.diagnosis {
        Diagnosis::Zeros => String::from_str(alloc, "nothing but zeros"),
        Diagnosis::Repeated(byte) => format!(in alloc; "nothing but the byte {byte}"),
        Diagnosis::Flipped(flips) => words_of_flips(alloc, flips),
        Diagnosis::OtherKind(kind) => words_of_kind(alloc, kind),
        Diagnosis::OtherLength(len) => format!(in alloc; "the beginning of a block of {len} bytes"),
        Diagnosis::Elsewhere(offset) => words_of_place(alloc, found.place.offset, offset),
        Diagnosis::OtherWrite(clone, number) => {
            format!(in alloc; "write {number} of clone {clone}: an older one, or another job's")
        }
        Diagnosis::OtherPass(pass) => format!(in alloc; "what pass {pass} wrote there"),
        Diagnosis::Torn(right) => words_of_sectors(alloc, right, found),
        Diagnosis::Damaged => {
            String::from_str(
                alloc,
                "a block of this place whose bytes don't fit its header",
            )
        }
        Diagnosis::Foreign => String::from_str(alloc, "nothing that fiorun knows"),
    }
}

fn words_of_flips(alloc: Global, flips: Flips) -> Result<String, AllocError>
    ensures { IfOk result (λ text. string_bytes text ≡ flips_words flips) }
{
    let (raised, cleared, first) = (flips.raised, flips.cleared, flips.first);
    format!(in alloc;
        "right but for some bits: {raised} came back as 1 and {cleared} as 0, the first of them in byte {first}"
    )
}

fn words_of_kind(alloc: Global, kind: u8) -> Result<String, AllocError>
    ensures { IfOk result (λ text. string_bytes text ≡ kind_words kind) }
{
    match kind {
        1 => String::from_str(alloc, "a block of verify=md5"),
        2 => String::from_str(alloc, "a block of verify=sha1"),
        3 => String::from_str(alloc, "a block of verify=sha256"),
        _ => format!(in alloc; "a block of another kind, {kind}"),
    }
}

fn words_of_place(alloc: Global, here: u64, there: u64) -> Result<String, AllocError>
    ensures { IfOk result (λ text. string_bytes text ≡ place_words here there) }
{
    if there > here {
        let distance = there - here;
        format!(in alloc; "the block of {there}, which is {distance} bytes further on")
    } else {
        let distance = here - there;
        format!(in alloc; "the block of {there}, which is {distance} bytes before")
    }
}

fn words_of_sectors(alloc: Global, right: u32, found: &Diagnosed) -> Result<String, AllocError>
    ensures { IfOk result (λ text. string_bytes text ≡ torn_words right (found.now.place.len / SECTOR) found.now.sectors.items) }
{
    let all = found.place.len / SECTOR;
    let mut text = format!(in alloc; "torn: {right} of its {all} sectors are right, ")?;
    push_sectors(&mut text, found.sectors.as_slice())?;
    Ok(text)
}

// Which sectors are right.
fn push_sectors(text: &mut String, sectors: &[bool]) -> Result<(), AllocError>
    ensures { OnOk result (string_bytes text.new ≡ string_bytes text.old ++ flat_map sector_text sectors.now) }
{
    for is_right in sectors {
        text.push_str(if *is_right { "1" } else { "0" })?;
    }
    Ok(())
}

fn tell_common<R: Eprint>(rt: &R, common: Common, all: usize) {
    let count = common.count;
    let _ = match common.what {
        Trait::Ahead(distance) => eprintln!(rt;
            "fiorun: note: {count} of {all} bad blocks hold what belongs {distance} bytes further on: a smaller disk than it says, or writes gone astray"
        ),
        Trait::Behind(distance) => eprintln!(rt;
            "fiorun: note: {count} of {all} bad blocks hold what belongs {distance} bytes before: writes gone astray"
        ),
        Trait::Length(len) => eprintln!(rt;
            "fiorun: note: {count} of {all} bad blocks begin blocks of {len} bytes: they were written with bs={len} or verify_interval={len}"
        ),
    };
}
