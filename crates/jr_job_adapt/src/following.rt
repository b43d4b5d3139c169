// Whether the sections of an adapted job file are those of the one that it was made of, and verify as much.
ghost use Rattle.std.specs.Prelude.{◌≡◌, option_copied};
ghost use Rattle.jr_options.specs.Surveys.{is_global};
ghost use Rattle.jr_job_adapt.specs.Following.{are_followed, first_follows, follows, is_verifying, others_of, verifies, verifies_from};

use crate::marks::is_out;
use jr_text::{Line, Section};

// The section's lines count for the jobs below it; it is no job.
pub(crate) fn is_global(section: &Section) -> bool
    ensures { result ≡ is_global section.now }
{
    section.name() == "global"
}

// Whether blocks are verified by this value of `verify`, known here or not.
fn is_verifying(value: Option<&str>) -> bool
    ensures { result ≡ is_verifying (option_copied value.entry) }
{
    match value {
        Some(word) => !(word == "0" || word == "null"),
        None => true,
    }
}

// Whether lines have blocks verified, below others that do or don't.
fn verifies_from(before: bool, lines: &[Line]) -> bool
    ensures { result ≡ verifies_from before lines.now }
{
    let mut verifies = before;
    for line in lines {
        if line.key() == "verify" {
            verifies = is_verifying(line.value());
        }
    }
    verifies
}

fn verifies(section: &Section) -> bool
    ensures { result ≡ verifies section.now }
{
    verifies_from(false, section.lines())
}

// Whether a section follows from another one.
fn follows(section: &Section, other: &Section) -> bool
    ensures { result ≡ follows section.now other.now }
{
    other.name() == section.name() && (!verifies(section) || verifies(other))
}

// Whether the first of others does.
fn first_follows(section: &Section, others: &[Section]) -> bool
    ensures { result ≡ first_follows section.now others.now }
{
    match others {
        [other, ..] => follows(section, other),
        [] => false,
    }
}

fn others_of(others: &[Section]) -> &[Section]
    ensures { result.now ≡ others_of others.now }
{
    match others {
        [_, rest @ ..] => rest,
        [] => others,
    }
}

// Whether each section that isn't left out is followed by one of the others, in their order, and there are no more.
pub(crate) fn are_followed(outs: &[bool], sections: &[Section], others: &[Section]) -> bool
    ensures { result ≡ are_followed outs.now 0 sections.now others.entry.now }
{
    let mut others = others;
    for (i, section) in sections.iter().enumerate() {
        if is_out(outs, i) {
            if is_global(section) {
                return false;
            }
        } else {
            if !first_follows(section, others) {
                return false;
            }
            others = others_of(others);
        }
    }
    others.is_empty()
}
