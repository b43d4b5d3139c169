ghost use Rattle.std.specs.Prelude.{◌≡◌, [], false, true, IfOk, IfSome, None, Ok, Err, string_bytes};
ghost use Rattle.std.specs.List.{list_any};
ghost use Rattle.jr_text.specs.JobText.{sections_of};
ghost use Rattle.jr_text.specs.Refusals.{refusal_of as text_refusal};
ghost use Rattle.jr_options.specs.Refusals.{refusal_of};
ghost use Rattle.jr_job_options.specs.Options.{default_options};
ghost use Rattle.jr_job_notes.specs.Notes.{refused_lines};
ghost use Rattle.jr_job_adapt.specs.Causes.{are_caused};
ghost use Rattle.jr_job_adapt.specs.Following.{are_followed};
ghost use Rattle.jr_job_adapt.specs.Adapted.{IsAdapted, is_open};
ghost use Rattle.jr_job_adapt.specs.Keeping.{are_kept, lines_in, marks_from};
ghost use Rattle.jr_job_adapt.specs.declared.faults.AdaptFault.TheVariants.{Text as Unreadable};

use crate::causes::are_caused;
use crate::command::Command;
use crate::faults::AdaptFault;
use crate::following::are_followed;
use crate::jobs::{Draft, Lengths, drafts};
use crate::keeping::{are_kept, lines_of};
use crate::marks::marks;
use crate::writing::written;
use jr_job_notes::{first_is_named, line_notes, told_of};
use jr_job_options::JobFault;
use jr_options::plan;
use jr_text::{Section, sections};
use std::alloc::{AllocError, Global};
use std::str;

/// A job file that was adapted.
#[derive(Drop)]
pub struct Adapted {
    pub(crate) text: String,
    // Which sections of the job file are left out.
    pub(crate) outs: Vec<bool>,
    // What is wrong with the text as a whole.
    pub(crate) rest: Option<JobFault>,
}

impl Adapted {
    /// The adapted text.
    pub fn text(&self) -> &str
        ensures { result.now ≡ string_bytes self.now.text }
    {
        self.text.as_str()
    }

    /// What is still wrong with it as a whole.
    pub fn rest(&self) -> Option<JobFault>
        ensures { result ≡ self.now.rest }
    {
        self.rest
    }

    /// Whether a person has to decide something: a job is left out, or the text makes no plan.
    pub fn is_open(&self) -> bool
        ensures { result ≡ is_open self.now }
    {
        has_out(self.outs.as_slice()) || self.rest.is_some()
    }
}

// Whether a section is left out.
fn has_out(outs: &[bool]) -> bool
    ensures { result ≡ list_any (λ out. out) outs.now }
{
    outs.iter().any(|out| *out)
}

// A text that has still to be looked at, and which sections it leaves out.
#[derive(Drop)]
struct Candidate {
    text: String,
    outs: Vec<bool>,
}

/// A job text as it has to be written here. A line that isn't taken becomes a comment that says what became of it. A job that needs a
/// person is left out, as comments. One without a size gets that of its file or device, or else this one.
pub fn adapt<L: Lengths>(
    alloc: Global,
    text: &[u8],
    size: Option<u64>,
    lengths: &L,
) -> Result<Adapted, AdaptFault>
    // A text that isn't read is refused by its fault.
    ensures refused { IfSome (text_refusal text.now) (λ fault. result ≡ Err (Unreadable fault)) }
    ensures adapted { IfOk result (IsAdapted text.now) }
{
    match sections(alloc, text) {
        Ok(sections) => adapt_read(alloc, text, sections.as_slice(), size, lengths),
        Err(fault) => Err(AdaptFault::Text(fault)),
    }
}

// What is made of a text that says these sections.
fn adapt_read<L: Lengths>(
    alloc: Global,
    text: &[u8],
    sections: &[Section],
    size: Option<u64>,
    lengths: &L,
) -> Result<Adapted, AdaptFault>
    requires { sections_of text.now ≡ Ok sections.now }
    ensures { IfOk result (IsAdapted text.now) }
{
    match str::from_utf8(text) {
        Ok(text) => {
            let candidate = candidate_of(alloc, text, sections, size, lengths)?;
            checked(alloc, text, sections, candidate)
        }
        Err(_) => Err(AdaptFault::Unread),
    }
}

// What is wrong with sections.
fn fault_of(alloc: Global, sections: &[Section]) -> Result<Option<JobFault>, AllocError>
    ensures { IfOk result (λ fault. fault ≡ refusal_of sections.now None) }
{
    match plan(alloc, sections, None) {
        Ok(_) => Ok(None),
        Err(JobFault::Memory) => Err(AllocError),
        Err(fault) => Ok(Some(fault)),
    }
}

// What may be the adapted text: where it makes a plan, the text itself.
fn candidate_of<L: Lengths>(
    alloc: Global,
    text: &str,
    sections: &[Section],
    size: Option<u64>,
    lengths: &L,
) -> Result<Candidate, AllocError>
    ensures { IfOk result (λ made. refusal_of sections.now None ≡ None → string_bytes made.text ≡ text.now) }
{
    match fault_of(alloc, sections)? {
        None => same(alloc, text),
        Some(_) => made(alloc, text, sections, size, lengths),
    }
}

// The text as it is.
fn same(alloc: Global, text: &str) -> Result<Candidate, AllocError>
    ensures { IfOk result (λ made. string_bytes made.text ≡ text.now) }
{
    Ok(Candidate {
        text: String::from_str(alloc, text)?,
        outs: Vec::new(alloc),
    })
}

// The text as it is written where something is to be changed.
fn made<L: Lengths>(
    alloc: Global,
    text: &str,
    sections: &[Section],
    size: Option<u64>,
    lengths: &L,
) -> Result<Candidate, AllocError> {
    let drafts = drafts(alloc, sections, size, lengths)?;
    if !is_changed(sections, drafts.as_slice()) {
        return same(alloc, text);
    }
    let mut outs = Vec::new(alloc);
    for draft in drafts.iter() {
        outs.push(draft.out.is_some())?;
    }
    let top = Command::of(sections).text(alloc)?;
    let text = written(alloc, text, sections, drafts.as_slice(), top.as_str())?;
    Ok(Candidate { text, outs })
}

// Whether anything is to be changed.
fn is_changed(sections: &[Section], drafts: &[Draft]) -> bool {
    drafts
        .iter()
        .any(|draft| draft.out.is_some() || !draft.extras.is_empty())
        || sections.iter().any(has_refused)
}

fn has_refused(section: &Section) -> bool {
    section.lines().iter().any(|line| told_of(line).is_some())
}

// A text that was made of these sections, once it is known to be what is promised.
fn checked(
    alloc: Global,
    text: &str,
    before: &[Section],
    candidate: Candidate,
) -> Result<Adapted, AdaptFault>
    requires read { sections_of text.now ≡ Ok before.now }
    requires same { refusal_of before.now None ≡ None → string_bytes candidate.text ≡ text.now }
    ensures { IfOk result (IsAdapted text.now) }
{
    let Candidate { text: made, outs } = candidate;
    let Ok(after) = sections(alloc, made.as_bytes()) else {
        return Err(AdaptFault::Unread);
    };
    let after = after.as_slice();
    let kept = keeps_lines(alloc, text, before, outs.as_slice(), made.as_str())?;
    if !kept {
        return Err(AdaptFault::Lost);
    }
    if !are_followed(outs.as_slice(), before, after) {
        return Err(AdaptFault::Unfollowed);
    }
    if !are_caused(outs.as_slice(), before) {
        return Err(AdaptFault::Uncaused);
    }
    let refused = has_notes(alloc, after)?;
    if refused {
        return Err(AdaptFault::Refused);
    }
    let rest = fault_of(alloc, after)?;
    Ok(answer(text, before, after, made, outs, rest))
}

// A text that was found to be what is promised.
fn answer(
    text: &str,
    before: &[Section],
    after: &[Section],
    made: String,
    outs: Vec<bool>,
    rest: Option<JobFault>,
) -> Adapted
    requires was { sections_of text.now ≡ Ok before.now }
    requires is { sections_of (string_bytes made) ≡ Ok after.now }
    requires kept { are_kept 1 (marks_from outs.items 0 before.now) (lines_in text.now) (lines_in (string_bytes made)) ≡ true }
    requires followed { are_followed outs.items 0 before.now after.now ≡ true }
    requires caused { are_caused outs.items 0 (Ok default_options) before.now ≡ true }
    requires taken { refused_lines None after.now ≡ [] }
    requires left { rest ≡ refusal_of after.now None }
    requires same { refusal_of before.now None ≡ None → string_bytes made ≡ text.now }
    ensures { IsAdapted text.now result }
{
    first_is_named();
    Adapted {
        text: made,
        outs,
        rest,
    }
}

// Whether each line of a text stands in another one, by which of its sections are left out.
fn keeps_lines(
    alloc: Global,
    text: &str,
    sections: &[Section],
    outs: &[bool],
    made: &str,
) -> Result<bool, AllocError>
    ensures { IfOk result (λ kept. kept ≡ are_kept 1 (marks_from outs.now 0 sections.now) (lines_in text.now) (lines_in made.now)) }
{
    let marks = marks(alloc, sections, outs)?;
    let lines = lines_of(alloc, text)?;
    let others = lines_of(alloc, made)?;
    Ok(are_kept(marks.as_slice(), lines.as_slice(), others.as_slice()))
}

// Whether a line of these sections is refused by itself.
fn has_notes(alloc: Global, sections: &[Section]) -> Result<bool, AllocError>
    ensures { IfOk result (λ has. has ≡ false → refused_lines None sections.now ≡ []) }
{
    let notes = line_notes(alloc, sections, None)?;
    Ok(!notes.is_empty())
}
