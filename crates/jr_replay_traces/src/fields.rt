ghost use Rattle.std.specs.Prelude.{◌≡◌};
ghost use Rattle.jr_fields.specs.Fields.{fields_of};
ghost use Rattle.jr_replay_traces.specs.TraceLines.{named, name_at, start_of, start_in, skip_of, skip_in, ending_in, end_of, end_in};
ghost use Rattle.jr_replay_traces.specs.TraceLines.{word_finding, counted_finding, part_of, finding_in, verdict_of, verdict_in, entry_in, read_line};

use crate::entries::{Ending, Entry, Finding, Name, Start};
use jr_fields::{field_at, field_count, field_is, number_at};
use jr_model::Part;

// What a line of a trace says, without its line feed; nothing where it is no line of a trace.
pub(crate) fn read_line(line: &[u8]) -> Option<Entry>
    ensures { result ≡ read_line line.now }
{
    let tag = field_at(line, 0);
    let count = field_count(line);
    if field_is(tag, b"I") && count == 6 {
        return Some(Entry::Issue(start_in(line)?));
    }
    if field_is(tag, b"P") && count == 6 {
        return Some(Entry::Probe(start_in(line)?));
    }
    if field_is(tag, b"S") && count == 5 {
        return skip_in(line);
    }
    if field_is(tag, b"E") {
        return end_in(line);
    }
    if field_is(tag, b"V") {
        return verdict_in(line);
    }
    None
}

fn start_in(line: &[u8]) -> Option<Start>
    ensures { result ≡ start_in (fields_of line.now) }
{
    start_of(
        number_at(line, 1),
        number_at(line, 2),
        name_at(line, 3, 4, 5),
    )
}

fn start_of(worker: Option<u64>, io: Option<u64>, write: Option<Name>) -> Option<Start>
    ensures { result ≡ start_of worker io write }
{
    Some(Start {
        worker: worker?,
        io: io?,
        write: write?,
    })
}

// The draw that the numbers at these places name.
fn name_at(line: &[u8], clone: usize, pass: usize, number: usize) -> Option<Name>
    ensures { result ≡ name_at (fields_of line.now) clone pass number }
{
    named(
        number_at(line, clone),
        number_at(line, pass),
        number_at(line, number),
    )
}

fn named(clone: Option<u64>, pass: Option<u64>, number: Option<u64>) -> Option<Name>
    ensures { result ≡ named clone pass number }
{
    Some(Name {
        clone: clone?,
        pass: pass?,
        number: number?,
    })
}

fn skip_in(line: &[u8]) -> Option<Entry>
    ensures { result ≡ skip_in (fields_of line.now) }
{
    skip_of(number_at(line, 1), name_at(line, 2, 3, 4))
}

fn skip_of(worker: Option<u64>, write: Option<Name>) -> Option<Entry>
    ensures { result ≡ skip_of worker write }
{
    Some(Entry::Skip {
        worker: worker?,
        write: write?,
    })
}

fn end_in(line: &[u8]) -> Option<Entry>
    ensures { result ≡ end_in (fields_of line.now) }
{
    end_of(number_at(line, 1), number_at(line, 2), ending_in(line))
}

fn end_of(worker: Option<u64>, io: Option<u64>, ending: Option<Ending>) -> Option<Entry>
    ensures { result ≡ end_of worker io ending }
{
    Some(Entry::End {
        worker: worker?,
        io: io?,
        ending: ending?,
    })
}

// How an I/O ended: a word, or `short` and a number.
fn ending_in(line: &[u8]) -> Option<Ending>
    ensures { result ≡ ending_in (fields_of line.now) }
{
    let word = field_at(line, 3);
    let count = field_count(line);
    if count == 4 {
        return if field_is(word, b"whole") {
            Some(Ending::Whole)
        } else if field_is(word, b"failed") {
            Some(Ending::Failed)
        } else {
            None
        };
    }
    if count == 5 && field_is(word, b"short") {
        return Some(Ending::Short(number_at(line, 4)?));
    }
    None
}

fn verdict_in(line: &[u8]) -> Option<Entry>
    ensures { result ≡ verdict_in (fields_of line.now) }
{
    verdict_of(number_at(line, 1), number_at(line, 2), finding_in(line))
}

fn verdict_of(by: Option<u64>, io: Option<u64>, finding: Option<Finding>) -> Option<Entry>
    ensures { result ≡ verdict_of by io finding }
{
    Some(Entry::Verdict {
        by: by?,
        io: io?,
        finding: finding?,
    })
}

// What is said of a check: a word, or a word and a number.
fn finding_in(line: &[u8]) -> Option<Finding>
    ensures { result ≡ finding_in (fields_of line.now) }
{
    let word = field_at(line, 3);
    let count = field_count(line);
    if count == 4 {
        return word_finding(word);
    }
    if count == 5 {
        return counted_finding(word, number_at(line, 4));
    }
    None
}

// A byte, or the part of a chunk that the word says, of this number.
fn counted_finding(word: &[u8], number: Option<u64>) -> Option<Finding>
    ensures { result ≡ counted_finding word.now number }
{
    if field_is(word, b"byte") {
        return Some(Finding::Byte(number?));
    }
    let part = part_of(word)?;
    Some(Finding::Chunk(number?, part))
}

fn part_of(word: &[u8]) -> Option<Part>
    ensures { result ≡ part_of word.now }
{
    if field_is(word, b"header") {
        Some(Part::Header)
    } else if field_is(word, b"digest") {
        Some(Part::Digest)
    } else if field_is(word, b"data") {
        Some(Part::DataArea)
    } else {
        None
    }
}

fn word_finding(word: &[u8]) -> Option<Finding>
    ensures { result ≡ word_finding word.now }
{
    if field_is(word, b"good") {
        Some(Finding::Good)
    } else if field_is(word, b"header") {
        Some(Finding::Header)
    } else if field_is(word, b"digest") {
        Some(Finding::Digest)
    } else if field_is(word, b"data") {
        Some(Finding::DataArea)
    } else if field_is(word, b"void") {
        Some(Finding::Void)
    } else {
        None
    }
}
