ghost use Rattle.std.specs.Prelude.{◌≡◌, Ok, IfErr, IfOk, OnErr, OnOk, option_copied, option_map, string_bytes};
ghost use Rattle.std.specs.Result.{result_err};
ghost use Rattle.jr_text.specs.JobText.{name_fault, name_in, option_in};
ghost use Rattle.jr_text.specs.Records.{line_text, section_text};
ghost use Rattle.jr_text.specs.Reading.{opened, with_option, IsRefusal};

use crate::cuts::trimmed;
use crate::faults::TextFault;
use std::alloc::{AllocError, AllocFailed, Global};
use std::marker::Model;

/// An option line of a section.
#[derive(Drop)]
pub struct Line {
    number: u32,
    key: String,
    value: Option<String>,
}

impl Model for Line {
    ghost use Rattle.std.specs.Prelude.{option_map, string_bytes};
    ghost use Rattle.jr_text.specs.Records.{LineText};

    ghost Value = { LineText };

    ghost view = { λ l. record {
      line = l.number;
      key = string_bytes l.key;
      value = option_map (λ text. string_bytes text) l.value;
    } };
}

impl Line {
    /// An option line of this number, from 1, with this key and value.
    pub fn new(line: u32, key: String, value: Option<String>) -> Self
        ensures { result ≡ line_text line (string_bytes key) (option_map (λ text. string_bytes text) value) }
    {
        Line {
            number: line,
            key,
            value,
        }
    }

    // The option that a line without its comment sets.
    pub(crate) fn read(alloc: Global, number: u32, body: &str) -> Result<Self, AllocError>
        ensures { IfOk result (λ option. option ≡ option_in number body.now) }
    {
        match body.split_once('=') {
            Some((key, value)) => {
                let key = String::from_str(alloc, trimmed(key))?;
                let value = String::from_str(alloc, trimmed(value))?;
                Ok(Line {
                    number,
                    key,
                    value: Some(value),
                })
            }
            None => {
                let key = String::from_str(alloc, trimmed(body))?;
                Ok(Line {
                    number,
                    key,
                    value: None,
                })
            }
        }
    }

    /// Its number, key and value.
    pub fn into_parts(self) -> (u32, String, Option<String>)
        ensures { line_text result.0 (string_bytes result.1) (option_map (λ text. string_bytes text) result.2) ≡ self }
    {
        let Line { number, key, value } = self;
        (number, key, value)
    }

    /// Its number in the text, from 1.
    pub fn number(&self) -> u32
        ensures { result ≡ self.now.line }
    {
        self.number
    }

    /// Its key, as written.
    pub fn key(&self) -> &str
        ensures { result.now ≡ self.now.key }
    {
        self.key.as_str()
    }

    /// What stands behind its `=`; nothing if it has none.
    pub fn value(&self) -> Option<&str>
        ensures { option_copied result ≡ self.now.value }
    {
        match &self.value {
            Some(value) => Some(value.as_str()),
            None => None,
        }
    }
}

/// A section: `global`, or a job.
#[derive(Drop)]
pub struct Section {
    name: String,
    line: u32,
    options: Vec<Line>,
}

impl Model for Section {
    ghost use Rattle.std.specs.Prelude.{string_bytes};
    ghost use Rattle.jr_text.specs.Records.{SectionText};

    ghost Value = { SectionText };

    ghost view = { λ s. record { name = string_bytes s.name; line = s.line; lines = s.options.items } };
}

impl Section {
    /// A section of this name, opened by the line of this number, from 1, with these option lines.
    pub fn new(name: String, line: u32, lines: Vec<Line>) -> Self
        ensures { result ≡ section_text (string_bytes name) line lines.items }
    {
        Section {
            name,
            line,
            options: lines,
        }
    }

    // The section that a line opens; `rest` is what follows its `[`.
    pub(crate) fn open(alloc: Global, line: u32, rest: &str) -> Result<Self, TextFault>
        ensures ok { IfOk result (λ section. opened line rest.now ≡ Ok section) }
        ensures err { IfErr result (λ fault. IsRefusal fault (opened line rest.now)) }
    {
        let name = String::from_str(alloc, section_name(line, rest)?)?;
        Ok(Section {
            name,
            line,
            options: Vec::new(alloc),
        })
    }

    // Adds an option line at the end.
    pub(crate) fn push(&mut self, option: Line) -> Result<(), AllocFailed<Line>>
        ensures ok { OnOk result (self.new ≡ with_option self.old option) }
        ensures err { OnErr result (self.new ≡ self.old) }
    {
        self.options.push(option)
    }

    /// Its name, the number of the line that opens it, and its option lines.
    pub fn into_parts(self) -> (String, u32, Vec<Line>)
        ensures { section_text (string_bytes result.0) result.1 result.2.items ≡ self }
    {
        let Section {
            name,
            line,
            options,
        } = self;
        (name, line, options)
    }

    /// What stands between its brackets.
    pub fn name(&self) -> &str
        ensures { result.now ≡ self.now.name }
    {
        self.name.as_str()
    }

    /// The number of the line that opens it, from 1.
    pub fn line_number(&self) -> u32
        ensures { result ≡ self.now.line }
    {
        self.line
    }

    /// Its option lines, in order.
    pub fn lines(&self) -> &[Line]
        ensures { result.now ≡ self.now.lines }
    {
        self.options.as_slice()
    }
}

// The name of the section that a line opens; `rest` is what follows its `[`.
pub(crate) fn section_name(line: u32, rest: &str) -> Result<&str, TextFault>
    ensures fault { result_err result ≡ name_fault line rest.now }
    ensures name { IfOk result (λ name. name.now ≡ name_in rest.now) }
{
    match rest.split_once(']') {
        Some((name, _)) if name.is_empty() => Err(TextFault::EmptyName(line)),
        Some((name, _)) => Ok(name),
        None => Err(TextFault::OpenBracket(line)),
    }
}
