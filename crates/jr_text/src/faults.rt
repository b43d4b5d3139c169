ghost use Rattle.std.specs.Prelude.{◌≡◌};

use std::alloc::{AllocError, AllocFailed};
use std::error::Error;
use std::fmt;

/// Why a text is no number of fio's.
#[derive(Clone, Copy, Debug, PartialEq, Eq)]
pub enum NumFault {
    /// The first character is no decimal digit.
    NoDigits,
    /// What follows the digits is no unit.
    BadUnit,
    /// A form that fio knows and this program doesn't take: hexadecimal digits, or `ki` to `pi`.
    UnitOutOfScope,
    /// The value is 2^64 or more.
    TooLarge,
}

impl fmt::Display for NumFault {
    ghost use Rattle.std.specs.Prelude.{Some};
    ghost use Rattle.jr_text.specs.FaultTexts.{number_fault_text};

    ghost output = { λ fault. Some (number_fault_text fault) };

    fn fmt<W: fmt::Write>(&self, f: &mut fmt::Formatter<W>) -> fmt::Result {
        match self {
            NumFault::NoDigits => f.write_str("no digits"),
            NumFault::BadUnit => f.write_str("no such unit"),
            NumFault::UnitOutOfScope => f.write_str("unit out of scope"),
            NumFault::TooLarge => f.write_str("number too large"),
        }
    }
}

impl Error for NumFault {}

/// Why the sections of a job file were not read. A line is named by its number, from 1.
#[derive(Clone, Copy, Debug, PartialEq, Eq)]
pub enum TextFault {
    /// The text is longer than `LONGEST_TEXT`.
    TooLong,
    /// The text isn't UTF-8.
    NotUtf8,
    /// A line that begins with `[` has no `]`.
    OpenBracket(u32),
    /// Nothing stands between the brackets.
    EmptyName(u32),
    /// An option stands above the first section.
    Outside(u32),
    /// A request for memory was refused, which says nothing of the text.
    Memory,
}

impl fmt::Display for TextFault {
    ghost use Rattle.std.specs.Prelude.{Some};
    ghost use Rattle.jr_text.specs.FaultTexts.{text_fault_text};

    ghost output = { λ fault. Some (text_fault_text fault) };

    fn fmt<W: fmt::Write>(&self, f: &mut fmt::Formatter<W>) -> fmt::Result {
        match self {
            TextFault::TooLong => f.write_str("job file: longer than 1048576 bytes"),
            TextFault::NotUtf8 => f.write_str("job file: not UTF-8"),
            TextFault::OpenBracket(line) => {
                write!(f, "job file: line {line}: no closing bracket")
            }
            TextFault::EmptyName(line) => write!(f, "job file: line {line}: empty section name"),
            TextFault::Outside(line) => {
                write!(f, "job file: line {line}: option before any section")
            }
            TextFault::Memory => f.write_str("out of memory"),
        }
    }
}

impl Error for TextFault {}

impl From<AllocError> for TextFault {
    ghost use Rattle.jr_text.specs.declared.faults.TextFault.TheVariants.{Memory};

    ghost from_gives = { λ _ fault. fault ≡ Memory };

    fn from(_error: AllocError) -> TextFault {
        TextFault::Memory
    }
}

impl<T: Drop> From<AllocFailed<T>> for TextFault {
    ghost use Rattle.jr_text.specs.declared.faults.TextFault.TheVariants.{Memory};

    ghost from_gives = { λ _ fault. fault ≡ Memory };

    fn from(_error: AllocFailed<T>) -> TextFault {
        TextFault::Memory
    }
}
