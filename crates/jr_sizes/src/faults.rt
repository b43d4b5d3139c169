use std::error::Error;
use std::fmt;

/// Why a text is no split.
#[derive(Clone, Copy, Debug, PartialEq, Eq)]
pub enum SplitFault {
    /// More than 64 entries.
    TooMany,
    /// A size is no number, or is 2^32 or more.
    BadSize,
    /// A percent is no number, or is above 100.
    BadPercent,
    /// The percents add up to more than 100.
    Over,
    /// The percents add up to less than 100, and no entry leaves its percent open.
    Under,
}

impl fmt::Display for SplitFault {
    ghost use Rattle.std.specs.Prelude.{Some};
    ghost use Rattle.jr_sizes.specs.FaultTexts.{split_fault_text};

    ghost output = { λ fault. Some (split_fault_text fault) };

    fn fmt<W: fmt::Write>(&self, f: &mut fmt::Formatter<W>) -> fmt::Result {
        match self {
            SplitFault::TooMany => f.write_str("more than 64 entries"),
            SplitFault::BadSize => f.write_str("bad size"),
            SplitFault::BadPercent => f.write_str("bad percent"),
            SplitFault::Over => f.write_str("more than 100 percent"),
            SplitFault::Under => f.write_str("less than 100 percent"),
        }
    }
}

impl Error for SplitFault {}
