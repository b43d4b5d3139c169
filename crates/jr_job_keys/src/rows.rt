use std::alloc::{AllocError, Global};

// What a row speaks of, why it is refused, what to write instead, and what becomes of it in an adapted job file. A row speaks of several
// words with spaces between them: keys, or keys with values after `=`. A `*` in front of a word or after it stands for any text.
pub(crate) type Row = (&'static str, &'static str, &'static str, Fate);

/// How else a refused line is said where a job file is adapted.
#[derive(Clone, Copy)]
pub enum Way {
    /// It goes.
    Out,
    /// It goes; its time is a word of the command line.
    Time,
    /// This line in its place, below all that it changes.
    Line(&'static str),
    /// These two lines.
    Lines(&'static str, &'static str),
    /// Its key with this value.
    Value(&'static str),
    /// Its key with the most that it may be, where it is more.
    Most(u64),
    /// Its key with its numbers in bytes.
    Bytes,
    /// This key with its number in bytes.
    Number(&'static str),
    /// Its key with what stands before the colon.
    Front,
    /// The pattern of blocks in hexadecimal digits.
    Pattern,
    /// A size, or a list of sizes with shares, for those of a range.
    Range,
    /// The size, unless the job has one that is no larger.
    FileSize,
    /// Another size or more loops: so many bytes in all.
    Amount,
    /// Another size: so many blocks in all.
    Count,
    /// To wait for all jobs above, if the one that it waits for is the last of them.
    Wait,
}

/// What becomes of a refused line where a job file is adapted.
#[derive(Clone, Copy)]
pub enum Fate {
    /// It only measures, or what it says holds anyway.
    Dropped(Way),
    /// Another line says exactly this.
    Same(Way),
    /// Nearly the same is said, and this is lost.
    Nearly(Way, &'static str),
    /// A person has to decide, since this would be lost.
    Yours(&'static str),
}

impl Fate {
    /// Its word, and what is lost.
    pub fn text(&self, alloc: Global) -> Result<String, AllocError> {
        match self {
            Fate::Dropped(_) => String::from_str(alloc, "dropped"),
            Fate::Same(_) => String::from_str(alloc, "the same"),
            Fate::Nearly(_, lost) => format!(in alloc; "nearly, but for {lost}"),
            Fate::Yours(lost) => format!(in alloc; "yours to decide: {lost}"),
        }
    }
}

/// What is said of a refused line.
#[derive(Clone, Copy)]
pub struct Told {
    /// Why it is refused.
    pub why: &'static str,
    /// What to write instead.
    pub instead: &'static str,
    /// What becomes of it.
    pub fate: Fate,
    /// The key that was meant, if nothing knows its own.
    pub meant: Option<&'static str>,
}

impl Told {
    // What a row says, of a key that was meant so.
    pub(crate) fn of(row: Row, meant: Option<&'static str>) -> Told {
        let (_, why, instead, fate) = row;
        Told {
            why,
            instead,
            fate,
            meant,
        }
    }
}
