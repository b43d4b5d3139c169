ghost use Rattle.std.specs.Prelude.{◌≡◌, Some};
ghost use Rattle.jr_report_faults.specs.Faults.{end_words, fault_text, kind_word, named, place_text};

use crate::faults::Fault;
use jr_model::{Outcome, Piece, TicketKind, WriteId};
use std::fmt;

/// A fault of a run, with the name of its file. Printed it is a note for whoever runs the program.
#[derive(Drop)]
pub struct FaultNote {
    /// Which it is.
    pub fault: Fault,
    /// Its file's name.
    pub name: String,
}

impl fmt::Display for FaultNote {
    ghost use Rattle.std.specs.Prelude.{Some};
    ghost use Rattle.jr_report_faults.specs.Faults.{fault_text, named};

    ghost output = { λ note. Some (fault_text (named note)) };

    fn fmt<W: fmt::Write>(&self, f: &mut fmt::Formatter<W>) -> fmt::Result {
        let word = kind_word(self.fault.kind);
        let end = EndWords(self.fault.outcome);
        let place = FaultPlace {
            write: self.fault.write,
            piece: self.fault.piece,
            name: self.name.as_str(),
        };
        write!(f, "{word}{end}:{place}")
    }
}

/// What a note calls it.
pub fn kind_word(kind: TicketKind) -> &'static str
    ensures { result.now ≡ kind_word kind }
{
    match kind {
        TicketKind::Read | TicketKind::ReadCheck => "read",
        TicketKind::Write => "write",
        TicketKind::Probe => "check",
    }
}

// How it ended.
#[derive(Clone, Copy)]
struct EndWords(Outcome);

impl fmt::Display for EndWords {
    ghost use Rattle.std.specs.Prelude.{Some};
    ghost use Rattle.jr_report_faults.specs.Faults.{end_words};

    ghost output = { λ ended. Some (end_words ended.0) };

    fn fmt<W: fmt::Write>(&self, f: &mut fmt::Formatter<W>) -> fmt::Result {
        match self.0 {
            Outcome::Whole => f.write_str(" ended"),
            Outcome::Failed => f.write_str(" failed"),
            Outcome::Short(moved) => write!(f, " ended after {moved} bytes"),
        }
    }
}

// Which I/O it was, and where.
#[derive(Clone, Copy)]
struct FaultPlace<'a> {
    write: WriteId,
    piece: Piece,
    name: &'a str,
}

impl<'a> fmt::Display for FaultPlace<'a> {
    ghost use Rattle.std.specs.Prelude.{Some};
    ghost use Rattle.jr_report_faults.specs.Faults.{place_text};

    ghost output = { λ place. Some (place_text place.write place.piece place.name.now) };

    fn fmt<W: fmt::Write>(&self, f: &mut fmt::Formatter<W>) -> fmt::Result {
        let WriteId {
            clone,
            pass,
            number,
        } = self.write;
        let name = self.name;
        let offset = self.piece.offset;
        let length = self.piece.len;
        write!(
            f,
            " clone={clone} pass={pass} number={number} file={name} offset={offset} length={length}"
        )
    }
}
