ghost use Rattle.std.specs.Prelude.{◌≡◌};
ghost use Rattle.std.specs.Fmt.{DisplaysOnOk, WritesOnOk};
ghost use Rattle.std.specs.Option.{option_map};
ghost use Rattle.jr_escape.specs.Escapes.{escaped, escaped_lines};
ghost use Rattle.jr_escape.specs.Writers.{WritesEscaped, shown, shown_char};

use crate::chars::write_escaped;
use std::fmt;
use std::fmt::{Display, Formatter};

/// What it holds, on one line that does nothing to a terminal.
#[derive_where(Clone, Copy)]
pub struct Escaped<'a, D>(pub &'a D);

/// What it holds, on as many lines as that has: its line feeds stay.
#[derive_where(Clone, Copy)]
pub struct EscapedLines<'a, D>(pub &'a D);

impl<'a, D: Display> Display for Escaped<'a, D> {
    ghost output = { λ it. option_map escaped (D.output it.0.now) };

    fn fmt<W: fmt::Write>(&self, f: &mut Formatter<W>) -> fmt::Result {
        write_shown(f, self.0, false)
    }
}

impl<'a, D: Display> Display for EscapedLines<'a, D> {
    ghost output = { λ it. option_map escaped_lines (D.output it.0.now) };

    fn fmt<W: fmt::Write>(&self, f: &mut Formatter<W>) -> fmt::Result {
        write_shown(f, self.0, true)
    }
}

fn write_shown<W: fmt::Write, D: Display>(
    f: &mut Formatter<W>,
    value: &D,
    keeps_breaks: bool,
) -> fmt::Result
    ensures { DisplaysOnOk W.write_str_gives f.old result (option_map (shown keeps_breaks) (D.output value.now)) f.new }
{
    let mut escaping = Escaping {
        to: f,
        keeps_breaks,
    };
    fmt::Write::write(&mut escaping, value)
}

// Writes what it is given as it is shown.
struct Escaping<'f, W> {
    to: &'f mut Formatter<W>,
    keeps_breaks: bool,
}

impl<'f, W> Drop for Escaping<'f, W> {
    fn drop(self)
        ensures { self.exit.0.now ≡ self.entry.to.now }
    {
        let Self {
            to: _,
            keeps_breaks: _,
        } = self;
    }
}

impl<'f, W: fmt::Write> fmt::Write for Escaping<'f, W> {
    ghost write_str_gives = { WritesEscaped W.write_str_gives };

    fn write_str(&mut self, text: &str) -> fmt::Result {
        for c in text.chars() {
            write_char(self.to, c, self.keeps_breaks)?;
        }
        Ok(())
    }
}

fn write_char<W: fmt::Write>(f: &mut Formatter<W>, c: char, keeps_breaks: bool) -> fmt::Result
    ensures { WritesOnOk W.write_str_gives f.old result (shown_char keeps_breaks c) f.new }
{
    if keeps_breaks && c == '\n' {
        f.write_str("\n")
    } else {
        write_escaped(f, c)
    }
}
