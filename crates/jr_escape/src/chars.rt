ghost use Rattle.std.specs.Prelude.{◌≡◌};
ghost use Rattle.std.specs.Fmt.{WritesOnOk};
ghost use Rattle.jr_escape.specs.Escapes.{escaped_char, is_format, is_hidden};

use std::fmt;
use std::fmt::{Display, Formatter};

/// Whether a character is one that a terminal or a browser obeys or doesn't show.
pub fn is_hidden(c: char) -> bool
    ensures { result ≡ is_hidden c }
{
    c.is_control() || is_format(c)
}

// Whether it turns text around, joins it or is invisible.
fn is_format(c: char) -> bool
    ensures { result ≡ is_format c }
{
    match c {
        '\u{ad}' | '\u{61c}' | '\u{180e}' | '\u{feff}' => true,
        '\u{200b}'..='\u{200f}' | '\u{2028}'..='\u{202e}' | '\u{2060}'..='\u{206f}' => true,
        '\u{fff9}'..='\u{fffb}' | '\u{e0000}'..='\u{e007f}' => true,
        _ => false,
    }
}

/// A character as it is shown.
#[derive(Clone, Copy)]
pub struct EscapedChar(pub char);

impl Display for EscapedChar {
    ghost use Rattle.std.specs.Prelude.{Some};
    ghost use Rattle.jr_escape.specs.Escapes.{escaped_char};

    ghost output = { λ it. Some (escaped_char it.0) };

    fn fmt<W: fmt::Write>(&self, f: &mut Formatter<W>) -> fmt::Result {
        write_escaped(f, self.0)
    }
}

// Writes a character as it is shown.
pub(crate) fn write_escaped<W: fmt::Write>(f: &mut Formatter<W>, c: char) -> fmt::Result
    ensures { WritesOnOk W.write_str_gives f.old result (escaped_char c) f.new }
{
    match c {
        '\n' => f.write_str("\\n"),
        '\r' => f.write_str("\\r"),
        '\t' => f.write_str("\\t"),
        '\\' => f.write_str("\\\\"),
        _ if is_hidden(c) => {
            let code = u32::from(c);
            write!(f, "\\u{{{code:x}}}")
        }
        _ => f.write_char(c),
    }
}
