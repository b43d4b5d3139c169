ghost use Rattle.std.specs.Prelude.{◌≡◌, ◌++◌, OnOk, string_bytes};
ghost use Rattle.jr_report_page.specs.Escapes.{escaped, escaped_char};

use jr_escape::EscapedChar;
use std::alloc::AllocError;

/// Appends a text so that a page shows it as a line of the program does.
pub fn push_escaped(page: &mut String, raw: &str) -> Result<(), AllocError>
    ensures { OnOk result (string_bytes page.new ≡ string_bytes page.old ++ escaped raw.now) }
{
    for c in raw.chars() {
        push_char(page, c)?;
    }
    Ok(())
}

pub(crate) fn push_char(page: &mut String, c: char) -> Result<(), AllocError>
    ensures { OnOk result (string_bytes page.new ≡ string_bytes page.old ++ escaped_char c) }
{
    match c {
        '&' => page.push_str("&amp;"),
        '<' => page.push_str("&lt;"),
        '>' => page.push_str("&gt;"),
        '"' => page.push_str("&quot;"),
        '\'' => page.push_str("&#39;"),
        _ => {
            let shown = EscapedChar(c);
            write!(page, "{shown}")
        }
    }
}
