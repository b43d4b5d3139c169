ghost use Rattle.std.specs.Prelude.{◌≡◌, ◌++◌, OnOk, string_bytes};
ghost use Rattle.jr_report_page.specs.Heads.{found_head, head_text, line_text, tail_text};

use crate::escapes::push_escaped;
use crate::styles::STYLE;
use std::alloc::AllocError;

/// Appends what a page begins with, up to its first line, which is its title and is marked where something was found.
pub fn push_head(page: &mut String, title: &str, has_found: bool) -> Result<(), AllocError>
    ensures { OnOk result (string_bytes page.new ≡ string_bytes page.old ++ head_text title.now has_found) }
{
    page.push_str(
        "<!DOCTYPE html>\n<html lang=\"en\">\n<head>\n<meta charset=\"utf-8\">\n\
        <meta name=\"viewport\" content=\"width=device-width, initial-scale=1\">\n<title>",
    )?;
    push_escaped(page, title)?;
    page.push_str(" - fiorun</title>\n<style>")?;
    page.push_str(STYLE)?;
    page.push_str("</style>\n</head>\n<body>\n")?;
    push_line(page, title, has_found)?;
    Ok(())
}

#[tactic(auto, unfolding(crate::specs::Heads::line_text))]
fn push_line(page: &mut String, title: &str, has_found: bool) -> Result<(), AllocError>
    ensures { OnOk result (string_bytes page.new ≡ string_bytes page.old ++ line_text title.now has_found) }
{
    page.push_str(found_head(has_found))?;
    push_escaped(page, title)?;
    page.push_str("</h1>\n")
}

fn found_head(has_found: bool) -> &'static str
    ensures { result.now ≡ found_head has_found }
{
    if has_found {
        "<h1 class=\"found\">"
    } else {
        "<h1>"
    }
}

/// Appends what a page ends with.
pub fn push_tail(page: &mut String) -> Result<(), AllocError>
    ensures { OnOk result (string_bytes page.new ≡ string_bytes page.old ++ tail_text) }
{
    page.push_str("</body>\n</html>\n")
}
