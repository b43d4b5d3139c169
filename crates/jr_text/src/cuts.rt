ghost use Rattle.std.specs.Prelude.{◌≡◌, length, not, reverse, take_while};
ghost use Rattle.std.specs.List.{before_first};
ghost use Rattle.jr_text.specs.JobText.{content_of, is_blank, is_comment_mark, trimmed, trimmed_end, trimmed_start};

// How many spaces and tabs a text begins with.
fn leading_blanks(bytes: &[u8]) -> usize
    ensures { result ≡ length (take_while is_blank bytes.now) }
{
    bytes
        .iter()
        .take_while(|byte| **byte == b' ' || **byte == b'\t')
        .count()
}

// How many spaces and tabs a text ends with.
fn trailing_blanks(bytes: &[u8]) -> usize
    ensures { result ≡ length (take_while is_blank (reverse bytes.now)) }
{
    bytes
        .iter()
        .rev()
        .take_while(|byte| **byte == b' ' || **byte == b'\t')
        .count()
}

fn trimmed_start(text: &str) -> &str
    ensures { result.now ≡ trimmed_start text.now }
{
    let blanks = leading_blanks(text.as_bytes());
    &text[blanks..]
}

fn trimmed_end(text: &str) -> &str
    ensures { result.now ≡ trimmed_end text.now }
{
    let blanks = trailing_blanks(text.as_bytes());
    &text[..text.len() - blanks]
}

// A text without the spaces and tabs at its ends.
pub(crate) fn trimmed(text: &str) -> &str
    ensures { result.now ≡ trimmed text.now }
{
    trimmed_end(trimmed_start(text))
}

// What a line says, without what may stand at its ends.
pub(crate) fn content(line: &str) -> &str
    ensures { result.now ≡ content_of line.now }
{
    trimmed(line.strip_suffix('\r').unwrap_or(line))
}

// Where the comment of an option line begins: the line's length, where it has none.
fn comment_start(bytes: &[u8]) -> usize
    ensures { result ≡ length (take_while (λ b. not (is_comment_mark b)) bytes.now) }
{
    bytes
        .iter()
        .take_while(|byte| !(**byte == b';' || **byte == b'#'))
        .count()
}

// An option line without its comment.
pub(crate) fn before_comment(content: &str) -> &str
    ensures { result.now ≡ before_first is_comment_mark content.now }
{
    let end = comment_start(content.as_bytes());
    &content[..end]
}
