ghost use Rattle.std.specs.Prelude.{◌≡◌, ◌++◌, OnOk, decimal};
ghost use Rattle.jr_model.specs.Report.{field};

use crate::memory::Memory;
use itoa::Buffer;

/// Appends a text.
pub fn push_text(text: &mut Vec<u8>, more: &str) -> Result<(), Memory>
    ensures { OnOk result (text.new.items ≡ text.old.items ++ more.now) }
{
    text.extend_from_slice(more.as_bytes())?;
    Ok(())
}

/// Appends a number in decimal digits.
pub fn push_number(text: &mut Vec<u8>, n: u64) -> Result<(), Memory>
    ensures { OnOk result (text.new.items ≡ text.old.items ++ decimal n) }
{
    let mut buffer = Buffer::new();
    push_text(text, buffer.format(n))
}

/// Appends ` key=n`.
pub fn push_field(text: &mut Vec<u8>, key: &str, n: u64) -> Result<(), Memory>
    ensures { OnOk result (text.new.items ≡ text.old.items ++ field key.now n) }
{
    push_text(text, " ")?;
    push_text(text, key)?;
    push_text(text, "=")?;
    push_number(text, n)
}
