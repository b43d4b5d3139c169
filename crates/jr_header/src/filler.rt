ghost use Rattle.std.specs.Prelude.{◌≡◌, ◌≤◌, ◌+◌, ◌-◌, ◌%◌, ◌++◌, length, replicate, take, min};
ghost use Rattle.jr_model.specs.Content.{pattern_bytes, filler_of};

use jr_model::Pattern;
use jr_words::Words;

// Fills the buffer with the pattern, repeated from its first byte, or else with the words of the seed.
pub(crate) fn fill_filler(pattern: &Option<Pattern>, seed: u64, buffer: &mut [u8])
    requires { length buffer.old % 8 ≡ 0 }
    ensures { buffer.new ≡ filler_of pattern.now seed (length buffer.old) }
{
    match pattern {
        Some(pattern) => repeat_pattern(pattern.as_slice(), buffer),
        None => Words::new(seed).fill(buffer),
    }
}

// Writes the pattern again and again. What stands there is copied behind itself, so each copy is twice
// as long as the one before.
pub(crate) fn repeat_pattern(pattern: &[u8], buffer: &mut [u8])
    requires { 1 ≤ length pattern.now }
    ensures { buffer.new ≡ pattern_bytes pattern.now (length buffer.old) }
{
    if pattern.len() == 1 {
        repeat_byte(pattern, buffer);
        return;
    }
    let mut done = pattern.len().min(buffer.len());
    buffer[..done].copy_from_slice(&pattern[..done]);
    while done < buffer.len() {
        done = copy_behind(buffer, done);
    }
}

// Writes a pattern of one byte again and again.
fn repeat_byte(pattern: &[u8], buffer: &mut [u8])
    requires { length pattern.now ≡ 1 }
    ensures { buffer.new ≡ pattern_bytes pattern.now (length buffer.old) }
{
    fill_with(pattern[0], buffer);
}

fn fill_with(byte: u8, buffer: &mut [u8])
    ensures { buffer.new ≡ replicate (length buffer.old) byte }
{
    buffer.fill(byte);
}

// Copies the first bytes, as many as fit, behind the first `done` ones, and says how many are done then.
fn copy_behind(buffer: &mut [u8], done: usize) -> usize
    requires { done ≤ length buffer.old }
    ensures next { result ≡ min (done + done) (length buffer.old) }
    ensures bytes { take result buffer.new ≡ take done buffer.old ++ take (result - done) buffer.old }
{
    let (front, back) = buffer.split_at_mut(done);
    let more = done.min(back.len());
    back[..more].copy_from_slice(&front[..more]);
    done + more
}
