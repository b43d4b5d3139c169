ghost use Rattle.std.specs.Prelude.{◌≡◌, ◌≤◌, ◌<◌, ◌%◌, ◌^◌, IsTrue, length};
ghost use Rattle.jr_model.specs.Content.{filler_of, generated_bytes, header_back, pattern_bytes};

use crate::filler::repeat_pattern;
use crate::hashers::Hasher;
use crate::judgement::{follows, same_bytes};
use jr_model::{Pattern, VerifyKind};
use jr_words::Words;

// How many bytes of filler are made at a time, where there is no buffer for all of it.
const PART: usize = 512;

// Whether these bytes are the filler of this seed. They may be it where the answer is no; then that is found out in another way.
pub(crate) fn is_filler(pattern: &Option<Pattern>, seed: u64, bytes: &[u8]) -> bool
    requires { length bytes.now % 8 ≡ 0 }
    ensures { IsTrue result → bytes.now ≡ filler_of pattern.now seed (length bytes.now) }
{
    match pattern {
        Some(pattern) => follows(pattern.as_slice(), bytes),
        None => is_generated(seed, bytes),
    }
}

// Whether these bytes are the words of this seed.
fn is_generated(seed: u64, bytes: &[u8]) -> bool
    requires { length bytes.now % 8 ≡ 0 }
    ensures { IsTrue result → bytes.now ≡ generated_bytes seed (length bytes.now) }
{
    let mut words = Words::new(seed);
    let mut room = [0; PART];
    let mut done = 0;
    while done < bytes.len() {
        let next = PART.min(bytes.len() - done);
        words.fill(&mut room[..next]);
        if !same_bytes(&bytes[done..done + next], &room[..next]) {
            return false;
        }
        done += next;
    }
    true
}

// The second half of a header over so many bytes of filler, which is made part by part.
pub(crate) fn filler_back(
    kind: VerifyKind,
    pattern: &Option<Pattern>,
    seed: u64,
    count: usize,
) -> [u8; 32]
    requires { count % 8 ≡ 0 }
    ensures { result ≡ header_back kind (filler_of pattern.now seed count) }
{
    match pattern {
        Some(pattern) => pattern_back(kind, pattern.as_slice(), count),
        None => generated_back(kind, seed, count),
    }
}

fn generated_back(kind: VerifyKind, seed: u64, count: usize) -> [u8; 32]
    requires { count % 8 ≡ 0 }
    ensures { result ≡ header_back kind (generated_bytes seed count) }
{
    let mut words = Words::new(seed);
    let mut hasher = Hasher::new(kind);
    let mut room = [0; PART];
    let mut done = 0;
    while done < count {
        let next = PART.min(count - done);
        words.fill(&mut room[..next]);
        hasher.add(&room[..next]);
        done += next;
    }
    hasher.back()
}

// (each part but the last is a whole number of patterns, so that each begins with the pattern)
fn pattern_back(kind: VerifyKind, pattern: &[u8], count: usize) -> [u8; 32]
    requires least { 1 ≤ length pattern.now }
    requires most { length pattern.now ≤ 64 }
    ensures { result ≡ header_back kind (pattern_bytes pattern.now count) }
{
    let mut hasher = Hasher::new(kind);
    let mut room = [0; PART];
    let part = PART - PART % pattern.len();
    let mut done = 0;
    while done < count {
        let next = part.min(count - done);
        repeat_pattern(pattern, &mut room[..next]);
        hasher.add(&room[..next]);
        done += next;
    }
    hasher.back()
}
