// In which bits bytes differ from those that were written.
ghost use Rattle.std.specs.Prelude.{◌≡◌, ◌≤◌, ◌<◌, ◌^◌, length};
ghost use Rattle.jr_model.specs.Judgement.{first_difference};
ghost use Rattle.jr_diagnosis.specs.Bits.{cleared_between, cleared_in, first_wrong, raised_between, raised_in};

/// How many bits came back as 1 that were written as 0, and the other way round; and in which byte the first of them is, from 0.
#[derive(Clone, Copy, PartialEq, Eq)]
pub struct Flips {
    pub raised: u32,
    pub cleared: u32,
    pub first: u32,
}

/// Those of bytes that were read, where others were written.
pub fn flips_between(written: &[u8], read: &[u8]) -> Flips
    requires same { length written.now ≡ length read.now }
    requires most { length read.now ≤ 2 ^ 24 }
    ensures raised { result.raised ≡ raised_between written.now read.now }
    ensures cleared { result.cleared ≡ cleared_between written.now read.now }
    ensures first { result.first ≡ first_wrong written.now read.now }
    ensures few { (result.raised ≤ 2 ^ 27) × (result.cleared ≤ 2 ^ 27) }
{
    let mut raised = 0;
    let mut cleared = 0;
    for i in 0..read.len() {
        raised += raised_in(written[i], read[i]);
        cleared += cleared_in(written[i], read[i]);
    }
    Flips {
        raised,
        cleared,
        first: first_wrong(written, read),
    }
}

// The place of the first byte that isn't the one that was written; 0 where there is none.
fn first_wrong(written: &[u8], read: &[u8]) -> u32
    requires same { length written.now ≡ length read.now }
    requires most { length read.now ≤ 2 ^ 24 }
    ensures { result ≡ first_wrong written.now read.now }
{
    match first_difference(written, read) {
        Some(place) => place,
        None => 0,
    }
}

fn first_difference(written: &[u8], read: &[u8]) -> Option<u32>
    requires same { length written.now ≡ length read.now }
    requires most { length read.now ≤ 2 ^ 24 }
    ensures { result ≡ first_difference read.now written.now }
{
    for (i, byte) in read.iter().enumerate() {
        if *byte != written[i] {
            return Some(i as u32);
        }
    }
    None
}

// How many bits of a byte came back as 1 that were written as 0.
fn raised_in(written: u8, read: u8) -> u32
    ensures value { result ≡ raised_in written read }
    ensures most { result ≤ 8 }
{
    let flipped = read & (written ^ read);
    flipped.count_ones()
}

// How many came back as 0 that were written as 1.
fn cleared_in(written: u8, read: u8) -> u32
    ensures value { result ≡ cleared_in written read }
    ensures most { result ≤ 8 }
{
    let flipped = written & (written ^ read);
    flipped.count_ones()
}
