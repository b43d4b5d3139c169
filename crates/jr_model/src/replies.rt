ghost use Rattle.std.specs.Prelude.{◌≡◌};

use std::marker::Model;

/// Bytes that a reply gives in place of what is stored.
#[derive(Drop)]
pub struct ReplyBytes {
    bytes: Vec<u8>,
}

impl Model for ReplyBytes {
    ghost use Rattle.std.specs.Prelude.{List, ℕ};

    ghost Value = { List ℕ };

    ghost view = { λ a. a.bytes.items };
}

impl ReplyBytes {
    /// The bytes that a scripted read gives in place of the stored ones.
    pub fn new(bytes: Vec<u8>) -> ReplyBytes
        ensures { result ≡ bytes.items }
    {
        ReplyBytes { bytes }
    }

    /// The bytes, to look at.
    pub fn as_slice(&self) -> &[u8]
        ensures { result.now ≡ self.now }
    {
        self.bytes.as_slice()
    }

    /// The bytes, without a copy.
    pub fn into_vec(self) -> Vec<u8>
        ensures { result.items ≡ self }
    {
        let ReplyBytes { bytes } = self;
        bytes
    }
}

/// What a scripted engine makes of one call. Counts are cut to the call's length.
#[derive(Drop)]
pub enum Reply {
    /// The call is carried out.
    Pass,
    /// The call fails, and moves nothing.
    Fail,
    /// Only the first bytes are moved, so many.
    Short(u32),
    /// The first bytes are stored, so many, and the call fails. A read fails.
    Torn(u32),
    /// The byte at this place is inverted on the way.
    Flip(u32),
    /// A write is said to be done and stores nothing. A read is carried out.
    Drop,
    /// A read gives these bytes in place of the first ones. A write is carried out.
    Bytes(ReplyBytes),
}
