// What a header says, as it was read.
ghost use Rattle.std.specs.Prelude.{◌≡◌, ◌≤◌, length};
ghost use Rattle.std.specs.Int.{w64, from_le_bytes};
ghost use Rattle.jr_diagnosis.specs.Headers.{begins_as, header_in, header_read};

/// What the header at the beginning of a block or chunk says, in the terms of its format: who wrote it, and where.
#[derive(Clone, Copy, PartialEq, Eq)]
pub struct BlockHeader {
    /// The number of its kind of digest: 1 is MD5, 2 SHA-1, 3 SHA-256.
    pub kind: u8,
    /// The pass, counted from 0, modulo 2^16.
    pub pass: u16,
    /// How many bytes the block or chunk has.
    pub len: u32,
    /// The number of the clone.
    pub clone: u32,
    /// Where it begins in its file, in bytes.
    pub offset: u64,
    /// The number of the draw in its pass.
    pub number: u64,
}

/// What the header says that these bytes begin with, if they begin with one: that of a block or of a chunk.
pub fn header_in(bytes: &[u8]) -> Option<BlockHeader>
    ensures { result ≡ header_in bytes.now }
{
    if bytes.len() < 64 || !(begins_as(b'1', bytes) || begins_as(b'2', bytes)) {
        return None;
    }
    Some(header_read(bytes))
}

// Whether the bytes begin as a header of this version does.
fn begins_as(version: u8, bytes: &[u8]) -> bool
    requires { 64 ≤ length bytes.now }
    ensures { result ≡ begins_as version bytes.now }
{
    bytes[..4] == [b'J', b'R', b'V', version]
}

// What a header says, whatever it begins with. Numbers are little-endian.
fn header_read(bytes: &[u8]) -> BlockHeader
    requires { 64 ≤ length bytes.now }
    ensures { result ≡ header_read bytes.now }
{
    BlockHeader {
        kind: bytes[4],
        pass: u16::from_le_bytes([bytes[6], bytes[7]]),
        len: u32::from_le_bytes([bytes[8], bytes[9], bytes[10], bytes[11]]),
        clone: u32::from_le_bytes([bytes[12], bytes[13], bytes[14], bytes[15]]),
        offset: number_of(&bytes[16..24]),
        number: number_of(&bytes[24..32]),
    }
}

// The number that 8 bytes are.
fn number_of(bytes: &[u8]) -> u64
    requires { length bytes.now ≡ 8 }
    ensures { result ≡ from_le_bytes w64 bytes.now }
{
    u64::from_le_bytes([
        bytes[0], bytes[1], bytes[2], bytes[3], bytes[4], bytes[5], bytes[6], bytes[7],
    ])
}
