ghost use Rattle.std.specs.Prelude.{◌≡◌, ◌≤◌};
ghost use Rattle.jr_model.specs.Content.{digest_length, header_back};

use jr_model::VerifyKind;
use md5::{Digest as _, Md5};
use sha1::Sha1;
use sha2::{Digest as _, Sha256};

// The second half of a header over this data area: the digest, and zeros.
pub(crate) fn header_back(kind: VerifyKind, area: &[u8]) -> [u8; 32]
    ensures { result ≡ header_back kind area.now }
{
    let mut back = [0; 32];
    match kind {
        VerifyKind::Md5 => back[..16].copy_from_slice(&Md5::digest(area)),
        VerifyKind::Sha1 => back[..20].copy_from_slice(&Sha1::digest(area)),
        VerifyKind::Sha256 => back.copy_from_slice(&Sha256::digest(area)),
        VerifyKind::Plain | VerifyKind::Pattern => {}
    }
    back
}

// How many bytes of a header's second half are the digest.
pub(crate) fn digest_length(kind: VerifyKind) -> u8
    ensures value { result ≡ digest_length kind }
    ensures most { result ≤ 32 }
{
    match kind {
        VerifyKind::Plain | VerifyKind::Pattern => 0,
        VerifyKind::Md5 => 16,
        VerifyKind::Sha1 => 20,
        VerifyKind::Sha256 => 32,
    }
}
