ghost use Rattle.std.specs.Prelude.{◌≡◌, ℕ, List, [], ◌++◌};
ghost use Rattle.jr_model.specs.declared.contents.VerifyKind.{VerifyKind as Kind};
ghost use Rattle.jr_model.specs.Content.{header_back};
ghost use Rattle.jr_header.specs.Hashers.{TookIn};

use jr_model::VerifyKind;
use md5::{Digest as _, Md5};
use sha1::Sha1;
use sha2::{Digest as _, Sha256};

// The digest of bytes that come part by part.
#[derive(Drop)]
pub(crate) enum Hasher {
    Nothing,
    Md5(Md5),
    Sha1(Sha1),
    Sha256(Sha256),
}

impl Hasher {
    // One that has taken in nothing.
    pub(crate) fn new(kind: VerifyKind) -> Hasher
        ensures { TookIn kind result [] }
    {
        match kind {
            VerifyKind::Plain | VerifyKind::Pattern => Hasher::Nothing,
            VerifyKind::Md5 => Hasher::Md5(Md5::new()),
            VerifyKind::Sha1 => Hasher::Sha1(Sha1::new()),
            VerifyKind::Sha256 => Hasher::Sha256(Sha256::new()),
        }
    }

    // Takes in these bytes behind those before.
    pub(crate) fn add(&mut self, part: &[u8])
        ensures { (kind : Kind) (bytes : List ℕ) → TookIn kind self.old bytes → TookIn kind self.new (bytes ++ part.now) }
    {
        match self {
            Hasher::Nothing => {}
            Hasher::Md5(hasher) => hasher.update(part),
            Hasher::Sha1(hasher) => hasher.update(part),
            Hasher::Sha256(hasher) => hasher.update(part),
        }
    }

    // The second half of a header over all that it took in: the digest, and zeros.
    pub(crate) fn back(self) -> [u8; 32]
        ensures { (kind : Kind) (bytes : List ℕ) → TookIn kind self bytes → result ≡ header_back kind bytes }
    {
        let mut back = [0; 32];
        match self {
            Hasher::Nothing => {}
            Hasher::Md5(hasher) => back[..16].copy_from_slice(&hasher.finalize()),
            Hasher::Sha1(hasher) => back[..20].copy_from_slice(&hasher.finalize()),
            Hasher::Sha256(hasher) => back.copy_from_slice(&hasher.finalize()),
        }
        back
    }
}
