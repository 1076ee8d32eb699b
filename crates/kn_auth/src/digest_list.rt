//! Texts that are admitted by their digests.
ghost use Rattle.std.specs.Prelude.{◌≡◌, ◌∷◌, ◌++◌, [], OnOk, OnErr};
ghost use Rattle.kn_auth.specs.Verdicts.{has_digest};

use crate::authenticator::Authenticator;
use crate::fault::AuthFault;
use crate::hmac::digest_of;
use kn_assert::Assertion;
use kn_base::{List, NoMemory};
use std::alloc::Global;
use std::collections::HashSet;
use std::marker::Model;

/// SHA-256 digests of the texts that are admitted, seen as the list of them in the order of the file.
#[derive(Drop)]
pub struct DigestList {
    /// In the order of the file, by which contracts speak of them.
    digests: List<[u8; 32]>,
    /// The same digests, to be found without a walk over the list, which may be long.
    index: HashSet<[u8; 32]>,
}

impl Model for DigestList {
    ghost use Rattle.std.specs.Prelude.{List, ℕ};
    ghost use Rattle.kn_auth.specs.Listing.{HasDigests};

    ghost Value = { List (List ℕ) };

    ghost view = { λ d. d.digests };

    ghost invariant = { λ d. HasDigests d.index d.digests };
}

impl DigestList {
    pub(crate) fn new(alloc: Global) -> DigestList
        ensures { result ≡ [] }
    {
        DigestList {
            digests: List::new(alloc),
            index: HashSet::new(alloc),
        }
    }

    fn has(&self, digest: &[u8; 32]) -> bool
        ensures { result ≡ has_digest digest.now self.now }
    {
        self.index.contains(digest)
    }

    pub(crate) fn add(&mut self, digest: [u8; 32]) -> Result<(), NoMemory>
        ensures ok { OnOk result (self.new ≡ self.old ++ digest ∷ []) }
        ensures err { OnErr result (self.new ≡ self.old) }
    {
        if self.digests.push(digest).is_err() {
            return Err(NoMemory);
        }
        match self.index.insert(digest) {
            Ok(_) => Ok(()),
            Err(_) => {
                self.digests.pop();
                Err(NoMemory)
            }
        }
    }
}

impl Authenticator for DigestList {
    ghost use Rattle.kn_auth.specs.Verdicts.{digest_verdict};

    ghost verdict = { digest_verdict };

    fn admit(&self, text: &[u8], _assertion: &Assertion) -> Result<(), AuthFault> {
        if self.has(&digest_of(text)) {
            Ok(())
        } else {
            Err(AuthFault::NotListed)
        }
    }
}
