//! Keys and digests side by side.
use crate::authenticator::Authenticator;
use crate::digest_list::DigestList;
use crate::fault::AuthFault;
use crate::mac_keys::MacKeys;
use kn_assert::Assertion;

/// Keys and digests, of which one that admits a text is enough. A text that neither admits has the fault of the keys.
#[derive(Drop)]
pub struct Either {
    pub keys: MacKeys,
    pub digests: DigestList,
}

impl Authenticator for Either {
    ghost use Rattle.kn_auth.specs.Verdicts.{verdict_of};

    ghost verdict = { verdict_of };

    fn admit(&self, text: &[u8], assertion: &Assertion) -> Result<(), AuthFault> {
        let Err(fault) = self.keys.admit(text, assertion) else {
            return Ok(());
        };
        match self.digests.admit(text, assertion) {
            Ok(()) => Ok(()),
            Err(_) => Err(fault),
        }
    }
}
