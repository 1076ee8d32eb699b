//! Keys by which credentials are admitted.
ghost use Rattle.std.specs.Prelude.{◌≡◌, ◌∷◌, ◌++◌, [], false, take, Some, OnOk, OnErr};
ghost use Rattle.std.specs.Option.{option_map};
ghost use Rattle.kn_auth.specs.Numbers.{answer_number};
ghost use Rattle.kn_auth.specs.Verdicts.{has_key, key_of, code_verdict, spells_code};

use crate::authenticator::Authenticator;
use crate::entry::MacKey;
use crate::fault::AuthFault;
use crate::hmac::hmac_sha256;
use hex::FromHex;
use indexmap::IndexMap;
use kn_assert::Assertion;
use kn_base::text::behind;
use kn_base::{NoMemory, Octets};
use std::alloc::Global;
use std::marker::Model;

/// The front of a signature by a code, which names its algorithm and the encoding of the code.
const MAC_ALGORITHM: &[u8] = b"sig-hmac-sha256-hex:";

/// Keys of principals, seen as the list of the principals, in normal form, with their keys, in the order of the file.
#[derive(Drop)]
pub struct MacKeys {
    alloc: Global,
    keys: IndexMap<Vec<u8>, Octets>,
}

impl Model for MacKeys {
    ghost use Rattle.std.specs.Prelude.{List, map};
    ghost use Rattle.kn_auth.specs.declared.entry.MacKey.{MacKey};
    ghost use Rattle.kn_auth.specs.Entries.{mac_key_of};

    ghost Value = { List MacKey };

    ghost view = { λ m. map mac_key_of m.keys.entries };
}

impl MacKeys {
    pub(crate) fn new(alloc: Global) -> MacKeys
        ensures { result ≡ [] }
    {
        MacKeys {
            alloc,
            keys: IndexMap::new(alloc),
        }
    }

    /// The key of a principal in normal form.
    fn key_of(&self, principal: &[u8]) -> Option<&[u8]>
        ensures { option_map (λ key. key.now) result ≡ key_of principal.now self.now }
    {
        match self.keys.get(principal) {
            Some(key) => Some(key.as_slice()),
            None => None,
        }
    }

    pub(crate) fn has(&self, principal: &[u8]) -> bool
        ensures { result ≡ has_key principal.now self.now }
    {
        self.keys.get(principal).is_some()
    }

    /// Adds the key of a principal that has none.
    pub(crate) fn add(&mut self, mac: MacKey) -> Result<(), NoMemory>
        requires { has_key mac.principal self.old ≡ false }
        ensures ok { OnOk result (self.new ≡ self.old ++ mac ∷ []) }
        ensures err { OnErr result (self.new ≡ self.old) }
    {
        let Ok(principal) = Vec::from_slice(self.alloc, mac.principal.as_slice()) else {
            return Err(NoMemory);
        };
        match self.keys.insert(principal, mac.key) {
            Ok(_) => Ok(()),
            Err(_) => Err(NoMemory),
        }
    }
}

impl Authenticator for MacKeys {
    ghost use Rattle.kn_auth.specs.Verdicts.{mac_verdict};

    ghost verdict = { mac_verdict };

    fn admit(&self, text: &[u8], assertion: &Assertion) -> Result<(), AuthFault> {
        let Some(signature) = &assertion.signature else {
            return Err(AuthFault::Unsigned);
        };
        let Some(digits) = behind(signature.as_slice(), MAC_ALGORITHM) else {
            return Err(AuthFault::Algorithm);
        };
        let Some(key) = self.key_of(assertion.authorizer.as_slice()) else {
            return Err(AuthFault::Key);
        };
        check_code(key, signed_part(text, assertion.signed_to), digits)
    }
}

/// The bytes of a text that its signature covers, up to the signature's label.
fn signed_part(text: &[u8], signed_to: u32) -> &[u8]
    ensures { result.now ≡ take signed_to text.now }
{
    match text.split_at_checked(signed_to as usize) {
        Some((body, _signature)) => body,
        None => text,
    }
}

/// Checks that digits spell the code of what is signed and the algorithm's name behind it.
fn check_code(key: &[u8], body: &[u8], digits: &[u8]) -> Result<(), AuthFault>
    ensures { answer_number result ≡ code_verdict (Some key.now) digits.now body.now }
{
    let mac = hmac_sha256(key, body, MAC_ALGORITHM);
    if spells_code(digits, &mac) {
        Ok(())
    } else {
        Err(AuthFault::Mac)
    }
}

/// Whether hexadecimal digits of either case spell this code.
fn spells_code(digits: &[u8], mac: &[u8; 32]) -> bool
    ensures { result ≡ spells_code digits.now mac.now }
{
    match <[u8; 32] as FromHex>::from_hex(digits) {
        Ok(bytes) => bytes == *mac,
        Err(_) => false,
    }
}
