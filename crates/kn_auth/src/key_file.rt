//! Reading key files.
ghost use Rattle.std.specs.Prelude.{◌≡◌, ◌⊎◌, ◌<◌, ◌+◌, ◌^◌, ◌++◌, ◌∷◌, [], ℕ, List, Some, None, Ok, Err};
ghost use Rattle.std.specs.Prelude.{IfOk, IfErr, OnOk, length};
ghost use Rattle.std.specs.Bool.{MatchBool};
ghost use Rattle.kn_auth.specs.KeyFiles.{IsKeyFile, IsFirstMalformed};
ghost use Rattle.kn_auth.specs.Causes.{IsCause};
ghost use Rattle.kn_auth.specs.Reading.{IsAdded, IsTaken, IsLineRefused};
ghost use Rattle.kn_auth.specs.declared.key_file.KeyFile.{KeyFile};
ghost use Rattle.kn_auth.specs.declared.fault.KeyFault.TheVariants as F;

use crate::digest_list::DigestList;
use crate::either::Either;
use crate::entry::{Entry, MacKey, read_line};
use crate::fault::KeyFault;
use crate::mac_keys::MacKeys;
use bstr::ByteSlice;
use kn_base::{NoMemory, Octets};
use std::alloc::Global;

/// What a key file says.
pub struct KeyFile {
    /// Its keys and digests.
    pub auth: Either,
    /// The administrators' secret, of 1 to 128 bytes; empty where the file has none.
    pub secret: Octets,
}

impl Drop for KeyFile {
    fn drop(self) {
        let KeyFile { auth, secret } = self;
    }
}

/// Reads a key file.
///
/// The format is keynoted's own. A line ends with a newline or the end of the file, and one carriage return before the
/// newline isn't part of it. A line that is empty or begins with `#` is passed over. Each other line is one of these,
/// with single spaces: `mac DIGITS PRINCIPAL` gives the principal, which is the rest of the line, a key of 1 to 128
/// bytes; `digest DIGITS` lists a SHA-256; `secret DIGITS` is the administrators' secret of 1 to 128 bytes. Digits are
/// hexadecimal of either case. Any other line is malformed, and so are a principal that is empty or above 4,096 bytes,
/// a principal whose normal form had a key before, and a second secret.
///
/// `Line` tells the first malformed line; `NoMemory`: out of memory for what the file says.
pub fn read_keys(alloc: Global, bytes: &[u8]) -> Result<KeyFile, KeyFault>
    ensures ok { IfOk result (λ file. IsKeyFile bytes.now file) }
    ensures err { IfErr result (λ fault. IsCause bytes.now fault) }
    // A key file is read, and a text with a malformed line is refused by the first of them.
    ensures each_file { (file : KeyFile) → IsKeyFile bytes.now file → (result ≡ Ok file) ⊎ (result ≡ Err F.NoMemory) }
    ensures each_line { (line : ℕ) → IsFirstMalformed bytes.now line
        → (result ≡ Err (F.Line line)) ⊎ (result ≡ Err F.NoMemory) }
{
    read(alloc, bytes)
}

fn read(alloc: Global, bytes: &[u8]) -> Result<KeyFile, KeyFault>
    ensures ok { IfOk result (λ file. IsKeyFile bytes.now file) }
    ensures err { IfErr result (λ fault. IsCause bytes.now fault) }
{
    let mut file = KeyFile::empty(alloc);
    let mut number = 0;
    let mut lines = bytes.lines();
    'lines: while let Some(line) = lines.next() {
        number += 1;
        if !file.take_line(alloc, line)? {
            return Err(KeyFault::Line { line: number });
        }
    }
    Ok(file)
}

impl KeyFile {
    ghost use Rattle.std.specs.Prelude.{◌≡◌, ◌≢◌, [], IfOk, OnErr};
    ghost use Rattle.std.specs.Bool.{MatchBool};
    ghost use Rattle.kn_auth.specs.KeyLines.{HasWord};
    ghost use Rattle.kn_auth.specs.Reading.{IsAdded, IsTaken, IsLineRefused, with_entry};

    /// What a key file without lines says: no key and no digest is known, and the secret is empty.
    pub fn empty(alloc: Global) -> KeyFile
        ensures keys { result.auth.keys ≡ [] }
        ensures digests { result.auth.digests ≡ [] }
        ensures secret { result.secret ≡ [] }
    {
        KeyFile {
            auth: Either {
                keys: MacKeys::new(alloc),
                digests: DigestList::new(alloc),
            },
            secret: Octets::new(alloc),
        }
    }

    /// Adds what a line states; false where the line is malformed at its place.
    fn take_line(&mut self, alloc: Global, line: &[u8]) -> Result<bool, NoMemory>
        ensures taken { IfOk result (λ taken. MatchBool taken
            (IsTaken self.old line.now self.new)
            (IsLineRefused self.old line.now)) }
        ensures memory { OnErr result (HasWord line.now) }
    {
        match read_line(alloc, line)? {
            Some(entry) => self.add(entry),
            None => Ok(false),
        }
    }

    /// Adds what a line states; false where that may not stand behind what was added before.
    fn add(&mut self, entry: Entry) -> Result<bool, NoMemory>
        ensures added { IfOk result (λ added. IsAdded self.old entry added self.new) }
        ensures may_follow { OnErr result (with_entry self.old entry ≢ None) }
        ensures worded { OnErr result (entry ≢ Entry.Comment) }
    {
        match entry {
            Entry::Comment => Ok(true),
            Entry::Mac(mac) => self.add_key(mac),
            Entry::Digest(digest) => {
                self.auth.digests.add(digest)?;
                Ok(true)
            }
            Entry::Secret(secret) => Ok(self.add_secret(secret)),
        }
    }

    fn add_key(&mut self, mac: MacKey) -> Result<bool, NoMemory>
        ensures added { IfOk result (λ added. IsAdded self.old (Entry.Mac mac) added self.new) }
        ensures may_follow { OnErr result (with_entry self.old (Entry.Mac mac) ≢ None) }
    {
        if self.auth.keys.has(mac.principal.as_slice()) {
            return Ok(false);
        }
        self.auth.keys.add(mac)?;
        Ok(true)
    }

    fn add_secret(&mut self, secret: Octets) -> bool
        ensures { IsAdded self.old (Entry.Secret secret) result self.new }
    {
        if !self.secret.is_empty() {
            return false;
        }
        self.secret = secret;
        true
    }
}
