//! What a line of a key file states.
ghost use Rattle.std.specs.Prelude.{◌≡◌, ◌≤◌, ◌++◌, ℕ, List, codes, length, IfOk, MatchOption, OnErr};
ghost use Rattle.kn_base.specs.declared.limits.TheConstants.{PRINCIPAL_BYTES};
ghost use Rattle.kn_auth.specs.KeyLines.{is_comment, SpellsKey, NamesPrincipal, ReadsAs};
ghost use Rattle.kn_auth.specs.KeyLines.{BeginsWithKey, HasKeySize, HasWord};

use hex::{FromHex, FromHexError};
use kn_base::text::{behind, cut};
use kn_base::{NoMemory, Octets};
use kn_principal::{PrincipalFault, normal};
use std::alloc::Global;

/// The bytes of a key, and of the administrators' secret, which have one at least. The limit is keynoted's own.
pub const KEY_BYTES: usize = 128;

/// A key, and the principal whose credentials it admits, in normal form.
#[derive(Drop)]
pub(crate) struct MacKey {
    pub principal: Octets,
    pub key: Octets,
}

/// What a line of a key file states.
#[derive(Drop)]
pub(crate) enum Entry {
    /// Nothing, since the line is empty or a comment.
    Comment,
    /// The key of a principal.
    Mac(MacKey),
    /// A listed SHA-256.
    Digest([u8; 32]),
    /// The administrators' secret.
    Secret(Octets),
}

/// What a line states by itself, without its newline; None where it is of no form. Only a line that begins with a word
/// takes memory.
pub(crate) fn read_line(alloc: Global, line: &[u8]) -> Result<Option<Entry>, NoMemory>
    ensures read { IfOk result (λ read. ReadsAs line.now read) }
    ensures memory { OnErr result (HasWord line.now) }
{
    if is_comment(line) {
        return Ok(Some(Entry::Comment));
    }
    if let Some(text) = behind(line, b"mac ") {
        return mac_entry(alloc, text);
    }
    if let Some(digits) = behind(line, b"digest ") {
        return Ok(digest_entry(digits));
    }
    if let Some(digits) = behind(line, b"secret ") {
        return secret_entry(alloc, digits);
    }
    Ok(None)
}

fn is_comment(line: &[u8]) -> bool
    ensures { result ≡ is_comment line.now }
{
    match line.first() {
        Some(byte) => *byte == b'#',
        None => true,
    }
}

/// What a line states that is `mac` and this behind a space.
fn mac_entry(alloc: Global, text: &[u8]) -> Result<Option<Entry>, NoMemory>
    ensures read { IfOk result (λ read. ReadsAs (codes "mac " ++ text.now) read) }
    ensures memory { OnErr result (BeginsWithKey text.now) }
{
    let Some((digits, name)) = cut(text, b' ') else {
        return Ok(None);
    };
    let Some(key) = key(alloc, digits)? else {
        return Ok(None);
    };
    let Some(principal) = principal(alloc, name)? else {
        return Ok(None);
    };
    Ok(Some(Entry::Mac(MacKey { principal, key })))
}

/// What a line states that is `digest` and this behind a space.
fn digest_entry(digits: &[u8]) -> Option<Entry>
    ensures { ReadsAs (codes "digest " ++ digits.now) result }
{
    match <[u8; 32] as FromHex>::from_hex(digits) {
        Ok(digest) => Some(Entry::Digest(digest)),
        Err(_) => None,
    }
}

/// What a line states that is `secret` and this behind a space.
fn secret_entry(alloc: Global, digits: &[u8]) -> Result<Option<Entry>, NoMemory>
    ensures read { IfOk result (λ read. ReadsAs (codes "secret " ++ digits.now) read) }
    ensures memory { OnErr result (HasKeySize digits.now) }
{
    match key(alloc, digits)? {
        Some(secret) => Ok(Some(Entry::Secret(secret))),
        None => Ok(None),
    }
}

/// The 1 to 128 bytes that digits spell.
fn key(alloc: Global, digits: &[u8]) -> Result<Option<Octets>, NoMemory>
    ensures key { IfOk result (λ read. MatchOption read
        ((key : List ℕ) → ¬ SpellsKey digits.now key)
        (λ key. SpellsKey digits.now key)) }
    ensures memory { OnErr result (HasKeySize digits.now) }
{
    if digits.is_empty() || digits.len() > 2 * KEY_BYTES {
        return Ok(None);
    }
    let bytes = match hex::decode(alloc, digits) {
        Ok(bytes) => bytes,
        Err(FromHexError::OutOfMemory) => return Err(NoMemory),
        Err(_) => return Ok(None),
    };
    let key = Octets::from_slice(alloc, bytes.as_slice())?;
    Ok(Some(key))
}

/// The normal form of a principal.
fn principal(alloc: Global, name: &[u8]) -> Result<Option<Octets>, NoMemory>
    ensures principal { IfOk result (λ read. MatchOption read
        ((principal : List ℕ) → ¬ NamesPrincipal name.now principal)
        (λ principal. NamesPrincipal name.now principal)) }
    ensures some { OnErr result (1 ≤ length name.now) }
    ensures few { OnErr result (length name.now ≤ PRINCIPAL_BYTES) }
{
    match normal(alloc, name) {
        Ok(principal) => Ok(Some(principal)),
        Err(PrincipalFault::Empty) => Ok(None),
        Err(PrincipalFault::TooLong { .. }) => Ok(None),
        Err(PrincipalFault::NoMemory) => Err(NoMemory),
    }
}
