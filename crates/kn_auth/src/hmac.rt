//! HMAC (RFC 2104) over SHA-256 (FIPS 180-4).
ghost use Rattle.std.specs.Prelude.{◌≡◌, ◌≤◌, length};
ghost use Rattle.sha2.specs.Sha256.{sha256};
ghost use Rattle.kn_auth.specs.Codes.{xor_with, block_of, key_block, mac_of};

use sha2::{Digest, Sha256};

/// The bytes of a block of SHA-256.
const BLOCK_BYTES: usize = 64;

const INNER_PAD: u8 = 0x36;

const OUTER_PAD: u8 = 0x5c;

/// The message authentication code of `body` followed by `tail` under a key of any length (RFC 2104). Takes no memory.
pub fn hmac_sha256(key: &[u8], body: &[u8], tail: &[u8]) -> [u8; 32]
    ensures { result ≡ mac_of key.now body.now tail.now }
{
    let block = key_block(key);
    let inner_key = xor_with(&block, INNER_PAD);
    let outer_key = xor_with(&block, OUTER_PAD);
    let mut inner = Sha256::new();
    inner.update(&inner_key);
    inner.update(body);
    inner.update(tail);
    let inner_digest = inner.finalize();
    let mut outer = Sha256::new();
    outer.update(&outer_key);
    outer.update(&inner_digest);
    outer.finalize()
}

/// The SHA-256 of a text (FIPS 180-4). Takes no memory.
pub fn digest_of(text: &[u8]) -> [u8; 32]
    ensures { result ≡ sha256 text.now }
{
    Sha256::digest(text)
}

fn key_block(key: &[u8]) -> [u8; BLOCK_BYTES]
    ensures { result ≡ key_block key.now }
{
    if key.len() > BLOCK_BYTES {
        let digest = digest_of(key);
        block_of(&digest)
    } else {
        block_of(key)
    }
}

fn block_of(bytes: &[u8]) -> [u8; BLOCK_BYTES]
    requires { length bytes.now ≤ 64 }
    ensures { result ≡ block_of bytes.now }
{
    let mut block = [0; BLOCK_BYTES];
    for (place, byte) in bytes.iter().enumerate() {
        block[place] = *byte;
    }
    block
}

fn xor_with(block: &[u8; BLOCK_BYTES], pad: u8) -> [u8; BLOCK_BYTES]
    ensures { result ≡ xor_with pad block.now }
{
    let mut combined = *block;
    for place in 0..BLOCK_BYTES {
        combined[place] ^= pad;
    }
    combined
}
