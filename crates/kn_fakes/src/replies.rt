//! Connections over a link of which a call fails, and what a digest list answers.
ghost use Rattle.std.specs.Prelude.{IfOk};
ghost use Rattle.kn_load.specs.Loaded.{IsUnsplitRoot};

use crate::lists::link;
use kn_assert::read;
use kn_auth::{AuthFault, Authenticator, read_keys};
use kn_base::NoMemory;
use kn_load::load_file;
use kn_outside::{MemLink, Passing};
use kn_registry::{Pass, Registry};
use kn_serve::{Ended, serve_connection};
use std::alloc::Global;
use std::sync::Wait;
use std::thread::Threads;

/// The policy by which alice may do all.
const POLICY: &[u8] = b"Authorizer: \"POLICY\"\nLicensees: \"alice\"\n";

/// The digest of the credential by which alice licenses bob, and the secret `s3cret`.
pub const KEYS: &[u8] =
    b"digest 3a2fddf6b9c0c453599be733a55a62f5ec7aeedc4e45ab821977ad4d9583376a\nsecret 733363726574\n";

/// What an administrator sends who adds that credential.
pub const ADDS: &[u8] = b"ADMIN 733363726574
ADD 37
Authorizer: \"alice\"
Licensees: \"bob\"

BYE
";

/// What somebody sends who asks whether alice may.
pub const ASKS: &[u8] = b"OPEN\nAUTH 1 alice\nQUERY 1 no,yes\n";

// The text of that credential.
const CREDENTIAL: &[u8] = b"Authorizer: \"alice\"\nLicensees: \"bob\"\n";

// A key, and the digest of no text.
const OTHER_KEYS: &[u8] = b"# keys\nmac 0b0b alice
digest 0000000000000000000000000000000000000000000000000000000000000000
secret 733363726574\n";

/// What a connection left.
#[derive(Drop)]
pub struct Left {
    pub ended: Ended,
    pub link: MemLink,
    /// The number of the version that the root pins after it has met the pass of the connection.
    pub version: u32,
}

/// The registry of the policy, and its root.
pub(crate) fn registry<R: Threads + Wait + Sync>(
    rt: &R,
    alloc: Global,
) -> Result<(Registry, Pass), NoMemory>
    ensures { IfOk result (λ made. IsUnsplitRoot made.0 made.1) }
{
    match load_file(rt, alloc, POLICY) {
        Ok(made) => Ok(made),
        Err(_) => Err(NoMemory),
    }
}

/// Serves a connection with this input over a link of which this call fails, by a pass that the root meets then.
pub(crate) fn serve_over<R: Threads + Wait + Sync>(
    rt: &R,
    alloc: Global,
    input: &[u8],
    failing: u32,
) -> Result<Left, NoMemory> {
    let Ok(keys) = read_keys(alloc, KEYS) else {
        return Err(NoMemory);
    };
    let (registry, mut root) = registry(rt, alloc)?;
    let mut pass = registry.split(&mut root)?;
    let mut link = link(alloc, input, failing)?;
    let secret = keys.secret.as_slice();
    let ended = serve_connection(
        rt, alloc, &registry, &mut pass, &keys.auth, secret, &mut link, &Passing,
    );
    registry.meet(&mut root, &mut pass);
    let version = registry.pin(rt, &mut root)?.number();
    Ok(Left {
        ended,
        link,
        version,
    })
}

/// Whether a digest list refuses a text whose digest it hasn't.
pub(crate) fn is_unlisted(alloc: Global) -> Result<bool, NoMemory> {
    let Ok(keys) = read_keys(alloc, OTHER_KEYS) else {
        return Err(NoMemory);
    };
    let Ok(assertion) = read(alloc, CREDENTIAL) else {
        return Err(NoMemory);
    };
    let answer = keys.auth.digests.admit(CREDENTIAL, &assertion);
    Ok(matches!(answer, Err(AuthFault::NotListed)))
}
