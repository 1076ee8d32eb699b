//! Two passes of one registry in turn: what one adds the other has seen once they met, and a snapshot stays as it was.
use crate::history::lacks_memory;
use kn_assert::read;
use kn_history::{Ready, StoreFault};
use kn_registry::Registry;
use kn_store::Version;
use std::alloc::Global;
use std::io;
use std::sync::Wait;

const CREDENTIAL: &[u8] = b"Authorizer: \"alice\"\nLicensees: \"bob\"";

/// What two passes saw, in the order of their calls.
#[derive(Drop)]
pub struct Seen {
    /// The id under which the second pass added a credential, and the version with it.
    pub added: (u32, u32),
    /// How many updates the root had seen once it had met the second pass.
    pub met: u32,
    /// The version that the root pinned then.
    pub pinned: u32,
    /// The version from which the second pass removed the credential.
    pub removed: u32,
    /// Whether that credential alone is in what the root pinned, after it was removed.
    pub is_kept: bool,
    /// The id that the root couldn't remove then, or None where it could.
    pub unknown: Option<u32>,
}

/// Calls of a root and of a pass that was split from it.
pub(crate) fn two_passes<R: Wait>(rt: &R, alloc: Global) -> io::Result<Seen> {
    let Ok((registry, mut root)) = Registry::start(alloc) else {
        return Err(lacks_memory());
    };
    let mut second = registry.split(&mut root).or(Err(lacks_memory()))?;
    let assertion = read(alloc, CREDENTIAL).or(Err(lacks_memory()))?;
    let ready = Ready::of(alloc, CREDENTIAL, assertion).or(Err(lacks_memory()))?;
    let added = registry
        .add(rt, &mut second, ready)
        .or(Err(lacks_memory()))?;
    registry.meet(&mut root, &mut second);
    let met = root.seen_length();
    let snapshot = registry.pin(rt, &mut root).or(Err(lacks_memory()))?;
    let removed = registry
        .drop_id(rt, &mut second, added.0)
        .or(Err(lacks_memory()))?;
    let again = registry.drop_id(rt, &mut root, added.0);
    Ok(Seen {
        added,
        met,
        pinned: snapshot.number(),
        removed,
        is_kept: has_alone(&snapshot),
        unknown: unknown_id(again),
    })
}

/// Whether the version has the credential and no other.
fn has_alone(version: &Version) -> bool {
    version.len() == 1 && version.credential(0).text.as_slice() == CREDENTIAL
}

/// The id that a removal gave back as unknown.
fn unknown_id(removal: Result<u32, StoreFault>) -> Option<u32> {
    match removal {
        Err(StoreFault::Unknown { id }) => Some(id),
        _ => None,
    }
}
