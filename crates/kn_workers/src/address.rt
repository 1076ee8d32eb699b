//! Serving the connections of an address: a net's doors for it, with a worker at each.
ghost use Rattle.std.specs.Prelude.{◌≡◌, ◌≤◌, None, []};
ghost use Rattle.kn_base.specs.declared.limits.TheConstants.{WORKERS, CONNECTIONS};
ghost use Rattle.kn_auth.specs.Verdicts.{verdict_of};
ghost use Rattle.kn_registry.specs.Passes.{IsReady};
ghost use Rattle.kn_serve.specs.Configs.{config_by};
ghost use Rattle.kn_workers.specs.Addresses.{ServesOver};

use crate::binding::{BindFault, ServedAddress};
use crate::door::Door;
use crate::net::Net;
use crate::workers::serve_all;
use kn_auth::KeyFile;
use kn_outside::Gate;
use kn_registry::{Pass, Registry};
use std::alloc::Global;
use std::sync::Wait;
use std::thread::Threads;

/// Why serving an address ends.
#[derive(Clone, Copy, PartialEq, Eq)]
pub enum AddressEnding {
    /// Out of memory for binding the address.
    BindMemory,
    /// The address could not be bound.
    Unbound,
    /// Out of memory for the workers; no connection was accepted.
    WorkMemory,
    /// A door gave fewer connections than its quota, since a call of it failed.
    DoorFailed,
    /// All connections were served.
    Served {
        /// How many.
        finished: u32,
        /// How many updates there are.
        version: u32,
    },
}

/// Serves the connections of an address, with a worker at each of its doors, by the secret and the keys of a key file.
/// Each worker has a pass that is split from the root of the registry.
///
/// What the net gave is given back, however the work ended.
pub fn serve_address<R: Threads + Wait + Sync, N: Net, G: Gate>(
    rt: &R,
    alloc: Global,
    registry: &Registry,
    root: Pass,
    keys: &KeyFile,
    served: &ServedAddress<'_>,
    net: &mut N,
    gate: &G,
) -> AddressEnding
where
    <N::Room as Door>::Conn: Send,
    requires ready { IsReady registry.now root }
    requires root { root.number ≡ 0 }
    requires unsplit { root.splits ≡ 0 }
    requires doors { (1 ≤ served.now.doors) × (served.now.doors ≤ WORKERS) }
    requires quota { served.now.quota ≤ CONNECTIONS }
    requires unbound { (N.seen net.old).bound ≡ None }
    requires none { (N.seen net.old).rooms ≡ [] }
    ensures { ServesOver N.Room.seen N.Room.Conn.seen (config_by verdict_of keys.now.auth keys.now.secret) root.seen
        (N.seen net.old) (N.seen net.new) served.now result }
{
    let mut rooms = match net.bind(rt, alloc, served) {
        Ok(rooms) => rooms,
        Err(BindFault::Failed) => return AddressEnding::Unbound,
        Err(BindFault::NoMemory) => return AddressEnding::BindMemory,
    };
    let mut root = root;
    let secret = keys.secret.as_slice();
    let ended = serve_all(
        rt, alloc, registry, &mut root, &keys.auth, secret, &mut rooms, gate,
    );
    net.unbind(rooms);
    match ended {
        Ok(end) if end.failed => AddressEnding::DoorFailed,
        Ok(end) => AddressEnding::Served {
            finished: end.finished,
            version: root.seen_length(),
        },
        Err(_) => AddressEnding::WorkMemory,
    }
}
