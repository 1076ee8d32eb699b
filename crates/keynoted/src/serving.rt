//! The command `serve`: the connections of an address, over the policy in a file, with the keys in another.
ghost use Rattle.std.specs.Prelude.{◌≡◌, ◌≤◌, ◌∷◌, [], ℕ, List, None, Some, codes, slice_get};
ghost use Rattle.kn_base.specs.declared.limits.TheConstants.{WORKERS, CONNECTIONS};
ghost use Rattle.kn_files.specs.Pieces.{pieces_of};
ghost use Rattle.kn_outside.specs.Seen.{FilesSeen, LinkSeen};
ghost use Rattle.kn_outside.specs.Asked.{HasAsked};
ghost use Rattle.kn_inputs.specs.Held.{IsPolicy};
ghost use Rattle.kn_load.specs.Loaded.{IsLoaded};
ghost use Rattle.keynoted.specs.Outcomes.{IsEnded};
ghost use Rattle.keynoted.specs.Serving.{ServeCause};

use crate::endings::{end, end_serve};
use crate::serve_ending::ServeEnding;
use kn_base::{NoMemory, Octets};
use kn_inputs::{InputFault, keys_of, read_file};
use kn_load::load_file;
use kn_outside::{Files, Gate, Sink};
use kn_registry::{Pass, Registry};
use kn_words::{Service, service_of, texts_of};
use kn_workers::{Door, Net, ServedAddress, serve_address};
use std::alloc::Global;
use std::sync::Wait;
use std::thread::Threads;

/// Serves an address where the words ask for that, and tells how it ended.
pub(crate) fn run_service<R: Threads + Wait + Sync, F: Files, N: Net, O: Sink, G: Gate>(
    rt: &R,
    alloc: Global,
    words: &[Octets],
    files: &mut F,
    net: &mut N,
    out: &mut O,
    gate: &G,
) -> u8
where
    <N::Room as Door>::Conn: Send,
    requires serve { slice_get words.now 0 ≡ Some (codes "serve") }
    requires unbound { (N.seen net.old).bound ≡ None }
    requires none { (N.seen net.old).rooms ≡ [] }
    ensures { (link : LinkSeen) → IsEnded N.Room.seen N.Room.Conn.seen words.now
        (record { files = F.seen files.old; net = N.seen net.old; link = link; output = O.seen out.old })
        (record { files = F.seen files.new; net = N.seen net.new; link = link; output = O.seen out.new })
        result }
{
    let texts = match texts_of(alloc, words) {
        Ok(Some(texts)) => texts,
        Ok(None) => return end(out, InputFault::Words),
        Err(NoMemory) => return end(out, InputFault::Memory),
    };
    match service_of(alloc, texts.as_slice()) {
        Ok(Some(service)) => {
            let ending = serve(rt, alloc, &service, files, net, gate);
            end_serve(out, ending, &service)
        }
        Ok(None) => end(out, InputFault::Words),
        Err(NoMemory) => end(out, InputFault::Memory),
    }
}

/// Serves as many connections of an address as the service says, by workers side by side, over the policy in a file,
/// with the secret and the keys of the key file, and tells how that ends.
///
/// The files are read in the order policy, keys, and what each holds is tried before the next is read. Then the address
/// is bound. What it gave is given back, however the work ended.
fn serve<R: Threads + Wait + Sync, F: Files, N: Net, G: Gate>(
    rt: &R,
    alloc: Global,
    service: &Service<'_>,
    files: &mut F,
    net: &mut N,
    gate: &G,
) -> ServeEnding
where
    <N::Room as Door>::Conn: Send,
    requires workers { (1 ≤ service.now.workers) × (service.now.workers ≤ WORKERS) }
    requires connections { service.now.connections ≤ CONNECTIONS }
    requires unbound { (N.seen net.old).bound ≡ None }
    requires none { (N.seen net.old).rooms ≡ [] }
    ensures { ServeCause N.Room.seen N.Room.Conn.seen (F.seen files.old) (F.seen files.new)
        (N.seen net.old) (N.seen net.new) service.now result }
{
    let file = match read_file(files, service.files.policy) {
        Ok(file) => file,
        Err(stop) => return ServeEnding::PolicyStopped(stop),
    };
    match load_file(rt, alloc, file.as_slice()) {
        Ok((registry, root)) => {
            serve_loaded(rt, alloc, &registry, root, service, files, net, gate)
        }
        Err(fault) => ServeEnding::PolicyStopped(InputFault::from(fault)),
    }
}

/// Serves an address over a policy that is loaded.
fn serve_loaded<R: Threads + Wait + Sync, F: Files, N: Net, G: Gate>(
    rt: &R,
    alloc: Global,
    registry: &Registry,
    root: Pass,
    service: &Service<'_>,
    files: &mut F,
    net: &mut N,
    gate: &G,
) -> ServeEnding
where
    <N::Room as Door>::Conn: Send,
    requires loaded { (texts : List (List ℕ)) × IsLoaded texts registry.now root }
    requires workers { (1 ≤ service.now.workers) × (service.now.workers ≤ WORKERS) }
    requires connections { service.now.connections ≤ CONNECTIONS }
    requires unbound { (N.seen net.old).bound ≡ None }
    requires none { (N.seen net.old).rooms ≡ [] }
    ensures { (f : FilesSeen) (bytes : List ℕ) → IsPolicy f service.now.files.policy bytes
        → IsLoaded (pieces_of bytes) registry.now root
        → HasAsked (service.now.files.policy ∷ []) f (F.seen files.old)
        → ServeCause N.Room.seen N.Room.Conn.seen f (F.seen files.new)
        (N.seen net.old) (N.seen net.new) service.now result }
{
    match keys_of(alloc, service.files.keys, files) {
        Ok(keys) => {
            let served = ServedAddress {
                address: service.address,
                doors: service.workers,
                quota: service.connections,
            };
            ServeEnding::Ended(serve_address(rt, alloc, registry, root, &keys, &served, net, gate))
        }
        Err(stop) => ServeEnding::KeysStopped(stop),
    }
}
