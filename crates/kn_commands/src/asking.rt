//! Serving a link over the policy in a file, with the keys in another.
ghost use Rattle.std.specs.Prelude.{◌∷◌, [], ℕ, List};
ghost use Rattle.kn_files.specs.Pieces.{pieces_of};
ghost use Rattle.kn_outside.specs.Seen.{FilesSeen};
ghost use Rattle.kn_outside.specs.Asked.{HasAsked};
ghost use Rattle.kn_history.specs.History.{loaded_history};
ghost use Rattle.kn_inputs.specs.Held.{IsPolicy};
ghost use Rattle.kn_load.specs.Loaded.{IsLoaded};
ghost use Rattle.kn_inputs.specs.Inputs.{config_of_keys};
ghost use Rattle.kn_commands.specs.Asking.{AskCause, IsLinkServed};

use kn_auth::KeyFile;
use kn_daemon::laws::served_alone;
use kn_endings::AskEnding;
use kn_inputs::{InputFault, keys_of, read_file};
use kn_load::load_file;
use kn_outside::{Files, Gate, Link};
use kn_registry::{Pass, Registry};
use kn_serve::{Ended, serve_connection};
use kn_words::AskFiles;
use std::alloc::Global;
use std::mem;
use std::sync::Wait;
use std::thread::Threads;

/// Serves the link over the policy in a file, with the secret and the keys of the key file, and tells how that ends.
///
/// The files are read in the order of the words, and what each holds is tried before the next is read.
pub fn ask<R: Threads + Wait + Sync, F: Files, L: Link, G: Gate>(
    rt: &R,
    alloc: Global,
    names: &AskFiles<'_>,
    files: &mut F,
    own: &mut L,
    gate: &G,
) -> AskEnding
    ensures { AskCause (F.seen files.old) (F.seen files.new) (L.seen own.old) (L.seen own.new) names.now result }
{
    let file = match read_file(files, names.policy) {
        Ok(file) => file,
        Err(stop) => return AskEnding::PolicyStopped(stop),
    };
    match load_file(rt, alloc, file.as_slice()) {
        Ok((registry, root)) => {
            let ending = ask_loaded(rt, alloc, &registry, root, names, files, own, gate);
            // the program ends behind this, and the system takes all memory back at once
            mem::forget(registry);
            ending
        }
        Err(fault) => AskEnding::PolicyStopped(InputFault::from(fault)),
    }
}

/// Serves the link over a policy that is loaded.
fn ask_loaded<R: Wait, F: Files, L: Link, G: Gate>(
    rt: &R,
    alloc: Global,
    registry: &Registry,
    root: Pass,
    names: &AskFiles<'_>,
    files: &mut F,
    own: &mut L,
    gate: &G,
) -> AskEnding
    requires loaded { (texts : List (List ℕ)) × IsLoaded texts registry.now root }
    ensures { (f : FilesSeen) (bytes : List ℕ) → IsPolicy f names.now.policy bytes
        → IsLoaded (pieces_of bytes) registry.now root
        → HasAsked (names.now.policy ∷ []) f (F.seen files.old)
        → AskCause f (F.seen files.new) (L.seen own.old) (L.seen own.new) names.now result }
{
    match keys_of(alloc, names.keys, files) {
        Ok(keys) => AskEnding::Served(serve(rt, alloc, registry, root, &keys, own, gate)),
        Err(stop) => AskEnding::KeysStopped(stop),
    }
}

/// Serves the link over a registry whose root has seen a policy's history, and tells how the connection ended.
fn serve<R: Wait, L: Link, G: Gate>(
    rt: &R,
    alloc: Global,
    registry: &Registry,
    root: Pass,
    keys: &KeyFile,
    own: &mut L,
    gate: &G,
) -> Ended
    requires loaded { (texts : List (List ℕ)) × IsLoaded texts registry.now root }
    ensures { (texts : List (List ℕ)) → IsLoaded texts registry.now root
        → IsLinkServed (config_of_keys keys.now) (loaded_history texts) (L.seen own.old) (L.seen own.new) result }
{
    served_alone();
    let mut root = root;
    let secret = keys.secret.as_slice();
    let ended = serve_connection(
        rt, alloc, registry, &mut root, &keys.auth, secret, own, gate,
    );
    // what the number tells with it is that the root has seen no updates but its own
    let _root = root.number();
    ended
}
