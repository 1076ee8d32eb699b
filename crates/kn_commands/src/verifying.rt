//! Verifying a transcript: whether each reply is one that the daemon permits over a policy.
ghost use Rattle.std.specs.Prelude.{◌∷◌, [], ℕ, List};
ghost use Rattle.kn_files.specs.Pieces.{pieces_of};
ghost use Rattle.kn_load.specs.Loaded.{IsLoaded};
ghost use Rattle.kn_outside.specs.Seen.{FilesSeen};
ghost use Rattle.kn_outside.specs.Asked.{HasAsked};
ghost use Rattle.kn_inputs.specs.Held.{IsPolicy};
ghost use Rattle.kn_commands.specs.Verifying.{VerifyCause};

use kn_endings::VerifyEnding;
use kn_inputs::{InputFault, read_file};
use kn_load::load_file;
use kn_outside::Files;
use kn_registry::{Pass, Registry};
use kn_words::VerifyFiles;
use std::alloc::Global;
use std::sync::Wait;
use std::thread::Threads;

/// Verifies the transcript in two files over the policy in another, and tells how that ends.
///
/// The files are read in the order of the words, and the policy is loaded before the others are read.
pub fn verify<R: Threads + Wait + Sync, F: Files>(
    rt: &R,
    alloc: Global,
    names: &VerifyFiles<'_>,
    files: &mut F,
) -> VerifyEnding
    ensures { VerifyCause (F.seen files.old) (F.seen files.new) names.now result }
{
    let file = match read_file(files, names.policy) {
        Ok(file) => file,
        Err(stop) => return VerifyEnding::PolicyStopped(stop),
    };
    match load_file(rt, alloc, file.as_slice()) {
        Ok((registry, root)) => verify_loaded(rt, alloc, registry, root, names, files),
        Err(fault) => VerifyEnding::PolicyStopped(InputFault::from(fault)),
    }
}

/// Verifies the transcript over the updates that the root has seen.
fn verify_loaded<R: Wait, F: Files>(
    rt: &R,
    alloc: Global,
    registry: Registry,
    root: Pass,
    names: &VerifyFiles<'_>,
    files: &mut F,
) -> VerifyEnding
    requires loaded { (texts : List (List ℕ)) × IsLoaded texts registry root }
    ensures { (f : FilesSeen) (bytes : List ℕ) → IsPolicy f names.now.policy bytes
        → IsLoaded (pieces_of bytes) registry root
        → HasAsked (names.now.policy ∷ []) f (F.seen files.old)
        → VerifyCause f (F.seen files.new) names.now result }
{
    let mut root = root;
    let script = match read_file(files, names.script) {
        Ok(script) => script,
        Err(stop) => return VerifyEnding::ScriptStopped(stop),
    };
    let replies = match read_file(files, names.replies) {
        Ok(replies) => replies,
        Err(stop) => return VerifyEnding::RepliesStopped(stop),
    };
    let book = registry.into_book(rt, &mut root);
    match kn_transcript::verify(alloc, book, script.as_slice(), replies.as_slice()) {
        Ok(verified) => VerifyEnding::Verified {
            answers: verified.answers,
            version: verified.version,
        },
        Err(fault) => VerifyEnding::Faulty(fault),
    }
}
