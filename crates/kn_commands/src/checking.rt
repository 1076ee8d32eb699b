//! Checking a reply: whether it proves the value of the query that a script means over a policy.
ghost use Rattle.std.specs.Prelude.{◌≡◌, ℕ, List as Of, take, Some};
ghost use Rattle.kn_env.specs.Environment.{AreRequesters};
ghost use Rattle.kn_files.specs.Pieces.{pieces_of};
ghost use Rattle.kn_outside.specs.Seen.{FilesSeen};
ghost use Rattle.kn_outside.specs.Asked.{HasAsked};
ghost use Rattle.kn_session.specs.Sessions.{Session, session_in};
ghost use Rattle.kn_session.specs.Views.{session_of_view, AreReadPrivates, ArePrivates};
ghost use Rattle.kn_words.specs.Names.{in_order};
ghost use Rattle.kn_inputs.specs.Held.{HasContent};
ghost use Rattle.kn_load.specs.Loaded.{IsLoaded};
ghost use Rattle.kn_commands.specs.Checking.{CheckCause, HasQuery, ReadShows, ReplyShows, ending_of_fault};

use kn_base::NoMemory;
use kn_endings::CheckEnding;
use kn_env::Values;
use kn_inputs::{InputFault, read_file};
use kn_load::load_file;
use kn_outside::Files;
use kn_play::{LastQuery, find_query};
use kn_proof::{ProofFault, ReadReply, read_reply, scan_reply};
use kn_registry::{Pass, Registry};
use kn_session::View;
use kn_verify::{Refused, is_reply_to, verify};
use kn_words::{CheckFiles, Source};
use std::alloc::Global;
use std::sync::Wait;
use std::thread::Threads;

/// Checks the reply in a file to the query that a script means over a policy, and tells how that ends.
///
/// The files are read in the order of the words, and what each holds is tried before the next is read.
pub fn check<R: Threads + Wait + Sync, F: Files>(
    rt: &R,
    alloc: Global,
    names: &CheckFiles<'_>,
    files: &mut F,
) -> CheckEnding
    ensures { CheckCause (F.seen files.old) (F.seen files.new) names.now result }
{
    let source = Source::Policy;
    let file = match read_file(files, names.name(source)) {
        Ok(file) => file,
        Err(stop) => return CheckEnding::Stopped { source, stop },
    };
    match load_file(rt, alloc, file.as_slice()) {
        Ok((registry, root)) => check_script(rt, alloc, registry, root, names, files),
        Err(fault) => {
            let stop = InputFault::from(fault);
            CheckEnding::Stopped { source, stop }
        }
    }
}

/// Checks the reply to the query that the script means over the updates that the root has seen.
fn check_script<R: Wait, F: Files>(
    rt: &R,
    alloc: Global,
    registry: Registry,
    root: Pass,
    names: &CheckFiles<'_>,
    files: &mut F,
) -> CheckEnding
    requires loaded { (texts : Of (Of ℕ)) × IsLoaded texts registry root }
    ensures { (f : FilesSeen) (bytes : Of ℕ) → HasContent f names.now.policy bytes
        → IsLoaded (pieces_of bytes) registry root → HasAsked (take 1 (in_order names.now)) f (F.seen files.old)
        → CheckCause f (F.seen files.new) names.now result }
{
    let mut root = root;
    let source = Source::Script;
    let script = match read_file(files, names.name(source)) {
        Ok(script) => script,
        Err(stop) => return CheckEnding::Stopped { source, stop },
    };
    let book = registry.into_book(rt, &mut root);
    let stop = InputFault::Memory;
    let query = match find_query(alloc, &book, script.as_slice()) {
        Ok(query) => query,
        Err(NoMemory) => return CheckEnding::Stopped { source, stop },
    };
    match &query {
        Some(meant) => check_reply(alloc, meant, names, files),
        None => CheckEnding::NoQuery,
    }
}

/// Checks the reply to the query that a script means.
fn check_reply<F: Files>(
    alloc: Global,
    meant: &LastQuery,
    names: &CheckFiles<'_>,
    files: &mut F,
) -> CheckEnding
    ensures { (f : FilesSeen) (session : Session)
        → session_in meant.now.sessions.sessions meant.now.session ≡ Some session
        → HasQuery f names.now session meant.now.values
        → HasAsked (take 2 (in_order names.now)) f (F.seen files.old)
        → CheckCause f (F.seen files.new) names.now result }
{
    let source = Source::Reply;
    match read_file(files, names.name(source)) {
        Ok(text) => judge(alloc, &meant.view(), &meant.values, text.as_slice()),
        Err(stop) => CheckEnding::Stopped { source, stop },
    }
}

/// What the text of a reply shows of the query of a session for these values.
fn judge(alloc: Global, view: &View<'_>, values: &Values, text: &[u8]) -> CheckEnding
    requires privates { ArePrivates (session_of_view view.now).privates }
    requires readings { AreReadPrivates view.now.private.now }
    requires requesters { AreRequesters view.now.requesters.now }
    ensures { ReplyShows (session_of_view view.now) values.now text.now result }
{
    let head = match scan_reply(text) {
        Ok(head) => head,
        Err(fault) => return faulty(fault),
    };
    if !is_reply_to(&head, view, values) {
        return CheckEnding::Faulty { fault: 1, line: 1 };
    }
    match read_reply(alloc, text) {
        Ok(reply) => weigh(alloc, view, values, reply),
        Err(fault) => faulty(fault),
    }
}

/// What a reply shows of the query of a session for these values.
fn weigh(alloc: Global, view: &View<'_>, values: &Values, reply: ReadReply) -> CheckEnding
    requires privates { ArePrivates (session_of_view view.now).privates }
    requires readings { AreReadPrivates view.now.private.now }
    requires requesters { AreRequesters view.now.requesters.now }
    ensures { ReadShows (session_of_view view.now) values.now reply result }
{
    match verify(alloc, view, values, &reply) {
        Ok(()) => CheckEnding::Proved {
            value: reply.value,
            name: reply.name,
        },
        Err(Refused::Other) => CheckEnding::Faulty { fault: 1, line: 1 },
        Err(Refused::Rejected(reject)) => CheckEnding::Rejected(reject),
        Err(Refused::NoMemory) => CheckEnding::Stopped {
            source: Source::Reply,
            stop: InputFault::Memory,
        },
    }
}

/// How a text that has this fault ends the run.
fn faulty(fault: ProofFault) -> CheckEnding
    ensures { result ≡ ending_of_fault fault }
{
    match (fault.number(), fault.line()) {
        (Some(fault), Some(line)) => CheckEnding::Faulty { fault, line },
        _ => CheckEnding::Stopped {
            source: Source::Reply,
            stop: InputFault::Memory,
        },
    }
}
