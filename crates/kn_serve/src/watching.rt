//! The standing query of a session: it is kept, and answered anew over the newest version.
ghost use Rattle.std.specs.Prelude.{◌≡◌, ◌<◌, None, Some, IfSome, [], length, slice_index_or};
ghost use Rattle.kn_outside.specs.Printing.{Prints, is_whole};
ghost use Rattle.kn_registry.specs.Passes.{IsReady};
ghost use Rattle.kn_session.specs.Asking.{IsQueryLevelIfKnown};
ghost use Rattle.kn_reply.specs.Replies.{News, reply_text};
ghost use Rattle.kn_daemon.specs.Shapes.{Asks, Looks, ToKeep, ForNews};
ghost use Rattle.kn_daemon.specs.Daemon.{DaemonConfig};
ghost use Rattle.kn_serve.specs.Handling.{moment, state_of, Handles, Tells};
ghost use Rattle.kn_serve.specs.KeptBases.{AreAllOfOne, ArePinned, IsKept, StaysOf};

use crate::connection::Connection;
use crate::querying::read_question;
use crate::refusals::print_refusal;
use kn_base::NoMemory;
use kn_outside::{Failed, Link};
use kn_query::{KeptBases, KnownLevel, answer_query, find_level};
use kn_refusals::refusal_of_session;
use kn_registry::{Pass, Registry};
use kn_reply::{Reply, print};
use kn_session::StandingQuery;
use std::alloc::Global;
use std::sync::Wait;

/// Answers WATCH. The query is kept once its answer is found. The last answer is forgotten.
pub(crate) fn watch<L: Link>(
    alloc: Global,
    connection: &mut Connection,
    kept: &mut KeptBases,
    s: u32,
    names: &[u8],
    link: &mut L,
) -> Result<(), Failed>
    requires one_history { AreAllOfOne (state_of connection.old) kept.old }
    ensures stays { StaysOf (state_of connection.old) kept.old kept.new }
    ensures forgotten { connection.new.last.answer ≡ None }
    ensures exact { (g : DaemonConfig) → Tells g (Asks ToKeep s names.now) (is_whole result)
        (state_of connection.old) (state_of connection.new) (L.seen link.old) (L.seen link.new) }
{
    connection.last.forget();
    let (view, values) = match read_question(alloc, connection, None, s, names) {
        Ok(asked) => asked,
        Err(refusal) => return print_refusal(refusal, link),
    };
    let answer = match answer_query(alloc, &view, &values, kept) {
        Ok(answer) => answer,
        Err(NoMemory) => return print(&Reply::NoMemory, link),
    };
    let version = view.snapshot.number();
    match connection.sessions.watch(s, values, Some(answer.value)) {
        Ok(()) => {}
        Err(_) => return print(&Reply::NoMemory, link),
    }
    match connection.sessions.standing(s) {
        Ok(query) => tell_news(query, answer.value, version, link),
        Err(_) => unreachable!(),
    }
}

/// Answers NEWS. The standing query moves to the version that its answer holds of, whether or not all of the reply
/// could be written. The last answer is forgotten.
pub(crate) fn news<R: Wait, L: Link>(
    rt: &R,
    alloc: Global,
    reg: &Registry,
    pass: &mut Pass,
    connection: &mut Connection,
    kept: &mut KeptBases,
    s: u32,
    link: &mut L,
) -> Result<(), Failed>
    requires ready { IsReady reg.now pass.old }
    requires pinned { ArePinned pass.old.seen (state_of connection.old) }
    requires of_history { IsKept pass.old.seen kept.old }
    ensures ready { IsReady reg.now pass.new }
    ensures of_history { IsKept pass.new.seen kept.new }
    ensures forgotten { connection.new.last.answer ≡ None }
    ensures handled { (g : DaemonConfig) → Handles g (Looks (ForNews s)) (is_whole result)
        (moment pass.old connection.old (L.seen link.old)) (moment pass.new connection.new (L.seen link.new)) }
{
    connection.last.forget();
    let query = match connection.sessions.standing(s) {
        Ok(query) => query,
        Err(fault) => return print_refusal(refusal_of_session(fault), link),
    };
    let snapshot = match reg.pin(rt, pass) {
        Ok(snapshot) => snapshot,
        Err(NoMemory) => return print(&Reply::NoMemory, link),
    };
    let view = query.view_over(&snapshot);
    let known = known_level(query);
    let level = match find_level(alloc, &view, query.values(), known, kept) {
        Ok(level) => level,
        Err(NoMemory) => return print(&Reply::NoMemory, link),
    };
    let written = tell_news(query, level, snapshot.number(), link);
    match connection.sessions.move_standing(s, snapshot, Some(level)) {
        Ok(()) => written,
        Err(_) => unreachable!(),
    }
}

/// The value of a standing query over its own version, where it is known.
fn known_level(query: &StandingQuery) -> Option<KnownLevel>
    ensures version { IfSome result (λ known. known.version ≡ length query.now.pinned) }
    ensures level { IfSome result (λ known. IsQueryLevelIfKnown query.now (Some known.level)) }
{
    let level = query.level()?;
    let version = query.number();
    Some(KnownLevel { version, level })
}

/// Tells the value of a standing query by its index, over a version.
fn tell_news<L: Link>(
    query: &StandingQuery,
    index: u8,
    version: u32,
    link: &mut L,
) -> Result<(), Failed>
    requires value { index < length query.now.values }
    ensures prints { Prints (is_whole result)
        (reply_text (News index (slice_index_or query.now.values index []) version))
        (L.seen link.old) (L.seen link.new) }
{
    let name = query.values().name(index);
    print(
        &Reply::News {
            index,
            name,
            version,
        },
        link,
    )
}
