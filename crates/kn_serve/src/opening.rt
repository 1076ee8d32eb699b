//! Opening a session, and pinning one to the newest version or to a retained one.
ghost use Rattle.std.specs.Prelude.{◌≡◌, None};
ghost use Rattle.kn_outside.specs.Printing.{is_whole};
ghost use Rattle.kn_registry.specs.Passes.{IsReady};
ghost use Rattle.kn_daemon.specs.Shapes.{Looks, ForOpen, ForPin, ForPinAt};
ghost use Rattle.kn_daemon.specs.Daemon.{DaemonConfig};
ghost use Rattle.kn_serve.specs.Handling.{moment, state_of, HasRoom, Handles};
ghost use Rattle.kn_serve.specs.KeptBases.{ArePinned};

use crate::connection::Connection;
use crate::refusals::{print_refusal, refusal_of_version};
use kn_base::NoMemory;
use kn_base::limits::SESSIONS;
use kn_outside::{Failed, Link};
use kn_registry::{Pass, Registry};
use kn_reply::{LimitWord, Refusal, Reply, print};
use std::sync::Wait;

/// Answers OPEN. The last answer is forgotten.
pub(crate) fn open<R: Wait, L: Link>(
    rt: &R,
    reg: &Registry,
    pass: &mut Pass,
    connection: &mut Connection,
    link: &mut L,
) -> Result<(), Failed>
    requires ready { IsReady reg.now pass.old }
    requires room { HasRoom (state_of connection.old) }
    ensures ready { IsReady reg.now pass.new }
    ensures forgotten { connection.new.last.answer ≡ None }
    ensures handled { (g : DaemonConfig) → Handles g (Looks ForOpen) (is_whole result)
        (moment pass.old connection.old (L.seen link.old)) (moment pass.new connection.new (L.seen link.new)) }
{
    connection.last.forget();
    let count = connection.sessions.len();
    if count >= SESSIONS {
        let word = LimitWord::Sessions;
        return print(&Reply::No(Refusal::Limit { word, count }), link);
    }
    let snapshot = match reg.pin(rt, pass) {
        Ok(snapshot) => snapshot,
        Err(NoMemory) => return print(&Reply::NoMemory, link),
    };
    let version = snapshot.number();
    match connection.sessions.start(snapshot) {
        Ok(s) => print(&Reply::Started { s, version }, link),
        Err(_) => print(&Reply::NoMemory, link),
    }
}

/// Answers PIN.
pub(crate) fn pin<R: Wait, L: Link>(
    rt: &R,
    reg: &Registry,
    pass: &mut Pass,
    connection: &mut Connection,
    s: u32,
    link: &mut L,
) -> Result<(), Failed>
    requires ready { IsReady reg.now pass.old }
    requires pinned { ArePinned pass.old.seen (state_of connection.old) }
    ensures ready { IsReady reg.now pass.new }
    ensures last { connection.new.last ≡ connection.old.last }
    ensures handled { (g : DaemonConfig) → Handles g (Looks (ForPin s)) (is_whole result)
        (moment pass.old connection.old (L.seen link.old)) (moment pass.new connection.new (L.seen link.new)) }
{
    let view = match connection.sessions.view(s) {
        Ok(view) => view,
        Err(_) => return print(&Reply::No(Refusal::Session), link),
    };
    let snapshot = match reg.pin_again(rt, pass, view.snapshot) {
        Ok(snapshot) => snapshot,
        Err(NoMemory) => return print(&Reply::NoMemory, link),
    };
    let version = snapshot.number();
    match connection.sessions.repin(s, snapshot) {
        Ok(()) => print(&Reply::Number { version }, link),
        Err(_) => unreachable!(),
    }
}

/// Answers PIN of a version.
pub(crate) fn pin_at<R: Wait, L: Link>(
    rt: &R,
    reg: &Registry,
    pass: &mut Pass,
    connection: &mut Connection,
    s: u32,
    version: u32,
    link: &mut L,
) -> Result<(), Failed>
    requires ready { IsReady reg.now pass.old }
    ensures ready { IsReady reg.now pass.new }
    ensures last { connection.new.last ≡ connection.old.last }
    ensures handled { (g : DaemonConfig) → Handles g (Looks (ForPinAt s version)) (is_whole result)
        (moment pass.old connection.old (L.seen link.old)) (moment pass.new connection.new (L.seen link.new)) }
{
    match connection.sessions.view(s) {
        Ok(_) => {}
        Err(_) => return print(&Reply::No(Refusal::Session), link),
    }
    let snapshot = match reg.pin_at(rt, pass, version) {
        Ok(snapshot) => snapshot,
        Err(fault) => return print_refusal(refusal_of_version(fault), link),
    };
    let newest = pass.seen_length();
    match connection.sessions.repin(s, snapshot) {
        Ok(()) => print(&Reply::PinnedAt { version, newest }, link),
        Err(_) => unreachable!(),
    }
}
