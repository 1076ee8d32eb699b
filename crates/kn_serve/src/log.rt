//! Handing on the updates of the history.
ghost use Rattle.kn_outside.specs.Printing.{is_whole};
ghost use Rattle.kn_registry.specs.Passes.{IsReady};
ghost use Rattle.kn_daemon.specs.Shapes.{Looks, ForLog};
ghost use Rattle.kn_daemon.specs.Daemon.{DaemonConfig};
ghost use Rattle.kn_serve.specs.Handling.{moment, Handles};

use crate::connection::Connection;
use kn_base::NoMemory;
use kn_outside::{Failed, Link};
use kn_registry::{Pass, Registry};
use kn_reply::{Refusal, Reply, print};
use std::sync::Wait;

/// Answers LOG.
pub(crate) fn log<R: Wait, L: Link>(
    rt: &R,
    reg: &Registry,
    pass: &mut Pass,
    connection: &Connection,
    n: u32,
    link: &mut L,
) -> Result<(), Failed>
    requires ready { IsReady reg.now pass.old }
    ensures ready { IsReady reg.now pass.new }
    ensures handled { (g : DaemonConfig) → Handles g (Looks (ForLog n)) (is_whole result)
        (moment pass.old connection.now (L.seen link.old)) (moment pass.new connection.now (L.seen link.new)) }
{
    if !connection.is_admin {
        return print(&Reply::No(Refusal::Admin), link);
    }
    let snapshot = match reg.pin(rt, pass) {
        Ok(snapshot) => snapshot,
        Err(NoMemory) => return print(&Reply::NoMemory, link),
    };
    let newest = snapshot.number();
    if n > newest {
        return print(&Reply::No(Refusal::Ahead { newest }), link);
    }
    let snapshot = &snapshot;
    print(&Reply::Log { n, snapshot }, link)
}
