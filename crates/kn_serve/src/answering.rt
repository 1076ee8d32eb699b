//! The reply to a request.
ghost use Rattle.kn_outside.specs.Printing.{is_whole};
ghost use Rattle.kn_wire.specs.Hex.{IsWellFormed};
ghost use Rattle.kn_wire.specs.Wired.{request_of};
ghost use Rattle.kn_registry.specs.Passes.{IsReady};
ghost use Rattle.kn_daemon.specs.Shapes.{Controls, Leave, AtFault, shape_of};
ghost use Rattle.kn_daemon.specs.Daemon.{DaemonConfig, State};
ghost use Rattle.kn_serve.specs.Configs.{config_of};
ghost use Rattle.kn_serve.specs.Handling.{moment, state_of, HasRoom, Handles, Tells};
ghost use Rattle.kn_serve.specs.KeptBases.{ArePinned, IsKept};
ghost use Rattle.kn_serve.specs.LastQuestions.{IsLastOf};

use crate::admin::show_secret;
use crate::calling::{call as answer_call, set_hex};
use crate::config::ServeConfig;
use crate::connection::Connection;
use crate::log::log;
use crate::opening::{open, pin, pin_at};
use crate::querying::{critical, query};
use crate::updates::{add, batch, remove};
use crate::watching::{news, watch};
use kn_auth::Authenticator;
use kn_daemon::shape::{Shape, shape_of};
use kn_outside::{Failed, Gate, Link};
use kn_query::KeptBases;
use kn_refusals::refusal_of_fault;
use kn_registry::Pass;
use kn_reply::{Reply, print};
use kn_wire::{Request, WireFault};
use std::alloc::Global;
use std::sync::Wait;

/// Answers a request.
pub(crate) fn answer<R: Wait, A: Authenticator, L: Link, G: Gate>(
    rt: &R,
    alloc: Global,
    config: &ServeConfig<'_, A, G>,
    pass: &mut Pass,
    connection: &mut Connection,
    kept: &mut KeptBases,
    request: Request<'_>,
    link: &mut L,
) -> Result<(), Failed>
    requires ready { IsReady config.now.registry.now pass.old }
    requires room { HasRoom (state_of connection.old) }
    requires form { IsWellFormed (request_of request) }
    requires pinned { ArePinned pass.old.seen (state_of connection.old) }
    requires of_history { IsKept pass.old.seen kept.old }
    requires last { IsLastOf pass.old.seen (state_of connection.old) connection.old.last }
    ensures ready { IsReady config.now.registry.now pass.new }
    ensures of_history { IsKept pass.new.seen kept.new }
    ensures last { IsLastOf pass.new.seen (state_of connection.new) connection.new.last }
    ensures handled { Handles (config_of A.verdict config.now) (shape_of (request_of request.entry)) (is_whole result)
        (moment pass.old connection.old (L.seen link.old)) (moment pass.new connection.new (L.seen link.new)) }
{
    match shape_of(request) {
        Shape::Open => open(rt, config.registry, pass, connection, link),
        Shape::Pin { s } => pin(rt, config.registry, pass, connection, s, link),
        Shape::PinAt { s, version } => {
            pin_at(rt, config.registry, pass, connection, s, version, link)
        }
        Shape::Add { block } => add(rt, alloc, config, pass, connection, block, link),
        Shape::Remove { k } => remove(rt, config.registry, pass, connection, k, link),
        Shape::Batch { block } => batch(rt, alloc, config, pass, connection, block, link),
        Shape::Log { n } => log(rt, config.registry, pass, connection, n, link),
        Shape::Call { s, call } => answer_call(alloc, connection, s, call, link),
        Shape::SetHex { s, name, digits } => set_hex(alloc, connection, s, name, digits, link),
        Shape::News { s } => news(rt, alloc, config.registry, pass, connection, kept, s, link),
        Shape::Query { s, values } => query(alloc, connection, kept, s, values, link),
        Shape::Watch { s, values } => watch(alloc, connection, kept, s, values, link),
        Shape::Critical { s, values } => critical(alloc, connection, s, values, link),
        Shape::Admin { digits } => show_secret(config.secret, connection, digits, link),
        Shape::Bye => say_bye(link),
    }
}

/// Answers BYE.
fn say_bye<L: Link>(link: &mut L) -> Result<(), Failed>
    ensures exact { (g : DaemonConfig) (now : State)
        → Tells g (Controls Leave) (is_whole result) now now (L.seen link.old) (L.seen link.new) }
{
    print(&Reply::Ok, link)
}

/// Answers a line that is no request, or a block that is refused.
pub(crate) fn refuse<L: Link>(fault: WireFault, link: &mut L) -> Result<(), Failed>
    ensures exact { (g : DaemonConfig) (now : State)
        → Tells g (AtFault fault) (is_whole result) now now (L.seen link.old) (L.seen link.new) }
{
    print(&Reply::No(refusal_of_fault(fault)), link)
}
