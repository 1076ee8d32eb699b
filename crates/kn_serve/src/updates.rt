//! Updates of the shared credentials: one is added or removed, or several changes are made all together or not at all.
ghost use Rattle.std.specs.Prelude.{◌≡◌, ◌≤◌, length, map, List, ℕ, None, Ok};
ghost use Rattle.kn_base.specs.declared.limits.TheConstants.{ASSERTION_BYTES, CHANGES};
ghost use Rattle.kn_outside.specs.Printing.{is_whole};
ghost use Rattle.kn_wire.specs.Items as D;
ghost use Rattle.kn_reply.specs.Logs.{item_of};
ghost use Rattle.kn_registry.specs.Passes.{IsReady};
ghost use Rattle.kn_daemon.specs.Shapes.{Updates, AddText, DropId, ApplyBlock};
ghost use Rattle.kn_daemon.specs.Daemon.{DaemonConfig, State, own_refusal};
ghost use Rattle.kn_serve.specs.Handling.{in_state, moment, Handles};

use crate::admission::{admit_items, admit_text};
use crate::config::ServeConfig;
use crate::connection::Connection;
use crate::refusals::print_refusal;
use kn_auth::Authenticator;
use kn_base::List;
use kn_history::{Item, Ready};
use kn_outside::{Failed, Gate, Link};
use kn_refusals::{refusal_as_request, refusal_of_batch, refusal_of_block, refusal_of_store};
use kn_registry::{Batched, Pass, Registry};
use kn_reply::{Refusal, Reply, print};
use kn_wire::batch_items;
use std::alloc::Global;
use std::sync::Wait;

/// Answers ADD.
pub(crate) fn add<R: Wait, A: Authenticator, L: Link, G: Gate>(
    rt: &R,
    alloc: Global,
    config: &ServeConfig<'_, A, G>,
    pass: &mut Pass,
    connection: &Connection,
    block: &[u8],
    link: &mut L,
) -> Result<(), Failed>
    requires ready { IsReady config.now.registry.now pass.old }
    requires short { length block.now ≤ ASSERTION_BYTES }
    ensures ready { IsReady config.now.registry.now pass.new }
    ensures handled { (g : DaemonConfig) → g.verdict ≡ A.verdict config.now.authenticator.now
        → Handles g (Updates (AddText block.now)) (is_whole result)
        (moment pass.old connection.now (L.seen link.old)) (moment pass.new connection.now (L.seen link.new)) }
{
    if !connection.is_admin {
        return print(&Reply::No(Refusal::Admin), link);
    }
    match admit_text(alloc, config.authenticator, block) {
        Ok(ready) => add_ready(rt, config.registry, pass, ready, link),
        Err(refusal) => print_refusal(refusal_as_request(refusal), link),
    }
}

/// Adds a text that is admitted.
fn add_ready<R: Wait, L: Link>(
    rt: &R,
    reg: &Registry,
    pass: &mut Pass,
    ready: Ready,
    link: &mut L,
) -> Result<(), Failed>
    requires ready { IsReady reg.now pass.old }
    ensures ready { IsReady reg.now pass.new }
    ensures handled { (g : DaemonConfig) (now : State) → own_refusal g now (Updates (AddText ready)) ≡ None
        → Handles g (Updates (AddText ready)) (is_whole result)
        (in_state now pass.old (L.seen link.old)) (in_state now pass.new (L.seen link.new)) }
{
    match reg.add(rt, pass, ready) {
        Ok((k, version)) => print(&Reply::Added { k, version }, link),
        Err(fault) => print_refusal(refusal_of_store(fault), link),
    }
}

/// Answers DROP.
pub(crate) fn remove<R: Wait, L: Link>(
    rt: &R,
    reg: &Registry,
    pass: &mut Pass,
    connection: &Connection,
    k: u32,
    link: &mut L,
) -> Result<(), Failed>
    requires ready { IsReady reg.now pass.old }
    ensures ready { IsReady reg.now pass.new }
    ensures handled { (g : DaemonConfig) → Handles g (Updates (DropId k)) (is_whole result)
        (moment pass.old connection.now (L.seen link.old)) (moment pass.new connection.now (L.seen link.new)) }
{
    if !connection.is_admin {
        return print(&Reply::No(Refusal::Admin), link);
    }
    match reg.drop_id(rt, pass, k) {
        Ok(version) => print(&Reply::Number { version }, link),
        Err(fault) => print_refusal(refusal_of_store(fault), link),
    }
}

/// Answers BATCH. No turn is taken before all items are admitted.
pub(crate) fn batch<R: Wait, A: Authenticator, L: Link, G: Gate>(
    rt: &R,
    alloc: Global,
    config: &ServeConfig<'_, A, G>,
    pass: &mut Pass,
    connection: &Connection,
    block: &[u8],
    link: &mut L,
) -> Result<(), Failed>
    requires ready { IsReady config.now.registry.now pass.old }
    requires short { length block.now ≤ ASSERTION_BYTES }
    ensures ready { IsReady config.now.registry.now pass.new }
    ensures handled { (g : DaemonConfig) → g.verdict ≡ A.verdict config.now.authenticator.now
        → Handles g (Updates (ApplyBlock block.now)) (is_whole result)
        (moment pass.old connection.now (L.seen link.old)) (moment pass.new connection.now (L.seen link.new)) }
{
    if !connection.is_admin {
        return print(&Reply::No(Refusal::Admin), link);
    }
    let items = match batch_items(alloc, block) {
        Ok(items) => items,
        Err(fault) => return print_refusal(refusal_of_block(fault), link),
    };
    let admitted = match admit_items(alloc, config.authenticator, &items) {
        Ok(admitted) => admitted,
        Err(refusal) => return print_refusal(refusal, link),
    };
    apply_items(rt, config.registry, pass, admitted, link)
}

/// Makes items that are admitted one update.
fn apply_items<R: Wait, L: Link>(
    rt: &R,
    reg: &Registry,
    pass: &mut Pass,
    items: List<Item>,
    link: &mut L,
) -> Result<(), Failed>
    requires ready { IsReady reg.now pass.old }
    requires some { 1 ≤ length items }
    requires few { length items ≤ CHANGES }
    ensures ready { IsReady reg.now pass.new }
    ensures handled { (g : DaemonConfig) (now : State) (block : List ℕ) (read : List D.BatchItem)
        → D.items_of block ≡ Ok read → items ≡ map item_of read → own_refusal g now (Updates (ApplyBlock block)) ≡ None
        → Handles g (Updates (ApplyBlock block)) (is_whole result)
        (in_state now pass.old (L.seen link.old)) (in_state now pass.new (L.seen link.new)) }
{
    match reg.batch(rt, pass, items) {
        Ok(batched) => {
            let Batched {
                first,
                added,
                version,
            } = batched;
            print(
                &Reply::Batched {
                    first,
                    added,
                    version,
                },
                link,
            )
        }
        Err(fault) => print_refusal(refusal_of_batch(fault), link),
    }
}
