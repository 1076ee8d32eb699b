//! A pass at work.
ghost use Rattle.std.specs.Prelude.{◌≡◌, ◌≢◌, ◌+◌, ◌<◌, All, IfOk, OnOk, OnErr};
ghost use Rattle.kn_registry.specs.Passes.{IsReady};

use crate::event::{Event, print_of_text, print_of_version};
use crate::replay::Run;
use kn_assert::read;
use kn_history::Ready;
use kn_registry::{Pass, Registry};
use std::alloc::Global;
use std::sync::Wait;

/// A pass, what its calls answered, and a number that work leaves.
#[derive(Drop)]
pub struct Worker {
    pub pass: Pass,
    pub run: Run,
    pub sum: u64,
}

/// So many calls: of four one adds a text, one removes it, and two pin. It stops at a refusal.
pub(crate) fn work<R: Wait>(rt: &R, registry: &Registry, worker: &mut Worker, calls: u32)
    requires { IsReady registry.now worker.old.pass }
    ensures ready { IsReady registry.now worker.new.pass }
    ensures number { worker.new.pass.number ≡ worker.old.pass.number }
{
    let alloc = *worker.run.events.allocator();
    let mut last = 0;
    for k in 0..calls {
        let Some(event) = call(rt, alloc, registry, &mut worker.pass, k, last) else {
            return;
        };
        if let Event::Added(id, _version, _print) = event {
            last = id;
        }
        if worker.run.events.push(event).is_err() {
            return;
        }
    }
}

fn call<R: Wait>(
    rt: &R,
    alloc: Global,
    registry: &Registry,
    pass: &mut Pass,
    k: u32,
    last: u32,
) -> Option<Event>
    requires { IsReady registry.now pass.old }
    ensures ready { IsReady registry.now pass.new }
    ensures number { pass.new.number ≡ pass.old.number }
{
    match k % 4 {
        0 => add(rt, alloc, registry, pass, k),
        2 => {
            let version = registry.drop_id(rt, pass, last).ok()?;
            Some(Event::Removed(last, version))
        }
        _ => {
            let snapshot = registry.pin(rt, pass).ok()?;
            Some(Event::Pinned(snapshot.number(), print_of_version(&snapshot)))
        }
    }
}

/// Adds a text that no other call adds.
pub(crate) fn add<R: Wait>(
    rt: &R,
    alloc: Global,
    registry: &Registry,
    pass: &mut Pass,
    k: u32,
) -> Option<Event>
    requires { IsReady registry.now pass.old }
    ensures ready { IsReady registry.now pass.new }
    ensures number { pass.new.number ≡ pass.old.number }
{
    let name = pass.number();
    let text = format!(in alloc; "Authorizer: \"w{name}\"\nComment: {k}\n").ok()?;
    let assertion = read(alloc, text.as_bytes()).ok()?;
    let ready = Ready::of(alloc, text.as_bytes(), assertion).ok()?;
    let (id, version) = registry.add(rt, pass, ready).ok()?;
    Some(Event::Added(id, version, print_of_text(text.as_bytes())))
}
