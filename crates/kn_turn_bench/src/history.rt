//! Passes that are split, work side by side, and are joined.
ghost use Rattle.std.specs.Prelude.{◌≡◌, ◌≢◌, ◌+◌, ◌<◌, ◌≤◌, All, IfOk, OnOk};
ghost use Rattle.kn_registry.specs.Passes.{IsReady};

use crate::replay::{Run, is_replayed};
use crate::worker::{Worker, work};
use kn_registry::{Pass, Registry};
use std::alloc::Global;
use std::sync::Wait;
use std::thread::Threads;
use std::{io, thread};

/// The most passes that are split from a root.
const SPLITS: u32 = 63;

pub(crate) fn lacks_memory() -> io::Error {
    io::Error::from(io::ErrorKind::OutOfMemory)
}

/// Whether all that so many passes answer in so many rounds is one history.
pub(crate) fn is_one_history<R: Threads + Wait + Sync>(
    rt: &R,
    alloc: Global,
    passes: u32,
    calls: u32,
    rounds: u32,
) -> io::Result<bool> {
    let Ok((registry, mut root)) = Registry::start(alloc) else {
        return Err(lacks_memory());
    };
    let mut made = Vec::new(alloc);
    if !play_rounds(rt, &registry, &mut root, passes, calls, rounds, &mut made)? {
        return Ok(false);
    }
    let whole = made
        .as_slice()
        .iter()
        .all(|run: &Run| run.events.len() == calls as usize);
    let held = is_replayed(alloc, made.as_slice(), root.seen_length()).or(Err(lacks_memory()))?;
    Ok(whole && held)
}

/// So many rounds, in each of which new passes work side by side; false where they would be too many.
fn play_rounds<R: Threads + Wait + Sync>(
    rt: &R,
    registry: &Registry,
    root: &mut Pass,
    passes: u32,
    calls: u32,
    rounds: u32,
    made: &mut Vec<Run>,
) -> io::Result<bool>
    requires ready { IsReady registry.now root.old }
    requires root { root.old.number ≡ 0 }
    requires splits { root.old.splits ≡ 0 }
{
    let alloc = *made.allocator();
    let mut split: u32 = 0;
    for _ in 0..rounds {
        if passes > SPLITS - split {
            return Ok(false);
        }
        split += passes;
        let mut workers = hire(alloc, registry, root, passes)?;
        work_all(rt, registry, workers.as_mut_slice(), calls);
        gather(registry, root, workers, made)?;
    }
    Ok(true)
}

/// So many workers, with passes that are split from the root.
pub(crate) fn hire(
    alloc: Global,
    registry: &Registry,
    root: &mut Pass,
    count: u32,
) -> io::Result<Vec<Worker>>
    requires ready { IsReady registry.now root.old }
    requires root { root.old.number ≡ 0 }
    requires room { root.old.splits + count < 64 }
    ensures ready { OnOk result (IsReady registry.now root.new) }
    ensures number { OnOk result (root.new.number ≡ root.old.number) }
    ensures splits { OnOk result (root.new.splits ≡ root.old.splits + count) }
    ensures workers { IfOk result (λ v. All (λ w. IsReady registry.now w.pass × (w.pass.number ≢ 0)) v.items) }
{
    let mut workers = Vec::new(alloc);
    for _ in 0..count {
        let Ok(pass) = registry.split(root) else {
            return Err(lacks_memory());
        };
        let run = Run {
            began: pass.seen_length(),
            events: Vec::new(alloc),
        };
        let worker = Worker { pass, run, sum: 0 };
        let Ok(()) = workers.push(worker) else {
            return Err(lacks_memory());
        };
    }
    Ok(workers)
}

/// Each worker makes so many calls, in a thread of its own.
fn work_all<R: Threads + Wait + Sync>(
    rt: &R,
    registry: &Registry,
    workers: &mut [Worker],
    calls: u32,
)
    requires { All (λ w. IsReady registry.now w.pass × (w.pass.number ≢ 0)) workers.old }
    ensures { All (λ w. IsReady registry.now w.pass × (w.pass.number ≢ 0)) workers.new }
{
    thread::for_each_mut(
        rt,
        workers,
        64,
        &|_, worker| { work(rt, registry, worker, calls) },
    );
}

/// Joins the passes into the root, and keeps what their calls answered.
pub(crate) fn gather(
    registry: &Registry,
    root: &mut Pass,
    mut workers: Vec<Worker>,
    made: &mut Vec<Run>,
) -> io::Result<()>
    requires ready { IsReady registry.now root.old }
    requires workers { All (λ w. IsReady registry.now w.pass × (w.pass.number ≢ 0)) workers.items }
    ensures ready { IsReady registry.now root.new }
    ensures number { root.new.number ≡ root.old.number }
    ensures splits { root.new.splits ≡ root.old.splits }
{
    while let Some(worker) = workers.pop() {
        let Worker { pass, run, .. } = worker;
        registry.join(root, pass);
        made.push(run).or(Err(lacks_memory()))?;
    }
    Ok(())
}
