//! Times of workers side by side.
ghost use Rattle.std.specs.Prelude.{◌≡◌, ◌≢◌, ◌+◌, ◌<◌, ◌≤◌, All, IfOk, OnOk};
ghost use Rattle.kn_registry.specs.Passes.{IsReady};

use crate::event::{mix, print_of_version};
use crate::history::{gather, hire, lacks_memory};
use crate::worker::{Worker, add};
use kn_registry::{Pass, Registry};
use kn_store::Version;
use std::alloc::Global;
use std::rt::Clock;
use std::sync::Wait;
use std::sync::atomic::AtomicBool;
use std::sync::atomic::Ordering::SeqCst;
use std::thread::Threads;
use std::time::Instant;
use std::{io, thread};

/// The most workers.
const WORKERS: u32 = 63;

/// The credentials of the book that is read.
const CREDENTIALS: u32 = 16;

/// A registry with some credentials, its root, and so many workers.
fn open(alloc: Global, workers: u32, rt: &impl Wait) -> io::Result<(Registry, Pass, Vec<Worker>)>
    ensures ready { IfOk result (λ r. IsReady r.0 r.1) }
    ensures workers { IfOk result (λ r. All (λ w. IsReady r.0 w.pass × (w.pass.number ≢ 0)) r.2.items) }
{
    let Ok((registry, mut root)) = Registry::start(alloc) else {
        return Err(lacks_memory());
    };
    let workers = hire(alloc, &registry, &mut root, workers.min(WORKERS))?;
    fill(alloc, &registry, &mut root, rt);
    Ok((registry, root, workers))
}

/// Adds the credentials.
fn fill(alloc: Global, registry: &Registry, root: &mut Pass, rt: &impl Wait)
    requires { IsReady registry.now root.old }
    ensures { IsReady registry.now root.new }
{
    for k in 0..CREDENTIALS {
        let _added = add(rt, alloc, registry, root, k);
    }
}

/// Nanoseconds of so many pins by each worker, with so many readings behind each.
pub(crate) fn pin_time<R: Threads + Wait + Clock + Sync>(
    rt: &R,
    alloc: Global,
    workers: u32,
    calls: u32,
    reads: u32,
) -> io::Result<u128> {
    let (registry, mut root, mut workers) = open(alloc, workers, rt)?;
    let start = Instant::now(rt)?;
    pin_all(rt, &registry, workers.as_mut_slice(), calls, reads);
    let spent = start.elapsed(rt)?.as_nanos();
    gather(&registry, &mut root, workers, &mut Vec::new(alloc))?;
    Ok(spent)
}

fn pin_all<R: Threads + Wait + Sync>(
    rt: &R,
    registry: &Registry,
    workers: &mut [Worker],
    calls: u32,
    reads: u32,
)
    requires { All (λ w. IsReady registry.now w.pass × (w.pass.number ≢ 0)) workers.old }
    ensures { All (λ w. IsReady registry.now w.pass × (w.pass.number ≢ 0)) workers.new }
{
    thread::for_each_mut(
        rt,
        workers,
        64,
        &|_, worker| { pin_often(rt, registry, worker, calls, reads) },
    );
}

fn pin_often<R: Wait>(rt: &R, registry: &Registry, worker: &mut Worker, calls: u32, reads: u32)
    requires { IsReady registry.now worker.old.pass }
    ensures ready { IsReady registry.now worker.new.pass }
    ensures number { worker.new.pass.number ≡ worker.old.pass.number }
{
    for _ in 0..calls {
        if let Ok(snapshot) = registry.pin(rt, &mut worker.pass) {
            worker.sum = read_often(&snapshot, worker.sum, reads);
        }
    }
}

fn read_often(version: &Version, sum: u64, reads: u32) -> u64 {
    let mut sum = sum;
    for _ in 0..reads {
        sum = mix(sum, print_of_version(version));
    }
    sum
}

/// The same with one pin by each worker.
pub(crate) fn read_time<R: Threads + Wait + Clock + Sync>(
    rt: &R,
    alloc: Global,
    workers: u32,
    calls: u32,
    reads: u32,
) -> io::Result<u128> {
    let (registry, mut root, mut workers) = open(alloc, workers, rt)?;
    let start = Instant::now(rt)?;
    pin_all(
        rt,
        &registry,
        workers.as_mut_slice(),
        1,
        calls.saturating_mul(reads),
    );
    let spent = start.elapsed(rt)?.as_nanos();
    gather(&registry, &mut root, workers, &mut Vec::new(alloc))?;
    Ok(spent)
}

/// Nanoseconds of so many updates by one worker, beside so many others that pin.
pub(crate) fn update_time<R: Threads + Wait + Clock + Sync>(
    rt: &R,
    alloc: Global,
    readers: u32,
    calls: u32,
) -> io::Result<u128> {
    let (registry, mut root, mut workers) = open(alloc, readers.saturating_add(1), rt)?;
    let done = AtomicBool::new(false);
    let start = Instant::now(rt)?;
    update_beside(rt, &registry, workers.as_mut_slice(), &done, calls);
    let spent = start.elapsed(rt)?.as_nanos();
    gather(&registry, &mut root, workers, &mut Vec::new(alloc))?;
    Ok(spent)
}

fn update_beside<R: Threads + Wait + Sync>(
    rt: &R,
    registry: &Registry,
    workers: &mut [Worker],
    done: &AtomicBool,
    calls: u32,
)
    requires { All (λ w. IsReady registry.now w.pass × (w.pass.number ≢ 0)) workers.old }
    ensures { All (λ w. IsReady registry.now w.pass × (w.pass.number ≢ 0)) workers.new }
{
    thread::for_each_mut(
        rt,
        workers,
        64,
        &|i, worker| {
            if i == 0 {
                update_often(rt, registry, worker, done, calls)
            } else {
                pin_until(rt, registry, worker, done)
            }
        },
    );
}

/// Adds and removes in turn, and says when it is done.
fn update_often<R: Wait>(
    rt: &R,
    registry: &Registry,
    worker: &mut Worker,
    done: &AtomicBool,
    calls: u32,
)
    requires { IsReady registry.now worker.old.pass }
    ensures ready { IsReady registry.now worker.new.pass }
    ensures number { worker.new.pass.number ≡ worker.old.pass.number }
{
    let alloc = *worker.run.events.allocator();
    let mut id = CREDENTIALS;
    for k in 0..calls {
        if k % 2 == 0 {
            let _added = add(rt, alloc, registry, &mut worker.pass, k);
            id = id.wrapping_add(1);
        } else {
            let _removed = registry.drop_id(rt, &mut worker.pass, id);
        }
    }
    done.store(true, SeqCst);
}

fn pin_until<R: Wait>(rt: &R, registry: &Registry, worker: &mut Worker, done: &AtomicBool)
    requires { IsReady registry.now worker.old.pass }
    ensures ready { IsReady registry.now worker.new.pass }
    ensures number { worker.new.pass.number ≡ worker.old.pass.number }
{
    for _ in rt.forever() {
        if done.load(SeqCst) {
            break;
        }
        let _snapshot = registry.pin(rt, &mut worker.pass);
    }
}
