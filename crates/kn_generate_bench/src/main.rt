//! How long the parts of `gen` take: generating texts, reading them, adding them at one turn, building the system and
//! settling it.
//!
//! Without words the figures of the query over 128 to 2,048 credentials are printed. With `time` it is the nanoseconds
//! of each part over so many, each the least of several rounds.
#![tactic(auto)]

ghost use Rattle.std.specs.Prelude.{◌≤◌};

use kn_assert::read;
use kn_base::{List, Octets};
use kn_generate::{Measured, build_generated, generate_texts, measure_built};
use kn_history::Ready;
use kn_registry::Registry;
use kn_store::Snapshot;
use std::alloc::Global;
use std::rt::Clock;
use std::sync::Wait;
use std::time::Instant;
use std::{env, io};

const SIZES: [u32; 5] = [128, 256, 512, 1_024, 2_048];

/// Rounds, of which the least counts.
const ROUNDS: u32 = 20;

/// Nanoseconds.
#[derive(Clone, Copy)]
struct Parts {
    generating: u128,
    reading: u128,
    adding: u128,
    building: u128,
    settling: u128,
}

/// The least of each part.
fn least(a: Parts, b: Parts) -> Parts {
    Parts {
        generating: a.generating.min(b.generating),
        reading: a.reading.min(b.reading),
        adding: a.adding.min(b.adding),
        building: a.building.min(b.building),
        settling: a.settling.min(b.settling),
    }
}

/// Nanoseconds since then.
fn since(clock: &impl Clock, start: Instant) -> io::Result<u128> {
    Ok(start.elapsed(clock)?.as_nanos())
}

fn lacks_memory() -> io::Error {
    io::Error::from(io::ErrorKind::OutOfMemory)
}

/// The text with its reading, ready to be added.
fn make_ready(alloc: Global, text: &[u8]) -> io::Result<Ready> {
    let Ok(assertion) = read(alloc, text) else {
        return Err(lacks_memory());
    };
    Ready::of(alloc, text, assertion).or(Err(lacks_memory()))
}

/// Reads the texts, and answers the nanoseconds of that.
fn read_all(
    clock: &impl Clock,
    alloc: Global,
    texts: &List<Octets>,
) -> io::Result<(u128, Vec<Ready>)> {
    let start = Instant::now(clock)?;
    let mut ready_texts = Vec::new(alloc);
    for text in texts.as_slice() {
        let ready = make_ready(alloc, text.as_slice())?;
        ready_texts.push(ready).or(Err(lacks_memory()))?;
    }
    Ok((since(clock, start)?, ready_texts))
}

/// Builds and settles the query over a version, and answers the nanoseconds of each, and its figures.
fn settle_query(
    clock: &impl Clock,
    alloc: Global,
    snapshot: &Snapshot,
    count: u32,
) -> io::Result<(u128, u128, Measured)>
    requires some { 1 ≤ count }
    requires most { count ≤ 2048 }
{
    let start = Instant::now(clock)?;
    let Ok(built) = build_generated(alloc, snapshot, count) else {
        return Err(lacks_memory());
    };
    let building = since(clock, start)?;
    let start = Instant::now(clock)?;
    let Ok(measured) = measure_built(alloc, &built) else {
        return Err(lacks_memory());
    };
    Ok((building, since(clock, start)?, measured))
}

/// The parts of one run over so many credentials, and the figures of its query.
fn measure_once<R: Wait + Clock>(rt: &R, alloc: Global, count: u32) -> io::Result<(Parts, Measured)>
    requires some { 1 ≤ count }
    requires most { count ≤ 2048 }
{
    let start = Instant::now(rt)?;
    let Ok(texts) = generate_texts(alloc, 1, count) else {
        return Err(lacks_memory());
    };
    let generating = since(rt, start)?;
    let Ok((registry, mut root)) = Registry::start(alloc) else {
        return Err(lacks_memory());
    };
    let (reading, ready_texts) = read_all(rt, alloc, &texts)?;
    let start = Instant::now(rt)?;
    let Ok(()) = registry.add_all(rt, &mut root, ready_texts) else {
        return Err(lacks_memory());
    };
    let adding = since(rt, start)?;
    let Ok(snapshot) = registry.pin(rt, &mut root) else {
        return Err(lacks_memory());
    };
    let (building, settling, measured) = settle_query(rt, alloc, &snapshot, count)?;
    let parts = Parts {
        generating,
        reading,
        adding,
        building,
        settling,
    };
    Ok((parts, measured))
}

/// The least of the parts over several rounds.
fn measure_often<R: Wait + Clock>(rt: &R, alloc: Global, count: u32) -> io::Result<Parts>
    requires some { 1 ≤ count }
    requires most { count ≤ 2048 }
{
    let (mut parts, _) = measure_once(rt, alloc, count)?;
    for _ in 1..ROUNDS {
        parts = least(parts, measure_once(rt, alloc, count)?.0);
    }
    Ok(parts)
}

/// Prints what each part of `gen` takes at each size, or the figures of the query.
///
/// `handle` is the runtime that may wait, and `rt` the same one, which prints.
fn measure_generating<R: Wait + Clock>(
    handle: &R,
    rt: &HostRuntime,
    is_timed: bool,
) -> io::Result<()> {
    for size in SIZES {
        if is_timed {
            let parts = measure_often(handle, rt.alloc(), size)?;
            println!(rt;
                "{size} {} {} {} {} {}",
                parts.generating, parts.reading, parts.adding, parts.building, parts.settling
            )?;
        } else {
            let (_, figures) = measure_once(handle, rt.alloc(), size)?;
            println!(rt;
                "{size} credentials: level {}, {} rows, {} principals, {} nodes, {} uses, {} levels",
                figures.level,
                figures.rows,
                figures.principals,
                figures.nodes,
                figures.uses,
                figures.levels
            )?;
        }
    }
    Ok(())
}

fn main(rt: HostRuntime) -> io::Result<()> {
    let is_timed = env::args(&rt)?.len() > 1;
    measure_generating(&rt, &rt, is_timed)
}
