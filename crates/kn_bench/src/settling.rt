//! How long building and settling a system takes: chains in the order that is worst for scans of the rows, in the best,
//! and mixed formulas, of 128 to 4,096 rows.
//!
//! Untimed, what was settled is printed: the policy's level, the rows of the proof and the steps. Timed, it is the
//! nanoseconds of building and of settling each system, each the least of several rounds. `bench/settle_c` does the
//! same in C.

ghost use Rattle.std.specs.Prelude.{◌≤◌, All, length};
ghost use Rattle.kn_bench.specs.Rows.{IsStated};

use crate::clock::{lacks_memory, since};
use crate::stated::{Mark, Shape, Stated, build, state};
use kn_base::{NoMemory, Steps};
use kn_settle::settle;
use std::alloc::Global;
use std::io;
use std::rt::Clock;
use std::time::Instant;

const SHAPES: [Shape; 3] = [Shape::Worst, Shape::Best, Shape::Mixed];

const SIZES: [u32; 6] = [128, 256, 512, 1_024, 2_048, 4_096];

/// Rounds, of which the least counts.
const ROUNDS: u32 = 50;

/// The nanoseconds of building the system and of settling it.
fn measure_once(
    clock: &impl Clock,
    alloc: Global,
    size: u32,
    rows: &[Stated],
) -> io::Result<(u128, u128)>
    requires most { size ≤ 4096 }
    requires few { length rows.now ≤ 4096 }
    requires stated { All (IsStated size) rows.now }
{
    let start = Instant::now(clock)?;
    let Ok(system) = build(alloc, size, rows) else {
        return Err(lacks_memory());
    };
    let building = since(clock, start)?;
    let mut steps = Steps::start(Mark);
    let start = Instant::now(clock)?;
    let Ok(_settled) = settle(alloc, &system, &mut steps) else {
        return Err(lacks_memory());
    };
    Ok((building, since(clock, start)?))
}

/// The least of each over several rounds.
fn measure_often(
    clock: &impl Clock,
    alloc: Global,
    size: u32,
    rows: &[Stated],
) -> io::Result<(u128, u128)>
    requires most { size ≤ 4096 }
    requires few { length rows.now ≤ 4096 }
    requires stated { All (IsStated size) rows.now }
{
    let (mut building, mut settling) = measure_once(clock, alloc, size, rows)?;
    for _ in 1..ROUNDS {
        let (built, settled) = measure_once(clock, alloc, size, rows)?;
        building = building.min(built);
        settling = settling.min(settled);
    }
    Ok((building, settling))
}

/// The policy's level, the rows of the proof and the steps.
fn settle_once(alloc: Global, size: u32, rows: &[Stated]) -> Result<(u8, u32, u64), NoMemory>
    requires most { size ≤ 4096 }
    requires few { length rows.now ≤ 4096 }
    requires stated { All (IsStated size) rows.now }
{
    let system = build(alloc, size, rows)?;
    let mut steps = Steps::start(Mark);
    let settled = settle(alloc, &system, &mut steps)?;
    let level = settled.values.as_slice().first().copied().unwrap_or(0);
    Ok((level, settled.proof.rows.len(), steps.count()))
}

/// Prints what building and settling each system takes, or what was settled.
pub(crate) fn measure_settling(rt: &HostRuntime, is_timed: bool) -> io::Result<()> {
    for shape in SHAPES {
        for size in SIZES {
            let Ok(rows) = state(rt.alloc(), shape, size) else {
                return Err(lacks_memory());
            };
            let name = shape.name();
            if is_timed {
                let (building, settling) = measure_often(rt, rt.alloc(), size, rows.as_slice())?;
                println!(rt; "{name} {size} {building} {settling}")?;
            } else {
                let Ok((level, proven, steps)) = settle_once(rt.alloc(), size, rows.as_slice())
                else {
                    return Err(lacks_memory());
                };
                println!(rt; "{name} {size}: level {level}, {proven} rows, {steps} steps")?;
            }
        }
    }
    Ok(())
}
