//! Passes of one registry side by side: whether all that they saw is one history, and how many pins and updates a
//! second they make.
//!
//! Without words it tries two passes in turn, and then a short history. `history PASSES CALLS ROUNDS` tries a longer
//! one, with new passes in each round. `pins WORKERS CALLS READS` prints the nanoseconds of so many pins by each of so
//! many workers, with so many readings of the snapshot behind each pin; `reads` takes the same numbers and pins once
//! only. `updates READERS CALLS` prints those of so many updates beside so many workers that pin.
#![tactic(auto)]

mod event;
mod history;
mod measure;
mod replay;
mod two_passes;
mod words;
mod worker;

use history::is_one_history;
use measure::{pin_time, read_time, update_time};
use std::io;
use two_passes::{Seen, two_passes};
use words::{Command, read_command};

fn main(rt: HostRuntime) -> io::Result<()> {
    match read_command(&rt)? {
        Command::Try => {
            print_seen(&rt, &two_passes(&rt, rt.alloc())?)?;
            let held = is_one_history(&rt, rt.alloc(), 8, 24, 2)?;
            print_history(&rt, (8, 24, 2), held)
        }
        Command::History(passes, calls, rounds) => {
            let held = is_one_history(&rt, rt.alloc(), passes, calls, rounds)?;
            print_history(&rt, (passes, calls, rounds), held)
        }
        Command::Pins(workers, calls, reads) => {
            println!(rt; "{}", pin_time(&rt, rt.alloc(), workers, calls, reads)?)
        }
        Command::Reads(workers, calls, reads) => {
            println!(rt; "{}", read_time(&rt, rt.alloc(), workers, calls, reads)?)
        }
        Command::Updates(readers, calls) => {
            println!(rt; "{}", update_time(&rt, rt.alloc(), readers, calls)?)
        }
    }
}

/// What two passes saw in turn.
fn print_seen(rt: &HostRuntime, seen: &Seen) -> io::Result<()> {
    let (id, version) = seen.added;
    println!(rt;
        "a{id} is in version {version}; the other pass has met {} update",
        seen.met
    )?;
    println!(rt;
        "it pins version {}; version {} is without a{id}",
        seen.pinned, seen.removed
    )?;
    let kept = if seen.is_kept { "still" } else { "no more" };
    println!(rt; "the pinned version has it {kept}")?;
    match seen.unknown {
        Some(id) => println!(rt; "a{id} is unknown then"),
        None => println!(rt; "a{id} is removed again"),
    }
}

/// Whether the history of so many passes, calls and rounds was one.
fn print_history(rt: &HostRuntime, numbers: (u32, u32, u32), held: bool) -> io::Result<()> {
    let (passes, calls, rounds) = numbers;
    let verdict = if held {
        "one history"
    } else {
        "no one history"
    };
    println!(rt; "{rounds} rounds of {passes} passes with {calls} calls each: {verdict}")
}
