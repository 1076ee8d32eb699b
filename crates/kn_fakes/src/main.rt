//! The parts of the daemon over an outside in memory: links, doors and nets of which each call fails in turn, and a
//! gate at which two connections meet. No run of the program shows what they do then.
//!
//! What is printed is compared with the file `stdout` of this crate.
#![tactic(auto)]

mod doors;
mod lists;
mod meeting;
mod pulls;
mod replies;

use doors::serve_doors;
use kn_serve::Ended;
use pulls::{is_pulled_whole, pulls_with_failed_calls, pulls_with_other_answers};
use replies::{ADDS, ASKS, Left, is_unlisted, serve_over};
use std::{io, str};

fn main(rt: HostRuntime) -> io::Result<()> {
    for (what, input) in [("an addition", ADDS), ("a query", ASKS)] {
        for failing in 2..6 {
            let left = serve_over(&rt, rt.alloc(), input, failing).or(Err(lacks_memory()))?;
            print_left(&rt, what, failing, &left)?;
        }
    }
    let unlisted = is_unlisted(rt.alloc()).or(Err(lacks_memory()))?;
    print_verdict(&rt, "a text of another digest isn't listed", unlisted)?;
    let whole = is_pulled_whole(rt.alloc()).or(Err(lacks_memory()))?;
    print_verdict(&rt, "all updates are pulled", whole)?;
    let failed = pulls_with_failed_calls(rt.alloc()).or(Err(lacks_memory()))?;
    println!(rt; "pulls over a failing link that end as they have to: {failed} of 6")?;
    let others = pulls_with_other_answers(rt.alloc()).or(Err(lacks_memory()))?;
    println!(rt; "pulls of other answers that end as they have to: {others} of 42")?;
    let doors = serve_doors(&rt, rt.alloc()).or(Err(lacks_memory()))?;
    println!(rt; "services over doors in memory that end as they have to: {doors} of 5")
}

fn lacks_memory() -> io::Error {
    io::Error::from(io::ErrorKind::OutOfMemory)
}

fn print_verdict(rt: &HostRuntime, what: &str, holds: bool) -> io::Result<()> {
    println!(rt; "{what}: {}", if holds { "yes" } else { "no" })
}

/// What a connection left of which this call fails, and what was written to it. The whole input comes with call 1.
fn print_left(rt: &HostRuntime, what: &str, failing: u32, left: &Left) -> io::Result<()> {
    let ended = match left.ended {
        Ended::Done => "done",
        Ended::ReadFault => "read fault",
        Ended::WriteFault => "write fault",
        _ => "otherwise",
    };
    println!(rt;
        "{what} over a link that fails at call {failing}: {ended}, {} failed, then version {}",
        left.link.faults(),
        left.version
    )?;
    print!(rt;
        "{}",
        str::from_utf8(left.link.written()).unwrap_or("no text")
    )
}
