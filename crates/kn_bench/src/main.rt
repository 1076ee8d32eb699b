//! What parts of keynoted take by themselves: the lexer, the feed of requests, an update of the book, and settling a
//! system.
//!
//! Without words each part is run once, and what it gives is printed, which is the same on each machine. `PART` does
//! that for one of `lexer`, `feed`, `updates`, `batches` and `settling`, and `PART time` prints what it takes.
//! `keep LIVE COUNT` makes so many updates at so many live credentials and keeps each version. `books LIVE COUNT` makes
//! 64 books of so many updates and keeps them, and `newest LIVE COUNT` the newest version of each alone.
//! `keep-batches LIVE COUNT` keeps 16 books behind so many batches of additions, and `credentials COUNT` so many
//! credentials outside any book.
#![tactic(auto)]

mod batching;
mod clock;
mod feeding;
mod lexing;
mod settling;
mod stated;
mod updating;

use batching::{keep_batches, keep_books, keep_credentials, measure_batches};
use feeding::measure_feeding;
use kn_base::decimal;
use lexing::measure_lexing;
use settling::measure_settling;
use std::{env, io};
use updating::{keep_versions, measure_updates};

/// Runs each part once.
fn show_all(rt: &HostRuntime) -> io::Result<()> {
    measure_lexing(rt, false)?;
    measure_feeding(rt, false)?;
    measure_updates(rt, false)?;
    measure_batches(rt, false)?;
    measure_settling(rt, false)
}

/// The number that a word spells, if there is one.
fn number_of(word: Option<String>) -> Option<u32> {
    word.and_then(|word| decimal(word.as_bytes()))
}

fn main(rt: HostRuntime) -> io::Result<()> {
    let mut words = env::args(&rt)?;
    let _program = words.next();
    let Some(part) = words.next() else {
        return show_all(&rt);
    };
    let second = words.next();
    let is_timed = second.is_some();
    let live = number_of(second).unwrap_or(1);
    let count = number_of(words.next()).unwrap_or(1);
    match part.as_str() {
        "lexer" => measure_lexing(&rt, is_timed),
        "feed" => measure_feeding(&rt, is_timed),
        "updates" => measure_updates(&rt, is_timed),
        "batches" => measure_batches(&rt, is_timed),
        "settling" => measure_settling(&rt, is_timed),
        "keep" => keep_versions(&rt, live, count),
        "keep-batches" => keep_batches(&rt, live, count),
        "credentials" => keep_credentials(&rt, live),
        "books" => keep_books(&rt, live, count, false),
        "newest" => keep_books(&rt, live, count, true),
        _ => Err(io::Error::from(io::ErrorKind::InvalidInput)),
    }
}
