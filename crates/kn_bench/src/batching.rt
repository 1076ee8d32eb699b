//! What a batch of 256 changes costs at 2,048 live credentials.
//!
//! Untimed, one batch is made and its version is printed, then the first refused item of a batch for which there is no
//! room, and which versions a book retains.
ghost use Rattle.std.specs.Prelude.{◌≡◌, ◌≤◌, length, IfOk};
ghost use Rattle.kn_base.specs.declared.limits.TheConstants.{CHANGES};

use crate::updating::{TEXT, fill_book, keep, make_ready};
use kn_base::limits::CHANGES;
use kn_base::{List, NoMemory};
use kn_history::{BatchFault, Item};
use kn_store::{Book, Done};
use std::alloc::Global;
use std::io;
use std::rt::Clock;
use std::sync::Arc;
use std::time::Instant;

/// The live credentials of a book whose batches are measured.
const LIVE: u32 = 2_048;

/// Pairs of a batch of additions and one of removals, of which the least counts.
const ROUNDS: u32 = 100;

/// Books that are kept at once.
const BOOKS: u32 = 64;

/// Books that are kept at once behind batches.
const BATCHED_BOOKS: u32 = 16;

/// Items that add the text so many times.
fn additions(alloc: Global, count: u32) -> Result<List<Item>, NoMemory>
    ensures { IfOk result (λ items. length items ≡ count) }
{
    let mut items = List::new(alloc);
    'items: while items.len() < count {
        let Ok(ready) = make_ready(alloc, TEXT) else {
            return Err(NoMemory);
        };
        items.add(Item::Add(ready))?;
    }
    Ok(items)
}

/// Items that remove so many ids, from this one on.
fn removals(alloc: Global, first: u32, count: u32) -> Result<List<Item>, NoMemory>
    ensures { IfOk result (λ items. length items ≡ count) }
{
    let mut items = List::new(alloc);
    for place in 0..count {
        items.add(Item::Remove(first.wrapping_add(place)))?;
    }
    Ok(items)
}

/// Makes one update of these items.
fn make(book: &mut Book, items: List<Item>) -> Result<Done, BatchFault>
    requires some { 1 ≤ length items }
    requires few { length items ≤ CHANGES }
{
    let prepared = book.prepare_batch(0, items)?;
    Ok(book.commit(prepared))
}

/// Adds the text so many times by one update.
fn add_batch(alloc: Global, book: &mut Book, count: u32) -> Result<Done, BatchFault>
    requires some { 1 ≤ count }
    requires few { count ≤ CHANGES }
{
    let items = additions(alloc, count)?;
    make(book, items)
}

/// The nanoseconds of a batch of additions and of one that removes them again, or None when out of memory.
fn time_pair(
    clock: &impl Clock,
    alloc: Global,
    book: &mut Book,
) -> io::Result<Option<(u128, u128)>> {
    let Ok(items) = additions(alloc, CHANGES) else {
        return Ok(None);
    };
    let start = Instant::now(clock)?;
    let Ok(added) = make(book, items) else {
        return Ok(None);
    };
    let addition = start.elapsed(clock)?.as_nanos();
    let Ok(items) = removals(alloc, added.id, CHANGES) else {
        return Ok(None);
    };
    let start = Instant::now(clock)?;
    match make(book, items) {
        Ok(_) => Ok(Some((addition, start.elapsed(clock)?.as_nanos()))),
        Err(_) => Ok(None),
    }
}

/// The least of several pairs, which other work on the machine disturbs least.
fn least(clock: &impl Clock, alloc: Global, book: &mut Book) -> io::Result<(u128, u128)> {
    let (mut additions, mut removals) = (u128::MAX, u128::MAX);
    for _ in 0..ROUNDS {
        let (addition, removal) = time_pair(clock, alloc, book)?.unwrap_or((u128::MAX, u128::MAX));
        additions = additions.min(addition);
        removals = removals.min(removal);
    }
    Ok((additions, removals))
}

fn time(rt: &HostRuntime) -> io::Result<()> {
    if let Ok(mut book) = fill_book(rt.alloc(), LIVE) {
        let (additions, removals) = least(rt, rt.alloc(), &mut book)?;
        println!(rt;
            "{LIVE} live: {additions} ns a batch of {CHANGES} additions, {removals} ns a batch of {CHANGES} removals"
        )?;
    }
    Ok(())
}

fn show_batch(rt: &HostRuntime) -> io::Result<()> {
    if let Ok(mut book) = fill_book(rt.alloc(), LIVE)
        && let Ok(done) = add_batch(rt.alloc(), &mut book, CHANGES)
    {
        println!(rt;
            "{LIVE} live, a batch of {CHANGES}: version {} has {}, from id {}",
            done.version,
            book.snapshot().len(),
            done.id
        )?;
    }
    Ok(())
}

/// A batch of three texts where there is room for one.
fn show_refused_item(rt: &HostRuntime) -> io::Result<()> {
    if let Ok(mut book) = fill_book(rt.alloc(), 4_095)
        && let Err(fault) = add_batch(rt.alloc(), &mut book, 3)
    {
        println!(rt; "{} live, a batch of 3: {fault:?}", book.snapshot().len())?;
    }
    Ok(())
}

/// The first version that is retained, and how many are.
fn retained(book: &Book) -> (u32, u32) {
    let (mut first, mut count) = (0u32, 0u32);
    for version in 0..book.length() {
        if book.retained(version).is_some() {
            count = count.wrapping_add(1);
        } else {
            first = version.wrapping_add(1);
        }
    }
    (first, count.wrapping_add(1))
}

fn show_retained(rt: &HostRuntime) -> io::Result<()> {
    for live in [1, 16, 17, LIVE] {
        if let Ok(book) = fill_book(rt.alloc(), live) {
            let (first, count) = retained(&book);
            println!(rt; "{live} updates: {count} versions are retained, from {first} on")?;
        }
    }
    Ok(())
}

/// Prints the nanoseconds of a batch, or what batches come to.
pub(crate) fn measure_batches(rt: &HostRuntime, is_timed: bool) -> io::Result<()> {
    if is_timed {
        return time(rt);
    }
    show_batch(rt)?;
    show_refused_item(rt)?;
    show_retained(rt)
}

/// A book of so many live credentials behind so many batches of additions.
fn batched_book(alloc: Global, live: u32, count: u32) -> Option<Book> {
    let mut book = fill_book(alloc, live).ok()?;
    for _ in 0..count {
        add_batch(alloc, &mut book, CHANGES).ok()?;
    }
    Some(book)
}

/// Keeps 16 books of so many live credentials, each behind so many batches of additions, for whoever measures what a
/// version behind one takes.
pub(crate) fn keep_batches(rt: &HostRuntime, live: u32, count: u32) -> io::Result<()> {
    let mut books = Vec::new(rt.alloc());
    for _ in 0..BATCHED_BOOKS {
        let Some(book) = batched_book(rt.alloc(), live, count) else {
            return Ok(());
        };
        let _ = books.push(book);
    }
    println!(rt; "{} books behind {count} batches", books.len())
}

/// Keeps so many credentials outside any book, each a text and what was read of it, for whoever measures their memory.
pub(crate) fn keep_credentials(rt: &HostRuntime, count: u32) -> io::Result<()> {
    let Ok(mut credentials) = Vec::with_capacity(rt.alloc(), count as usize) else {
        return Ok(());
    };
    for _ in 0..count {
        let Ok(ready) = make_ready(rt.alloc(), TEXT) else {
            return Ok(());
        };
        let (credential, _logged) = ready.into_parts();
        let _ = credentials.push(credential);
    }
    println!(rt; "{} credentials kept", credentials.len())
}

/// A book after so many updates at so many live credentials.
fn updated_book(alloc: Global, live: u32, count: u32) -> Option<Book> {
    let mut versions = Vec::new(alloc);
    let mut book = fill_book(alloc, live).ok()?;
    keep(alloc, &mut book, count, &mut versions).ok()?;
    Some(book)
}

/// Keeps books after so many updates each, or the newest version of each alone, for whoever measures the memory of the
/// versions that a book retains.
pub(crate) fn keep_books(
    rt: &HostRuntime,
    live: u32,
    count: u32,
    is_newest_alone: bool,
) -> io::Result<()> {
    let mut books = Vec::new(rt.alloc());
    let mut versions = Vec::new(rt.alloc());
    for _ in 0..BOOKS {
        let Some(book) = updated_book(rt.alloc(), live, count) else {
            return Ok(());
        };
        if let Ok(newest) = Arc::try_clone(book.snapshot()) {
            let _ = versions.push(newest);
        }
        if !is_newest_alone {
            let _ = books.push(book);
        }
    }
    println!(rt; "{} books, {} newest versions", books.len(), versions.len())
}
