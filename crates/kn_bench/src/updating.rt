//! What one update of the book costs at 1, 64, 512 and 2,048 live credentials.
//!
//! Untimed, one update is made at each size and its version is printed; then books are filled up to each limit, and
//! the fault of one update more is printed: by the count of live credentials and by their bytes, by the count of
//! changes and by the bytes of all texts; and of three texts at once, where there is room for one, the place of the
//! first that is refused.

use kn_assert::read;
use kn_history::{Ready, StoreFault};
use kn_store::{Book, Snapshot};
use std::alloc::{AllocError, Global};
use std::io;
use std::rt::Clock;
use std::sync::Arc;
use std::time::Instant;

/// 37 bytes.
pub(crate) const TEXT: &[u8] = b"Authorizer: \"alice\"\nLicensees: \"bob\"\n";

const SIZES: [u32; 4] = [1, 64, 512, 2_048];

/// Pairs of a removal and an addition in one measurement.
const PAIRS: u32 = 500;

/// Measurements, of which the least counts.
const ROUNDS: u32 = 20;

pub(crate) fn make_ready(alloc: Global, text: &[u8]) -> Result<Ready, StoreFault> {
    match read(alloc, text) {
        Ok(assertion) => Ok(Ready::of(alloc, text, assertion)?),
        Err(_) => Err(StoreFault::NoMemory),
    }
}

/// Adds a text that is ready, and answers its id.
fn add_ready(book: &mut Book, ready: Ready) -> Result<u32, StoreFault> {
    let prepared = book.prepare_add(0, ready)?;
    Ok(book.commit(prepared).id)
}

/// Adds the text, and answers its id.
fn add(alloc: Global, book: &mut Book, text: &[u8]) -> Result<u32, StoreFault> {
    add_ready(book, make_ready(alloc, text)?)
}

/// Adds the text so many times at once, unless one of them is refused: then its place is given, counted from 0.
fn add_at_once(alloc: Global, book: &mut Book, count: u32) -> Result<(), (u32, StoreFault)> {
    let mut ready_texts = Vec::new(alloc);
    for place in 0..count {
        let Ok(ready) = make_ready(alloc, TEXT) else {
            return Err((place, StoreFault::NoMemory));
        };
        if ready_texts.push(ready).is_err() {
            return Err((place, StoreFault::NoMemory));
        }
    }
    book.add_all(0, ready_texts)
}

/// Removes the id, and answers the version.
fn remove(book: &mut Book, id: u32) -> Result<u32, StoreFault> {
    let prepared = book.prepare_drop(0, id)?;
    Ok(book.commit(prepared).version)
}

/// A book with so many live credentials.
pub(crate) fn fill_book(alloc: Global, live: u32) -> Result<Book, StoreFault> {
    let mut book = Book::empty(alloc)?;
    match add_at_once(alloc, &mut book, live) {
        Ok(()) => Ok(book),
        Err((_, fault)) => Err(fault),
    }
}

/// The nanoseconds of one removal of the first id, or None when out of memory.
fn time_removal(clock: &impl Clock, book: &mut Book) -> io::Result<Option<u128>> {
    let id = if book.snapshot().len() > 0 {
        book.snapshot().id(0)
    } else {
        0
    };
    let start = Instant::now(clock)?;
    match remove(book, id) {
        Ok(_) => Ok(Some(start.elapsed(clock)?.as_nanos())),
        Err(_) => Ok(None),
    }
}

/// The nanoseconds of one addition of a text that was read before, or None when out of memory.
fn time_addition(clock: &impl Clock, alloc: Global, book: &mut Book) -> io::Result<Option<u128>> {
    let Ok(ready) = make_ready(alloc, TEXT) else {
        return Ok(None);
    };
    let start = Instant::now(clock)?;
    match add_ready(book, ready) {
        Ok(_) => Ok(Some(start.elapsed(clock)?.as_nanos())),
        Err(_) => Ok(None),
    }
}

/// The nanoseconds of the removals and of the additions of one measurement.
fn measure(clock: &impl Clock, alloc: Global, book: &mut Book) -> io::Result<(u128, u128)> {
    let (mut removals, mut additions) = (0u128, 0u128);
    for _ in 0..PAIRS {
        let removal = time_removal(clock, book)?;
        let addition = time_addition(clock, alloc, book)?;
        removals = removals.saturating_add(removal.unwrap_or(0));
        additions = additions.saturating_add(addition.unwrap_or(0));
    }
    Ok((removals, additions))
}

/// The least of several measurements, which other work on the machine disturbs least.
fn least(clock: &impl Clock, alloc: Global, book: &mut Book) -> io::Result<(u128, u128)> {
    let (mut removals, mut additions) = (u128::MAX, u128::MAX);
    for _ in 0..ROUNDS {
        let (removal, addition) = measure(clock, alloc, book)?;
        removals = removals.min(removal);
        additions = additions.min(addition);
    }
    Ok((removals, additions))
}

/// Makes so many updates, of which every second one adds, and keeps each version.
pub(crate) fn keep(
    alloc: Global,
    book: &mut Book,
    count: u32,
    kept: &mut Vec<Snapshot>,
) -> Result<(), StoreFault> {
    for turn in 0..count {
        if turn % 2 == 0 && book.snapshot().len() > 0 {
            let id = book.snapshot().id(0);
            remove(book, id)?;
        } else {
            add(alloc, book, TEXT)?;
        }
        let Ok(snapshot) = Arc::try_clone(book.snapshot()) else {
            return Err(StoreFault::NoMemory);
        };
        if kept.push(snapshot).is_err() {
            return Err(StoreFault::NoMemory);
        }
    }
    Ok(())
}

/// The fault that ends additions.
fn fault_of_additions(alloc: Global, book: &mut Book, text: &[u8]) -> StoreFault {
    for _ in 0..100_000 {
        if let Err(fault) = add(alloc, book, text) {
            return fault;
        }
    }
    StoreFault::NoMemory
}

/// The fault that ends additions, each of which is removed again.
fn fault_of_log(alloc: Global, book: &mut Book, text: &[u8]) -> StoreFault {
    for _ in 0..100_000 {
        let id = match add(alloc, book, text) {
            Ok(id) => id,
            Err(fault) => return fault,
        };
        if let Err(fault) = remove(book, id) {
            return fault;
        }
    }
    StoreFault::NoMemory
}

/// An assertion of 16,384 bytes, the most that there may be.
fn longest_text(alloc: Global) -> Result<Vec<u8>, AllocError> {
    let mut text = Vec::from_slice(alloc, TEXT)?;
    // 16,384 is `ASSERTION_BYTES`.
    for _ in 0..16_384 - TEXT.len() {
        text.push(b'#')?;
    }
    Ok(text)
}

fn show(rt: &HostRuntime) -> io::Result<()> {
    for live in SIZES {
        if let Ok(mut book) = fill_book(rt.alloc(), live)
            && let Ok(version) = remove(&mut book, 1)
        {
            println!(rt;
                "{live} live: version {version} has {}",
                book.snapshot().len()
            )?;
        }
    }
    Ok(())
}

fn time(rt: &HostRuntime) -> io::Result<()> {
    for live in SIZES {
        if let Ok(mut book) = fill_book(rt.alloc(), live) {
            let (removals, additions) = least(rt, rt.alloc(), &mut book)?;
            println!(rt;
                "{live} live: {} ns a removal, {} ns an addition",
                removals / u128::from(PAIRS),
                additions / u128::from(PAIRS)
            )?;
        }
    }
    Ok(())
}

/// Makes so many updates at so many live credentials and keeps each version, for whoever measures the memory of that.
pub(crate) fn keep_versions(rt: &HostRuntime, live: u32, count: u32) -> io::Result<()> {
    let mut kept = Vec::new(rt.alloc());
    if let Ok(mut book) = fill_book(rt.alloc(), live)
        && let Ok(()) = keep(rt.alloc(), &mut book, count, &mut kept)
    {
        println!(rt; "{} versions kept", kept.len())?;
    }
    Ok(())
}

fn show_limit_of_live(rt: &HostRuntime, text: &[u8]) -> io::Result<()> {
    if let Ok(mut book) = Book::empty(rt.alloc()) {
        let fault = fault_of_additions(rt.alloc(), &mut book, text);
        println!(rt;
            "{} live of {} bytes: {fault:?}",
            book.snapshot().len(),
            text.len()
        )?;
    }
    Ok(())
}

fn show_limit_of_log(rt: &HostRuntime, text: &[u8]) -> io::Result<()> {
    if let Ok(mut book) = Book::empty(rt.alloc()) {
        let fault = fault_of_log(rt.alloc(), &mut book, text);
        println!(rt;
            "{} updates of {} bytes: {fault:?}",
            book.length(),
            text.len()
        )?;
    }
    Ok(())
}

/// Three texts at once where there is room for one: 4,095 credentials are live, one fewer than `LIVE_CREDENTIALS`.
fn show_refused_place(rt: &HostRuntime) -> io::Result<()> {
    if let Ok(mut book) = fill_book(rt.alloc(), 4_095)
        && let Err((place, fault)) = add_at_once(rt.alloc(), &mut book, 3)
    {
        println!(rt;
            "{} live, 3 at once: {fault:?} at {place}",
            book.snapshot().len()
        )?;
    }
    Ok(())
}

fn show_limits(rt: &HostRuntime) -> io::Result<()> {
    let Ok(long) = longest_text(rt.alloc()) else {
        return Ok(());
    };
    for text in [TEXT, long.as_slice()] {
        show_limit_of_live(rt, text)?;
        show_limit_of_log(rt, text)?;
    }
    Ok(())
}

/// Prints the nanoseconds of a removal and of an addition at each size, or what the limits refuse.
pub(crate) fn measure_updates(rt: &HostRuntime, is_timed: bool) -> io::Result<()> {
    if is_timed {
        return time(rt);
    }
    show(rt)?;
    show_refused_place(rt)?;
    show_limits(rt)
}
