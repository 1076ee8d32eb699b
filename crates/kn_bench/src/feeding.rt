//! How fast a feed reads small requests in pieces of 1, 16, 256 and 4,096 bytes: megabytes a second, and nanoseconds a
//! request. Untimed, they are read once, and the number of requests is printed.
ghost use Rattle.std.specs.Prelude.{◌≡◌, ◌≤◌, ◌<◌, None, IfSome};
ghost use Rattle.kn_wire.specs.Feeding.{next_of};
ghost use Rattle.kn_wire.specs.Feeds.{held};

use kn_wire::{CHUNK_BYTES, Feed, WireFault};
use std::alloc::{AllocError, Global};
use std::io;
use std::rt::Clock;
use std::time::Instant;

const REQUESTS: &[u8] =
    b"OPEN\nSET 1 app_domain doors\nSETX 1 hour 3132\nAUTH 1 alice\nQUERY 1 no,ring,open\nUNAUTH 1 alice\n\
    ASSERT 1 23\nAuthorizer: \"director\"\n\nRETRACT 1 p1\nCLOSE 1\nOPEN 1\nPIN 1 2\nLOG 0\nBATCH 8\nDROP a1\n\n\
    WATCH 1 no,ring,open\nNEWS 1\nUNWATCH 1\nCRITICAL 1 no,ring,open\n";

/// The bytes of a stream.
const STREAM_BYTES: usize = 262_144;

/// Whole requests, up to the size of a stream.
fn sample(alloc: Global) -> Result<Vec<u8>, AllocError> {
    let mut text = Vec::new(alloc);
    'requests: while text.len() + REQUESTS.len() <= STREAM_BYTES {
        text.extend_from_slice(REQUESTS)?;
    }
    Ok(text)
}

/// Takes all requests, and counts them; None after a refused block.
fn take_all(feed: &mut Feed) -> Option<u32>
    ensures { IfSome result (λ _. next_of (held feed.new) ≡ None) }
{
    let mut taken: u32 = 0;
    for _ in 0..CHUNK_BYTES + 1 {
        match feed.next() {
            Ok(None) => return Some(taken),
            Ok(Some(_)) => taken = taken.wrapping_add(1),
            Err(WireFault::Syntax | WireFault::Command | WireFault::Long) => {
                taken = taken.wrapping_add(1);
            }
            Err(WireFault::Block { .. }) => return None,
        }
    }
    None
}

/// Counts the requests of a stream in pieces of so many bytes; 0 when memory ran out or a block was refused.
fn hear(alloc: Global, text: &[u8], size: usize) -> u32
    requires some { 0 < size }
    requires short { size ≤ CHUNK_BYTES }
{
    let Ok(mut feed) = Feed::new(alloc) else {
        return 0;
    };
    let Some(mut taken) = take_all(&mut feed) else {
        return 0;
    };
    let mut rest = text;
    'pieces: while !rest.is_empty() {
        let (piece, behind) = rest.split_at(size.min(rest.len()));
        feed.push(piece);
        let Some(more) = take_all(&mut feed) else {
            return 0;
        };
        taken = taken.wrapping_add(more);
        rest = behind;
    }
    taken
}

/// The least nanoseconds of several runs, which other work on the machine disturbs least.
fn least(clock: &impl Clock, alloc: Global, text: &[u8], size: usize) -> io::Result<u128>
    requires some { 0 < size }
    requires short { size ≤ CHUNK_BYTES }
{
    let mut least = u128::MAX;
    for _ in 0..50 {
        let start = Instant::now(clock)?;
        let taken = hear(alloc, text, size);
        let spent = start.elapsed(clock)?.as_nanos();
        if taken > 0 {
            least = least.min(spent);
        }
    }
    Ok(least)
}

/// Prints how fast the feed reads pieces of each size, or how many requests it finds.
pub(crate) fn measure_feeding(rt: &HostRuntime, is_timed: bool) -> io::Result<()> {
    let Ok(text) = sample(rt.alloc()) else {
        return Ok(());
    };
    let bytes = text.len() as u128;
    for size in [1, 16, 256, 4_096] {
        let requests = hear(rt.alloc(), text.as_slice(), size);
        if !is_timed {
            println!(rt; "{size} bytes a piece: {requests} requests of {bytes} bytes")?;
            continue;
        }
        let spent = least(rt, rt.alloc(), text.as_slice(), size)?;
        println!(rt;
            "{size} bytes a piece: {} MB/s, {} ns a request",
            bytes.saturating_mul(1_000).checked_div(spent).unwrap_or(0),
            spent.checked_div(u128::from(requests)).unwrap_or(0)
        )?;
    }
    Ok(())
}
