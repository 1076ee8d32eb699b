//! Time that has passed, and what ends a measurement.

use std::io;
use std::rt::Clock;
use std::time::Instant;

/// Nanoseconds since then.
pub(crate) fn since(clock: &impl Clock, start: Instant) -> io::Result<u128> {
    Ok(start.elapsed(clock)?.as_nanos())
}

pub(crate) fn lacks_memory() -> io::Error {
    io::Error::from(io::ErrorKind::OutOfMemory)
}
