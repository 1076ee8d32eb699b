//! How fast `tokens` reads, against a plain scan of the same bytes: for each size from 1 KiB to 16 KiB the
//! nanoseconds of one call, the ratio to std's scan, and the ratio to the size before.
//! Untimed, each size is lexed once, and the number of its tokens is printed.
ghost use Rattle.std.specs.Prelude.{◌≤◌, length, vec_len, IfOk};

use kn_lex::tokens;
use std::alloc::{AllocError, Global};
use std::io;
use std::rt::Clock;
use std::time::Instant;

const ASSERTION: &[u8] =
    b"Authorizer: \"POLICY\"\nLicensees: 2-of(\"alice\", \"bob\\n\") || \"carol\"\n\
    Conditions: app_domain == \"IPsec policy\" && @level > 12 -> \"true\";\n# noted\nComment: read\n by nobody\n";

/// Calls in one measurement.
const ROUNDS: u32 = 200;

/// Whole assertions, and a comment up to the size.
fn sample(alloc: Global, size: usize) -> Result<Vec<u8>, AllocError>
    requires { size ≤ 16384 }
    ensures { IfOk result (λ text. vec_len text ≤ size) }
{
    let mut text = Vec::new(alloc);
    'assertions: while text.len() + ASSERTION.len() <= size {
        text.extend_from_slice(ASSERTION)?;
    }
    'fill: while text.len() < size {
        text.push(b'#')?;
    }
    Ok(text)
}

/// The number of tokens, or 0 where the text has none.
fn count(alloc: Global, text: &[u8]) -> u32
    requires { length text.now ≤ 16384 }
{
    match tokens(alloc, text) {
        Ok(list) => list.len(),
        Err(_fault) => 0,
    }
}

/// Nanoseconds of so many calls.
fn lexing(clock: &impl Clock, alloc: Global, text: &[u8], rounds: u32) -> io::Result<u128>
    requires { length text.now ≤ 16384 }
{
    let start = Instant::now(clock)?;
    let mut seen: u32 = 0;
    for _ in 0..rounds {
        seen = seen.wrapping_add(count(alloc, text));
    }
    let spent = start.elapsed(clock)?.as_nanos();
    Ok(if seen == 1 { 0 } else { spent })
}

/// Nanoseconds of so many plain scans.
fn measure_scans(clock: &impl Clock, text: &[u8], rounds: u32) -> io::Result<u128> {
    let start = Instant::now(clock)?;
    let mut seen: usize = 0;
    for i in 0..rounds {
        let byte = (i % 7) as u8;
        seen = seen.wrapping_add(text.iter().position(|b| *b == byte).unwrap_or(0));
    }
    let spent = start.elapsed(clock)?.as_nanos();
    Ok(if seen == 1 { 0 } else { spent })
}

/// The least of several measurements, which other work on the machine disturbs least: of calls and of scans.
fn least(clock: &impl Clock, alloc: Global, text: &[u8]) -> io::Result<(u128, u128)>
    requires { length text.now ≤ 16384 }
{
    let mut lexed = u128::MAX;
    let mut scanned = u128::MAX;
    for _ in 0..30 {
        lexed = lexed.min(lexing(clock, alloc, text, ROUNDS)?);
        scanned = scanned.min(measure_scans(clock, text, ROUNDS)?);
    }
    Ok((lexed, scanned))
}

/// Prints what lexing each size takes, or how many tokens it has.
pub(crate) fn measure_lexing(rt: &HostRuntime, is_timed: bool) -> io::Result<()> {
    let mut before: u128 = 0;
    for size in [1024, 2048, 4096, 8192, 16384] {
        let Ok(text) = sample(rt.alloc(), size) else {
            return Ok(());
        };
        if !is_timed {
            println!(rt;
                "{size} bytes, {} tokens",
                count(rt.alloc(), text.as_slice())
            )?;
            continue;
        }
        let (lexed, scanned) = least(rt, rt.alloc(), text.as_slice())?;
        let bytes = size as u128 * u128::from(ROUNDS);
        println!(rt;
            "{size} bytes: {} ns a call, {} MB/s, {} times a plain scan (in tenths), \
            {} times the size before (in hundredths)",
            lexed / u128::from(ROUNDS),
            bytes.saturating_mul(1_000).checked_div(lexed).unwrap_or(0),
            lexed.saturating_mul(10).checked_div(scanned).unwrap_or(0),
            lexed.saturating_mul(100).checked_div(before).unwrap_or(0)
        )?;
        before = lexed;
    }
    Ok(())
}
