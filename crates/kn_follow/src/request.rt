//! The requests of a pull, as they are written.
ghost use Rattle.std.specs.Prelude.{◌≡◌, ◌<◌, IfOk};
ghost use Rattle.kn_follow.specs.Answers.{admin_line, bye_line, hex_digit, log_line};

use itoa::Buffer;
use kn_base::{NoMemory, Octets};
use std::alloc::Global;

/// What a pull asks.
#[derive(Clone, Copy, PartialEq, Eq)]
pub(crate) enum Request {
    Admin,
    Log,
    Bye,
}

/// The line that shows a secret.
pub(crate) fn admin_line(alloc: Global, secret: &[u8]) -> Result<Octets, NoMemory>
    ensures { IfOk result (λ line. line ≡ admin_line secret.now) }
{
    let mut line = Octets::from_slice(alloc, b"ADMIN ")?;
    for byte in secret {
        line.push(hex_digit(*byte / 16))?;
        line.push(hex_digit(*byte % 16))?;
    }
    line.push(b'\n')?;
    Ok(line)
}

/// The line that asks for the updates behind the first `held`.
pub(crate) fn log_line(alloc: Global, held: u32) -> Result<Octets, NoMemory>
    ensures { IfOk result (λ line. line ≡ log_line held) }
{
    let mut line = Octets::from_slice(alloc, b"LOG ")?;
    let mut buffer = Buffer::new();
    line.extend(buffer.format(held).as_bytes())?;
    line.push(b'\n')?;
    Ok(line)
}

/// A hexadecimal digit in lower case.
fn hex_digit(value: u8) -> u8
    requires { value < 16 }
    ensures { result ≡ hex_digit value }
{
    if value < 10 {
        b'0' + value
    } else {
        b'a' + (value - 10)
    }
}
