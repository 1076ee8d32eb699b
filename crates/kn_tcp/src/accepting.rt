//! Accepting the connections of a listener.
ghost use Rattle.std.specs.Prelude.{◌≡◌, true, IfErr};
ghost use Rattle.std.specs.IoError.{raw_os_error};
ghost use Rattle.kn_tcp.specs.Accepting.{is_incurable, is_never};

use std::net::{TcpListener, TcpStream};
use std::sync::Wait;
use std::time::Duration;
use std::{io, thread};

/// The milliseconds after which a call is made again for which something lacked.
const PAUSE_MILLIS: u64 = 100;

/// When a call that failed is made again.
#[derive(Clone, Copy, Drop)]
enum Again {
    AtOnce,
    Later,
    Never,
}

/// The next connection of a listener. A call that failed is made again, however often, unless no later one can succeed.
pub(crate) fn accept_next<R: Wait>(
    rt: &R,
    clock: &HostRuntime,
    listener: &TcpListener,
) -> io::Result<TcpStream>
    ensures { IfErr result (λ error. is_incurable (raw_os_error error) ≡ true) }
{
    for _ in rt.forever() {
        match listener.accept() {
            Ok((stream, _)) => return Ok(stream),
            Err(error) => match again_after(error.raw_os_error()) {
                Again::AtOnce => {}
                Again::Later => thread::sleep(clock, Duration::from_millis(PAUSE_MILLIS)),
                Again::Never => return Err(error),
            },
        }
    }
    unreachable!()
}

/// When a call is made again that failed by this error number of Linux (accept(2)).
fn again_after(number: Option<i32>) -> Again
    ensures { is_never result ≡ is_incurable number }
{
    match number {
        // EBADF, EFAULT, EINVAL, ENOTSOCK, EOPNOTSUPP: the listener itself is at fault
        Some(9 | 14 | 22 | 88 | 95) => Again::Never,
        // EPERM, EINTR, EPROTO, ECONNABORTED, ECONNRESET, ETIMEDOUT: the peer has gone or isn't let in, or a
        // signal came
        Some(1 | 4 | 71 | 103 | 104 | 110) => Again::AtOnce,
        // ENONET, ENOPROTOOPT, ENETDOWN, ENETUNREACH, EHOSTDOWN, EHOSTUNREACH: the network of the new connection
        Some(64 | 92 | 100 | 101 | 112 | 113) => Again::AtOnce,
        // EMFILE, ENFILE, ENOBUFS, ENOMEM: out of descriptors or memory; and whatever else
        _ => Again::Later,
    }
}
