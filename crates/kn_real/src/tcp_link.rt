//! A stream of the system, which is read and written, as a link.
ghost use Rattle.std.specs.Prelude.{◌≡◌, ◌≤◌, ◌<◌, drop, length, IfOk, OnOk, OnErr};
ghost use Rattle.kn_outside.specs.Faults.{count_up};

use crate::gathered::Gathered;
use crate::retry::{LINK_CHUNK_BYTES, read_into};
use kn_outside::{Failed, Link, Sink};
use std::alloc::Global;
use std::marker::Model;
use std::net::TcpStream;
use std::time::Duration;

/// A TCP connection as a link. What is written is gathered, up to 16 KiB of it, and handed to the system in one piece:
/// before each read, where there is no more room, and when the link is dropped. Then it goes out without delay.
///
/// A call in which that fails has failed. Where it fails when the link is dropped, only the peer can miss something.
pub struct TcpLink {
    stream: TcpStream,
    piece: [u8; LINK_CHUNK_BYTES],
    gathered: Gathered,
    faults: u64,
}

impl Drop for TcpLink {
    fn drop(self) {
        let TcpLink {
            mut stream,
            piece: _,
            mut gathered,
            faults: _,
        } = self;
        let _ = gathered.send(&mut stream);
    }
}

impl Model for TcpLink {
    ghost use Rattle.kn_real.specs.Counted.{CountedLink};

    ghost Value = { CountedLink };

    ghost view = { λ l. record { faults = l.faults } };
}

impl TcpLink {
    /// A link over a connection of which nothing was read, to which nothing was written, and of which no call failed.
    /// A read that waits longer than the time that is given fails, and so does a write of which nothing goes out for
    /// so long.
    pub fn new(alloc: Global, stream: TcpStream, timeout: Option<Duration>) -> TcpLink
        ensures { result.faults ≡ 0 }
    {
        // Where the system can't do without the delay, or can't look at the time, replies come all the same.
        let _ = stream.set_nodelay(true);
        if timeout.is_some() {
            let _ = stream.set_read_timeout(timeout);
            let _ = stream.set_write_timeout(timeout);
        }
        TcpLink {
            stream,
            piece: [0; LINK_CHUNK_BYTES],
            gathered: Gathered::new(alloc),
            faults: 0,
        }
    }
}

impl Sink for TcpLink {
    ghost use Rattle.kn_real.specs.Counted.{counted_link_seen};

    ghost seen = { counted_link_seen };

    fn write(&mut self, piece: &[u8]) -> Result<usize, Failed>
        ensures count { IfOk result (λ n. (0 < n) × (n ≤ length piece.now)) }
        ensures ok { OnOk result (self.new.faults ≡ self.old.faults) }
        ensures err { OnErr result (self.new.faults ≡ count_up self.old.faults) }
        ensures later { self.old.faults ≤ self.new.faults }
    {
        match self.gathered.write(&mut self.stream, piece) {
            Ok(bytes) if bytes > 0 => Ok(bytes),
            _ => {
                self.faults = self.faults.saturating_add(1);
                Err(Failed)
            }
        }
    }
}

impl Link for TcpLink {
    fn read(&mut self, buf: &mut [u8]) -> Result<usize, Failed>
        requires { 0 < length buf.old }
        ensures count { IfOk result (λ n. n ≤ length buf.new) }
        ensures ok { OnOk result (self.new.faults ≡ self.old.faults) }
        ensures behind { IfOk result (λ n. drop n buf.new ≡ drop n buf.old) }
        ensures err { OnErr result (self.new.faults ≡ count_up self.old.faults) }
        ensures buffer { OnErr result (buf.new ≡ buf.old) }
        ensures later { self.old.faults ≤ self.new.faults }
    {
        if self.gathered.send(&mut self.stream).is_ok() {
            if let Ok(bytes) = read_into(&mut self.stream, &mut self.piece, buf) {
                return Ok(bytes);
            }
        }
        self.faults = self.faults.saturating_add(1);
        Err(Failed)
    }
}
