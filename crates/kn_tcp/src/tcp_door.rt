//! A door of a TCP listener.
ghost use Rattle.std.specs.Prelude.{◌≡◌, ◌+◌, ◌≤◌, ◌<◌};
ghost use Rattle.kn_outside.specs.Faults.{count_up};
ghost use Rattle.kn_real.specs.Counted.{counted_link_seen};
ghost use Rattle.kn_workers.specs.Doors.{Accepts};
ghost use Rattle.kn_workers.specs.declared.accepted.Accepted.TheVariants as A;

use crate::accepting::accept_next;
use kn_real::TcpLink;
use kn_workers::{Accepted, Door, Served};
use std::marker::Model;
use std::net::TcpListener;
use std::sync::{Arc, Wait};
use std::time::Duration;

/// A door of the listener that all doors of an address share, with a quota. It fails only where the listener can't
/// accept any more; when out of descriptors or memory, it waits.
#[derive(Drop)]
pub struct TcpDoor {
    rt: HostRuntime,
    listener: Arc<TcpListener>,
    timeout: Option<Duration>,
    quota: u32,
    given: u32,
    finished: u32,
    faults: u64,
}

impl Model for TcpDoor {
    ghost use Rattle.kn_tcp.specs.Tcp.{CountedDoor, IsCounted};

    ghost Value = { CountedDoor };

    ghost view = { λ d. record { quota = d.quota; given = d.given; finished = d.finished; faults = d.faults } };

    ghost invariant = { λ d. IsCounted d.quota d.given d.finished };
}

impl TcpDoor {
    /// A door that has given nothing. Its connections have this timeout.
    pub(crate) fn new(
        rt: HostRuntime,
        listener: Arc<TcpListener>,
        timeout: Option<Duration>,
        quota: u32,
    ) -> TcpDoor
        ensures { result ≡ record { quota = quota; given = 0; finished = 0; faults = 0 } }
    {
        TcpDoor {
            rt,
            listener,
            timeout,
            quota,
            given: 0,
            finished: 0,
            faults: 0,
        }
    }

    /// How many calls failed.
    pub(crate) fn faults(&self) -> u64
        ensures { result ≡ self.now.faults }
    {
        self.faults
    }
}

impl Door for TcpDoor {
    type Conn = TcpLink;

    ghost use Rattle.kn_tcp.specs.Tcp.{counted_seen};

    ghost seen = { counted_seen };

    fn accept<R: Wait>(&mut self, rt: &R) -> Accepted<TcpLink>
        ensures answer { Accepts counted_link_seen result (counted_seen self.old) (counted_seen self.new) }
        ensures finished { self.old.finished ≤ self.old.given }
        ensures later { self.old.faults ≤ self.new.faults }
        ensures failed { result ≡ A.Failed → self.new.faults ≡ count_up self.old.faults }
    {
        if self.given >= self.quota {
            return Accepted::Closed;
        }
        match accept_next(rt, &self.rt, &self.listener) {
            Ok(stream) => {
                self.given += 1;
                Accepted::Conn(TcpLink::new(self.rt.alloc(), stream, self.timeout))
            }
            Err(_) => {
                self.faults = self.faults.saturating_add(1);
                Accepted::Failed
            }
        }
    }

    fn finish(&mut self, served: Served<TcpLink>)
        requires { self.old.finished < self.old.given }
        ensures { self.new ≡ record self.old { finished = self.old.finished + 1 } }
    {
        // When a connection is dropped its last replies go out, and it is closed.
        drop(served);
        self.finished += 1;
    }
}
