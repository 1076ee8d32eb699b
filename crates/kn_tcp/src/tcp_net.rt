//! The net of the system.
ghost use Rattle.std.specs.Prelude.{◌≡◌, ◌≢◌, ◌≤◌, ◌<◌, None, [], length, IfOk, IfErr, IsSomeAnd};
ghost use Rattle.std.specs.Str.{IsUtf8};
ghost use Rattle.std.specs.IoError.{error_kind};
ghost use Rattle.std.specs.declared.io.ErrorKind.{ErrorKind};
ghost use Rattle.kn_base.specs.declared.limits.TheConstants.{WORKERS};
ghost use Rattle.kn_outside.specs.Faults.{count_up};
ghost use Rattle.kn_workers.specs.declared.binding.BindFault.TheVariants as B;
ghost use Rattle.kn_tcp.specs.Tcp.{counted_seen, tcp_seen};
ghost use Rattle.kn_workers.specs.Nets.{AreBound, Binds, share, with_faults};

use crate::tcp_door::TcpDoor;
use kn_base::{List, NoMemory, Reserved};
use kn_workers::{BindFault, Binding, Net, ServedAddress};
use std::alloc::Global;
use std::io::{self, ErrorKind};
use std::marker::Model;
use std::net::TcpListener;
use std::str;
use std::sync::{Arc, Wait};
use std::time::Duration;

/// The net of the system. An address is a text as std has it: an IP address or a host's name, and a port.
#[derive(Drop)]
pub struct TcpNet {
    rt: HostRuntime,
    timeout: Option<Duration>,
    bound: Option<Binding>,
    rooms: List<TcpDoor>,
    faults: u64,
}

impl Model for TcpNet {
    ghost use Rattle.kn_tcp.specs.Tcp.{TcpNetSeen};

    ghost Value = { TcpNetSeen };

    ghost view = { λ n. record { bound = n.bound; rooms = n.rooms; faults = n.faults } };
}

impl TcpNet {
    /// A net that has bound nothing and of which no call failed. A connection of it ends that sends nothing, or takes
    /// nothing of its replies, for longer than the time that is given.
    pub fn new(rt: HostRuntime, timeout: Option<Duration>) -> TcpNet
        ensures { result ≡ record { bound = None; rooms = []; faults = 0 } }
    {
        let rooms = List::new(rt.alloc());
        TcpNet {
            rt,
            timeout,
            bound: None,
            rooms,
            faults: 0,
        }
    }
}

impl Net for TcpNet {
    type Room = TcpDoor;

    ghost use Rattle.kn_tcp.specs.Tcp.{tcp_seen};

    ghost seen = { tcp_seen };

    fn bind<R: Wait>(
        &mut self,
        _rt: &R,
        alloc: Global,
        served: &ServedAddress<'_>,
    ) -> Result<List<TcpDoor>, BindFault>
        requires doors { (1 ≤ served.now.doors) × (served.now.doors ≤ WORKERS) }
        requires unbound { self.old.bound ≡ None }
        ensures doors { IfOk result (λ rooms. length rooms ≡ served.now.doors) }
        ensures new { IfOk result (λ rooms. AreBound counted_seen served.now.quota served.now.doors 0 rooms) }
        ensures binds { Binds served.now result (tcp_seen self.old) (tcp_seen self.new) }
        ensures failed { result ≡ Err B.Failed → self.new.faults ≡ count_up self.old.faults }
        ensures text { IfOk result (λ rooms. IsUtf8 served.now.address) }
    {
        let binding = match Binding::of(alloc, served) {
            Ok(binding) => binding,
            Err(NoMemory) => return Err(BindFault::NoMemory),
        };
        let (doors, quota) = (binding.doors, binding.quota);
        let made = match listen(&self.rt, alloc, served.address) {
            Ok(listener) => make_doors(self.rt, alloc, &listener, self.timeout, doors, quota),
            Err(fault) => Err(fault),
        };
        match made {
            Err(BindFault::NoMemory) => return Err(BindFault::NoMemory),
            Err(BindFault::Failed) => self.faults = self.faults.saturating_add(1),
            Ok(_) => {}
        }
        self.bound = Some(binding);
        made
    }

    fn unbind(&mut self, rooms: List<TcpDoor>)
        requires bound { IsSomeAnd self.old.bound (λ binding. length rooms ≡ binding.doors) }
        requires none { self.old.rooms ≡ [] }
        ensures { self.new
            ≡ record self.old { rooms = rooms; faults = with_faults counted_seen self.old.faults rooms } }
    {
        self.faults = count_faults(self.faults, rooms.as_slice());
        self.rooms = rooms;
    }
}

/// A listener at an address. A text that isn't UTF-8 is no address.
fn listen(rt: &HostRuntime, alloc: Global, address: &[u8]) -> Result<Arc<TcpListener>, BindFault>
    ensures text { ¬ IsUtf8 address.now → result ≡ Err B.Failed }
    ensures bound { IfOk result (λ listener. IsUtf8 address.now) }
{
    let text = match str::from_utf8(address) {
        Ok(text) => text,
        Err(_) => return Err(BindFault::Failed),
    };
    let listener = match TcpListener::bind(rt, text) {
        Ok(listener) => listener,
        Err(error) => return Err(fault_of(&error)),
    };
    match Arc::new(alloc, listener) {
        Ok(shared) => Ok(shared),
        Err(_) => Err(BindFault::NoMemory),
    }
}

fn fault_of(error: &io::Error) -> BindFault
    ensures memory { error_kind error.now ≡ ErrorKind.OutOfMemory → result ≡ B.NoMemory }
    ensures other { error_kind error.now ≢ ErrorKind.OutOfMemory → result ≡ B.Failed }
{
    if error.kind() == ErrorKind::OutOfMemory {
        BindFault::NoMemory
    } else {
        BindFault::Failed
    }
}

/// So many doors of a listener, which share the quota.
fn make_doors(
    rt: HostRuntime,
    alloc: Global,
    listener: &Arc<TcpListener>,
    timeout: Option<Duration>,
    doors: u32,
    quota: u32,
) -> Result<List<TcpDoor>, BindFault>
    requires { 0 < doors }
    ensures count { IfOk result (λ made. length made ≡ doors) }
    ensures bound { IfOk result (λ made. AreBound counted_seen quota doors 0 made) }
    ensures err { IfErr result (λ fault. fault ≡ B.NoMemory) }
{
    let mut made = Reserved::new(alloc);
    if made.reserve(doors).is_err() {
        return Err(BindFault::NoMemory);
    }
    for i in 0..doors {
        match listener.clone() {
            Ok(shared) => made.put(TcpDoor::new(rt, shared, timeout, share_of(quota, doors, i))),
            Err(_) => return Err(BindFault::NoMemory),
        }
    }
    Ok(made.finish())
}

/// How many connections the door of this place gives.
fn share_of(quota: u32, doors: u32, i: u32) -> u32
    requires { 0 < doors }
    ensures { result ≡ share quota doors i }
{
    if i < quota % doors {
        return quota / doors + 1;
    }
    quota / doors
}

/// A count of faults and those of doors together.
fn count_faults(faults: u64, doors: &[TcpDoor]) -> u64
    ensures { result ≡ with_faults counted_seen faults doors.now }
{
    let mut faults = faults;
    for door in doors {
        faults = faults.saturating_add(door.faults());
    }
    faults
}
