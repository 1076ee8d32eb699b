//! A net in memory.
ghost use Rattle.std.specs.Prelude.{◌≡◌, ◌≤◌, ◌<◌, None, [], length, drop, IfOk, IsSomeAnd};
ghost use Rattle.kn_base.specs.declared.limits.TheConstants.{WORKERS};
ghost use Rattle.kn_workers.specs.InMemory.{door_seen};
ghost use Rattle.kn_workers.specs.Nets.{AreBound, Binds, share, with_faults};
ghost use Rattle.kn_workers.specs.Rooms.{AreFit, BindsRooms, HaveRooms, failing_of, links_of, net_seen};

use crate::binding::{BindFault, Binding, ServedAddress};
use crate::mem_door::{MemDoor, MemRoom, fails};
use crate::net::Net;
use crate::served::Served;
use kn_base::{List, NoMemory, Reserved};
use kn_outside::MemLink;
use std::alloc::Global;
use std::marker::Model;
use std::mem;
use std::sync::Wait;

/// A net in memory, with a room for each door. A door past the rooms has no link.
#[derive(Drop)]
pub struct MemNet {
    waiting: List<MemRoom>,
    failing: List<u32>,
    calls: u64,
    faults: u64,
    bound: Option<Binding>,
    rooms: List<MemDoor>,
}

impl Model for MemNet {
    ghost use Rattle.kn_workers.specs.Rooms.{NetInMemory};

    ghost Value = { NetInMemory };

    ghost view = { λ n. record {
      waiting = n.waiting;
      failing = n.failing;
      calls = n.calls;
      bound = n.bound;
      rooms = n.rooms;
      faults = n.faults;
    } };
}

impl MemNet {
    /// A net with these rooms. Its calls of `bind` with the numbers in `failing`, counted from 1, fail; one that runs
    /// out of memory isn't counted.
    pub fn of(alloc: Global, rooms: List<MemRoom>, failing: List<u32>) -> MemNet
        ensures { result ≡ record {
          waiting = rooms;
          failing = failing;
          calls = 0;
          bound = None;
          rooms = [];
          faults = 0;
        } }
    {
        MemNet {
            waiting: rooms,
            failing,
            calls: 0,
            faults: 0,
            bound: None,
            rooms: List::new(alloc),
        }
    }

    /// The rooms that came back.
    pub fn rooms(&self) -> &List<MemDoor>
        ensures { result.now ≡ self.now.rooms }
    {
        &self.rooms
    }

    /// How many calls failed, those of the rooms that came back included.
    pub fn faults(&self) -> u64
        ensures { result ≡ self.now.faults }
    {
        self.faults
    }
}

impl Net for MemNet {
    type Room = MemDoor;

    ghost use Rattle.kn_workers.specs.Rooms.{net_seen};

    ghost seen = { net_seen };

    fn bind<R: Wait>(
        &mut self,
        _rt: &R,
        alloc: Global,
        served: &ServedAddress<'_>,
    ) -> Result<List<MemDoor>, BindFault>
        requires doors { (1 ≤ served.now.doors) × (served.now.doors ≤ WORKERS) }
        requires unbound { self.old.bound ≡ None }
        ensures doors { IfOk result (λ rooms. length rooms ≡ served.now.doors) }
        ensures new { IfOk result (λ rooms. AreBound door_seen served.now.quota served.now.doors 0 rooms) }
        ensures binds { Binds served.now result (net_seen self.old) (net_seen self.new) }
        ensures rooms { BindsRooms result self.old self.new }
    {
        let binding = match Binding::of(alloc, served) {
            Ok(binding) => binding,
            Err(NoMemory) => return Err(BindFault::NoMemory),
        };
        let (doors, quota) = (binding.doors, binding.quota);
        let mut room = Reserved::new(alloc);
        if room.reserve(doors).is_err() {
            return Err(BindFault::NoMemory);
        }
        let results = match reserve_results(alloc, &self.waiting, doors) {
            Ok(results) => results,
            Err(NoMemory) => return Err(BindFault::NoMemory),
        };
        self.calls = self.calls.saturating_add(1);
        self.bound = Some(binding);
        if fails(&self.failing, self.calls) {
            self.faults = self.faults.saturating_add(1);
            return Err(BindFault::Failed);
        }
        let waiting = mem::replace(&mut self.waiting, List::new(alloc));
        Ok(make_doors(alloc, waiting, results, room, doors, quota))
    }

    fn unbind(&mut self, rooms: List<MemDoor>)
        requires bound { IsSomeAnd self.old.bound (λ binding. length rooms ≡ binding.doors) }
        requires none { self.old.rooms ≡ [] }
        ensures { self.new ≡ record self.old { rooms = rooms; faults = with_faults door_seen self.old.faults rooms } }
    {
        self.faults = count_faults(self.faults, rooms.as_slice());
        self.rooms = rooms;
    }
}

/// Room for the results of each of so many doors.
fn reserve_results(
    alloc: Global,
    rooms: &List<MemRoom>,
    doors: u32,
) -> Result<List<Reserved<Served<MemLink>>>, NoMemory>
    ensures count { IfOk result (λ results. length results ≡ doors) }
    ensures fit { IfOk result (AreFit rooms.now 0) }
{
    let mut all = List::new(alloc);
    for i in 0..doors {
        let results = reserve_result(alloc, count_links(rooms, i))?;
        match all.push(results) {
            Ok(()) => {}
            Err(_) => return Err(NoMemory),
        }
    }
    Ok(all)
}

/// Room for so many results.
fn reserve_result(alloc: Global, links: u32) -> Result<Reserved<Served<MemLink>>, NoMemory>
    ensures none { IfOk result (λ results. results.items ≡ []) }
    ensures room { IfOk result (λ results. links ≤ results.spare) }
{
    let mut results = Reserved::new(alloc);
    results.reserve(links)?;
    Ok(results)
}

/// How many links the room of this place has, and 0 past the rooms.
fn count_links(rooms: &List<MemRoom>, i: u32) -> u32
    ensures { result ≡ length (links_of rooms.now i) }
{
    match rooms.get(i) {
        Some(room) => room.links.len(),
        None => 0,
    }
}

/// So many doors of these rooms, which share the quota.
fn make_doors(
    alloc: Global,
    rooms: List<MemRoom>,
    results: List<Reserved<Served<MemLink>>>,
    made: Reserved<MemDoor>,
    doors: u32,
    quota: u32,
) -> List<MemDoor>
    requires some { 0 < doors }
    requires count { length results ≡ doors }
    requires fit { AreFit rooms 0 results }
    requires none { made.items ≡ [] }
    requires room { doors ≤ made.spare }
    ensures count { length result ≡ doors }
    ensures bound { AreBound door_seen quota doors 0 result }
    ensures rooms { HaveRooms rooms 0 result }
{
    let mut rooms = rooms;
    let mut results = results;
    let mut made = made;
    for i in 0..doors {
        let room = next_room(alloc, &mut rooms);
        made.put(MemDoor::of(room, share_of(quota, doors, i), results.remove(0)));
    }
    made.finish()
}

/// The first room, or an empty one where there is none.
fn next_room(alloc: Global, rooms: &mut List<MemRoom>) -> MemRoom
    ensures links { result.links ≡ links_of rooms.old 0 }
    ensures failing { result.failing ≡ failing_of rooms.old 0 }
    ensures rest { rooms.new ≡ drop 1 rooms.old }
{
    if rooms.is_empty() {
        return MemRoom {
            links: List::new(alloc),
            failing: List::new(alloc),
        };
    }
    rooms.remove(0)
}

/// How many connections the door of this place gives.
fn share_of(quota: u32, doors: u32, i: u32) -> u32
    requires { 0 < doors }
    ensures { result ≡ share quota doors i }
{
    if i < quota % doors {
        return quota / doors + 1;
    }
    quota / doors
}

/// A count of faults with those of doors.
fn count_faults(faults: u64, doors: &[MemDoor]) -> u64
    ensures { result ≡ with_faults door_seen faults doors.now }
{
    let mut faults = faults;
    for door in doors {
        faults = faults.saturating_add(door.faults());
    }
    faults
}
