//! A door in memory.
ghost use Rattle.std.specs.Prelude.{◌≡◌, ◌≤◌, ◌<◌, [], ◌∷◌, ◌++◌, length, All};
ghost use Rattle.kn_outside.specs.InMemory.{is_failing};
ghost use Rattle.kn_workers.specs.Doors.{Accepts};
ghost use Rattle.kn_workers.specs.InMemory.{GivesNext, IsNewLink, door_seen, link_seen, new_door};

use crate::accepted::Accepted;
use crate::door::Door;
use crate::served::Served;
use kn_base::{List, Reserved};
use kn_outside::MemLink;
use std::marker::Model;
use std::sync::Wait;

/// The links that a door in memory gives, in their order, and the numbers of its calls that fail, counted from 1.
#[derive(Drop)]
pub struct MemRoom {
    pub links: List<MemLink>,
    pub failing: List<u32>,
    ghost new: { All IsNewLink links },
}

/// A door in memory, with a quota. It fails where it has no link to give though its quota isn't reached.
#[derive(Drop)]
pub struct MemDoor {
    links: List<MemLink>,
    failing: List<u32>,
    calls: u64,
    quota: u32,
    given: u32,
    faults: u64,
    done: Reserved<Served<MemLink>>,
}

impl Model for MemDoor {
    ghost use Rattle.kn_workers.specs.InMemory.{DoorInMemory, IsKept};

    ghost Value = { DoorInMemory };

    ghost view = { λ d. record {
      links = d.links;
      failing = d.failing;
      calls = d.calls;
      quota = d.quota;
      given = d.given;
      faults = d.faults;
      done = d.done.items;
    } };

    ghost invariant = { λ d. IsKept d.links d.quota d.given d.done };
}

impl MemDoor {
    /// A door of a room, with room for its results.
    pub(crate) fn of(room: MemRoom, quota: u32, results: Reserved<Served<MemLink>>) -> MemDoor
        requires none { results.items ≡ [] }
        requires room { length room.links ≤ results.spare }
        ensures { result ≡ new_door room.links room.failing quota }
    {
        let MemRoom { links, failing } = room;
        MemDoor {
            links,
            failing,
            calls: 0,
            quota,
            given: 0,
            faults: 0,
            done: results,
        }
    }

    /// What was finished, in order.
    pub fn done(&self) -> &[Served<MemLink>]
        ensures { result.now ≡ self.now.done }
    {
        self.done.as_slice()
    }

    /// How many calls failed.
    pub fn faults(&self) -> u64
        ensures { result ≡ self.now.faults }
    {
        self.faults
    }
}

impl Door for MemDoor {
    type Conn = MemLink;

    ghost use Rattle.kn_workers.specs.InMemory.{door_seen};

    ghost seen = { door_seen };

    fn accept<R: Wait>(&mut self, _rt: &R) -> Accepted<Self::Conn>
        ensures answer { Accepts link_seen result (door_seen self.old) (door_seen self.new) }
        ensures finished { length self.old.done ≤ self.old.given }
        ensures later { self.old.faults ≤ self.new.faults }
        ensures next { GivesNext result self.old self.new }
    {
        self.calls = self.calls.saturating_add(1);
        if self.given >= self.quota {
            return Accepted::Closed;
        }
        if self.links.is_empty() || fails(&self.failing, self.calls) {
            self.faults = self.faults.saturating_add(1);
            return Accepted::Failed;
        }
        self.given += 1;
        Accepted::Conn(self.links.remove(0))
    }

    fn finish(&mut self, served: Served<Self::Conn>)
        requires { length self.old.done < self.old.given }
        ensures { self.new ≡ record self.old { done = self.old.done ++ served ∷ [] } }
    {
        self.done.put(served);
    }
}

/// Whether the call of this number is among those that fail.
pub(crate) fn fails(failing: &List<u32>, number: u64) -> bool
    ensures { result ≡ is_failing failing.now number }
{
    failing
        .as_slice()
        .iter()
        .any(|other| u64::from(*other) == number)
}
