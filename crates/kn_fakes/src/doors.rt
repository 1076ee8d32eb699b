//! A service of two workers over doors in memory.
ghost use Rattle.std.specs.Prelude.{◌≡◌, [], None, All, IfOk};
ghost use Rattle.kn_workers.specs.InMemory.{IsNewLink};
ghost use Rattle.kn_load.specs.Loaded.{IsUnsplitRoot};
ghost use Rattle.kn_workers.specs.Rooms.{net_seen};

use crate::lists::{link, numbers, with};
use crate::meeting::Meeting;
use crate::replies::{ASKS, KEYS, registry};
use kn_auth::{KeyFile, read_keys};
use kn_base::{List, NoMemory};
use kn_outside::MemLink;
use kn_registry::{Pass, Registry};
use kn_workers::{AddressEnding, MemNet, MemRoom, ServedAddress, serve_address};
use std::alloc::Global;
use std::sync::Wait;
use std::thread::Threads;

const ANSWERS: &[u8] = b"OK 1 1\nOK\nVALUE 1 yes 1 1\nROW 1 a1 \"POLICY\"\nEND\n";

const OPENS: &[u8] = b"OPEN\n";

const OPENS_AND_ADDS: &[u8] = b"OPEN
ADMIN 733363726574
ADD 37
Authorizer: \"alice\"
Licensees: \"bob\"

BYE
";

const ADDED: &[u8] = b"OK 1 1\nOK\nOK a2 2\nOK\n";

/// What stands for what is written where there was no connection.
const NONE: &[u8] = b"none";

/// What a service has to leave.
#[derive(Clone, Copy)]
struct Due {
    ending: AddressEnding,
    /// What is written to the first connection of door 0, to the second one, and to the first one of door 1.
    written: (&'static [u8], &'static [u8], &'static [u8]),
    /// The calls that fail.
    faults: u64,
}

/// How many of five services leave what they have to.
pub(crate) fn serve_doors<R: Threads + Wait + Sync>(
    rt: &R,
    alloc: Global,
) -> Result<usize, NoMemory> {
    let ended = [
        is_served_side_by_side(rt, alloc)?,
        is_unbound_told(rt, alloc)?,
        is_first_failure_told(rt, alloc)?,
        is_second_failure_told(rt, alloc)?,
        is_want_of_links_told(rt, alloc)?,
    ];
    Ok(ended.iter().filter(|is_right| **is_right).count())
}

/// Two connections wait for one another at the gate, and a third one comes behind the first.
fn is_served_side_by_side<R: Threads + Wait + Sync>(
    rt: &R,
    alloc: Global,
) -> Result<bool, NoMemory> {
    let first = two_links(alloc, (ASKS, OPENS), 0)?;
    let second = one_link(alloc, OPENS_AND_ADDS)?;
    let gate = Meeting::new(true);
    let due = Due {
        ending: AddressEnding::Served {
            finished: 3,
            version: 2,
        },
        written: (ANSWERS, b"OK 1 2\n", ADDED),
        faults: 0,
    };
    let is_left = leaves(rt, alloc, two_rooms(alloc, first, second)?, 0, &gate, due)?;
    Ok(is_left && gate.have_met())
}

/// The address can't be bound.
fn is_unbound_told<R: Threads + Wait + Sync>(rt: &R, alloc: Global) -> Result<bool, NoMemory> {
    let due = Due {
        ending: AddressEnding::Unbound,
        written: (NONE, NONE, NONE),
        faults: 1,
    };
    leaves(rt, alloc, List::new(alloc), 1, &Meeting::new(false), due)
}

/// A door fails at its first call, which ends its worker alone.
fn is_first_failure_told<R: Threads + Wait + Sync>(
    rt: &R,
    alloc: Global,
) -> Result<bool, NoMemory> {
    let first = two_links(alloc, (ASKS, OPENS), 0)?;
    let rooms = two_rooms(alloc, first, two_links(alloc, (OPENS_AND_ADDS, OPENS), 1)?)?;
    let due = Due {
        ending: AddressEnding::DoorFailed,
        written: (ANSWERS, b"OK 1 1\n", NONE),
        faults: 1,
    };
    leaves(rt, alloc, rooms, 0, &Meeting::new(false), due)
}

/// A door fails at its second call.
fn is_second_failure_told<R: Threads + Wait + Sync>(
    rt: &R,
    alloc: Global,
) -> Result<bool, NoMemory> {
    let first = two_links(alloc, (b"BYE\n", OPENS), 2)?;
    let rooms = two_rooms(alloc, first, one_link(alloc, OPENS_AND_ADDS)?)?;
    let due = Due {
        ending: AddressEnding::DoorFailed,
        written: (b"OK\n", NONE, ADDED),
        faults: 1,
    };
    leaves(rt, alloc, rooms, 0, &Meeting::new(false), due)
}

/// Door 0 has one link fewer than its quota, and door 1 has none.
fn is_want_of_links_told<R: Threads + Wait + Sync>(
    rt: &R,
    alloc: Global,
) -> Result<bool, NoMemory> {
    let rooms = two_rooms(alloc, one_link(alloc, OPENS)?, no_links(alloc))?;
    let due = Due {
        ending: AddressEnding::DoorFailed,
        written: (b"OK 1 1\n", NONE, NONE),
        faults: 2,
    };
    leaves(rt, alloc, rooms, 0, &Meeting::new(false), due)
}

/// Whether a service of three connections over these rooms leaves what is due, where this call of the net fails; 0 for
/// none.
fn leaves<R: Threads + Wait + Sync>(
    rt: &R,
    alloc: Global,
    rooms: List<MemRoom>,
    failing: u32,
    gate: &Meeting,
    due: Due,
) -> Result<bool, NoMemory> {
    let Ok(keys) = read_keys(alloc, KEYS) else {
        return Err(NoMemory);
    };
    let (registry, root) = registry(rt, alloc)?;
    let mut net = MemNet::of(alloc, rooms, numbers(alloc, failing)?);
    let ending = serve_net(rt, alloc, &registry, root, &keys, &mut net, gate);
    Ok(ending == due.ending && net.faults() == due.faults && are_written(&net, due.written))
}

/// How a service of three connections by two workers ends over this net.
fn serve_net<R: Threads + Wait + Sync>(
    rt: &R,
    alloc: Global,
    registry: &Registry,
    root: Pass,
    keys: &KeyFile,
    net: &mut MemNet,
    gate: &Meeting,
) -> AddressEnding
    requires root { IsUnsplitRoot registry.now root }
    requires unbound { (net_seen net.old).bound ≡ None }
    requires none { (net_seen net.old).rooms ≡ [] }
{
    let served = ServedAddress {
        address: b"memory",
        doors: 2,
        quota: 3,
    };
    serve_address(rt, alloc, registry, root, keys, &served, net, gate)
}

/// Whether this was written to the first connection of door 0, to its second one, and to the first one of door 1.
fn are_written(net: &MemNet, due: (&[u8], &[u8], &[u8])) -> bool {
    written(net, 0, 0) == due.0 && written(net, 0, 1) == due.1 && written(net, 1, 0) == due.2
}

/// What was written to the connection of this place, of those that a door finished.
fn written(net: &MemNet, door: u32, i: usize) -> &[u8] {
    match net.rooms().get(door) {
        Some(room) => match room.done().get(i) {
            Some(served) => served.link().written(),
            None => NONE,
        },
        None => NONE,
    }
}

/// A link more.
fn with_link(links: List<MemLink>, link: MemLink) -> Result<List<MemLink>, NoMemory>
    requires links { All IsNewLink links }
    requires link { IsNewLink link }
    ensures { IfOk result (λ more. All IsNewLink more) }
{
    let mut links = links;
    match links.push(link) {
        Ok(()) => Ok(links),
        Err(_) => Err(NoMemory),
    }
}

/// A room without a link.
fn no_links(alloc: Global) -> MemRoom {
    MemRoom {
        links: List::new(alloc),
        failing: List::new(alloc),
    }
}

/// A room with a link of this input.
fn one_link(alloc: Global, input: &[u8]) -> Result<MemRoom, NoMemory> {
    Ok(MemRoom {
        links: with_link(List::new(alloc), link(alloc, input, 0)?)?,
        failing: List::new(alloc),
    })
}

/// A room with links of these inputs, whose door fails at this call; 0 for none.
fn two_links(alloc: Global, inputs: (&[u8], &[u8]), failing: u32) -> Result<MemRoom, NoMemory> {
    let links = with_link(List::new(alloc), link(alloc, inputs.0, 0)?)?;
    Ok(MemRoom {
        links: with_link(links, link(alloc, inputs.1, 0)?)?,
        failing: numbers(alloc, failing)?,
    })
}

fn two_rooms(alloc: Global, first: MemRoom, second: MemRoom) -> Result<List<MemRoom>, NoMemory> {
    with(with(List::new(alloc), first)?, second)
}
