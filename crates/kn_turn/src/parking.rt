//! Where those who wait for their turn sleep.
use std::array;
use std::sync::Wait;
use std::sync::atomic::AtomicU64;
use std::sync::atomic::Ordering::SeqCst;

/// As many as there can be passes at a turn (`PASSES` of `kn_base::limits`); `Parking` has as many places.
const PLACES: u64 = 64;

/// Nobody sleeps at the place.
const EMPTY: u64 = 0;

/// Somebody sleeps there, or is about to.
const PARKED: u64 = 1;

/// A place for each of the next tickets: who holds the ticket `t` sleeps at the place `t` modulo their number.
///
/// No wake-up is lost. Who waits first writes `PARKED`, then looks at the served ticket once more, and sleeps only
/// while the place reads `PARKED`. Who passes the turn on first counts the served ticket up, then writes `EMPTY`, and
/// wakes the place if it read `PARKED`. All these are sequentially consistent. If the waiter's write comes before the
/// other's, the other finds it: then either the waiter sleeps and is woken, or its place reads `EMPTY` and it doesn't
/// fall asleep. If the other's write comes first, the waiter's last look finds its ticket served.
///
/// At one time at most one ticket waits at a place: the tickets that are held follow one another from the one that is
/// served, and there are at most as many as passes. Who was slow to write `EMPTY` may find the place `PARKED` by a
/// later ticket. It then wakes that ticket's holder, which looks again and parks again. Who serves that later ticket
/// may find the place `EMPTY` meanwhile, and leaves the waking to the slow one, which is on its way to it.
#[derive(Drop)]
pub struct Parking {
    places: [AtomicU64; 64],
}

impl Parking {
    /// Places at which nobody sleeps.
    pub fn new() -> Parking {
        Parking {
            places: array::from_fn(|_| AtomicU64::new(EMPTY)),
        }
    }

    fn place(&self, ticket: u64) -> &AtomicU64 {
        &self.places[(ticket % PLACES) as usize]
    }

    /// Says that the ticket's holder is about to sleep. It looks at the served ticket once more before `park`.
    pub fn announce(&self, ticket: u64) {
        self.place(ticket).store(PARKED, SeqCst);
    }

    /// Sleeps until the ticket is served, or returns at once if it was. It may also return for no reason.
    pub fn park<R: Wait>(&self, rt: &R, ticket: u64) {
        self.place(ticket).park(rt, PARKED as u32);
    }

    /// Wakes the holder of this ticket, which is served from now on.
    pub fn unpark(&self, ticket: u64) {
        let place = self.place(ticket);
        if place.swap(EMPTY, SeqCst) == PARKED {
            place.wake_all();
        }
    }
}
