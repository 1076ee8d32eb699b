//! A gate at which two connections meet.

use kn_outside::Gate;
use std::sync::Wait;
use std::sync::atomic::AtomicBool;
use std::sync::atomic::Ordering::SeqCst;
use std::thread;

/// How often a gate looks before it gives up.
const LOOKS: u32 = 100_000_000;

/// Where it holds any reply, it holds caller 2's reply 1 until caller 1 has come to its reply 3, and that one until
/// caller 2 has come to its reply 4.
#[derive(Drop)]
pub struct Meeting {
    holds: bool,
    first: AtomicBool,
    second: AtomicBool,
    missed: AtomicBool,
}

impl Meeting {
    /// A gate that holds replies, or none.
    pub(crate) fn new(holds: bool) -> Meeting {
        Meeting {
            holds,
            first: AtomicBool::new(false),
            second: AtomicBool::new(false),
            missed: AtomicBool::new(false),
        }
    }

    /// Whether both connections came, and neither waited for the other in vain.
    pub(crate) fn have_met(&self) -> bool {
        let have_come = self.first.load(SeqCst) && self.second.load(SeqCst);
        have_come && !self.missed.load(SeqCst)
    }

    fn wait_for(&self, came: &AtomicBool) {
        for _ in 0..LOOKS {
            if came.load(SeqCst) {
                return;
            }
            thread::yield_now();
        }
        self.missed.store(true, SeqCst);
    }
}

impl Gate for Meeting {
    fn before_reply<R: Wait>(&self, _rt: &R, caller: u32, n: u32) {
        if !self.holds {
            return;
        }
        if caller == 2 && n == 4 {
            self.second.store(true, SeqCst);
        }
        if caller == 2 && n == 1 {
            self.wait_for(&self.first);
        }
        if caller == 1 && n == 3 {
            self.first.store(true, SeqCst);
            self.wait_for(&self.second);
        }
    }
}
