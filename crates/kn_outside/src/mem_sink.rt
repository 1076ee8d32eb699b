//! A sink in memory.
ghost use Rattle.std.specs.Prelude.{◌≡◌, ◌+◌, ◌-◌, ◌^◌, ◌<◌, ◌≤◌, [], ◌++◌, true, false, min, length};
ghost use Rattle.std.specs.Prelude.{IfOk, OnOk, OnErr, IsErr, IsTrue, ◌↔◌};
ghost use Rattle.kn_outside.specs.InMemory.{is_failing, sink_after_write, sink_after_failed_write};
ghost use Rattle.kn_outside.specs.Faults.{count_up, Rose};

use crate::failed::Failed;
use crate::failing::fails;
use crate::sink::Sink;
use kn_base::{List, Octets};
use std::alloc::Global;
use std::marker::Model;

/// A sink in memory, which keeps what is written to it. Chosen writes of it fail.
#[derive(Drop)]
pub struct MemSink {
    written: Octets,
    calls: u64,
    faults: u64,
    failing: List<u32>,
}

impl Model for MemSink {
    ghost use Rattle.kn_outside.specs.InMemory.{SinkInMemory};

    ghost Value = { SinkInMemory };

    ghost view = { λ s. record { written = s.written; calls = s.calls; faults = s.faults; failing = s.failing } };
}

impl MemSink {
    /// A sink to which nothing was written. The writes with these numbers, counted from 1, fail.
    pub fn of(alloc: Global, failing: List<u32>) -> MemSink
        ensures { result ≡ record { written = []; calls = 0; faults = 0; failing = failing } }
    {
        MemSink {
            written: Octets::new(alloc),
            calls: 0,
            faults: 0,
            failing,
        }
    }

    /// All bytes that were written to it, the first at the front.
    pub fn written(&self) -> &[u8]
        ensures { result.now ≡ self.now.written }
    {
        self.written.as_slice()
    }
}

impl Sink for MemSink {
    ghost use Rattle.std.specs.Prelude.{None, Some};

    ghost seen = { λ s. record { written = Some s.written; taken = None; left = None; faults = s.faults } };

    fn write(&mut self, piece: &[u8]) -> Result<usize, Failed>
        ensures whole { IfOk result (λ n. n ≡ length piece.now) }
        ensures ok { OnOk result (self.new ≡ sink_after_write piece.now self.old) }
        ensures err { OnErr result (self.new ≡ sink_after_failed_write self.old) }
        ensures later { self.old.faults ≤ self.new.faults }
        ensures chosen { IsTrue (is_failing self.old.failing (count_up self.old.calls)) → IsErr result }
    {
        self.calls = self.calls.saturating_add(1);
        if !fails(&self.failing, self.calls) && self.written.extend(piece).is_ok() {
            return Ok(piece.len());
        }
        self.faults = self.faults.saturating_add(1);
        Err(Failed)
    }
}
