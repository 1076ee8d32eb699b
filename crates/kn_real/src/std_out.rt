//! A writer of the system as a sink.
ghost use Rattle.std.specs.Prelude.{◌≡◌, ◌≤◌, ◌<◌, length, IfOk, OnOk, OnErr};
ghost use Rattle.std.specs.Io.KnownBytes.{WriteAppends};
ghost use Rattle.kn_outside.specs.Faults.{count_up};

use crate::retry::write_some;
use kn_outside::{Failed, Sink};
use std::io::Write;

/// A writer of the system, as standard output. Each piece is handed to it at once.
#[derive(Drop)]
pub struct StdOut<O: Write> {
    pub(crate) output: O,
    pub(crate) faults: u64,
}

impl<O: Write> StdOut<O> {
    /// A sink to which nothing was written and of which no call failed.
    pub fn new(output: O) -> StdOut<O>
        ensures output { result.output ≡ output }
        ensures faults { result.faults ≡ 0 }
    {
        StdOut { output, faults: 0 }
    }
}

impl<O: Write> Sink for StdOut<O> {
    ghost use Rattle.std.specs.Prelude.{None};

    ghost seen = { λ out. record { written = None; taken = None; left = None; faults = out.faults } };

    fn write(&mut self, piece: &[u8]) -> Result<usize, Failed>
        ensures count { IfOk result (λ n. (0 < n) × (n ≤ length piece.now)) }
        ensures bytes { WriteAppends (O.contents self.old.output) (O.contents self.new.output) result piece.now }
        ensures ok { OnOk result (self.new.faults ≡ self.old.faults) }
        ensures err { OnErr result (self.new.faults ≡ count_up self.old.faults) }
        ensures later { self.old.faults ≤ self.new.faults }
    {
        match write_some(&mut self.output, piece) {
            Ok(bytes) if bytes > 0 => Ok(bytes),
            _ => {
                self.faults = self.faults.saturating_add(1);
                Err(Failed)
            }
        }
    }
}
