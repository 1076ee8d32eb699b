//! A reader and a writer of the system as one link.
ghost use Rattle.std.specs.Prelude.{◌≡◌, ◌≤◌, ◌<◌, drop, length, IfOk, OnOk, OnErr};
ghost use Rattle.std.specs.Io.KnownBytes.{ReadConsumes, WriteAppends};
ghost use Rattle.kn_outside.specs.Faults.{count_up};

use crate::retry::{LINK_CHUNK_BYTES, read_into};
use crate::std_out::StdOut;
use kn_outside::{Failed, Link, Sink};
use std::io::{Read, Write};

/// A reader and a writer of the system as one link, as standard input and output.
#[derive(Drop)]
pub struct StdLink<I: Read, O: Write> {
    input: I,
    piece: [u8; LINK_CHUNK_BYTES],
    out: StdOut<O>,
}

impl<I: Read, O: Write> StdLink<I, O> {
    /// A link of which nothing was read, to which nothing was written, and of which no call failed.
    pub fn new(input: I, output: O) -> StdLink<I, O>
        ensures input { result.input ≡ input }
        ensures output { result.out.output ≡ output }
        ensures faults { result.out.faults ≡ 0 }
    {
        StdLink {
            input,
            piece: [0; LINK_CHUNK_BYTES],
            out: StdOut::new(output),
        }
    }
}

impl<I: Read, O: Write> Sink for StdLink<I, O> {
    ghost use Rattle.std.specs.Prelude.{None};

    ghost seen = { λ link. record { written = None; taken = None; left = None; faults = link.out.faults } };

    fn write(&mut self, piece: &[u8]) -> Result<usize, Failed>
        ensures count { IfOk result (λ n. (0 < n) × (n ≤ length piece.now)) }
        ensures bytes { WriteAppends
            (O.contents self.old.out.output) (O.contents self.new.out.output) result piece.now }
        ensures ok { OnOk result (self.new.out.faults ≡ self.old.out.faults) }
        ensures err { OnErr result (self.new.out.faults ≡ count_up self.old.out.faults) }
        ensures input { self.new.input ≡ self.old.input }
        ensures later { self.old.out.faults ≤ self.new.out.faults }
    {
        self.out.write(piece)
    }
}

impl<I: Read, O: Write> Link for StdLink<I, O> {
    fn read(&mut self, buf: &mut [u8]) -> Result<usize, Failed>
        requires { 0 < length buf.old }
        ensures count { IfOk result (λ n. n ≤ length buf.new) }
        ensures bytes { ReadConsumes (I.remaining self.old.input) (I.remaining self.new.input) result buf.new }
        ensures ok { OnOk result (self.new.out.faults ≡ self.old.out.faults) }
        ensures behind { IfOk result (λ n. drop n buf.new ≡ drop n buf.old) }
        ensures err { OnErr result (self.new.out.faults ≡ count_up self.old.out.faults) }
        ensures buffer { OnErr result (buf.new ≡ buf.old) }
        ensures output { self.new.out.output ≡ self.old.out.output }
        ensures later { self.old.out.faults ≤ self.new.out.faults }
    {
        match read_into(&mut self.input, &mut self.piece, buf) {
            Ok(bytes) => Ok(bytes),
            Err(_) => {
                self.out.faults = self.out.faults.saturating_add(1);
                Err(Failed)
            }
        }
    }
}
