//! Bytes that are gathered before they are written.
ghost use Rattle.std.specs.Prelude.{◌≡◌, ◌≤◌, [], take, length, vec_capacity, IfOk, OnOk, OnErr};
ghost use Rattle.std.specs.Io.KnownBytes.{Appends};
ghost use Rattle.kn_real.specs.Gathering.{AppendsFront, AddsBehind};

use crate::retry::{write_some, write_whole};
use kn_outside::Failed;
use std::alloc::Global;
use std::io::Write;

/// The most bytes that are gathered.
const ROOM: usize = 16_384;

/// Bytes that wait to be written together, in room that is taken once.
#[derive(Drop)]
pub(crate) struct Gathered {
    bytes: Vec<u8>,
}

impl Gathered {
    /// No bytes. When out of memory for the room, nothing is gathered: each piece is written at once.
    pub(crate) fn new(alloc: Global) -> Gathered
        ensures { result.bytes.items ≡ [] }
    {
        match Vec::with_capacity(alloc, ROOM) {
            Ok(bytes) => Gathered { bytes },
            Err(_) => Gathered {
                bytes: Vec::new(alloc),
            },
        }
    }

    /// Takes the first bytes of a piece and tells how many: none only of an empty piece, or where the writer takes
    /// none. Where the room is full, what was gathered is written first.
    pub(crate) fn write<W: Write>(&mut self, writer: &mut W, piece: &[u8]) -> Result<usize, Failed>
        ensures count { IfOk result (λ n. n ≤ length piece.now) }
        ensures bytes { IfOk result (λ n. AddsBehind
            (W.contents writer.old) self.old.bytes.items
            (W.contents writer.new) self.new.bytes.items (take n piece.now)) }
        ensures front { OnErr result (AppendsFront
            (W.contents writer.old) (W.contents writer.new) self.old.bytes.items) }
        ensures none { OnErr result (self.new.bytes.items ≡ []) }
    {
        if self.bytes.len() == self.bytes.capacity() {
            self.send(writer)?;
        }
        let room = self.bytes.capacity() - self.bytes.len();
        if room == 0 {
            return match write_some(writer, piece) {
                Ok(bytes) => Ok(bytes),
                Err(_) => Err(Failed),
            };
        }
        let taken = piece.split_at(room.min(piece.len())).0;
        match self.bytes.extend_from_slice(taken) {
            Ok(()) => Ok(taken.len()),
            Err(_) => unreachable!(),
        }
    }

    /// Writes all that was gathered. Where that fails, what wasn't written is lost.
    pub(crate) fn send<W: Write>(&mut self, writer: &mut W) -> Result<(), Failed>
        ensures none { self.new.bytes.items ≡ [] }
        ensures sent { OnOk result (Appends (W.contents writer.old) (W.contents writer.new) self.old.bytes.items) }
        ensures front { OnErr result (AppendsFront
            (W.contents writer.old) (W.contents writer.new) self.old.bytes.items) }
        ensures room { vec_capacity self.new.bytes ≡ vec_capacity self.old.bytes }
    {
        let sent = write_whole(writer, self.bytes.as_slice());
        self.bytes.clear();
        sent
    }
}
