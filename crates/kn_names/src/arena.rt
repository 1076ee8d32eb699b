//! Names one behind another in one block of bytes.
ghost use Rattle.std.specs.Prelude.{◌≡◌, ◌+◌, ◌-◌, ◌<◌, ◌≤◌, ◌^◌, [], ◌∷◌, ◌++◌, Some, OnOk, OnErr};
ghost use Rattle.std.specs.Prelude.{length, slice_get, slice_index, slice_range, take};

use kn_base::NoMemory;
use std::alloc::Global;
use std::marker::Model;

/// Names that stand one behind another, seen as the list of them.
#[derive(Drop)]
pub(crate) struct Arena {
    bytes: Vec<u8>,
    // Where each name ends.
    ends: Vec<u32>,
}

impl Model for Arena {
    ghost use Rattle.std.specs.Prelude.{ℕ, List, ◌<◌, ◌^◌, length};
    ghost use Rattle.kn_names.specs.Arenas.{AreEnds, names_from};

    ghost Value = { List (List ℕ) };

    ghost view = { λ a. names_from 0 a.ends.items a.bytes.items };

    ghost invariant = { λ a. AreEnds 0 a.ends.items (length a.bytes.items) × (length a.bytes.items < 2 ^ 32) };
}

impl Arena {
    pub(crate) fn new(alloc: Global) -> Arena
        ensures { result ≡ [] }
    {
        Arena {
            bytes: Vec::new(alloc),
            ends: Vec::new(alloc),
        }
    }

    pub(crate) fn len(&self) -> usize
        ensures { result ≡ length self.now }
    {
        self.ends.len()
    }

    /// The name of a number.
    pub(crate) fn get(&self, number: usize) -> &[u8]
        requires { number < length self.now }
        ensures { slice_get self.now number ≡ Some result.now }
    {
        let start = start(&self.ends, number);
        let end = self.ends[number] as usize;
        part(self.bytes.as_slice(), start, end)
    }

    /// Adds a name behind the others. They have fewer than 2^32 bytes together: one more is `NoMemory`.
    pub(crate) fn push(&mut self, name: &[u8]) -> Result<(), NoMemory>
        ensures ok { OnOk result (self.new ≡ self.old ++ name.now ∷ []) }
        ensures err { OnErr result (self.new ≡ self.old) }
    {
        if name.len() > u32::MAX as usize - self.bytes.len() {
            return Err(NoMemory);
        }
        match self.ends.reserve(1) {
            Ok(()) => {}
            Err(_) => return Err(NoMemory),
        }
        match self.bytes.extend_from_slice(name) {
            Ok(()) => {}
            Err(_) => return Err(NoMemory),
        }
        self.ends.push_reserved(self.bytes.len() as u32);
        Ok(())
    }

    /// Takes the last name away.
    pub(crate) fn pop(&mut self)
        requires { 0 < length self.old }
        ensures { self.new ≡ take (length self.old - 1) self.old }
    {
        let last = self.ends.len() - 1;
        let start = start(&self.ends, last);
        self.ends.truncate(last);
        self.bytes.truncate(start);
    }
}

// Where the name of a number begins, by where each name ends.
fn start(ends: &Vec<u32>, number: usize) -> usize
    requires { number ≤ length ends.now.items }
    ensures { result ≡ slice_index (0 ∷ ends.now.items) number }
{
    if number == 0 {
        0
    } else {
        ends[number - 1] as usize
    }
}

fn part(bytes: &[u8], start: usize, end: usize) -> &[u8]
    requires order { start ≤ end }
    requires inside { end ≤ length bytes.now }
    ensures { result.now ≡ slice_range bytes.now start end }
{
    &bytes[start..end]
}
