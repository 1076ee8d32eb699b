//! The levels that principals have got so far.
ghost use Rattle.std.specs.Prelude.{◌≡◌, ◌<◌, [], length, replicate, slice_set, OnOk, OnErr};
ghost use Rattle.kn_settle.specs.Blank.{AreTrailed};

use kn_base::{List, NoMemory};

/// The level of each principal, and who has got one, in the order in which they got it.
#[derive(Drop)]
pub(crate) struct Levels {
    pub(crate) values: Vec<u8>,
    pub(crate) trail: List<u32>,
}

impl Levels {
    pub(crate) fn set(&mut self, principal: u32, value: u8) -> Result<(), NoMemory>
        requires in_range { principal < length self.old.values.items }
        ensures ok { OnOk result (self.new.values.items ≡ slice_set self.old.values.items principal value) }
        ensures err { OnErr result (self.new.values.items ≡ self.old.values.items) }
        ensures trailed { AreTrailed self.old.values.items self.old.trail
            → AreTrailed self.new.values.items self.new.trail }
    {
        match self.trail.push(principal) {
            Ok(()) => {}
            Err(_) => return Err(NoMemory),
        }
        self.values[principal as usize] = value;
        Ok(())
    }

    /// Takes all levels back, from those alone who have one.
    pub(crate) fn clear(&mut self)
        requires trailed { AreTrailed self.old.values.items self.old.trail }
        ensures values { self.new.values.items ≡ replicate (length self.old.values.items) 0 }
        ensures trail { self.new.trail ≡ [] }
    {
        while let Some(principal) = self.trail.pop() {
            self.values[principal as usize] = 0;
        }
    }
}
