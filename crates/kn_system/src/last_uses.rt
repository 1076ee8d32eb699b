//! The last use of each principal.
ghost use Rattle.std.specs.Prelude.{◌≡◌, ◌+◌, ◌^◌, ◌<◌, ◌==◌, if◌then◌else◌};
ghost use Rattle.std.specs.Prelude.{[], ℕ, IfOk, OnOk, OnErr, length, slice_index_or, slice_set};

use kn_base::NoMemory;
use std::alloc::Global;

/// For each principal one more than its last use, or 0 where it has none, and how many uses there are.
///
/// A principal behind the end of the list has no use.
#[derive(Drop)]
pub(crate) struct LastUses {
    pub last: Vec<u32>,
    pub count: u32,
}

impl LastUses {
    pub(crate) fn new(alloc: Global) -> LastUses
        ensures last { result.last.items ≡ [] }
        ensures count { result.count ≡ 0 }
    {
        LastUses {
            last: Vec::new(alloc),
            count: 0,
        }
    }

    /// One more than the principal's last use, or 0 where it has none.
    pub(crate) fn get(&self, principal: u32) -> u32
        ensures { result ≡ slice_index_or self.now.last.items principal 0 }
    {
        if principal as usize >= self.last.len() {
            return 0;
        }
        self.last[principal as usize]
    }

    /// Makes a node the last use of the principal, and gives one more than the use before it, or 0.
    pub(crate) fn push(&mut self, principal: u32, node: u32) -> Result<u32, NoMemory>
        requires node { node < 2 ^ 24 }
        requires few { self.old.count < 2 ^ 24 }
        ensures before { IfOk result (λ before. before ≡ slice_index_or self.old.last.items principal 0) }
        ensures last { OnOk result ((p : ℕ) → slice_index_or self.new.last.items p 0
            ≡ (if principal == p then node + 1 else slice_index_or self.old.last.items p 0)) }
        ensures count { OnOk result (self.new.count ≡ self.old.count + 1) }
        ensures err_last { OnErr result ((p : ℕ) → slice_index_or self.new.last.items p 0
            ≡ slice_index_or self.old.last.items p 0) }
        ensures err_count { OnErr result (self.new.count ≡ self.old.count) }
    {
        let place = principal as usize;
        widen(&mut self.last, place)?;
        let before = self.last[place];
        self.last[place] = node + 1;
        self.count += 1;
        Ok(before)
    }

    /// Takes the last use of the principal away, before which came this one: one more than it, or 0.
    pub(crate) fn pop(&mut self, principal: u32, before: u32)
        requires there { principal < length self.old.last.items }
        requires some { 0 < self.old.count }
        ensures last { self.new.last.items ≡ slice_set self.old.last.items principal before }
        ensures count { self.new.count + 1 ≡ self.old.count }
    {
        self.last[principal as usize] = before;
        self.count -= 1;
    }
}

// Gives principals up to the place a number.
#[tactic(auto, using(crate::proofs::LinkedUses::number_more))]
fn widen(last: &mut Vec<u32>, place: usize) -> Result<(), NoMemory>
    ensures same { (p : ℕ) → slice_index_or last.new.items p 0 ≡ slice_index_or last.old.items p 0 }
    ensures there { OnOk result (place < length last.new.items) }
{
    while last.len() <= place {
        match last.push(0) {
            Ok(()) => {}
            Err(_) => return Err(NoMemory),
        }
    }
    Ok(())
}
