//! Names, each with its number.
ghost use Rattle.std.specs.Prelude.{◌≡◌, ℕ, ◌+◌, ◌-◌, ◌*◌, ◌<◌, ◌≤◌, ◌^◌, [], ◌∷◌, ◌++◌, List, Some};
ghost use Rattle.std.specs.Prelude.{IfSome, IfNone, IfOk, OnOk, OnErr, length, replicate, slice_get, take};
ghost use Rattle.std.specs.Prelude.{vec_capacity, vec_len};
ghost use Rattle.kn_names.specs.Chains.{AreChained, IsTable, home_of};

use crate::arena::Arena;
use kn_base::NoMemory;
use std::alloc::Global;
use std::hash::{FoldHasher, Hasher};
use std::marker::Model;

/// The fewest chains of a table that has any.
const FEWEST_CHAINS: usize = 16;

/// Names by their numbers, seen as the list of them: the number of a name is its place.
///
/// Names whose hashes agree stand in one chain. It begins with the last of them, and each leads to the one before it.
/// Both are numbers that begin with 1, and 0 stands for none. There is at least one chain for each name.
#[derive(Drop)]
pub struct Names {
    alloc: Global,
    arena: Arena,
    heads: Vec<u32>,
    links: Vec<u32>,
}

impl Model for Names {
    ghost use Rattle.std.specs.Prelude.{◌≡◌, ℕ, List, ◌^◌, ◌≤◌, length};
    ghost use Rattle.kn_names.specs.Chains.{IsTable};

    ghost Value = { List (List ℕ) };

    ghost view = { λ n. n.arena };

    ghost invariant = { λ n. IsTable n.arena n.heads.items n.links.items };
}

impl Names {
    /// No names.
    pub fn new(alloc: Global) -> Names
        ensures { result ≡ [] }
    {
        Names {
            alloc,
            arena: Arena::new(alloc),
            heads: Vec::new(alloc),
            links: Vec::new(alloc),
        }
    }

    /// The number of a name.
    pub fn find(&self, name: &[u8]) -> Option<u32>
        ensures number { IfSome result (λ number. slice_get self.now number ≡ Some name.now) }
        ensures absent { IfNone result ((number : ℕ) → slice_get self.now number ≡ Some name.now → ⊥) }
    {
        if self.heads.is_empty() {
            return None;
        }
        let mut at = self.heads[home(name, self.heads.len())];
        while at > 0 {
            let number = at - 1;
            if self.arena.get(number as usize) == name {
                return Some(number);
            }
            at = self.links[number as usize];
        }
        None
    }

    /// The name of a number.
    pub fn get(&self, number: u32) -> &[u8]
        requires in_range { number < length self.now }
        ensures { slice_get self.now number ≡ Some result.now }
    {
        self.arena.get(number as usize)
    }

    /// Adds a name behind the others.
    ///
    /// `NoMemory` comes when memory runs out, and where all names together would have 2^32 bytes.
    pub fn push(&mut self, name: &[u8]) -> Result<(), NoMemory>
        requires few { length self.old < 2 ^ 24 }
        requires absent { (number : ℕ) → slice_get self.old number ≡ Some name.now → ⊥ }
        ensures ok { OnOk result (self.new ≡ self.old ++ name.now ∷ []) }
        ensures err { OnErr result (self.new ≡ self.old) }
    {
        make_room(self.alloc, &self.arena, &mut self.heads, &mut self.links)?;
        self.arena.push(name)?;
        let home = home(name, self.heads.len());
        let number = self.links.len() as u32;
        self.links.push_reserved(self.heads[home]);
        self.heads[home] = number + 1;
        Ok(())
    }

    /// Keeps the first of the names alone.
    pub fn shorten(&mut self, len: u32)
        ensures { self.new ≡ take len self.old }
    {
        while self.arena.len() > len as usize {
            self.pop();
        }
    }

    // Takes the last name away.
    fn pop(&mut self)
        requires { 0 < length self.old }
        ensures { self.new ≡ take (length self.old - 1) self.old }
    {
        let last = self.arena.len() - 1;
        let home = home(self.arena.get(last), self.heads.len());
        self.heads[home] = self.links[last];
        self.links.truncate(last);
        self.arena.pop();
    }
}

// The chain of a name where there are so many.
fn home(name: &[u8], chains: usize) -> usize
    requires { 0 < chains }
    ensures exact { result ≡ home_of chains name.now }
    ensures in_range { result < chains }
{
    let mut hasher = FoldHasher::default();
    hasher.write(name);
    (hasher.finish() % chains as u64) as usize
}

// So many chains without names.
fn no_chains(alloc: Global, count: usize) -> Result<Vec<u32>, NoMemory>
    ensures { IfOk result (λ heads. heads.items ≡ replicate count 0) }
{
    let mut heads = Vec::new(alloc);
    match heads.resize(count, 0) {
        Ok(()) => Ok(heads),
        Err(_) => Err(NoMemory),
    }
}

// Puts all names into chains that have none.
fn chain_all(arena: &Arena, heads: &mut Vec<u32>, links: &mut Vec<u32>)
    requires none { heads.old.items ≡ replicate (length heads.old.items) 0 }
    requires some { 0 < length heads.old.items }
    requires links { length links.old.items ≡ length arena.now }
    requires few { length arena.now < 2 ^ 24 }
    ensures chained { AreChained arena.now (length arena.now) heads.new.items links.new.items }
    ensures chains { length heads.new.items ≡ length heads.old.items }
    ensures links { length links.new.items ≡ length links.old.items }
    ensures room { vec_capacity links.new ≡ vec_capacity links.old }
{
    for number in 0..arena.len() {
        let home = home(arena.get(number), heads.len());
        links[number] = heads[home];
        heads[home] = number as u32 + 1;
    }
}

// Makes room for one more name: a chain for it, and a link.
fn make_room(
    alloc: Global,
    arena: &Arena,
    heads: &mut Vec<u32>,
    links: &mut Vec<u32>,
) -> Result<(), NoMemory>
    requires few { length arena.now < 2 ^ 24 }
    requires table { IsTable arena.now heads.old.items links.old.items }
    ensures table { IsTable arena.now heads.new.items links.new.items }
    ensures chains { OnOk result (length arena.now < length heads.new.items) }
    ensures room { OnOk result (vec_len links.new < vec_capacity links.new) }
{
    match links.reserve(1) {
        Ok(()) => {}
        Err(_) => return Err(NoMemory),
    }
    if arena.len() < heads.len() {
        return Ok(());
    }
    let mut more = no_chains(alloc, 2 * arena.len() + FEWEST_CHAINS)?;
    chain_all(arena, &mut more, links);
    *heads = more;
    Ok(())
}
