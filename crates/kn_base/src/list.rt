//! Lists of at most `u32::MAX` items, which may run out of memory.
ghost use Rattle.std.specs.Prelude.{◌≡◌, ◌<◌, ◌≤◌, ◌+◌, ◌^◌, ◌↔◌};
ghost use Rattle.std.specs.Prelude.{[], ◌∷◌, ◌++◌, length, vec_len, slice_get, slice_set, remove};
ghost use Rattle.std.specs.Prelude.{IsTrue, IfOk, IfErr, OnOk, OnErr, MatchOption};
ghost use Rattle.std.specs.Option.{option_copied};

use crate::memory::NoMemory;
use crate::reserved::Reserved;
use std::alloc::Global;
use std::marker::Model;
use std::mem;

/// A list of at most `u32::MAX` items, seen as that list.
///
/// Its spare room is no part of what is seen, so that trees which hold lists are equal where their
/// items are. Room that a later push may count on is seen at a `Reserved`.
#[derive(Drop)]
pub struct List<T> {
    items: Vec<T>,
}

impl<T> Model for List<T> {
    ghost use Rattle.std.specs.Prelude.{List, ◌<◌, ◌^◌, vec_len};
    ghost use Rattle.std.specs.Coded.{coded_list};

    ghost Value = { List T };

    ghost coded = { coded_list T.code };

    ghost view = { λ l. l.items.items };

    ghost invariant = { λ l. vec_len l.items < 2 ^ 32 };
}

impl<T> List<T> {
    /// The empty list.
    pub fn new(alloc: Global) -> List<T>
        ensures { result ≡ [] }
    {
        List {
            items: Vec::new(alloc),
        }
    }

    pub(crate) fn of(items: Vec<T>) -> List<T>
        requires { vec_len items < 2 ^ 32 }
        ensures { result ≡ items.items }
    {
        List { items }
    }

    /// Adds an item at the end, or gives it back when memory runs out or the list is full.
    pub fn push(&mut self, item: T) -> Result<(), (T, NoMemory)>
        ensures ok { OnOk result (self.new ≡ self.old ++ item ∷ []) }
        ensures err { OnErr result (self.new ≡ self.old) }
        ensures back { IfErr result (λ refused. refused.0 ≡ item) }
    {
        if self.items.len() >= u32::MAX as usize {
            return Err((item, NoMemory));
        }
        match self.items.push(item) {
            Ok(()) => Ok(()),
            Err(failed) => Err((failed.value, NoMemory)),
        }
    }

    /// The same list with room for `more` items, or the list itself when out of memory.
    pub fn reserve(self, more: u32) -> Result<Reserved<T>, (List<T>, NoMemory)>
        ensures items { IfOk result (λ room. room.items ≡ self) }
        ensures spare { IfOk result (λ room. more ≤ room.spare) }
        ensures back { IfErr result (λ refused. refused.0 ≡ self) }
    {
        let List { items } = self;
        let mut room = Reserved::of(items);
        match room.reserve(more) {
            Ok(()) => Ok(room),
            Err(NoMemory) => Err((room.finish(), NoMemory)),
        }
    }

    /// How many items there are.
    pub fn len(&self) -> u32
        ensures { result ≡ length self.now }
    {
        self.items.len() as u32
    }

    /// Whether there are no items.
    pub fn is_empty(&self) -> bool
        ensures { IsTrue result ↔ (self.now ≡ []) }
    {
        self.items.is_empty()
    }

    /// The item at place `i`, counted from 0, or None past the end.
    pub fn get(&self, i: u32) -> Option<&T>
        ensures { option_copied result ≡ slice_get self.now i }
    {
        self.items.get(i as usize)
    }

    /// The items in their order, lent.
    pub fn as_slice(&self) -> &[T]
        ensures { result.now ≡ self.now }
    {
        self.items.as_slice()
    }

    /// Takes the last item, or None from an empty list.
    pub fn pop(&mut self) -> Option<T>
        ensures { MatchOption result ((self.old ≡ []) × (self.new ≡ [])) (λ last. self.old ≡ self.new ++ last ∷ []) }
    {
        self.items.pop()
    }

    /// Takes the item at place `i`; those behind it close up.
    pub fn remove(&mut self, i: u32) -> T
        requires { i < length self.old }
        ensures item { slice_get self.old i ≡ Some result }
        ensures rest { self.new ≡ remove self.old i }
    {
        self.items.remove(i as usize)
    }

    /// Puts an item in place `i`, and gives the one that stood there.
    pub fn replace(&mut self, i: u32, item: T) -> T
        requires { i < length self.old }
        ensures former { slice_get self.old i ≡ Some result }
        ensures after { self.new ≡ slice_set self.old i item }
    {
        mem::replace(&mut self.items[i as usize], item)
    }
}

impl<T: Drop> List<T> {
    /// Adds an item at the end, or drops it when memory runs out or the list is full.
    ///
    /// The first item gets room for itself alone, since many lists of a tree have one item.
    pub fn add(&mut self, item: T) -> Result<(), NoMemory>
        ensures ok { OnOk result (self.new ≡ self.old ++ item ∷ []) }
        ensures err { OnErr result (self.new ≡ self.old) }
    {
        if self.items.is_empty() && self.items.reserve_exact(1).is_err() {
            return Err(NoMemory);
        }
        match self.push(item) {
            Ok(()) => Ok(()),
            Err(_refused) => Err(NoMemory),
        }
    }
}
