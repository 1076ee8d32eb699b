//! Lists with room.
ghost use Rattle.std.specs.Prelude.{◌≡◌, ◌<◌, ◌≤◌, ◌+◌, ◌-◌, ◌^◌};
ghost use Rattle.std.specs.Prelude.{[], ◌∷◌, ◌++◌, length, vec_len, slice_get, slice_set, remove};
ghost use Rattle.std.specs.Prelude.{IsOk, IfErr, OnOk, OnErr, MatchOption};
ghost use Rattle.std.specs.Option.{option_copied};

use crate::list::List;
use crate::memory::NoMemory;
use std::alloc::Global;
use std::marker::Model;
use std::mem;

/// A list with spare room, seen as its items and the number of pushes that can't fail.
///
/// A contract sees of a `List` its items alone, and so can't speak of its room: were the room seen
/// there, two trees with the same items would differ by it. So a list that reserves is a type of its
/// own, and `finish` makes a plain list of it without memory.
#[derive(Drop)]
pub struct Reserved<T> {
    items: Vec<T>,
}

impl<T> Model for Reserved<T> {
    ghost use Rattle.std.specs.Prelude.{◌-◌, ◌<◌, ◌^◌, min, vec_len, vec_capacity};
    ghost use Rattle.kn_base.specs.ListWithRoom.{ListWithRoom, coded_list_with_room};

    ghost Value = { ListWithRoom T };

    ghost coded = { coded_list_with_room T.code };

    ghost view = { λ r. record {
      items = r.items.items;
      spare = min (vec_capacity r.items) (2 ^ 32 - 1) - vec_len r.items;
    } };

    ghost invariant = { λ r. vec_len r.items < 2 ^ 32 };
}

impl<T> Reserved<T> {
    /// The empty list, with no room.
    pub fn new(alloc: Global) -> Reserved<T>
        ensures items { result.items ≡ [] }
        ensures spare { result.spare ≡ 0 }
    {
        Reserved {
            items: Vec::new(alloc),
        }
    }

    /// The items of a list, with the room that it happens to have.
    pub(crate) fn of(items: Vec<T>) -> Reserved<T>
        requires { vec_len items < 2 ^ 32 }
        ensures { result.items ≡ items.items }
    {
        Reserved { items }
    }

    /// The plain list of these items.
    pub fn finish(self) -> List<T>
        ensures { result ≡ self.items }
    {
        let Reserved { items } = self;
        List::of(items)
    }

    /// Makes room for `more` items, unless memory runs out or the list would be too long.
    pub fn reserve(&mut self, more: u32) -> Result<(), NoMemory>
        ensures items { self.new.items ≡ self.old.items }
        ensures spare { OnOk result (more ≤ self.new.spare) }
        ensures had { more ≤ self.old.spare → IsOk result }
        ensures kept { self.old.spare ≤ self.new.spare }
        ensures err { OnErr result (self.new ≡ self.old) }
    {
        if more as usize > u32::MAX as usize - self.items.len() {
            return Err(NoMemory);
        }
        match self.items.reserve(more as usize) {
            Ok(()) => Ok(()),
            Err(_) => Err(NoMemory),
        }
    }

    /// Adds an item at the end, or gives it back when memory runs out or the list is full.
    pub fn push(&mut self, item: T) -> Result<(), (T, NoMemory)>
        ensures ok { OnOk result (self.new.items ≡ self.old.items ++ item ∷ []) }
        ensures spare { OnOk result (self.old.spare ≤ self.new.spare + 1) }
        ensures had { 0 < self.old.spare → IsOk result }
        ensures err { OnErr result (self.new ≡ self.old) }
        ensures back { IfErr result (λ refused. refused.0 ≡ item) }
    {
        match self.reserve(1) {
            Ok(()) => {
                self.put(item);
                Ok(())
            }
            Err(NoMemory) => Err((item, NoMemory)),
        }
    }

    /// Adds an item at the end, for which there is room.
    pub fn put(&mut self, item: T)
        requires { 0 < self.old.spare }
        ensures items { self.new.items ≡ self.old.items ++ item ∷ [] }
        ensures spare { self.old.spare ≤ self.new.spare + 1 }
    {
        self.items.push_reserved(item);
    }

    /// How many items there are. Spare room is not counted.
    pub fn len(&self) -> u32
        ensures { result ≡ length self.now.items }
    {
        self.items.len() as u32
    }

    /// The item at place `i`, counted from 0, or None past the end.
    pub fn get(&self, i: u32) -> Option<&T>
        ensures { option_copied result ≡ slice_get self.now.items i }
    {
        self.items.get(i as usize)
    }

    /// The items in their order, lent.
    pub fn as_slice(&self) -> &[T]
        ensures { result.now ≡ self.now.items }
    {
        self.items.as_slice()
    }

    /// Takes the last item, or None from an empty list.
    pub fn pop(&mut self) -> Option<T>
        ensures some { MatchOption result
            ((self.old.items ≡ []) × (self.new ≡ self.old))
            (λ last. self.old.items ≡ self.new.items ++ last ∷ []) }
        ensures spare { MatchOption result
            (self.new.spare ≡ self.old.spare)
            (λ _. self.new.spare ≡ self.old.spare + 1) }
    {
        self.items.pop()
    }

    /// Takes the item at place `i`; those behind it close up.
    pub fn remove(&mut self, i: u32) -> T
        requires { i < length self.old.items }
        ensures item { slice_get self.old.items i ≡ Some result }
        ensures rest { self.new.items ≡ remove self.old.items i }
        ensures spare { self.new.spare ≡ self.old.spare + 1 }
    {
        self.items.remove(i as usize)
    }

    /// Puts an item in place `i`, and gives the one that stood there.
    pub fn replace(&mut self, i: u32, item: T) -> T
        requires { i < length self.old.items }
        ensures former { slice_get self.old.items i ≡ Some result }
        ensures after { self.new.items ≡ slice_set self.old.items i item }
        ensures spare { self.new.spare ≡ self.old.spare }
    {
        mem::replace(&mut self.items[i as usize], item)
    }
}
