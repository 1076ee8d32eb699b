//! What a settling writes on.
ghost use Rattle.std.specs.Prelude.{◌≡◌, [], replicate, OnOk, length};

use crate::counters::Counters;
use crate::levels::Levels;
use kn_base::{List, NoMemory};
use std::alloc::Global;
use std::marker::Model;

/// What a settling writes on, seen as how many principals, nodes and levels it is for. Nothing is kept there before and
/// after, so that a settling costs what it touches.
#[derive(Drop)]
pub struct Scratch {
    pub(crate) levels: Levels,
    pub(crate) counters: Counters,
}

impl Model for Scratch {
    ghost use Rattle.std.specs.Prelude.{length};
    ghost use Rattle.kn_settle.specs.Blank.{IsBlank, Sizes};

    ghost Value = { Sizes };

    ghost view = { λ s. record {
      principals = length s.levels.values.items;
      nodes = length s.counters.counts.items;
      levels = length s.counters.buckets.items;
    } };

    ghost invariant = { λ s. IsBlank (length s.levels.values.items) (length s.counters.counts.items)
        (length s.counters.buckets.items) s.levels.values.items s.levels.trail s.counters.counts.items
        s.counters.trail s.counters.buckets.items };
}

impl Scratch {
    /// Scratch for no principals, nodes and levels.
    pub fn new(alloc: Global) -> Scratch
        ensures { result ≡ record { principals = 0; nodes = 0; levels = 0 } }
    {
        Scratch {
            levels: Levels {
                values: Vec::new(alloc),
                trail: List::new(alloc),
            },
            counters: Counters {
                counts: Vec::new(alloc),
                trail: List::new(alloc),
                buckets: Vec::new(alloc),
            },
        }
    }

    /// Scratch for so many principals, nodes and levels. It costs by how much these differ from what it was for.
    pub fn fit(
        &mut self,
        alloc: Global,
        principals: u32,
        nodes: u32,
        levels: u8,
    ) -> Result<(), NoMemory>
        ensures { OnOk result (self.new ≡ record { principals = principals; nodes = nodes; levels = levels }) }
    {
        match fit_values(&mut self.levels.values, principals as usize) {
            Ok(()) => {}
            Err(_) => return Err(NoMemory),
        }
        match fit_counts(&mut self.counters.counts, nodes as usize) {
            Ok(()) => {}
            Err(_) => return Err(NoMemory),
        }
        match fit_buckets(alloc, &mut self.counters.buckets, levels as usize) {
            Ok(()) => Ok(()),
            Err(_) => Err(NoMemory),
        }
    }
}

fn fit_values(values: &mut Vec<u8>, size: usize) -> Result<(), NoMemory>
    requires { values.old.items ≡ replicate (length values.old.items) 0 }
    ensures none { values.new.items ≡ replicate (length values.new.items) 0 }
    ensures size { OnOk result (length values.new.items ≡ size) }
{
    values.truncate(size);
    while values.len() < size {
        match values.push(0) {
            Ok(()) => {}
            Err(_) => return Err(NoMemory),
        }
    }
    Ok(())
}

fn fit_counts(counts: &mut Vec<u32>, size: usize) -> Result<(), NoMemory>
    requires { counts.old.items ≡ replicate (length counts.old.items) 0 }
    ensures none { counts.new.items ≡ replicate (length counts.new.items) 0 }
    ensures size { OnOk result (length counts.new.items ≡ size) }
{
    counts.truncate(size);
    while counts.len() < size {
        match counts.push(0) {
            Ok(()) => {}
            Err(_) => return Err(NoMemory),
        }
    }
    Ok(())
}

fn fit_buckets(alloc: Global, buckets: &mut Vec<List<u32>>, size: usize) -> Result<(), NoMemory>
    requires { buckets.old.items ≡ replicate (length buckets.old.items) [] }
    ensures none { buckets.new.items ≡ replicate (length buckets.new.items) [] }
    ensures size { OnOk result (length buckets.new.items ≡ size) }
{
    buckets.truncate(size);
    while buckets.len() < size {
        match buckets.push(List::new(alloc)) {
            Ok(()) => {}
            Err(_) => return Err(NoMemory),
        }
    }
    Ok(())
}
