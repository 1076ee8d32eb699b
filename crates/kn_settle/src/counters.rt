//! What the gates of a base have counted, and which rows wait for their level.
ghost use Rattle.std.specs.Prelude.{◌≡◌, ◌≢◌, ◌<◌, ◌≤◌, ◌+◌, ◌++◌, ◌∷◌, [], ℕ, Bool, List as ListOf, nat_eq, false};
ghost use Rattle.std.specs.Prelude.{length, min, replicate, IfOk, OnOk, OnErr, slice_index, slice_set};
ghost use Rattle.kn_settle.specs.Counters.{AreLonger, AreVisited, AreWaiting, IsClimbed, IsCounted, IsCounting};
ghost use Rattle.kn_settle.specs.Counters.{IsPending, IsVisit, bucket_at, piece_at};
ghost use Rattle.kn_settle.specs.Blank.{AreTrailed};
ghost use Rattle.kn_settle.specs.Reach.{IsPut};
ghost use Rattle.kn_system.specs.Counts.{IsWithin};
ghost use Rattle.kn_system.specs.declared.nodes.NodeSort.TheVariants.{Gate};
ghost use Rattle.kn_system.specs.declared.rows.Piece.TheVariants.{Who};
ghost use Rattle.kn_system.specs.Equations.{IsSystem, node_total, row_at};
ghost use Rattle.kn_system.specs.Nodes.{pieces_of, uses_of};

use crate::ceilings::Ceilings;
use crate::levels::Levels;
use crate::query_system::QuerySystem;
use kn_base::{List, NoMemory, Steps};
use kn_system::{NodeSort, Up};

/// For each gate, by its node, how many of its parts are marked, up to its need; which gates have counted any; and for
/// each level the rows that give it to their authorizers, in the order in which they came.
#[derive(Drop)]
pub(crate) struct Counters {
    pub(crate) counts: Vec<u32>,
    pub(crate) trail: List<u32>,
    pub(crate) buckets: Vec<List<u32>>,
}

impl Counters {
    // Counts one more part of a gate, unless it has as many as it needs. The answer is whether it has so many now.
    fn count(&mut self, gate: u32, need: u32) -> Result<bool, NoMemory>
        requires in_range { gate < length self.old.counts.items }
        ensures full { need ≤ slice_index self.old.counts.items gate → IfOk result (λ full. full ≡ false) }
        ensures kept { need ≤ slice_index self.old.counts.items gate → self.new.counts.items ≡ self.old.counts.items }
        ensures more { slice_index self.old.counts.items gate < need
            → OnOk result (self.new.counts.items
            ≡ slice_set self.old.counts.items gate (slice_index self.old.counts.items gate + 1)) }
        ensures fulfilled { slice_index self.old.counts.items gate < need
            → IfOk result (λ full. full ≡ nat_eq (slice_index self.old.counts.items gate + 1) need) }
        ensures size { length self.new.counts.items ≡ length self.old.counts.items }
        ensures trailed { AreTrailed self.old.counts.items self.old.trail
            → AreTrailed self.new.counts.items self.new.trail }
        ensures buckets { self.new.buckets.items ≡ self.old.buckets.items }
    {
        let count = self.counts[gate as usize];
        if count >= need {
            return Ok(false);
        }
        self.raise(gate, count)?;
        Ok(count + 1 == need)
    }

    // Counts one more part of a gate that has counted so many.
    fn raise(&mut self, gate: u32, count: u32) -> Result<(), NoMemory>
        requires in_range { gate < length self.old.counts.items }
        requires count { count ≡ slice_index self.old.counts.items gate }
        requires room { count < 4294967295 }
        ensures ok { OnOk result (self.new.counts.items ≡ slice_set self.old.counts.items gate (count + 1)) }
        ensures err { OnErr result (self.new.counts.items ≡ self.old.counts.items) }
        ensures trailed { AreTrailed self.old.counts.items self.old.trail
            → AreTrailed self.new.counts.items self.new.trail }
        ensures buckets { self.new.buckets.items ≡ self.old.buckets.items }
    {
        if count == 0 {
            match self.trail.push(gate) {
                Ok(()) => {}
                Err(_) => return Err(NoMemory),
            }
        }
        self.counts[gate as usize] = count + 1;
        Ok(())
    }

    // Puts a row into the bucket of the level, or of its ceiling, if lower, unless its authorizer has a level already.
    // Only then is its ceiling asked for.
    fn put_row<L, C: Ceilings<L>>(
        &mut self,
        system: &QuerySystem<L, C>,
        row: u32,
        value: u8,
        levels: &Levels,
        steps: &mut Steps<L>,
    ) -> Result<(), NoMemory>
        requires in_range { row < length system.now.rows }
        requires buckets { length self.old.buckets.items ≡ system.now.levels }
        requires level { value < system.now.levels }
        requires one_each { length levels.now.values.items ≡ length system.now.requesters }
        ensures ok { OnOk result (IsPut system.now value levels.now.values.items row self.old.buckets.items
            self.new.buckets.items) }
        ensures size { length self.new.buckets.items ≡ length self.old.buckets.items }
        ensures counts { self.new.counts.items ≡ self.old.counts.items }
        ensures trail { self.new.trail ≡ self.old.trail }
        ensures ticks { IsWithin 1 steps.old steps.new }
    {
        if levels.values[system.authorizer(row) as usize] > 0 {
            return Ok(());
        }
        let ceiling = system.ceiling(row, steps)?;
        let level = value.min(ceiling);
        match self.buckets[level as usize].push(row) {
            Ok(()) => Ok(()),
            Err(_) => Err(NoMemory),
        }
    }

    // Marks a node, and each gate above it that has all it needs by it. A row whose formula is marked so is put
    // into its bucket. At most two steps for the node, of which one is for a ceiling, and one for each gate that is
    // marked.
    fn climb<L, C: Ceilings<L>>(
        &mut self,
        system: &QuerySystem<L, C>,
        node: u32,
        value: u8,
        levels: &Levels,
        steps: &mut Steps<L>,
    ) -> Result<(), NoMemory>
        requires well_formed { IsSystem system.now }
        requires in_range { node < node_total system.now.rows }
        requires counts { length self.old.counts.items ≡ node_total system.now.rows }
        requires buckets { length self.old.buckets.items ≡ system.now.levels }
        requires level { value < system.now.levels }
        requires one_each { length levels.now.values.items ≡ length system.now.requesters }
        ensures climbs { (marks : ListOf Bool) (p : ℕ) → piece_at system.now node ≡ Who p
            → IsPending system.now marks self.old.counts.items node
            → AreWaiting system.now value levels.now.values.items marks self.old.buckets.items
            → (after : ListOf Bool) × IsClimbed system.now marks after node steps.old steps.new
            × OnOk result (IsCounted system.now after self.new.counts.items (node_total system.now.rows)
            × AreWaiting system.now value levels.now.values.items after self.new.buckets.items) }
        ensures longer { OnOk result (AreLonger self.old.buckets.items self.new.buckets.items) }
        ensures counts { length self.new.counts.items ≡ length self.old.counts.items }
        ensures buckets { length self.new.buckets.items ≡ length self.old.buckets.items }
        ensures trailed { AreTrailed self.old.counts.items self.old.trail
            → AreTrailed self.new.counts.items self.new.trail }
    {
        let mut up = system.node(node, steps).up;
        loop {
            match up {
                Up::Row(row) => return self.put_row(system, row, value, levels, steps),
                Up::Node(gate) => {
                    let above = system.node(gate, steps);
                    let full = self.count(gate, need_of(above.sort))?;
                    if !full {
                        return Ok(());
                    }
                    up = above.up;
                }
            }
        }
    }

    /// Marks all uses of a principal that has got the level.
    pub(crate) fn visit<L, C: Ceilings<L>>(
        &mut self,
        system: &QuerySystem<L, C>,
        principal: u32,
        value: u8,
        levels: &Levels,
        steps: &mut Steps<L>,
    ) -> Result<(), NoMemory>
        requires well_formed { IsSystem system.now }
        requires in_range { principal < length system.now.requesters }
        requires counts { length self.old.counts.items ≡ node_total system.now.rows }
        requires buckets { length self.old.buckets.items ≡ system.now.levels }
        requires level { value < system.now.levels }
        requires one_each { length levels.now.values.items ≡ length system.now.requesters }
        ensures visits { (marks : ListOf Bool) → 0 < slice_index levels.now.values.items principal
            → IsCounted system.now marks self.old.counts.items (node_total system.now.rows)
            → AreVisited system.now principal (length (uses_of principal (pieces_of system.now.rows)))
            levels.now.values.items marks
            → AreWaiting system.now value levels.now.values.items marks self.old.buckets.items
            → (after : ListOf Bool) × IsVisit system.now marks after steps.old steps.new
            × OnOk result (IsCounting system.now value levels.now.values.items after self.new.counts.items
            self.new.buckets.items) }
        ensures longer { OnOk result (AreLonger self.old.buckets.items self.new.buckets.items) }
        ensures counts { length self.new.counts.items ≡ length self.old.counts.items }
        ensures buckets { length self.new.buckets.items ≡ length self.old.buckets.items }
        ensures trailed { AreTrailed self.old.counts.items self.old.trail
            → AreTrailed self.new.counts.items self.new.trail }
    {
        let mut next = system.last_use(principal, steps);
        while let Some(node) = next {
            match self.climb(system, node, value, levels, steps) {
                Ok(()) => next = system.use_before(node, steps),
                Err(NoMemory) => return Err(NoMemory),
            }
        }
        Ok(())
    }

    /// Takes all counts back, from those gates alone that have counted, and empties the buckets.
    pub(crate) fn clear(&mut self)
        requires trailed { AreTrailed self.old.counts.items self.old.trail }
        ensures counts { self.new.counts.items ≡ replicate (length self.old.counts.items) 0 }
        ensures trail { self.new.trail ≡ [] }
        ensures buckets { self.new.buckets.items ≡ replicate (length self.old.buckets.items) [] }
    {
        clear_counts(&mut self.counts, &mut self.trail);
        clear_buckets(&mut self.buckets);
    }
}

fn clear_counts(counts: &mut Vec<u32>, trail: &mut List<u32>)
    requires trailed { AreTrailed counts.old.items trail.old }
    ensures counts { counts.new.items ≡ replicate (length counts.old.items) 0 }
    ensures trail { trail.new ≡ [] }
{
    while let Some(gate) = trail.pop() {
        counts[gate as usize] = 0;
    }
}

fn clear_buckets(buckets: &mut Vec<List<u32>>)
    ensures { buckets.new.items ≡ replicate (length buckets.old.items) [] }
{
    for level in 0..buckets.len() {
        empty(&mut buckets[level]);
    }
}

fn empty(bucket: &mut List<u32>)
    ensures { bucket.new ≡ [] }
{
    while let Some(_row) = bucket.pop() {}
}

// What a gate needs.
fn need_of(sort: NodeSort) -> u32
    ensures { (k n : ℕ) → sort ≡ Gate k n → result ≡ k }
{
    match sort {
        NodeSort::Leaf(_) => 0,
        NodeSort::Gate { need, count: _ } => need,
    }
}
