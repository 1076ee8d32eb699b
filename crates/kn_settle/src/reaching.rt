//! Principals get their levels: each visits its uses once.
ghost use Rattle.std.specs.Prelude.{◌≡◌, ◌<◌, ◌≤◌, ◌+◌, ◌-◌, ◌++◌, ◌∷◌, [], ℕ, Bool, List as ListOf, Some, false};
ghost use Rattle.std.specs.Prelude.{length, IfOk, IfSome, MatchOption, OnOk, slice_get, slice_index, slice_set};
ghost use Rattle.kn_settle.specs.Counters.{AreLonger, IsCounting, IsIn, IsUsed};
ghost use Rattle.kn_settle.specs.Blank.{AreTrailed};
ghost use Rattle.kn_system.specs.Equations.{IsSystem, node_total, row_at};
ghost use Rattle.kn_system.specs.Settled.{IsSettled, IsGrant, count_unsettled};

use crate::ceilings::Ceilings;
use crate::counters::Counters;
use crate::levels::Levels;
use crate::query_system::QuerySystem;
use kn_base::{List, NoMemory, Steps};
use kn_proof::Row;
use kn_system::laws;

/// Gives a principal without a level this level, and visits its uses.
pub(crate) fn reach<L, C: Ceilings<L>>(
    system: &QuerySystem<L, C>,
    principal: u32,
    value: u8,
    levels: &mut Levels,
    counters: &mut Counters,
    steps: &mut Steps<L>,
) -> Result<(), NoMemory>
    requires well_formed { IsSystem system.now }
    requires in_range { principal < length system.now.requesters }
    requires one_each { length levels.old.values.items ≡ length system.now.requesters }
    requires fresh { slice_index levels.old.values.items principal ≡ 0 }
    requires above_lowest { 0 < value }
    requires level { value < system.now.levels }
    requires counts { length counters.old.counts.items ≡ node_total system.now.rows }
    requires buckets { length counters.old.buckets.items ≡ system.now.levels }
    ensures levels { OnOk result (levels.new.values.items ≡ slice_set levels.old.values.items principal value) }
    ensures reaches { (start : ℕ) (marks : ListOf Bool)
        → IsCounting system.now value levels.old.values.items marks counters.old.counts.items counters.old.buckets.items
        → IsUsed system.now marks levels.old.values.items start steps.old
        → (after : ListOf Bool) × IsUsed system.now after levels.new.values.items start steps.new
        × OnOk result (IsCounting system.now value levels.new.values.items after counters.new.counts.items
        counters.new.buckets.items) }
    ensures longer { OnOk result (AreLonger counters.old.buckets.items counters.new.buckets.items) }
    ensures one_each { length levels.new.values.items ≡ length levels.old.values.items }
    ensures counts { length counters.new.counts.items ≡ length counters.old.counts.items }
    ensures buckets { length counters.new.buckets.items ≡ length counters.old.buckets.items }
    ensures reached { AreTrailed levels.old.values.items levels.old.trail
        → AreTrailed levels.new.values.items levels.new.trail }
    ensures counted { AreTrailed counters.old.counts.items counters.old.trail
        → AreTrailed counters.new.counts.items counters.new.trail }
{
    match levels.set(principal, value) {
        Ok(()) => {}
        Err(_) => return Err(NoMemory),
    }
    match counters.visit(system, principal, value, levels, steps) {
        Ok(()) => Ok(()),
        Err(NoMemory) => Err(NoMemory),
    }
}

/// Gives a row's authorizer the level that the row is worth, with a row of the proof, and visits its uses.
pub(crate) fn grant<L, C: Ceilings<L>>(
    system: &QuerySystem<L, C>,
    row: u32,
    value: u8,
    levels: &mut Levels,
    rows: &mut List<Row>,
    counters: &mut Counters,
    steps: &mut Steps<L>,
) -> Result<(), NoMemory>
    requires well_formed { IsSystem system.now }
    requires above_lowest { 0 < value }
    requires level { value < system.now.levels }
    requires settled { IsSettled system.now value levels.old.values.items rows.old }
    requires granted { IsGrant system.now value levels.old.values.items row }
    requires counts { length counters.old.counts.items ≡ node_total system.now.rows }
    requires buckets { length counters.old.buckets.items ≡ system.now.levels }
    ensures settled { OnOk result (IsSettled system.now value levels.new.values.items rows.new) }
    ensures levels { OnOk result (levels.new.values.items
        ≡ slice_set levels.old.values.items (row_at system.now.rows row).authorizer value) }
    ensures fewer { OnOk result (count_unsettled levels.new.values.items < count_unsettled levels.old.values.items) }
    ensures grants { (start : ℕ) (marks : ListOf Bool)
        → IsCounting system.now value levels.old.values.items marks counters.old.counts.items counters.old.buckets.items
        → IsUsed system.now marks levels.old.values.items start steps.old
        → (after : ListOf Bool) × IsUsed system.now after levels.new.values.items start steps.new
        × OnOk result (IsCounting system.now value levels.new.values.items after counters.new.counts.items
        counters.new.buckets.items) }
    ensures longer { OnOk result (AreLonger counters.old.buckets.items counters.new.buckets.items) }
    ensures one_each { length levels.new.values.items ≡ length levels.old.values.items }
    ensures counts { length counters.new.counts.items ≡ length counters.old.counts.items }
    ensures buckets { length counters.new.buckets.items ≡ length counters.old.buckets.items }
    ensures reached { AreTrailed levels.old.values.items levels.old.trail
        → AreTrailed levels.new.values.items levels.new.trail }
    ensures counted { AreTrailed counters.old.counts.items counters.old.trail
        → AreTrailed counters.new.counts.items counters.new.trail }
{
    let principal = system.authorizer(row);
    laws::settling_grants();
    let granted = Row {
        principal,
        value,
        by: row,
    };
    match rows.push(granted) {
        Ok(()) => {}
        Err(_) => return Err(NoMemory),
    }
    match reach(system, principal, value, levels, counters, steps) {
        Ok(()) => Ok(()),
        Err(NoMemory) => Err(NoMemory),
    }
}

/// The first row of a bucket, from a place on, whose authorizer has no level yet; the place goes on to it.
pub(crate) fn next_row<L, C: Ceilings<L>>(
    system: &QuerySystem<L, C>,
    bucket: &List<u32>,
    at: &mut u32,
    levels: &Levels,
) -> Option<u32>
    requires named { (i r : ℕ) → slice_get bucket.now i ≡ Some r → r < length system.now.rows }
    requires one_each { length levels.now.values.items ≡ length system.now.requesters }
    requires within { at.old ≤ length bucket.now }
    ensures found { IfSome result (λ row. IsIn bucket.now row) }
    ensures fresh { IfSome result (λ row. slice_index levels.now.values.items (row_at system.now.rows row).authorizer
        ≡ 0) }
    ensures passed { (i r : ℕ) → at.old ≤ i → i < at.new → slice_get bucket.now i ≡ Some r
        → 0 < slice_index levels.now.values.items (row_at system.now.rows r).authorizer }
    ensures none { MatchOption result (at.new ≡ length bucket.now) (λ _. at.new < length bucket.now) }
    ensures further { at.old ≤ at.new }
    ensures within { at.new ≤ length bucket.now }
{
    let waiting = bucket.as_slice();
    let end = bucket.len();
    while *at < end {
        let row = waiting[*at as usize];
        if levels.values[system.authorizer(row) as usize] == 0 {
            return Some(row);
        }
        *at += 1;
    }
    None
}
