//! Settling: the least levels from the highest level down, with a proof.
ghost use Rattle.std.specs.Prelude.{◌≡◌, ◌<◌, ◌≤◌, ◌-◌, ◌*◌, [], ◌∷◌, ◌++◌, ℕ, Bool, List as ListOf};
ghost use Rattle.std.specs.Prelude.{All, length, replicate, IfOk, OnOk, slice_index};
ghost use Rattle.kn_base.specs.declared.limits.TheConstants.{FEWEST_COMPLIANCE_VALUES, MOST_COMPLIANCE_VALUES};
ghost use Rattle.kn_settle.specs.QuerySystem.{query_system, flags_from, IsOther};
ghost use Rattle.kn_settle.specs.FirstLevels.{AreBegun};
ghost use Rattle.kn_settle.specs.Blank.{AreTrailed, IsBlank};
ghost use Rattle.kn_settle.specs.Reach.{most_reached};
ghost use Rattle.kn_settle.specs.Counters.{IsCounting, IsUsed, most_ticks};
ghost use Rattle.kn_system.specs.Counts.{IsWithin};
ghost use Rattle.kn_system.specs.Equations.{IsSystem, node_total};
ghost use Rattle.kn_system.specs.Least.{at_first, least_levels};
ghost use Rattle.kn_system.specs.Proofs.{levels_after, HasOneRowEach, IsProof};
ghost use Rattle.kn_system.specs.Settled.{IsSettled};

use crate::ceilings::Ceilings;
use crate::counters::Counters;
use crate::levels::Levels;
use crate::query_system::QuerySystem;
use crate::reaching::{grant, next_row, reach};
use crate::requesters::requesters_of;
use crate::scratch::Scratch;
use kn_base::{List, NoMemory, Octets, Steps};
use kn_proof::{Proof, Row};
use kn_system::{System, laws};
use std::alloc::Global;

/// What settling a system gives.
#[derive(Drop)]
pub struct Settled {
    /// The level of each principal in the least fixed point, by its number.
    pub values: Octets,
    /// A proof of it, with one row for each principal above the lowest level that is no requester.
    pub proof: Proof,
}

/// What settling a query over a base gives.
#[derive(Drop)]
pub struct SettledPolicy {
    /// The policy's level in the least fixed point.
    pub value: u8,
    /// A proof of it, with one row for each principal above the lowest level that is no requester.
    pub proof: Proof,
}

/// The least levels of a system (RFC 2704, section 5), and a proof of them (keynoted's own).
///
/// Principals are settled from the highest level down. One that gets its level visits its uses once, each gate
/// counts its fulfilled parts up to its need, and a row whose formula is fulfilled waits in the bucket of the
/// level that it gives.
///
/// A step is a use, a node of a formula or a ceiling that is read.
pub fn settle<L>(
    alloc: Global,
    system: &System<L>,
    steps: &mut Steps<L>,
) -> Result<Settled, NoMemory>
    ensures levels { IfOk result (λ settled. settled.values ≡ least_levels system.now) }
    ensures proof { IfOk result (λ settled. IsProof system.now settled.proof.rows (slice_index (least_levels system.now)
        0)) }
    ensures after { IfOk result (λ settled. levels_after (at_first system.now) settled.proof.rows
        ≡ least_levels system.now) }
    ensures rows { IfOk result (λ settled. HasOneRowEach system.now (least_levels system.now) settled.proof.rows) }
    ensures ticks { IsWithin (most_ticks system.now) steps.old steps.new }
{
    let requesters = requesters_of(alloc, system)?;
    let requesters = requesters.as_slice();
    let mut scratch = Scratch::new(alloc);
    scratch.fit(alloc, system.principals(), system.nodes(), system.levels())?;
    let Scratch {
        mut levels,
        mut counters,
    } = scratch;
    let query = QuerySystem::of(system, system.levels(), requesters, system);
    let settled = settle_in(alloc, &query, requesters, &mut levels, &mut counters, steps)?;
    Ok(Settled {
        values: Octets::from_slice(alloc, levels.values.as_slice())?,
        proof: settled.proof,
    })
}

/// The policy's least level in a query over a base (RFC 2704, section 5), and a proof of it (keynoted's own), on
/// demand: settling goes from the requesters to what they reach.
///
/// The base is a system whose levels, requesters and ceilings are of no matter. `requesters` are those of the query by
/// their numbers in the base, and the scratch is for the base's principals and nodes and the query's levels.
///
/// A step is a use, a node of a formula or a ceiling that is read.
pub fn settle_on_demand<L, C: Ceilings<L>>(
    alloc: Global,
    base: &System<L>,
    levels: u8,
    requesters: &[u32],
    ceilings: &C,
    scratch: &mut Scratch,
    steps: &mut Steps<L>,
) -> Result<SettledPolicy, NoMemory>
    requires at_least_two { FEWEST_COMPLIANCE_VALUES ≤ levels }
    requires at_most { levels ≤ MOST_COMPLIANCE_VALUES }
    requires others { All (IsOther (length base.now.requesters)) requesters.now }
    requires one_each { length (C.each ceilings.now) ≡ length base.now.rows }
    requires low { All (λ ceiling. ceiling < levels) (C.each ceilings.now) }
    requires sizes { scratch.old ≡ record {
      principals = length base.now.requesters;
      nodes = node_total base.now.rows;
      levels = levels;
    } }
    ensures value { let s = query_system base.now levels requesters.now (C.each ceilings.now) in
        IfOk result (λ settled. settled.value ≡ slice_index (least_levels s) 0) }
    ensures proof { let s = query_system base.now levels requesters.now (C.each ceilings.now) in
        IfOk result (λ settled. IsProof s settled.proof.rows (slice_index (least_levels s) 0)) }
    ensures after { let s = query_system base.now levels requesters.now (C.each ceilings.now) in
        IfOk result (λ settled. levels_after (at_first s) settled.proof.rows ≡ least_levels s) }
    ensures rows { let s = query_system base.now levels requesters.now (C.each ceilings.now) in
        IfOk result (λ settled. HasOneRowEach s (least_levels s) settled.proof.rows) }
    ensures ticks { let s = query_system base.now levels requesters.now (C.each ceilings.now) in
        IsWithin (most_ticks s) steps.old steps.new }
    ensures reached { let s = query_system base.now levels requesters.now (C.each ceilings.now) in
        OnOk result (IsWithin (most_reached s) steps.old steps.new) }
    ensures sizes { scratch.new ≡ scratch.old }
{
    let query = QuerySystem::of(base, levels, requesters, ceilings);
    let settled = settle_in(
        alloc,
        &query,
        requesters,
        &mut scratch.levels,
        &mut scratch.counters,
        steps,
    );
    scratch.levels.clear();
    scratch.counters.clear();
    settled
}

// Settles all levels above the lowest, in `levels`, where nobody has one and nothing is counted yet.
fn settle_in<L, C: Ceilings<L>>(
    alloc: Global,
    system: &QuerySystem<L, C>,
    requesters: &[u32],
    levels: &mut Levels,
    counters: &mut Counters,
    steps: &mut Steps<L>,
) -> Result<SettledPolicy, NoMemory>
    requires flags { system.now.requesters ≡ flags_from requesters.now 0 (length system.now.requesters) }
    requires others { All (IsOther (length system.now.requesters)) requesters.now }
    requires blank { IsBlank (length system.now.requesters) (node_total system.now.rows) system.now.levels
        levels.old.values.items levels.old.trail counters.old.counts.items counters.old.trail
        counters.old.buckets.items }
    ensures levels { OnOk result (levels.new.values.items ≡ least_levels system.now) }
    ensures value { IfOk result (λ settled. settled.value ≡ slice_index (least_levels system.now) 0) }
    ensures proof { IfOk result (λ settled. IsProof system.now settled.proof.rows (slice_index (least_levels system.now)
        0)) }
    ensures after { IfOk result (λ settled. levels_after (at_first system.now) settled.proof.rows
        ≡ least_levels system.now) }
    ensures rows { IfOk result (λ settled. HasOneRowEach system.now (least_levels system.now) settled.proof.rows) }
    ensures ticks { IsWithin (most_ticks system.now) steps.old steps.new }
    ensures reached { OnOk result (IsWithin (most_reached system.now) steps.old steps.new) }
    ensures levels_trailed { AreTrailed levels.new.values.items levels.new.trail }
    ensures counts_trailed { AreTrailed counters.new.counts.items counters.new.trail }
    ensures levels_size { length levels.new.values.items ≡ length system.now.requesters }
    ensures counts_size { length counters.new.counts.items ≡ node_total system.now.rows }
    ensures buckets_size { length counters.new.buckets.items ≡ system.now.levels }
{
    let mut value = system.levels() - 1;
    reach_requesters(system, value, requesters, levels, counters, steps)?;
    let mut rows = List::new(alloc);
    laws::settling_starts();
    while value > 0 {
        settle_level(system, value, levels, &mut rows, counters, steps)?;
        value -= 1;
    }
    laws::settling_ends();
    laws::proof_determines_level();
    laws::proofs_have_one_row_each();
    Ok(SettledPolicy {
        value: levels.values[0],
        proof: Proof { rows },
    })
}

// Gives each requester the top level, and visits its uses.
fn reach_requesters<L, C: Ceilings<L>>(
    system: &QuerySystem<L, C>,
    top: u8,
    requesters: &[u32],
    levels: &mut Levels,
    counters: &mut Counters,
    steps: &mut Steps<L>,
) -> Result<(), NoMemory>
    requires well_formed { IsSystem system.now }
    requires top { top ≡ system.now.levels - 1 }
    requires flags { system.now.requesters ≡ flags_from requesters.now 0 (length system.now.requesters) }
    requires others { All (IsOther (length system.now.requesters)) requesters.now }
    requires none { levels.old.values.items ≡ replicate (length system.now.requesters) 0 }
    requires counts { length counters.old.counts.items ≡ node_total system.now.rows }
    requires buckets { length counters.old.buckets.items ≡ system.now.levels }
    ensures levels { OnOk result (levels.new.values.items ≡ at_first system.now) }
    ensures counting { (start : ℕ) (marks : ListOf Bool)
        → IsCounting system.now top levels.old.values.items marks counters.old.counts.items counters.old.buckets.items
        → IsUsed system.now marks levels.old.values.items start steps.old
        → (after : ListOf Bool) × IsUsed system.now after levels.new.values.items start steps.new
        × OnOk result (IsCounting system.now top levels.new.values.items after counters.new.counts.items
        counters.new.buckets.items) }
    ensures one_each { length levels.new.values.items ≡ length levels.old.values.items }
    ensures counts { length counters.new.counts.items ≡ length counters.old.counts.items }
    ensures buckets { length counters.new.buckets.items ≡ length counters.old.buckets.items }
    ensures reached { AreTrailed levels.old.values.items levels.old.trail
        → AreTrailed levels.new.values.items levels.new.trail }
    ensures counted { AreTrailed counters.old.counts.items counters.old.trail
        → AreTrailed counters.new.counts.items counters.new.trail }
{
    for place in 0..requesters.len() {
        reach_requester(system, requesters[place], top, levels, counters, steps)?;
    }
    Ok(())
}

// Gives a requester the top level, unless it has it, and visits its uses.
fn reach_requester<L, C: Ceilings<L>>(
    system: &QuerySystem<L, C>,
    principal: u32,
    top: u8,
    levels: &mut Levels,
    counters: &mut Counters,
    steps: &mut Steps<L>,
) -> Result<(), NoMemory>
    requires well_formed { IsSystem system.now }
    requires top { top ≡ system.now.levels - 1 }
    requires in_range { principal < length system.now.requesters }
    requires one_each { length levels.old.values.items ≡ length system.now.requesters }
    requires counts { length counters.old.counts.items ≡ node_total system.now.rows }
    requires buckets { length counters.old.buckets.items ≡ system.now.levels }
    ensures begun { OnOk result ((requesters : ListOf ℕ) → AreBegun system.now levels.old.values.items requesters
        → AreBegun system.now levels.new.values.items (requesters ++ principal ∷ [])) }
    ensures reaches { (start : ℕ) (marks : ListOf Bool)
        → IsCounting system.now top levels.old.values.items marks counters.old.counts.items counters.old.buckets.items
        → IsUsed system.now marks levels.old.values.items start steps.old
        → (after : ListOf Bool) × IsUsed system.now after levels.new.values.items start steps.new
        × OnOk result (IsCounting system.now top levels.new.values.items after counters.new.counts.items
        counters.new.buckets.items) }
    ensures one_each { length levels.new.values.items ≡ length levels.old.values.items }
    ensures counts { length counters.new.counts.items ≡ length counters.old.counts.items }
    ensures buckets { length counters.new.buckets.items ≡ length counters.old.buckets.items }
    ensures reached { AreTrailed levels.old.values.items levels.old.trail
        → AreTrailed levels.new.values.items levels.new.trail }
    ensures counted { AreTrailed counters.old.counts.items counters.old.trail
        → AreTrailed counters.new.counts.items counters.new.trail }
{
    if levels.values[principal as usize] > 0 {
        return Ok(());
    }
    match reach(system, principal, top, levels, counters, steps) {
        Ok(()) => Ok(()),
        Err(NoMemory) => Err(NoMemory),
    }
}

// Empties the bucket of the level, and what comes to it meanwhile.
fn settle_level<L, C: Ceilings<L>>(
    system: &QuerySystem<L, C>,
    value: u8,
    levels: &mut Levels,
    rows: &mut List<Row>,
    counters: &mut Counters,
    steps: &mut Steps<L>,
) -> Result<(), NoMemory>
    requires well_formed { IsSystem system.now }
    requires above_lowest { 0 < value }
    requires level { value < system.now.levels }
    requires settled { IsSettled system.now value levels.old.values.items rows.old }
    requires counting { (marks : ListOf Bool)
        × IsCounting system.now value levels.old.values.items marks
        counters.old.counts.items counters.old.buckets.items }
    ensures settled { OnOk result (IsSettled system.now (value - 1) levels.new.values.items rows.new) }
    ensures counting { (start : ℕ) (marks : ListOf Bool)
        → IsCounting system.now value levels.old.values.items marks counters.old.counts.items counters.old.buckets.items
        → IsUsed system.now marks levels.old.values.items start steps.old
        → (after : ListOf Bool) × IsUsed system.now after levels.new.values.items start steps.new
        × OnOk result (IsCounting system.now (value - 1) levels.new.values.items after counters.new.counts.items
        counters.new.buckets.items) }
    ensures one_each { length levels.new.values.items ≡ length levels.old.values.items }
    ensures counts { length counters.new.counts.items ≡ length counters.old.counts.items }
    ensures buckets { length counters.new.buckets.items ≡ length counters.old.buckets.items }
    ensures reached { AreTrailed levels.old.values.items levels.old.trail
        → AreTrailed levels.new.values.items levels.new.trail }
    ensures counted { AreTrailed counters.old.counts.items counters.old.trail
        → AreTrailed counters.new.counts.items counters.new.trail }
{
    let mut at = 0;
    laws::settling_goes_down();
    while let Some(row) = next_row(system, &counters.buckets[value as usize], &mut at, levels) {
        grant(system, row, value, levels, rows, counters, steps)?;
    }
    Ok(())
}
