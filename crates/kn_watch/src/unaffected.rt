//! Principals whom a change of rows can't affect.
ghost use mathlib.Core.List.{IsPrefix};
ghost use Rattle.std.specs.Prelude.{◌≡◌, ◌<◌, All, Bool, List as ListOf, true, length, IfOk};
ghost use Rattle.kn_system.specs.Counts.{IsWithin};
ghost use Rattle.kn_system.specs.Equations.{IsSystem, row_at};
ghost use Rattle.kn_watch.specs.Affected.{HasUsers, IsSubset, is_affected};
ghost use Rattle.kn_watch.specs.Found.{AreFewFound, IsSpread, flags_of, spread_ticks};
ghost use Rattle.kn_watch.specs.Unaffected.{HasRows, IsFewWithout, IsKnown, IsSearched, IsUnaffected};

use crate::affected::row_of;
use kn_base::{List, NoMemory, Steps};
use kn_system::System;
use std::alloc::Global;

/// A search for the affected principals, which ends early where it would find the principal `without`, or more than
/// `most`.
#[derive(Clone, Copy)]
struct Search {
    without: u32,
    most: u32,
}

impl Search {
    // Adds the authorizer of a row to those found, unless it is there. False where the search ends.
    fn add_authorizer<L>(
        &self,
        system: &System<L>,
        row: u32,
        found: &mut List<u32>,
    ) -> Result<bool, NoMemory>
        requires in_range { row < length system.now.rows }
        requires found { AreFewFound system.now self.now.without self.now.most found.old }
        ensures found { AreFewFound system.now self.now.without self.now.most found.new }
        ensures front { IsPrefix found.old found.new }
        ensures there { IfOk result (λ goes_on. goes_on ≡ true
            → is_affected (flags_of system.now found.new) (row_at system.now.rows row).authorizer
            ≡ true) }
        ensures within { (others : ListOf Bool) → is_affected others (row_at system.now.rows row).authorizer ≡ true
            → IsSubset (flags_of system.now found.old) others
            → IsSubset (flags_of system.now found.new) others }
        ensures known { IfOk result (λ goes_on. (others : ListOf Bool)
            → is_affected others (row_at system.now.rows row).authorizer ≡ true
            → IsSubset (flags_of system.now found.old) others
            → IsFewWithout self.now.without self.now.most others → goes_on ≡ true) }
    {
        let authorizer = system.authorizer(row);
        if authorizer == self.without {
            return Ok(false);
        }
        if found.as_slice().contains(&authorizer) {
            return Ok(true);
        }
        if found.len() >= self.most {
            return Ok(false);
        }
        found.add(authorizer)?;
        Ok(true)
    }

    // Adds the authorizers of these rows. False where the search ends.
    fn add_authorizers<L>(
        &self,
        system: &System<L>,
        rows: &[u32],
        found: &mut List<u32>,
    ) -> Result<bool, NoMemory>
        requires in_range { All (λ row. row < length system.now.rows) rows.now }
        requires found { AreFewFound system.now self.now.without self.now.most found.old }
        ensures found { AreFewFound system.now self.now.without self.now.most found.new }
        ensures there { IfOk result (λ goes_on. goes_on ≡ true
            → HasRows system.now rows.now (flags_of system.now found.new)) }
        ensures within { (others : ListOf Bool) → HasRows system.now rows.now others
            → IsSubset (flags_of system.now found.old) others
            → IsSubset (flags_of system.now found.new) others }
        ensures known { IfOk result (λ goes_on. (others : ListOf Bool) → HasRows system.now rows.now others
            → IsSubset (flags_of system.now found.old) others
            → IsFewWithout self.now.without self.now.most others → goes_on ≡ true) }
    {
        for place in 0..rows.len() {
            if !self.add_authorizer(system, rows[place], found)? {
                return Ok(false);
            }
        }
        Ok(true)
    }

    // Adds the authorizers of all rows that use a principal. False where the search ends. A step is a use, or a node
    // between it and its row.
    fn add_users<L>(
        &self,
        system: &System<L>,
        principal: u32,
        found: &mut List<u32>,
        steps: &mut Steps<L>,
    ) -> Result<bool, NoMemory>
        requires well_formed { IsSystem system.now }
        requires in_range { principal < length system.now.requesters }
        requires found { AreFewFound system.now self.now.without self.now.most found.old }
        ensures found { AreFewFound system.now self.now.without self.now.most found.new }
        ensures front { IsPrefix found.old found.new }
        ensures users { IfOk result (λ goes_on. goes_on ≡ true
            → IsSpread system.now principal (flags_of system.now found.new)) }
        ensures within { (others : ListOf Bool) → HasUsers system.now others → is_affected others principal ≡ true
            → IsSubset (flags_of system.now found.old) others
            → IsSubset (flags_of system.now found.new) others }
        ensures known { IfOk result (λ goes_on. (others : ListOf Bool) → HasUsers system.now others
            → is_affected others principal ≡ true
            → IsSubset (flags_of system.now found.old) others
            → IsFewWithout self.now.without self.now.most others → goes_on ≡ true) }
        ensures ticks { (others : ListOf Bool) → HasUsers system.now others → is_affected others principal ≡ true
            → IsWithin (spread_ticks system.now others principal) steps.old steps.new }
    {
        let mut next = system.last_use(principal, steps);
        while let Some(node) = next {
            let row = row_of(system, node, steps);
            if !self.add_authorizer(system, row, found)? {
                return Ok(false);
            }
            next = system.use_before(node, steps);
        }
        Ok(true)
    }

    // Adds the authorizers of all rows that use one of those found, until there is none any more. False where the
    // search ends.
    fn add_all_users<L>(
        &self,
        system: &System<L>,
        found: &mut List<u32>,
        steps: &mut Steps<L>,
    ) -> Result<bool, NoMemory>
        requires well_formed { IsSystem system.now }
        requires found { AreFewFound system.now self.now.without self.now.most found.old }
        ensures found { AreFewFound system.now self.now.without self.now.most found.new }
        ensures front { IsPrefix found.old found.new }
        ensures users { IfOk result (λ goes_on. goes_on ≡ true
            → HasUsers system.now (flags_of system.now found.new)) }
        ensures known { IfOk result (λ goes_on. (others : ListOf Bool) → HasUsers system.now others
            → IsSubset (flags_of system.now found.old) others
            → IsFewWithout self.now.without self.now.most others → goes_on ≡ true) }
        ensures ticks { (others : ListOf Bool) → HasUsers system.now others
            → IsSubset (flags_of system.now found.old) others
            → IsSearched system.now others self.now.most steps.old steps.new }
    {
        let mut at = 0;
        while at < found.len() {
            let principal = found.as_slice()[at as usize];
            if !self.add_users(system, principal, found, steps)? {
                return Ok(false);
            }
            at += 1;
        }
        Ok(true)
    }
}

/// Whether a principal keeps its level, whatever the ceilings of these rows were and are. False where they may affect
/// it, or more than `most` principals. A step is a use of an affected principal, or a node between it and its row.
///
/// `NoMemory` comes only when memory runs out.
pub fn is_unaffected<L>(
    alloc: Global,
    system: &System<L>,
    rows: &[u32],
    principal: u32,
    most: u32,
    steps: &mut Steps<L>,
) -> Result<bool, NoMemory>
    requires in_range { All (λ row. row < length system.now.rows) rows.now }
    ensures unaffected { IfOk result (λ known. known ≡ true → IsUnaffected system.now rows.now principal) }
    ensures known { IfOk result (IsKnown system.now rows.now principal most) }
    ensures ticks { (others : ListOf Bool) → HasRows system.now rows.now others → HasUsers system.now others
        → IsSearched system.now others most steps.old steps.new }
{
    // The contract of `levels` says that the system is well formed.
    let _levels = system.levels();
    let search = Search {
        without: principal,
        most,
    };
    let mut found = List::new(alloc);
    if !search.add_authorizers(system, rows, &mut found)? {
        return Ok(false);
    }
    search.add_all_users(system, &mut found, steps)
}
