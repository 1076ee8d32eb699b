//! The principals whom a change may affect.
ghost use mathlib.Core.List.{IsPrefix};
ghost use Rattle.std.specs.Prelude.{◌≡◌, ◌<◌, [], All, Bool, List as ListOf, false, true};
ghost use Rattle.std.specs.Prelude.{IfOk, OnOk, length, replicate, slice_set};
ghost use Rattle.kn_system.specs.Counts.{IsWithin};
ghost use Rattle.kn_system.specs.Equations.{IsSystem, node_total, row_at};
ghost use Rattle.kn_watch.specs.Affected.{AreAffected, IsSubset, HasChanged, HasUsers, is_affected};
ghost use Rattle.kn_watch.specs.Climbing.{row_of_node};
ghost use Rattle.kn_watch.specs.Found.{AreFound, IsSpread, find_ticks, spread_ticks};

use crate::changed::Changed;
use kn_base::{List, NoMemory, Steps};
use kn_system::{System, Up};
use std::alloc::Global;

/// The affected principals so far: a flag for each principal, and those who are flagged in the order they came.
#[derive(Drop)]
pub(crate) struct Affected {
    pub(crate) flags: Vec<bool>,
    pub(crate) found: List<u32>,
}

impl Affected {
    // Nobody of so many principals.
    fn nobody(alloc: Global, principals: u32) -> Result<Affected, NoMemory>
        ensures flags { IfOk result (λ affected. affected.flags.items ≡ replicate principals false) }
        ensures found { IfOk result (λ affected. affected.found ≡ []) }
    {
        let mut flags = Vec::new(alloc);
        for _principal in 0..principals {
            match flags.push(false) {
                Ok(()) => {}
                Err(_) => return Err(NoMemory),
            }
        }
        Ok(Affected {
            flags,
            found: List::new(alloc),
        })
    }

    // Flags a principal, unless it is.
    fn flag(&mut self, principal: u32) -> Result<(), NoMemory>
        requires in_range { principal < length self.old.flags.items }
        requires found { AreFound self.old.flags.items self.old.found }
        ensures flags { OnOk result (self.new.flags.items ≡ slice_set self.old.flags.items principal true) }
        ensures found { OnOk result (AreFound self.new.flags.items self.new.found) }
        ensures front { OnOk result (IsPrefix self.old.found self.new.found) }
    {
        if self.flags[principal as usize] {
            return Ok(());
        }
        match self.found.push(principal) {
            Ok(()) => {}
            Err(_) => return Err(NoMemory),
        }
        self.flags[principal as usize] = true;
        Ok(())
    }

    // Flags the authorizers of the changed rows.
    fn flag_changed<L>(
        &mut self,
        system: &System<L>,
        changed: &List<Changed>,
    ) -> Result<(), NoMemory>
        requires in_range { All (λ change. change.row < length system.now.rows) changed.now }
        requires size { length self.old.flags.items ≡ length system.now.requesters }
        requires found { AreFound self.old.flags.items self.old.found }
        ensures size { OnOk result (length self.new.flags.items ≡ length system.now.requesters) }
        ensures found { OnOk result (AreFound self.new.flags.items self.new.found) }
        ensures rows { OnOk result (HasChanged system.now changed.now self.new.flags.items) }
        ensures within { OnOk result ((others : ListOf Bool) → HasChanged system.now changed.now others
            → IsSubset self.old.flags.items others → IsSubset self.new.flags.items others) }
    {
        for place in 0..changed.len() {
            let row = changed.as_slice()[place as usize].row;
            match self.flag(system.authorizer(row)) {
                Ok(()) => {}
                Err(NoMemory) => return Err(NoMemory),
            }
        }
        Ok(())
    }

    // Flags the authorizers of all rows that use a principal. A step is a use, or a node between it and its row.
    fn spread<L>(
        &mut self,
        system: &System<L>,
        principal: u32,
        steps: &mut Steps<L>,
    ) -> Result<(), NoMemory>
        requires well_formed { IsSystem system.now }
        requires in_range { principal < length system.now.requesters }
        requires size { length self.old.flags.items ≡ length system.now.requesters }
        requires found { AreFound self.old.flags.items self.old.found }
        ensures size { OnOk result (length self.new.flags.items ≡ length system.now.requesters) }
        ensures found { OnOk result (AreFound self.new.flags.items self.new.found) }
        ensures front { OnOk result (IsPrefix self.old.found self.new.found) }
        ensures users { OnOk result (IsSpread system.now principal self.new.flags.items) }
        ensures within { OnOk result ((others : ListOf Bool) → HasUsers system.now others
            → is_affected others principal ≡ true
            → IsSubset self.old.flags.items others → IsSubset self.new.flags.items others) }
        ensures ticks { (others : ListOf Bool) → HasUsers system.now others → is_affected others principal ≡ true
            → IsWithin (spread_ticks system.now others principal) steps.old steps.new }
    {
        let mut next = system.last_use(principal, steps);
        while let Some(node) = next {
            let row = row_of(system, node, steps);
            match self.flag(system.authorizer(row)) {
                Ok(()) => next = system.use_before(node, steps),
                Err(NoMemory) => return Err(NoMemory),
            }
        }
        Ok(())
    }

    // Flags the authorizers of all rows that use a flagged principal, until there is none any more.
    fn spread_all<L>(&mut self, system: &System<L>, steps: &mut Steps<L>) -> Result<(), NoMemory>
        requires well_formed { IsSystem system.now }
        requires size { length self.old.flags.items ≡ length system.now.requesters }
        requires found { AreFound self.old.flags.items self.old.found }
        ensures size { OnOk result (length self.new.flags.items ≡ length system.now.requesters) }
        ensures kept { OnOk result (IsSubset self.old.flags.items self.new.flags.items) }
        ensures users { OnOk result (HasUsers system.now self.new.flags.items) }
        ensures within { OnOk result ((others : ListOf Bool) → HasUsers system.now others
            → IsSubset self.old.flags.items others → IsSubset self.new.flags.items others) }
        ensures ticks { (others : ListOf Bool) → HasUsers system.now others → IsSubset self.old.flags.items others
            → IsWithin (find_ticks system.now others) steps.old steps.new }
    {
        let mut at = 0;
        while at < self.found.len() {
            let principal = self.found.as_slice()[at as usize];
            match self.spread(system, principal, steps) {
                Ok(()) => at += 1,
                Err(NoMemory) => return Err(NoMemory),
            }
        }
        Ok(())
    }
}

/// Of each principal whether the changed rows affect it. A step is a use of an affected principal, or a node between it
/// and its row.
pub(crate) fn affected_by<L>(
    alloc: Global,
    system: &System<L>,
    changed: &List<Changed>,
    steps: &mut Steps<L>,
) -> Result<Vec<bool>, NoMemory>
    requires { All (λ change. change.row < length system.now.rows) changed.now }
    ensures affected { IfOk result (λ flags. AreAffected system.now changed.now flags.items) }
    ensures ticks { (others : ListOf Bool) → HasChanged system.now changed.now others → HasUsers system.now others
        → IsWithin (find_ticks system.now others) steps.old steps.new }
{
    // The contract of `levels` says that the system is well formed.
    let _levels = system.levels();
    let mut affected = Affected::nobody(alloc, system.principals())?;
    match affected.flag_changed(system, changed) {
        Ok(()) => {}
        Err(NoMemory) => return Err(NoMemory),
    }
    match affected.spread_all(system, steps) {
        Ok(()) => {}
        Err(NoMemory) => return Err(NoMemory),
    }
    let Affected {
        flags,
        found: _found,
    } = affected;
    Ok(flags)
}

/// The row in whose formula a node stands. One tick for each node on the way up.
pub(crate) fn row_of<L>(system: &System<L>, node: u32, steps: &mut Steps<L>) -> u32
    requires well_formed { IsSystem system.now }
    requires in_range { node < node_total system.now.rows }
    ensures exact { result ≡ row_of_node system.now.rows node }
    ensures in_range { result < length system.now.rows }
    ensures ticks { IsWithin (length (row_at system.now.rows result).formula) steps.old steps.new }
{
    let mut at = node;
    loop {
        match system.node(at, steps).up {
            Up::Row(row) => return row,
            Up::Node(gate) => at = gate,
        }
    }
}
