//! The levels of a standing query: at first, and after its rows changed.
ghost use Rattle.std.specs.Prelude.{◌≡◌, ◌-◌, ◌<◌, ◌++◌, All, Bool, List as ListOf, IfOk, OnOk, OnErr};
ghost use Rattle.std.specs.Prelude.{length, replicate};
ghost use Rattle.kn_settle.specs.Counters.{most_ticks};
ghost use Rattle.kn_system.specs.Counts.{IsWithin};
ghost use Rattle.kn_system.specs.Least.{least_levels};
ghost use Rattle.kn_watch.specs.Affected.{AreAffected, most_refresh_ticks};
ghost use Rattle.kn_watch.specs.Changes.{system_before};

use crate::affected::affected_by;
use crate::changed::Changed;
use crate::raising::{raise_all, start_levels};
use kn_base::{List, NoMemory, Octets, Steps};
use kn_settle::{Settled, settle};
use kn_system::System;
use std::alloc::Global;

/// The least levels of a system (RFC 2704, section 5), by the numbers of the principals.
pub fn begin<L>(alloc: Global, system: &System<L>, steps: &mut Steps<L>) -> Result<Octets, NoMemory>
    ensures least { IfOk result (λ values. values ≡ least_levels system.now) }
    ensures ticks { IsWithin (most_ticks system.now) steps.old steps.new }
{
    let Settled {
        values,
        proof: _proof,
    } = settle(alloc, system, steps)?;
    Ok(values)
}

/// Makes the least levels of a system those after rows of it changed, of those before the change.
///
/// A row changed if its ceiling did, or if it was pushed; `changed` may name others too. `values` are the least levels
/// of the system where each of these rows has its former ceiling, but for principals behind their end, whose levels
/// there are 0; so none of these is a requester. Where a row stands twice in `changed`, its last `before` is the former
/// ceiling.
///
/// Levels may fall: each affected principal begins anew, so that those who only support each other fall with what they
/// stood on. A step is a use of an affected principal or a node of a row of one, when it is read; no other row's
/// formula is.
pub fn refresh<L>(
    alloc: Global,
    system: &System<L>,
    values: &mut Octets,
    changed: &List<Changed>,
    steps: &mut Steps<L>,
) -> Result<(), NoMemory>
    requires in_range { All (λ change. change.row < length system.now.rows) changed.now }
    requires before { values.old ++ replicate (length system.now.requesters - length values.old) 0
        ≡ least_levels (system_before system.now changed.now) }
    ensures least { OnOk result (values.new ≡ least_levels system.now) }
    ensures kept { OnErr result (values.new ≡ values.old) }
    ensures affected { OnOk result ((affected : ListOf Bool) × AreAffected system.now changed.now affected) }
    ensures ticks { (affected : ListOf Bool) → AreAffected system.now changed.now affected
        → IsWithin (most_refresh_ticks system.now affected) steps.old steps.new }
{
    // The contract of `levels` says that the system is well formed.
    let _levels = system.levels();
    let affected = affected_by(alloc, system, changed, steps)?;
    let affected = affected.as_slice();
    let mut levels = start_levels(alloc, system, affected, values.as_slice())?;
    raise_all(system, affected, &mut levels, steps);
    *values = Octets::from_slice(alloc, levels.as_slice())?;
    Ok(())
}
