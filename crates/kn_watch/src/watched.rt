//! The least levels of a system that changes meanwhile.
ghost use Rattle.std.specs.Prelude.{◌≡◌, ◌+◌, ◌<◌, ◌++◌, Bool, List as ListOf, IfOk, OnOk, OnErr, length, slice_index};
ghost use Rattle.kn_settle.specs.Counters.{most_ticks};
ghost use Rattle.kn_system.specs.Counts.{IsWithin};
ghost use Rattle.kn_system.specs.Equations.{row_at};
ghost use Rattle.kn_system.specs.Least.{least_levels};
ghost use Rattle.kn_watch.specs.Affected.{AreAffected, most_refresh_ticks};
ghost use Rattle.kn_watch.specs.Watched.{AreCeilings, IsWatchedOf, change_of, changes_from};

use crate::changed::Changed;
use crate::refreshing::{begin, refresh};
use kn_base::{List, NoMemory, Octets, Steps};
use kn_system::System;
use std::alloc::Global;
use std::marker::Model;

/// The least levels of a system, and the ceilings that its rows had when they were found. The system stays with the
/// caller, who may change ceilings, and add rows and principals that are no requesters, before the next refresh.
#[derive(Drop)]
pub struct Watched {
    levels: Octets,
    ceilings: Octets,
}

impl Model for Watched {
    ghost use Rattle.kn_watch.specs.Watched.{WatchedLevels};

    ghost Value = { WatchedLevels };

    ghost view = { λ w. record { levels = w.levels; ceilings = w.ceilings } };
}

impl Watched {
    /// The least levels of a system (RFC 2704, section 5).
    ///
    /// `NoMemory` comes only when memory runs out.
    pub fn begin<L>(
        alloc: Global,
        system: &System<L>,
        steps: &mut Steps<L>,
    ) -> Result<Watched, NoMemory>
        ensures levels { IfOk result (λ watched. watched.levels ≡ least_levels system.now) }
        ensures of { IfOk result (λ watched. IsWatchedOf watched system.now) }
        ensures ceilings { IfOk result (λ watched. AreCeilings system.now.rows watched.ceilings) }
        ensures ticks { IsWithin (most_ticks system.now) steps.old steps.new }
    {
        let levels = begin(alloc, system, steps)?;
        let ceilings = ceilings_of(alloc, system)?;
        Ok(Watched { levels, ceilings })
    }

    /// Makes the levels the least ones of the system as it is now. A step is one of `refresh` over the rows whose
    /// ceilings aren't those that they had, and over those that were added with a ceiling above the lowest.
    ///
    /// `NoMemory` comes only when memory runs out.
    pub fn refresh<L>(
        &mut self,
        alloc: Global,
        system: &System<L>,
        steps: &mut Steps<L>,
    ) -> Result<(), NoMemory>
        requires of { IsWatchedOf self.old system.now }
        ensures levels { OnOk result (self.new.levels ≡ least_levels system.now) }
        ensures of { IsWatchedOf self.new system.now }
        ensures ceilings { OnOk result (AreCeilings system.now.rows self.new.ceilings) }
        ensures kept { OnErr result (self.new ≡ self.old) }
        ensures ticks { (affected : ListOf Bool)
            → AreAffected system.now (changes_from self.old.ceilings 0 system.now.rows) affected
            → IsWithin (most_refresh_ticks system.now affected) steps.old steps.new }
    {
        let changed = changes(alloc, system, self.ceilings.as_slice())?;
        let ceilings = ceilings_of(alloc, system)?;
        match refresh(alloc, system, &mut self.levels, &changed, steps) {
            Ok(()) => {}
            Err(NoMemory) => return Err(NoMemory),
        }
        self.ceilings = ceilings;
        Ok(())
    }

    /// The level of a principal.
    pub fn level(&self, principal: u32) -> u8
        requires { principal < length self.now.levels }
        ensures { result ≡ slice_index self.now.levels principal }
    {
        self.levels.as_slice()[principal as usize]
    }
}

// The ceilings of a system's rows, in their order.
fn ceilings_of<L>(alloc: Global, system: &System<L>) -> Result<Octets, NoMemory>
    ensures { IfOk result (λ ceilings. AreCeilings system.now.rows ceilings) }
{
    let mut ceilings = Octets::new(alloc);
    for row in 0..system.rows() {
        match ceilings.push(system.ceiling(row)) {
            Ok(()) => {}
            Err(NoMemory) => return Err(NoMemory),
        }
    }
    Ok(ceilings)
}

// The rows whose ceilings aren't those that they had, where rows behind their end had 0.
fn changes<L>(alloc: Global, system: &System<L>, ceilings: &[u8]) -> Result<List<Changed>, NoMemory>
    ensures { IfOk result (λ changed. changed ≡ changes_from ceilings.now 0 system.now.rows) }
{
    let mut changed = List::new(alloc);
    for row in 0..system.rows() {
        match push_change(&mut changed, system, ceilings, row) {
            Ok(()) => {}
            Err(NoMemory) => return Err(NoMemory),
        }
    }
    Ok(changed)
}

// Adds a row if its ceiling isn't the one that it had.
fn push_change<L>(
    changed: &mut List<Changed>,
    system: &System<L>,
    ceilings: &[u8],
    row: u32,
) -> Result<(), NoMemory>
    requires { row < length system.now.rows }
    ensures { OnOk result (changed.new
        ≡ changed.old ++ change_of ceilings.now row (row_at system.now.rows row)) }
{
    let place = row as usize;
    let before = if place < ceilings.len() {
        ceilings[place]
    } else {
        0
    };
    if system.ceiling(row) == before {
        return Ok(());
    }
    match changed.push(Changed { row, before }) {
        Ok(()) => Ok(()),
        Err(_) => Err(NoMemory),
    }
}
