//! Raising affected principals to their least levels.
ghost use Rattle.std.specs.Prelude.{◌≡◌, ◌-◌, ◌<◌, ℕ, List as ListOf, length, IfOk, if◌then◌else◌};
ghost use Rattle.kn_system.specs.Counts.{IsWithin};
ghost use Rattle.kn_system.specs.Equations.{IsSystem, row_at};
ghost use Rattle.kn_system.specs.Lawful.{AreLevels};
ghost use Rattle.kn_system.specs.Least.{least_levels};
ghost use Rattle.kn_watch.specs.Affected.{affected_nodes, is_affected};
ghost use Rattle.kn_watch.specs.Raising.{AreRaised, AreStarted, HasRisen, IsRaise, IsStart, raise_ticks, start_level};

use kn_base::{NoMemory, Steps};
use kn_system::System;
use std::alloc::Global;

/// The levels from which the affected principals are raised: they have those before any row, and all others have their
/// values, where a principal past the end of these has 0.
pub(crate) fn start_levels<L>(
    alloc: Global,
    system: &System<L>,
    affected: &[bool],
    values: &[u8],
) -> Result<Vec<u8>, NoMemory>
    requires { length affected.now ≡ length system.now.requesters }
    ensures { IfOk result (λ levels. AreStarted system.now affected.now values.now levels.items) }
{
    let mut levels = Vec::new(alloc);
    for principal in 0..system.principals() {
        match levels.push(first_level(system, affected, values, principal)) {
            Ok(()) => {}
            Err(_) => return Err(NoMemory),
        }
    }
    Ok(levels)
}

fn first_level<L>(system: &System<L>, affected: &[bool], values: &[u8], principal: u32) -> u8
    requires size { length affected.now ≡ length system.now.requesters }
    requires in_range { principal < length system.now.requesters }
    ensures { result ≡ start_level system.now affected.now values.now principal }
{
    let place = principal as usize;
    if affected[place] {
        if system.is_requester(principal) {
            system.levels() - 1
        } else {
            0
        }
    } else if place < values.len() {
        values[place]
    } else {
        0
    }
}

/// Raises the affected principals by their rows until none rises any more. A step is a node of one of these rows.
pub(crate) fn raise_all<L>(
    system: &System<L>,
    affected: &[bool],
    levels: &mut [u8],
    steps: &mut Steps<L>,
)
    requires size { length affected.now ≡ length system.now.requesters }
    requires start { IsStart system.now affected.now levels.old }
    ensures least { levels.new ≡ least_levels system.now }
    ensures ticks { IsWithin (raise_ticks system.now affected.now) steps.old steps.new }
{
    // The contract of `levels` says that the system is well formed.
    let _levels = system.levels();
    while raise_each(system, affected, levels, steps) {}
}

// Raises the affected principals by each of their rows once. The answer is whether any has risen.
fn raise_each<L>(
    system: &System<L>,
    affected: &[bool],
    levels: &mut [u8],
    steps: &mut Steps<L>,
) -> bool
    requires well_formed { IsSystem system.now }
    requires size { length affected.now ≡ length system.now.requesters }
    requires fit { AreLevels system.now levels.old }
    ensures risen { HasRisen system.now affected.now (length system.now.rows) levels.old levels.new result }
    ensures raised { (start : ListOf ℕ) → AreRaised system.now affected.now start levels.old
        → AreRaised system.now affected.now start levels.new }
    ensures fit { AreLevels system.now levels.new }
    ensures ticks { IsWithin (affected_nodes affected.now system.now.rows) steps.old steps.new }
{
    let mut risen = false;
    for row in 0..system.rows() {
        risen = raise(system, affected, row, levels, steps) || risen;
    }
    risen
}

// Gives a row's authorizer, if it is affected, the level that the row is worth, if that is higher. The answer is
// whether it is.
fn raise<L>(
    system: &System<L>,
    affected: &[bool],
    row: u32,
    levels: &mut [u8],
    steps: &mut Steps<L>,
) -> bool
    requires in_range { row < length system.now.rows }
    requires size { length affected.now ≡ length system.now.requesters }
    requires fit { AreLevels system.now levels.old }
    ensures raise { IsRaise system.now affected.now row levels.old levels.new result }
    ensures fit { AreLevels system.now levels.new }
    ensures ticks { IsWithin (if is_affected affected.now (row_at system.now.rows row).authorizer
        then length (row_at system.now.rows row).formula else 0) steps.old steps.new }
{
    let principal = system.authorizer(row) as usize;
    if !affected[principal] {
        return false;
    }
    let ceiling = system.ceiling(row);
    let worth = ceiling.min(system.form_value(row, levels, steps));
    if worth <= levels[principal] {
        return false;
    }
    levels[principal] = worth;
    true
}
