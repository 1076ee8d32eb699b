//! The requesters of a system by their numbers.
ghost use Rattle.std.specs.Prelude.{◌≡◌, All, IfOk, length};
ghost use Rattle.kn_settle.specs.QuerySystem.{flags_from, IsOther};

use kn_base::{List, NoMemory};
use kn_system::System;
use std::alloc::Global;

/// The numbers of a system's requesters, ascending. `NoMemory` comes only when memory runs out.
pub(crate) fn requesters_of<L>(alloc: Global, system: &System<L>) -> Result<List<u32>, NoMemory>
    ensures flags { IfOk result (λ numbers. flags_from numbers 0 (length system.now.requesters)
        ≡ system.now.requesters) }
    ensures others { IfOk result (λ numbers. All (IsOther (length system.now.requesters)) numbers) }
{
    // The contract of `levels` says that the system is well formed: principal 0, `POLICY`, is no requester.
    let _levels = system.levels();
    let mut numbers = List::new(alloc);
    for principal in 1..system.principals() {
        if system.is_requester(principal) {
            match numbers.push(principal) {
                Ok(()) => {}
                Err(_) => return Err(NoMemory),
            }
        }
    }
    Ok(numbers)
}
