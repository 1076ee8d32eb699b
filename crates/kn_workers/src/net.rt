//! What gives the doors of an address.
ghost use Rattle.std.specs.Prelude.{◌≡◌, ◌≤◌, [], length, IsSomeAnd, IfOk};
ghost use Rattle.kn_base.specs.declared.limits.TheConstants.{WORKERS};
ghost use Rattle.kn_workers.specs.Nets.{AreBound, Binds, with_faults};

use crate::binding::{BindFault, ServedAddress};
use crate::door::Door;
use kn_base::List;
use std::alloc::Global;
use std::sync::Wait;

/// A net: it binds one address, and keeps the rooms that come back.
pub trait Net {
    ghost use Rattle.kn_workers.specs.Nets.{NetSeen};

    type Room: Door;

    /// What is seen of a net: the binding, which is None at first and when out of memory, the rooms that came back,
    /// none at first, and the count of faults, which stays at the greatest `u64`.
    ghost seen: { Self → NetSeen Self.Room };

    /// The doors of an address, which share a quota: the first ones give one connection more where it can't be shared
    /// evenly.
    fn bind<R: Wait>(
        &mut self,
        rt: &R,
        alloc: Global,
        served: &ServedAddress<'_>,
    ) -> Result<List<Self::Room>, BindFault>
        requires doors { (1 ≤ served.now.doors) × (served.now.doors ≤ WORKERS) }
        requires unbound { (seen self.old).bound ≡ None }
        ensures doors { IfOk result (λ rooms. length rooms ≡ served.now.doors) }
        ensures new { IfOk result (λ rooms. AreBound Self.Room.seen served.now.quota served.now.doors 0 rooms) }
        ensures binds { Binds served.now result (seen self.old) (seen self.new) };

    /// Takes back the rooms that it gave, in their order. Their faults are then counted with its own. It takes no
    /// memory.
    fn unbind(&mut self, rooms: List<Self::Room>)
        requires bound { IsSomeAnd (seen self.old).bound (λ binding. length rooms ≡ binding.doors) }
        requires none { (seen self.old).rooms ≡ [] }
        ensures { seen self.new ≡ record (seen self.old) {
          rooms = rooms;
          faults = with_faults Self.Room.seen (seen self.old).faults rooms;
        } };
}
