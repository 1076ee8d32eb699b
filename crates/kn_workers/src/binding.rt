//! What a net binds, and why it may not.
ghost use Rattle.std.specs.Prelude.{◌≡◌, IfOk};

use kn_base::{NoMemory, Octets};
use std::alloc::Global;
use std::marker::Model;

/// An address that is to be served, and the doors that share it.
#[derive(Drop)]
pub struct ServedAddress<'a> {
    /// The text of the address.
    pub address: &'a [u8],
    /// How many doors there are, with a worker at each.
    pub doors: u32,
    /// How many connections all doors give together.
    pub quota: u32,
}

impl<'a> Model for ServedAddress<'a> {
    ghost use Rattle.kn_workers.specs.declared.binding.Binding.{Binding};

    ghost Value = { Binding };

    ghost view = { λ s. record { address = s.address.now; doors = s.doors; quota = s.quota } };
}

/// What a net binds: an address, and the doors that share it.
#[derive(Drop)]
pub struct Binding {
    pub address: Octets,
    pub doors: u32,
    pub quota: u32,
}

impl Binding {
    /// What a net binds for such an address.
    pub fn of(alloc: Global, served: &ServedAddress<'_>) -> Result<Binding, NoMemory>
        ensures { IfOk result (λ binding. binding ≡ served.now) }
    {
        Ok(Binding {
            address: Octets::from_slice(alloc, served.address)?,
            doors: served.doors,
            quota: served.quota,
        })
    }
}

/// Why an address wasn't bound.
#[derive(Clone, Copy, PartialEq, Eq)]
pub enum BindFault {
    /// There is no such address, or it can't be listened at.
    Failed,
    /// Out of memory for the doors.
    NoMemory,
}
