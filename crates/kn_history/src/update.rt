//! Updates of the shared credentials.

use kn_base::{List, Octets};

/// What a change does: it adds the credential of this text, or removes one.
#[derive(Drop)]
pub enum Change {
    /// A credential is added: these are its text's bytes.
    Add(Octets),
    /// A credential is removed. Its id stands beside the change.
    Remove,
}

/// A change with its id. The id of an addition is the number of additions so far, with itself; that of a removal is the
/// one that it removes.
#[derive(Drop)]
pub struct Numbered {
    pub change: Change,
    pub id: u32,
}

/// An update of the caller's, with its changes in their order. ADD and DROP have one change.
#[derive(Drop)]
pub struct Update {
    pub caller: u32,
    pub changes: List<Numbered>,
}
