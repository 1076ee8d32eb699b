//! The local constants of an assertion, by their names.
use kn_base::Octets;

/// A local constant of an assertion (RFC 2704, section 4, the Local-Constants field).
#[derive(Drop)]
pub struct Constant {
    /// Its attribute name.
    pub name: Octets,
    /// The value of its literal.
    pub value: Octets,
}
