//! Rows of a proof by the names of principals.
use kn_base::Octets;

/// Which assertion: a shared credential or a private one, by its number, counted from 1.
#[derive(Clone, Copy, PartialEq, Eq, Drop)]
pub enum Id {
    /// The shared credential `a1`, `a2` and so on, by the number behind the letter.
    Shared(u32),
    /// The session's private assertion `p1`, `p2` and so on, by the number behind the letter.
    Private(u32),
}

/// A row of a proof by names: the assertion `id` gives the principal at least this compliance value, counted from the
/// lowest, 0.
#[derive(Drop)]
pub struct NamedRow {
    pub value: u8,
    pub id: Id,
    /// The principal, in normal form.
    pub principal: Octets,
}
