//! Rows of a proof by the numbers of principals.
use kn_base::List;

/// A row of a proof: by the row `by` of the system the principal has this level at least.
#[derive(Clone, Copy, PartialEq, Eq)]
pub struct Row {
    /// The number of the principal, counted from 0.
    pub principal: u32,
    /// Its level, counted from 0, the lowest.
    pub value: u8,
    /// The number of the row of the system that supports it, counted from 0.
    pub by: u32,
}

/// The rows of a proof in their order: each stands on those before it.
#[derive(Drop)]
pub struct Proof {
    pub rows: List<Row>,
}
