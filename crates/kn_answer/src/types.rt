//! What is answered.
use kn_base::List;
use kn_proof::NamedRow;

/// A compliance value, and the rows that prove it.
#[derive(Drop)]
pub struct Answer {
    /// The policy's level in the least fixed point of the query's equations, the lowest being 0.
    pub value: u8,
    /// The rows of a proof of it in their order: each stands on those before it.
    pub rows: List<NamedRow>,
}
