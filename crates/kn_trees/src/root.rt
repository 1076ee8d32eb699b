//! Trees of a forest with their kinds.
use crate::kinds::Kind;

/// A tree of a forest by its place, with its kind.
#[derive(Default, Clone, Copy)]
pub(crate) struct Root {
    pub place: u32,
    pub kind: Option<Kind>,
}
