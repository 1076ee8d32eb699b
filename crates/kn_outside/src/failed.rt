//! A call that failed.
/// A call to the outside failed.
#[derive(Clone, Copy, PartialEq, Eq)]
pub struct Failed;
