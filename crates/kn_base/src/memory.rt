//! Out of memory.
/// Out of memory for what a call had to keep.
///
/// A list also answers it where its length would not fit a `u32`.
#[derive(Debug, Clone, Copy, PartialEq, Eq)]
pub struct NoMemory;
