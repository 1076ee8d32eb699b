//! Rows whose ceiling changed since the levels were settled, with the former one.
/// A row whose ceiling changed since the levels were settled, or that was pushed since.
#[derive(Clone, Copy, PartialEq, Eq, Drop)]
pub struct Changed {
    /// The number of the row.
    pub row: u32,
    /// The ceiling that it had, which is 0 for a row that was pushed.
    pub before: u8,
}
