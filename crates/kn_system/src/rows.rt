//! Rows of a system, and the pieces of their formulas.
/// A piece of a formula. A formula is a list of pieces, in which each gate stands before its parts.
#[derive(Clone, Copy, PartialEq, Eq, Drop)]
pub enum Piece {
    /// A principal, by its number.
    Who(u32),
    /// A gate over `count` parts, which has the greatest level that at least `need` of them reach.
    Gate { need: u32, count: u32 },
}

/// A row as a system keeps it: its formula is so many nodes from a place on.
#[derive(Clone, Copy, PartialEq, Eq, Drop)]
pub(crate) struct StoredRow {
    pub authorizer: u32,
    pub ceiling: u8,
    pub start: u32,
    pub size: u32,
}
