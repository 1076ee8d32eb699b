//! The nodes of a system's formulas, as its readers give them.

/// What a node is.
#[derive(Clone, Copy, PartialEq, Eq, Drop)]
pub enum NodeSort {
    /// A principal, by its number.
    Leaf(u32),
    /// A gate over `count` parts, which has the greatest level that at least `need` of them reach.
    Gate { need: u32, count: u32 },
}

/// What a node is a part of.
#[derive(Clone, Copy, PartialEq, Eq, Drop)]
pub enum Up {
    /// A gate, by the number of its node.
    Node(u32),
    /// No gate: the node is the whole formula of this row.
    Row(u32),
}

/// A node of a system's formulas, which are numbered row by row in the order of their pieces.
#[derive(Clone, Copy, PartialEq, Eq, Drop)]
pub struct Node {
    pub sort: NodeSort,
    pub up: Up,
}
