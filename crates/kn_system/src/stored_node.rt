//! Nodes of twelve bytes.
ghost use Rattle.std.specs.Prelude.{◌≡◌, ◌<◌, ◌^◌};
ghost use Rattle.kn_system.specs.declared.rows.Piece.TheVariants.{Who, Gate};
ghost use Rattle.kn_system.specs.StoredNodes.{number_of_up, up_in};

use crate::nodes::Up;
use crate::rows::Piece;
use std::marker::Model;

// Added to the third number of a gate.
const GATE: u32 = 2_147_483_648;
// Added to the number of a row that a node is a part of.
const ROW: u32 = 1_073_741_824;

/// A node as a system keeps it, in three numbers.
#[derive(Drop)]
pub(crate) struct StoredNode {
    principal_or_need: u32,
    // The number of the use before it, or the count of its parts.
    before_or_count: u32,
    up: u32,
}

impl Model for StoredNode {
    ghost use Rattle.kn_system.specs.LinkedNodes.{LinkedNode};

    ghost Value = { LinkedNode };

    ghost use Rattle.kn_system.specs.StoredNodes.{linked_node};

    ghost view = { linked_node };
}

impl StoredNode {
    /// A principal, with one more than the node that was its last use, or 0 where there was none.
    pub(crate) fn leaf(principal: u32, before: u32, up: Up) -> StoredNode
        requires { number_of_up up < 2 ^ 24 }
        ensures { result ≡ record { piece = Who principal; up = up; before = before } }
    {
        StoredNode {
            principal_or_need: principal,
            before_or_count: before,
            up: pack_up(up),
        }
    }

    pub(crate) fn gate(need: u32, count: u32, up: Up) -> StoredNode
        requires { number_of_up up < 2 ^ 24 }
        ensures { result ≡ record { piece = Gate need count; up = up; before = 0 } }
    {
        StoredNode {
            principal_or_need: need,
            before_or_count: count,
            up: pack_up(up) + GATE,
        }
    }

    /// What the node is.
    pub(crate) fn piece(&self) -> Piece
        ensures { result ≡ self.now.piece }
    {
        if self.up >= GATE {
            Piece::Gate {
                need: self.principal_or_need,
                count: self.before_or_count,
            }
        } else {
            Piece::Who(self.principal_or_need)
        }
    }

    /// What the node is a part of.
    pub(crate) fn up(&self) -> Up
        ensures { result ≡ self.now.up }
    {
        if self.up >= GATE {
            unpack_up(self.up - GATE)
        } else {
            unpack_up(self.up)
        }
    }

    /// One more than the node that is the use of its principal before it, or 0 where there is none.
    pub(crate) fn before(&self) -> u32
        ensures { result ≡ self.now.before }
    {
        if self.up >= GATE {
            0
        } else {
            self.before_or_count
        }
    }
}

fn pack_up(up: Up) -> u32
    requires { number_of_up up < 2 ^ 24 }
    ensures low { result < 2 ^ 31 }
    ensures up { up_in result ≡ up }
{
    match up {
        Up::Node(node) => node,
        Up::Row(row) => row + ROW,
    }
}

fn unpack_up(number: u32) -> Up
    ensures { result ≡ up_in number }
{
    if number >= ROW {
        Up::Row(number - ROW)
    } else {
        Up::Node(number)
    }
}
