//! The formulas of a system in one list of nodes, with links upwards and to the uses of each principal.
ghost use Rattle.std.specs.Prelude.{◌≡◌, ◌+◌, ◌-◌, ◌^◌, ◌<◌, ◌≤◌};
ghost use Rattle.std.specs.Prelude.{[], ◌∷◌, ◌++◌, ℕ, List as ListOf};
ghost use Rattle.std.specs.Prelude.{IfOk, OnOk, OnErr, length, replicate, take, drop, slice_get, slice_index_or, Some};
ghost use Rattle.kn_system.specs.Form.{leaf_count};
ghost use Rattle.kn_system.specs.LinkedNodes.{AreLastUses, last_before, last_use_of, node_before, node_pieces};
ghost use Rattle.kn_system.specs.Nodes.{FlatNodes, parts_of, sort_of, ups_of, use_before_at, uses_of};
ghost use Rattle.kn_system.specs.StoredNodes.{number_of_up};
ghost use Rattle.kn_system.specs.declared.rows.Piece.{Piece};
ghost use Rattle.kn_system.specs.declared.rows.Piece.TheVariants.{Who};
ghost use Rattle.kn_system.specs.declared.nodes.Up.{Up};
ghost use Rattle.kn_system.specs.declared.nodes.Up.TheVariants.{Row, Node as InNode};
ghost use Rattle.kn_system.specs.Forms.{AreForms};

use crate::last_uses::LastUses;
use crate::nodes::{Node, NodeSort, Up};
use crate::rows::Piece;
use crate::stored_node::StoredNode;
use kn_base::{NoMemory, Reserved};
use std::alloc::Global;
use std::marker::Model;
use std::mem;

/// Formulas in one list of nodes, each linked to the use of the same principal before it, and the last use of each
/// principal.
#[derive(Drop)]
pub(crate) struct NodeTable {
    alloc: Global,
    nodes: Reserved<StoredNode>,
    uses: LastUses,
    // What the next nodes are parts of, while a formula is added; kept for its room.
    above: Vec<Up>,
}

impl Model for NodeTable {
    ghost use Rattle.kn_system.specs.LinkedNodes.{AreLastUses, AreLinked, node_pieces, node_ups};
    ghost use Rattle.kn_system.specs.Nodes.{FlatNodes};

    ghost Value = { FlatNodes };

    ghost view = { λ f. record { pieces = node_pieces f.nodes.items; ups = node_ups f.nodes.items } };

    ghost invariant = { λ f. AreLinked f.nodes.items
        × AreLastUses (node_pieces f.nodes.items) f.uses.last.items f.uses.count };
}

impl NodeTable {
    pub(crate) fn new(alloc: Global) -> NodeTable
        ensures { result ≡ record { pieces = []; ups = [] } }
    {
        NodeTable {
            alloc,
            nodes: Reserved::new(alloc),
            uses: LastUses::new(alloc),
            above: Vec::new(alloc),
        }
    }

    pub(crate) fn len(&self) -> u32
        ensures nodes { result ≡ length self.now.pieces }
        ensures links { result ≡ length self.now.ups }
    {
        self.nodes.len()
    }

    /// How many nodes are principals.
    pub(crate) fn leaves(&self) -> u32
        ensures { result ≡ leaf_count self.now.pieces }
    {
        self.uses.count
    }

    /// So many nodes from a place on.
    pub(crate) fn nodes(&self, start: u32, size: u32) -> &[StoredNode]
        requires { start + size ≤ length self.now.pieces }
        ensures { node_pieces result.now ≡ take size (drop start self.now.pieces) }
    {
        let (_, behind) = self.nodes.as_slice().split_at(start as usize);
        behind.split_at(size as usize).0
    }

    /// The last node that is the principal.
    pub(crate) fn last_use(&self, principal: u32) -> Option<u32>
        ensures { result ≡ last_use_of principal self.now.pieces }
    {
        node_below(self.uses.get(principal))
    }

    /// The use of the same principal before this node.
    pub(crate) fn use_before(&self, node: u32) -> Option<u32>
        requires { node < length self.now.pieces }
        ensures { (principal k : ℕ) → slice_get (uses_of principal self.now.pieces) k ≡ Some node
            → result ≡ use_before_at (uses_of principal self.now.pieces) k }
    {
        node_below(self.nodes.as_slice()[node as usize].before())
    }

    pub(crate) fn node(&self, i: u32) -> Node
        requires { i < length self.now.pieces }
        ensures sort { result.sort ≡ sort_of (slice_index_or self.now.pieces i (Who 0)) }
        ensures up { result.up ≡ slice_index_or self.now.ups i (Row 0) }
    {
        let node = &self.nodes.as_slice()[i as usize];
        let sort = match node.piece() {
            Piece::Who(principal) => NodeSort::Leaf(principal),
            Piece::Gate { need, count } => NodeSort::Gate { need, count },
        };
        Node {
            sort,
            up: node.up(),
        }
    }

    // Adds a node at the end.
    fn push(&mut self, piece: Piece, up: Up) -> Result<(), NoMemory>
        requires few { length self.old.pieces < 2 ^ 24 }
        requires low { number_of_up up < 2 ^ 24 }
        ensures ok { OnOk result (self.new
            ≡ record { pieces = self.old.pieces ++ piece ∷ []; ups = self.old.ups ++ up ∷ [] }) }
        ensures err { OnErr result (self.new ≡ self.old) }
    {
        self.nodes.reserve(1)?;
        let node = link_node(&mut self.uses, piece, up, self.nodes.len())?;
        self.nodes.put(node);
        Ok(())
    }

    /// Adds the nodes of a row's formula.
    pub(crate) fn add(&mut self, formula: &[Piece], row: u32) -> Result<(), NoMemory>
        requires one { (p : ℕ) × AreForms p 1 formula.now }
        requires few { length self.old.pieces + length formula.now < 2 ^ 24 }
        requires row { row < 2 ^ 24 }
        ensures pieces { OnOk result (self.new.pieces ≡ self.old.pieces ++ formula.now) }
        ensures ups { OnOk result (self.new.ups
            ≡ self.old.ups ++ ups_of (length self.old.pieces) (Row row ∷ []) formula.now) }
        ensures err { OnErr result (self.new ≡ self.old) }
    {
        let before = self.len();
        let mut above = mem::replace(&mut self.above, Vec::new(self.alloc));
        let added = self.add_nodes(&mut above, formula, row);
        self.above = above;
        match added {
            Ok(()) => Ok(()),
            Err(NoMemory) => {
                self.shorten(before);
                Err(NoMemory)
            }
        }
    }

    // As `add`, but when out of memory the nodes that came before stay.
    fn add_nodes(
        &mut self,
        above: &mut Vec<Up>,
        formula: &[Piece],
        row: u32,
    ) -> Result<(), NoMemory>
        requires one { (p : ℕ) × AreForms p 1 formula.now }
        requires few { length self.old.pieces + length formula.now < 2 ^ 24 }
        requires row { row < 2 ^ 24 }
        ensures pieces { OnOk result (self.new.pieces ≡ self.old.pieces ++ formula.now) }
        ensures ups { OnOk result (self.new.ups
            ≡ self.old.ups ++ ups_of (length self.old.pieces) (Row row ∷ []) formula.now) }
        ensures longer { length self.old.pieces ≤ length self.new.pieces }
        ensures kept_pieces { take (length self.old.pieces) self.new.pieces ≡ self.old.pieces }
        ensures kept_ups { take (length self.old.ups) self.new.ups ≡ self.old.ups }
    {
        let size = formula.len() as u32;
        self.nodes.reserve(size)?;
        above.clear();
        match above.push(Up::Row(row)) {
            Ok(()) => {}
            Err(_) => return Err(NoMemory),
        }
        for piece in formula {
            let up = take_up(above, *piece, self.len())?;
            self.push(*piece, up)?;
        }
        Ok(())
    }

    // Takes the last node away.
    fn pop(&mut self)
        requires some { 0 < length self.old.pieces }
        ensures pieces { self.new.pieces ≡ take (length self.old.pieces - 1) self.old.pieces }
        ensures ups { self.new.ups ≡ take (length self.old.pieces - 1) self.old.ups }
    {
        match self.nodes.pop() {
            Some(node) => unlink_node(&mut self.uses, &node),
            None => {}
        }
    }

    // Takes the nodes from a place on away.
    pub(crate) fn shorten(&mut self, size: u32)
        requires { size ≤ length self.old.pieces }
        ensures pieces { self.new.pieces ≡ take size self.old.pieces }
        ensures ups { self.new.ups ≡ take size self.old.ups }
    {
        for _place in size..self.len() {
            self.pop();
        }
    }
}

// Takes what the next node is a part of, and puts the node itself there for each of its parts.
fn take_up(above: &mut Vec<Up>, piece: Piece, node: u32) -> Result<Up, NoMemory>
    requires some { 0 < length above.old.items }
    ensures { IfOk result (λ up. (ups : ListOf Up)
        × (above.old.items ≡ ups ++ up ∷ [])
        × (above.new.items ≡ ups ++ replicate (parts_of piece) (InNode node))) }
{
    let count = match piece {
        Piece::Who(_) => 0,
        Piece::Gate { need: _, count } => count,
    };
    match above.pop() {
        Some(up) => {
            add_parts(above, count, node)?;
            Ok(up)
        }
        None => unreachable!(),
    }
}

fn add_parts(above: &mut Vec<Up>, count: u32, node: u32) -> Result<(), NoMemory>
    ensures { OnOk result (above.new.items ≡ above.old.items ++ replicate count (InNode node)) }
{
    for _part in 0..count {
        match above.push(Up::Node(node)) {
            Ok(()) => {}
            Err(_) => return Err(NoMemory),
        }
    }
    Ok(())
}

// The node of a piece, which becomes the last use of its principal.
fn link_node(uses: &mut LastUses, piece: Piece, up: Up, node: u32) -> Result<StoredNode, NoMemory>
    requires node { node < 2 ^ 24 }
    requires low { number_of_up up < 2 ^ 24 }
    requires few { uses.old.count < 2 ^ 24 }
    ensures piece { IfOk result (λ stored. stored.piece ≡ piece) }
    ensures up { IfOk result (λ stored. stored.up ≡ up) }
    ensures before { IfOk result (λ stored. (ps : ListOf Piece) → AreLastUses ps uses.old.last.items uses.old.count
        → node_before stored.before ≡ last_before ps piece) }
    ensures ok { OnOk result ((ps : ListOf Piece) → length ps ≡ node
        → AreLastUses ps uses.old.last.items uses.old.count
        → AreLastUses (ps ++ piece ∷ []) uses.new.last.items uses.new.count) }
    ensures err { OnErr result ((ps : ListOf Piece) → AreLastUses ps uses.old.last.items uses.old.count
        → AreLastUses ps uses.new.last.items uses.new.count) }
{
    match piece {
        Piece::Who(principal) => {
            let before = uses.push(principal, node)?;
            Ok(StoredNode::leaf(principal, before, up))
        }
        Piece::Gate { need, count } => Ok(StoredNode::gate(need, count, up)),
    }
}

// Makes the use before the last node the last one of its principal.
fn unlink_node(uses: &mut LastUses, node: &StoredNode)
    requires { (ps : ListOf Piece) × AreLastUses (ps ++ node.now.piece ∷ []) uses.old.last.items uses.old.count }
    ensures { (ps : ListOf Piece) → node_before node.now.before ≡ last_before ps node.now.piece
        → AreLastUses (ps ++ node.now.piece ∷ []) uses.old.last.items uses.old.count
        → AreLastUses ps uses.new.last.items uses.new.count }
{
    match node.piece() {
        Piece::Who(principal) => uses.pop(principal, node.before()),
        Piece::Gate { .. } => {}
    }
}

// The node that a number is one more than, or None for 0.
fn node_below(number: u32) -> Option<u32>
    ensures { result ≡ node_before number }
{
    if number == 0 {
        return None;
    }
    Some(number - 1)
}
