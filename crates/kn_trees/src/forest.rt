//! Trees in one list of nodes.
ghost use Rattle.std.specs.Prelude.{◌≡◌, ◌+◌, ◌<◌, ◌^◌, [], ◌∷◌, ◌++◌, All, length, map, IfOk, OnOk, OnErr};
ghost use Rattle.kn_trees.specs.declared.program.Expr.TheVariants as E;
ghost use Rattle.kn_trees.specs.Forests.{no_pools, tree_at, tree_of, IsAdded, IsKept, IsPlaced};
ghost use Rattle.kn_trees.specs.Forms.{links_of};
ghost use Rattle.kn_trees.specs.Roots.{links_to, trees_at, IsRoot};
ghost use Rattle.kn_trees.specs.Signs.{join_expressions, leaf_of};

use crate::program::{Comparison, Operation};
use crate::root::Root;
use crate::signs::{Joint, Leaf};
use kn_base::{NoMemory, Span};
use std::alloc::Global;
use std::marker::Model;

/// The spare room, in items, for which a list isn't copied.
const FEW_ITEMS: usize = 64;

/// How many bytes of texts there is room for at first, for each token.
const BYTES_A_TOKEN: usize = 2;

/// An operation, and the place of its right side.
#[derive(Clone, Copy)]
pub(crate) struct LinkNode {
    pub sign: Operation,
    pub right: u32,
}

/// A node of a tree, which names its parts by their places among the nodes, all before its own. Lists of parts,
/// lists of operations and texts are runs of lists that the nodes share.
#[derive(Clone, Copy)]
pub(crate) enum Node {
    Truth(bool),
    Whole(i32),
    Text(Span),
    Name(Span),
    Not(u32),
    Minus(u32),
    Number(u32),
    Deref(u32),
    And(Span),
    Or(Span),
    Compare {
        sign: Comparison,
        left: u32,
        right: u32,
    },
    Chain {
        first: u32,
        rest: Span,
    },
}

/// Nodes, and the lists of which they name runs, seen as the list of the trees of all nodes.
#[derive(Drop)]
pub(crate) struct Forest {
    pub(crate) nodes: Vec<Node>,
    pub(crate) parts: Vec<u32>,
    pub(crate) links: Vec<LinkNode>,
    pub(crate) bytes: Vec<u8>,
}

impl Model for Forest {
    ghost use Rattle.std.specs.Prelude.{List};
    ghost use Rattle.kn_trees.specs.declared.program.Expr.{Expr};
    ghost use Rattle.kn_trees.specs.contracts.program.Expr as expr;
    ghost use Rattle.std.specs.Coded.{codes};
    ghost use Rattle.kn_trees.specs.Forests.{pools, trees_of, IsForest};

    ghost Value = { List Expr };

    ghost coded = { Prim.hlevel (codes, expr.the_row.coded) };

    ghost view = { λ f. trees_of (pools f.parts.items f.links.items f.bytes.items) f.nodes.items };

    ghost invariant = { λ f. IsForest (pools f.parts.items f.links.items f.bytes.items) f.nodes.items };
}

impl Forest {
    /// No tree, with room for the nodes of so many tokens and for some of their texts.
    #[tactic(auto, unfolding(crate::specs::Forests::trees_of))]
    pub(crate) fn with_room(alloc: Global, tokens: u32) -> Result<Forest, NoMemory>
        ensures { IfOk result (λ forest. forest ≡ []) }
    {
        let tokens = tokens as usize;
        Ok(Forest {
            nodes: vec_with_room(alloc, tokens)?,
            parts: Vec::new(alloc),
            links: Vec::new(alloc),
            bytes: vec_with_room(alloc, BYTES_A_TOKEN * tokens)?,
        })
    }

    /// Gives back the memory that isn't used, where that is worth a copy.
    pub(crate) fn shrink(&mut self)
        ensures { self.new ≡ self.old }
    {
        shrink_pool(&mut self.nodes);
        shrink_pool(&mut self.parts);
        shrink_pool(&mut self.links);
        shrink_pool(&mut self.bytes);
    }

    /// Adds a tree whose parts, if it has any, are trees that are there, and gives its place.
    #[inline(always)]
    #[tactic(auto, using(crate::proofs::Forests::plain))]
    pub(crate) fn add(&mut self, node: Node) -> Result<u32, NoMemory>
        requires { IsPlaced no_pools (length self.old) node }
        ensures { IsAdded self.old (tree_of no_pools self.old node) self.new result }
    {
        let place = push_node(&mut self.nodes, node)?;
        Ok(place)
    }

    /// Adds a literal or a name of these bytes, and gives its place.
    #[inline(always)]
    #[tactic(auto, using(crate::proofs::Forests::plain))]
    pub(crate) fn add_leaf(&mut self, leaf: Leaf, bytes: &[u8]) -> Result<u32, NoMemory>
        ensures { IsAdded self.old (leaf_of leaf bytes.now) self.new result }
    {
        let span = keep_bytes(&mut self.bytes, bytes)?;
        let place = push_node(&mut self.nodes, leaf.node(span))?;
        Ok(place)
    }

    /// Adds these trees with a sign between them, and gives the place.
    #[tactic(auto, using(crate::proofs::Forests::plain))]
    pub(crate) fn add_joined(&mut self, joint: Joint, parts: &[Root]) -> Result<u32, NoMemory>
        requires { All (IsRoot self.old) parts.now }
        ensures { IsAdded self.old (join_expressions joint (trees_at self.old parts.now)) self.new result }
    {
        let span = keep_parts(&mut self.parts, parts)?;
        let place = push_node(&mut self.nodes, joint.node(span))?;
        Ok(place)
    }

    /// Adds a chain of a first tree and these operations, whose right sides are the other trees, and gives its place.
    #[tactic(auto, using(crate::proofs::Forests::plain))]
    pub(crate) fn add_chain(
        &mut self,
        first: u32,
        signs: &[Operation],
        rights: &[Root],
    ) -> Result<u32, NoMemory>
        requires first { first < length self.old }
        requires rights { All (IsRoot self.old) rights.now }
        requires pairs { length rights.now ≡ length signs.now }
        ensures { IsAdded self.old
            (E.Chain (tree_at self.old first) (links_of signs.now (trees_at self.old rights.now)))
            self.new result }
    {
        let rest = keep_links(&mut self.links, signs, rights)?;
        let place = push_node(&mut self.nodes, Node::Chain { first, rest })?;
        Ok(place)
    }
}

// Gives back the room behind the items, unless it is for a few more.
#[inline(always)]
fn shrink_pool<T>(pool: &mut Vec<T>)
    ensures { pool.new.items ≡ pool.old.items }
{
    if pool.capacity() - pool.len() > FEW_ITEMS {
        pool.shrink_to_fit();
    }
}

// An empty list with room for so many items.
fn vec_with_room<T>(alloc: Global, count: usize) -> Result<Vec<T>, NoMemory>
    ensures { IfOk result (λ items. items.items ≡ []) }
{
    match Vec::with_capacity(alloc, count) {
        Ok(items) => Ok(items),
        Err(_) => Err(NoMemory),
    }
}

// The span of so many items behind those of a pool.
#[inline(always)]
fn next_span(size: usize, count: usize) -> Result<Span, NoMemory>
    requires { size < 2 ^ 32 }
    ensures { IfOk result (λ span. (span.start ≡ size) × (span.end ≡ size + count)) }
{
    // no text comes near this limit: what is kept takes a token of it, or a byte
    if count > u32::MAX as usize - size {
        return Err(NoMemory);
    }
    Ok(Span {
        start: size as u32,
        end: (size + count) as u32,
    })
}

// Keeps bytes at the end of the pool, and gives their span.
#[inline(always)]
fn keep_bytes(pool: &mut Vec<u8>, bytes: &[u8]) -> Result<Span, NoMemory>
    requires { length pool.old.items < 2 ^ 32 }
    ensures kept { IsKept pool.old.items bytes.now pool.new.items result }
    ensures short { length pool.new.items < 2 ^ 32 }
{
    let span = next_span(pool.len(), bytes.len())?;
    match pool.extend_from_slice(bytes) {
        Ok(()) => Ok(span),
        Err(_) => Err(NoMemory),
    }
}

// Keeps the places of trees at the end of the pool, and gives their span.
fn keep_parts(pool: &mut Vec<u32>, parts: &[Root]) -> Result<Span, NoMemory>
    requires { length pool.old.items < 2 ^ 32 }
    ensures kept { IsKept pool.old.items (map (λ part. part.place) parts.now) pool.new.items result }
    ensures short { length pool.new.items < 2 ^ 32 }
{
    let span = next_span(pool.len(), parts.len())?;
    if pool.reserve(parts.len()).is_err() {
        return Err(NoMemory);
    }
    for part in parts {
        pool.push_reserved(part.place);
    }
    Ok(span)
}

// Keeps operations with the places of their right sides at the end of the pool, and gives their span.
fn keep_links(
    pool: &mut Vec<LinkNode>,
    signs: &[Operation],
    rights: &[Root],
) -> Result<Span, NoMemory>
    requires short { length pool.old.items < 2 ^ 32 }
    requires pairs { length rights.now ≡ length signs.now }
    ensures kept { IsKept pool.old.items (links_to signs.now rights.now) pool.new.items result }
    ensures short { length pool.new.items < 2 ^ 32 }
{
    let span = next_span(pool.len(), signs.len())?;
    if pool.reserve(signs.len()).is_err() {
        return Err(NoMemory);
    }
    for (sign, right) in signs.iter().zip(rights) {
        pool.push_reserved(LinkNode {
            sign: *sign,
            right: right.place,
        });
    }
    Ok(span)
}

// Adds a node, and gives its place.
#[inline(always)]
fn push_node(nodes: &mut Vec<Node>, node: Node) -> Result<u32, NoMemory>
    ensures place { IfOk result (λ place. place ≡ length nodes.old.items) }
    ensures ok { OnOk result (nodes.new.items ≡ nodes.old.items ++ node ∷ []) }
    ensures err { OnErr result (nodes.new.items ≡ nodes.old.items) }
{
    let place = nodes.len();
    // no text comes near this limit: a node takes a token of it
    if place >= u32::MAX as usize || nodes.push(node).is_err() {
        return Err(NoMemory);
    }
    Ok(place as u32)
}
