//! Expressions that differ in their sign alone, or in whether their bytes are a text or a name.
ghost use Rattle.std.specs.Prelude.{◌≡◌, ◌<◌, All, List, length, map, ℕ};
ghost use Rattle.kn_trees.specs.declared.program.Expr.{Expr};
ghost use Rattle.kn_trees.specs.ExprKinds.{kind_of};
ghost use Rattle.kn_trees.specs.Forests.{no_pools, run, tree_at, tree_of, IsPlaced, IsWithin, Pools};
ghost use Rattle.kn_trees.specs.Signs.{join_expressions, leaf_of, with_prefix};

use crate::forest::Node;
use crate::kinds::Kind;
use crate::typing::{gives, is_text, is_truth, is_whole};
use kn_base::Span;

/// A sign before an expression.
#[derive(Clone, Copy)]
pub(crate) enum Prefix {
    /// `!`
    Not,
    /// `-`
    Minus,
    /// `@`
    Number,
    /// `$`
    Deref,
}

/// A sign between expressions.
#[derive(Clone, Copy)]
pub(crate) enum Joint {
    /// `&&`
    And,
    /// `||`
    Or,
}

/// What is kept by its bytes.
#[derive(Clone, Copy)]
pub(crate) enum Leaf {
    /// The value of a literal.
    Text,
    /// A name.
    Name,
}

impl Prefix {
    /// The node of this sign before the tree at a place.
    #[inline(always)]
    pub(crate) fn node(self, part: u32) -> Node
        ensures placed { (place : ℕ) → part < place → IsPlaced no_pools place result }
        ensures tree { (trees : List Expr) → tree_of no_pools trees result ≡ with_prefix self (tree_at trees part) }
    {
        match self {
            Prefix::Not => Node::Not(part),
            Prefix::Minus => Node::Minus(part),
            Prefix::Number => Node::Number(part),
            Prefix::Deref => Node::Deref(part),
        }
    }

    /// The kind of an expression with this sign, by the kind of the part behind it.
    #[inline(always)]
    #[tactic(auto, using(crate::proofs::ExprKindLaws::kinds))]
    pub(crate) fn kind(self, part: Option<Kind>) -> Option<Kind>
        ensures { (tree : Expr) → part ≡ kind_of tree → result ≡ kind_of (with_prefix self tree) }
    {
        match self {
            Prefix::Not => gives(is_truth(part), Kind::Truth),
            Prefix::Minus => gives(is_whole(part), Kind::Whole),
            Prefix::Number => gives(is_text(part), Kind::Whole),
            Prefix::Deref => gives(is_text(part), Kind::Text),
        }
    }
}

impl Joint {
    /// The node of this sign between the trees at a run of places.
    #[inline(always)]
    pub(crate) fn node(self, span: Span) -> Node
        ensures placed { (ps : Pools) (place : ℕ)
            → IsWithin (length ps.parts) span → All (λ part. part < place) (run ps.parts span)
            → IsPlaced ps place result }
        ensures tree { (ps : Pools) (trees : List Expr)
            → tree_of ps trees result ≡ join_expressions self (map (tree_at trees) (run ps.parts span)) }
    {
        match self {
            Joint::And => Node::And(span),
            Joint::Or => Node::Or(span),
        }
    }
}

impl Leaf {
    /// The node of a run of bytes.
    #[inline(always)]
    pub(crate) fn node(self, span: Span) -> Node
        ensures placed { (ps : Pools) (place : ℕ) → IsWithin (length ps.bytes) span → IsPlaced ps place result }
        ensures tree { (ps : Pools) (trees : List Expr) → tree_of ps trees result ≡ leaf_of self (run ps.bytes span) }
    {
        match self {
            Leaf::Text => Node::Text(span),
            Leaf::Name => Node::Name(span),
        }
    }
}
