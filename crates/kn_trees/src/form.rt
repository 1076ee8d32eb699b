//! What expressions are made of.
ghost use Rattle.std.specs.Prelude.{◌≡◌, ◌<◌, Some, length, slice_get};
ghost use Rattle.kn_trees.specs.Forests.{run, tree_at, IsWithin};
ghost use Rattle.kn_trees.specs.Forms.{expr_of, link};

use crate::forest::{Forest, LinkNode, Node};
use crate::program::{Comparison, Operation};
use kn_base::Span;
use std::marker::Model;

/// A part of an expression, seen as its tree.
#[derive(Drop)]
pub struct ExprRef<'e> {
    forest: &'e Forest,
    place: u32,
}

impl<'e> Model for ExprRef<'e> {
    ghost use Rattle.std.specs.Prelude.{◌<◌, length};
    ghost use Rattle.kn_trees.specs.declared.program.Expr.{Expr};
    ghost use Rattle.kn_trees.specs.contracts.program.Expr as expr;
    ghost use Rattle.std.specs.Coded.{codes};
    ghost use Rattle.kn_trees.specs.Forests.{tree_at};

    ghost Value = { Expr };

    ghost coded = { Prim.hlevel (codes, expr.the_row.coded) };

    ghost view = { λ e. tree_at e.forest.now e.place };

    ghost invariant = { λ e. e.place < length e.forest.now };
}

/// Operands of an expression with `&&` or `||` between them, seen as the list of their trees.
#[derive(Drop)]
pub struct Operands<'e> {
    forest: &'e Forest,
    places: &'e [u32],
}

impl<'e> Model for Operands<'e> {
    ghost use Rattle.std.specs.Prelude.{◌<◌, List, All, length, map};
    ghost use Rattle.kn_trees.specs.declared.program.Expr.{Expr};
    ghost use Rattle.kn_trees.specs.contracts.program.Expr as expr;
    ghost use Rattle.std.specs.Coded.{codes};
    ghost use Rattle.kn_trees.specs.Forests.{tree_at};

    ghost Value = { List Expr };

    ghost coded = { Prim.hlevel (codes, expr.the_row.coded) };

    ghost view = { λ p. map (tree_at p.forest.now) p.places.now };

    ghost invariant = { λ p. All (λ place. place < length p.forest.now) p.places.now };
}

/// The operations of a chain with their right sides, seen as the list of its links.
#[derive(Drop)]
pub struct Links<'e> {
    forest: &'e Forest,
    links: &'e [LinkNode],
}

impl<'e> Model for Links<'e> {
    ghost use Rattle.std.specs.Prelude.{◌<◌, List, All, length, map};
    ghost use Rattle.kn_trees.specs.declared.program.Link2.{Link2};
    ghost use Rattle.kn_trees.specs.contracts.program.Link2 as link2;
    ghost use Rattle.std.specs.Coded.{codes};
    ghost use Rattle.kn_trees.specs.Forests.{link_at};

    ghost Value = { List Link2 };

    ghost coded = { Prim.hlevel (codes, link2.the_row.coded) };

    ghost view = { λ l. map (link_at l.forest.now) l.links.now };

    ghost invariant = { λ l. All (λ x. x.right < length l.forest.now) l.links.now };
}

/// What an expression is made of: the variants of `Expr`, with parts that are lent.
#[derive(Drop)]
pub enum Form<'e> {
    /// `true` or `false`.
    Truth(bool),
    /// A number.
    Whole(i32),
    /// The value of a literal, without its quotes.
    Text(&'e [u8]),
    /// A name, which has a value in an environment.
    Name(&'e [u8]),
    /// `!`.
    Not(ExprRef<'e>),
    /// `-` before an expression.
    Minus(ExprRef<'e>),
    /// `@`: the number that a text begins with.
    Number(ExprRef<'e>),
    /// `$`: the value of the name that a text is.
    Deref(ExprRef<'e>),
    /// Two or more operands with `&&` between them.
    And(Operands<'e>),
    /// Two or more operands with `||` between them.
    Or(Operands<'e>),
    /// A comparison of two expressions.
    Compare {
        sign: Comparison,
        left: ExprRef<'e>,
        right: ExprRef<'e>,
    },
    /// Operations of one level of the grammar, grouped to the left; there is at least one.
    Chain {
        first: ExprRef<'e>,
        rest: Links<'e>,
    },
}

impl<'e> ExprRef<'e> {
    /// The tree at a place.
    #[inline(always)]
    pub(crate) fn at(forest: &'e Forest, place: u32) -> ExprRef<'e>
        requires { place < length forest.now }
        ensures { result ≡ tree_at forest.now place }
    {
        ExprRef { forest, place }
    }

    /// What it is made of.
    #[inline(always)]
    pub fn form(self) -> Form<'e>
        ensures { self.entry ≡ expr_of result }
    {
        form_at(self.forest, self.place)
    }
}

impl<'e> Operands<'e> {
    /// How many operands there are.
    #[inline(always)]
    pub fn len(&self) -> usize
        ensures { result ≡ length self.now }
    {
        self.places.len()
    }

    /// The operand at place `k`, counted from 0.
    #[inline(always)]
    pub fn get(&self, k: usize) -> ExprRef<'e>
        requires { k < length self.now }
        ensures { slice_get self.now k ≡ Some result }
    {
        match self.places.get(k) {
            Some(place) => ExprRef::at(self.forest, *place),
            None => unreachable!(),
        }
    }
}

impl<'e> Links<'e> {
    /// How many operations there are.
    #[inline(always)]
    pub fn len(&self) -> usize
        ensures { result ≡ length self.now }
    {
        self.links.len()
    }

    /// The operation at place `k`, counted from 0, with its right side.
    #[inline(always)]
    pub fn get(&self, k: usize) -> (Operation, ExprRef<'e>)
        requires { k < length self.now }
        ensures { slice_get self.now k ≡ Some (link result.0 result.1) }
    {
        match self.links.get(k) {
            Some(link) => (link.sign, ExprRef::at(self.forest, link.right)),
            None => unreachable!(),
        }
    }
}

// What a pool has from a span's start up to its end.
#[inline(always)]
fn run<T>(pool: &[T], span: Span) -> &[T]
    requires { IsWithin (length pool.now) span }
    ensures { result.now ≡ run pool.now span }
{
    &pool[span.start as usize..span.end as usize]
}

// What the tree at a place is made of.
#[inline(always)]
#[tactic(auto, using(crate::proofs::Forests::plain))]
fn form_at(forest: &Forest, place: u32) -> Form<'_>
    requires { place < length forest.now }
    ensures { tree_at forest.now place ≡ expr_of result }
{
    let Some(node) = forest.nodes.get(place as usize) else {
        unreachable!()
    };
    match *node {
        Node::Truth(value) => Form::Truth(value),
        Node::Whole(value) => Form::Whole(value),
        Node::Text(span) => Form::Text(run(forest.bytes.as_slice(), span)),
        Node::Name(span) => Form::Name(run(forest.bytes.as_slice(), span)),
        Node::Not(part) => Form::Not(ExprRef::at(forest, part)),
        Node::Minus(part) => Form::Minus(ExprRef::at(forest, part)),
        Node::Number(part) => Form::Number(ExprRef::at(forest, part)),
        Node::Deref(part) => Form::Deref(ExprRef::at(forest, part)),
        Node::And(span) => Form::And(Operands {
            forest,
            places: run(forest.parts.as_slice(), span),
        }),
        Node::Or(span) => Form::Or(Operands {
            forest,
            places: run(forest.parts.as_slice(), span),
        }),
        Node::Compare { sign, left, right } => Form::Compare {
            sign,
            left: ExprRef::at(forest, left),
            right: ExprRef::at(forest, right),
        },
        Node::Chain { first, rest } => Form::Chain {
            first: ExprRef::at(forest, first),
            rest: Links {
                forest,
                links: run(forest.links.as_slice(), rest),
            },
        },
    }
}
