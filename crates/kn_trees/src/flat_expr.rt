//! Expressions as lists of nodes.
ghost use Rattle.std.specs.Prelude.{◌≡◌};
ghost use Rattle.kn_trees.specs.Forests.{tree_at};
ghost use Rattle.kn_trees.specs.ExprKinds.{kind_of};
ghost use Rattle.kn_trees.specs.Roots.{IsRoot};

use crate::forest::Forest;
use crate::form::ExprRef;
use crate::kinds::Kind;
use crate::root::Root;
use std::marker::Model;

/// An expression as a list of nodes, seen as its tree.
#[derive(Drop)]
pub struct FlatExpr {
    forest: Forest,
    root: Root,
}

impl Model for FlatExpr {
    ghost use Rattle.kn_trees.specs.declared.program.Expr.{Expr};
    ghost use Rattle.kn_trees.specs.contracts.program.Expr as expr;
    ghost use Rattle.std.specs.Coded.{codes};
    ghost use Rattle.kn_trees.specs.Forests.{tree_at};
    ghost use Rattle.kn_trees.specs.Roots.{IsRoot};

    ghost Value = { Expr };

    ghost coded = { Prim.hlevel (codes, expr.the_row.coded) };

    ghost view = { λ e. tree_at e.forest e.root.place };

    ghost invariant = { λ e. IsRoot e.forest e.root };
}

impl FlatExpr {
    /// The expression of a forest that has this root.
    #[inline(always)]
    pub(crate) fn of(forest: Forest, root: Root) -> FlatExpr
        requires { IsRoot forest root }
        ensures { result ≡ tree_at forest root.place }
    {
        FlatExpr { forest, root }
    }

    /// The whole expression, to be looked into.
    #[inline(always)]
    pub fn root(&self) -> ExprRef<'_>
        ensures { result ≡ self.now }
    {
        ExprRef::at(&self.forest, self.root.place)
    }

    /// The kind of the expression, or None where an operator's operands aren't of the kinds that it needs.
    #[inline(always)]
    pub fn kind(&self) -> Option<Kind>
        ensures { result ≡ kind_of self.now }
    {
        self.root.kind
    }
}
