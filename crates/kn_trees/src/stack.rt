//! Expressions while they are read.
ghost use Rattle.std.specs.Prelude.{◌≡◌, ◌+◌, ◌-◌, ◌<◌, ◌≤◌, List, [], ◌∷◌, ◌++◌};
ghost use Rattle.std.specs.Prelude.{All, drop, length, slice_get, take, IfOk, OnOk, OnErr};
ghost use Rattle.kn_trees.specs.declared.program.Expr.{Expr};
ghost use Rattle.kn_trees.specs.declared.program.Expr.TheVariants as E;
ghost use Rattle.kn_trees.specs.Forests.{no_pools, tree_of, IsPlaced};
ghost use Rattle.kn_trees.specs.Forms.{links_of};
ghost use Rattle.kn_trees.specs.ExprKinds.{kind_of};
ghost use Rattle.kn_trees.specs.Roots.{trees_at, IsRoot};
ghost use Rattle.kn_trees.specs.Signs.{join_expressions, leaf_of, with_prefix};

use crate::flat_expr::FlatExpr;
use crate::forest::{Forest, Node};
use crate::kinds::Kind;
use crate::program::{Comparison, Operation};
use crate::root::Root;
use crate::signs::{Joint, Leaf, Prefix};
use crate::typing::{are_compared, are_truths, chain_kind, gives};
use kn_base::NoMemory;
use smallvec::SmallVec;
use std::alloc::Global;
use std::marker::Model;

// The roots of the expressions on a stack. Up to eight take no memory beyond the value itself.
type Roots = SmallVec<Root, 8>;

/// Expressions that are being read, the last on top, seen as the list of their trees.
///
/// They share one list of nodes. When memory runs out, the stack is as it was.
#[derive(Drop)]
pub struct ExprStack {
    forest: Forest,
    roots: Roots,
}

impl Model for ExprStack {
    ghost use Rattle.std.specs.Prelude.{List, All};
    ghost use Rattle.kn_trees.specs.declared.program.Expr.{Expr};
    ghost use Rattle.kn_trees.specs.contracts.program.Expr as expr;
    ghost use Rattle.std.specs.Coded.{codes};
    ghost use Rattle.kn_trees.specs.Roots.{trees_at, IsRoot};

    ghost Value = { List Expr };

    ghost coded = { Prim.hlevel (codes, expr.the_row.coded) };

    ghost view = { λ s. trees_at s.forest s.roots.items };

    ghost invariant = { λ s. All (IsRoot s.forest) s.roots.items };
}

impl ExprStack {
    /// No expression, with room for those of so many tokens.
    pub fn with_room(alloc: Global, tokens: u32) -> Result<ExprStack, NoMemory>
        ensures { IfOk result (λ stack. stack ≡ []) }
    {
        Ok(ExprStack {
            forest: Forest::with_room(alloc, tokens)?,
            roots: SmallVec::new(alloc),
        })
    }

    /// Puts `true` or `false` on top.
    #[inline(always)]
    #[tactic(auto, using(crate::proofs::ExprKindLaws::kinds))]
    pub fn push_truth(&mut self, value: bool) -> Result<(), NoMemory>
        ensures ok { OnOk result (self.new ≡ self.old ++ E.Truth value ∷ []) }
        ensures err { OnErr result (self.new ≡ self.old) }
    {
        let kind = Some(Kind::Truth);
        put(&mut self.forest, &mut self.roots, Node::Truth(value), kind)
    }

    /// Puts a number on top.
    #[inline(always)]
    #[tactic(auto, using(crate::proofs::ExprKindLaws::kinds))]
    pub fn push_whole(&mut self, value: i32) -> Result<(), NoMemory>
        ensures ok { OnOk result (self.new ≡ self.old ++ E.Whole value ∷ []) }
        ensures err { OnErr result (self.new ≡ self.old) }
    {
        let kind = Some(Kind::Whole);
        put(&mut self.forest, &mut self.roots, Node::Whole(value), kind)
    }

    /// Puts the value of a literal on top.
    #[inline(always)]
    pub fn push_text(&mut self, value: &[u8]) -> Result<(), NoMemory>
        ensures ok { OnOk result (self.new ≡ self.old ++ E.Text value.now ∷ []) }
        ensures err { OnErr result (self.new ≡ self.old) }
    {
        self.push_leaf(Leaf::Text, value)
    }

    /// Puts a name on top.
    #[inline(always)]
    pub fn push_name(&mut self, name: &[u8]) -> Result<(), NoMemory>
        ensures ok { OnOk result (self.new ≡ self.old ++ E.Name name.now ∷ []) }
        ensures err { OnErr result (self.new ≡ self.old) }
    {
        self.push_leaf(Leaf::Name, name)
    }

    // Puts a literal or a name of these bytes on top.
    #[inline(always)]
    fn push_leaf(&mut self, leaf: Leaf, bytes: &[u8]) -> Result<(), NoMemory>
        ensures ok { OnOk result (self.new ≡ self.old ++ leaf_of leaf bytes.now ∷ []) }
        ensures err { OnErr result (self.new ≡ self.old) }
    {
        let place = self.forest.add_leaf(leaf, bytes)?;
        let kind = Some(Kind::Text);
        put_root(&mut self.roots, Root { place, kind })
    }

    /// Puts `!` before the topmost expression.
    #[inline(always)]
    pub fn apply_not(&mut self) -> Result<(), NoMemory>
        requires some { 0 < length self.old }
        ensures ok { (front : List Expr) (part : Expr) → self.old ≡ front ++ part ∷ []
            → OnOk result (self.new ≡ front ++ E.Not part ∷ []) }
        ensures err { OnErr result (self.new ≡ self.old) }
    {
        self.apply(Prefix::Not)
    }

    /// Puts `-` before the topmost expression.
    #[inline(always)]
    pub fn apply_minus(&mut self) -> Result<(), NoMemory>
        requires some { 0 < length self.old }
        ensures ok { (front : List Expr) (part : Expr) → self.old ≡ front ++ part ∷ []
            → OnOk result (self.new ≡ front ++ E.Minus part ∷ []) }
        ensures err { OnErr result (self.new ≡ self.old) }
    {
        self.apply(Prefix::Minus)
    }

    /// Puts `@` before the topmost expression.
    #[inline(always)]
    pub fn apply_number(&mut self) -> Result<(), NoMemory>
        requires some { 0 < length self.old }
        ensures ok { (front : List Expr) (part : Expr) → self.old ≡ front ++ part ∷ []
            → OnOk result (self.new ≡ front ++ E.Number part ∷ []) }
        ensures err { OnErr result (self.new ≡ self.old) }
    {
        self.apply(Prefix::Number)
    }

    /// Puts `$` before the topmost expression.
    #[inline(always)]
    pub fn apply_deref(&mut self) -> Result<(), NoMemory>
        requires some { 0 < length self.old }
        ensures ok { (front : List Expr) (part : Expr) → self.old ≡ front ++ part ∷ []
            → OnOk result (self.new ≡ front ++ E.Deref part ∷ []) }
        ensures err { OnErr result (self.new ≡ self.old) }
    {
        self.apply(Prefix::Deref)
    }

    // Puts a sign before the topmost expression.
    #[inline(always)]
    fn apply(&mut self, sign: Prefix) -> Result<(), NoMemory>
        requires { 0 < length self.old }
        ensures ok { (front : List Expr) (part : Expr) → self.old ≡ front ++ part ∷ []
            → OnOk result (self.new ≡ front ++ with_prefix sign part ∷ []) }
        ensures err { OnErr result (self.new ≡ self.old) }
    {
        let at = self.roots.len() - 1;
        let part = root_at(&self.roots, at);
        let place = self.forest.add(sign.node(part.place))?;
        let kind = sign.kind(part.kind);
        replace_from(&mut self.roots, at, Root { place, kind });
        Ok(())
    }

    /// Makes a comparison of the two topmost expressions, the upper one its right side.
    #[inline(always)]
    pub fn compare(&mut self, sign: Comparison) -> Result<(), NoMemory>
        requires two { 1 < length self.old }
        ensures ok { (front : List Expr) (left right : Expr) → self.old ≡ front ++ left ∷ right ∷ []
            → OnOk result (self.new ≡ front ++ E.Compare sign left right ∷ []) }
        ensures err { OnErr result (self.new ≡ self.old) }
    {
        let at = self.roots.len() - 2;
        let left = root_at(&self.roots, at);
        let right = root_at(&self.roots, at + 1);
        let place = self.forest.add(Node::Compare {
            sign,
            left: left.place,
            right: right.place,
        })?;
        let kind = gives(are_compared(left.kind, right.kind), Kind::Truth);
        replace_from(&mut self.roots, at, Root { place, kind });
        Ok(())
    }

    /// Joins so many of the topmost expressions with `&&`.
    pub fn join_and(&mut self, count: usize) -> Result<(), NoMemory>
        requires two { 1 < count }
        requires enough { count ≤ length self.old }
        ensures ok { (front parts : List Expr) → self.old ≡ front ++ parts → length parts ≡ count
            → OnOk result (self.new ≡ front ++ E.And parts ∷ []) }
        ensures err { OnErr result (self.new ≡ self.old) }
    {
        self.join(Joint::And, count)
    }

    /// Joins so many of the topmost expressions with `||`.
    pub fn join_or(&mut self, count: usize) -> Result<(), NoMemory>
        requires two { 1 < count }
        requires enough { count ≤ length self.old }
        ensures ok { (front parts : List Expr) → self.old ≡ front ++ parts → length parts ≡ count
            → OnOk result (self.new ≡ front ++ E.Or parts ∷ []) }
        ensures err { OnErr result (self.new ≡ self.old) }
    {
        self.join(Joint::Or, count)
    }

    // Joins so many of the topmost expressions with a sign.
    fn join(&mut self, joint: Joint, count: usize) -> Result<(), NoMemory>
        requires some { 0 < count }
        requires enough { count ≤ length self.old }
        ensures ok { (front parts : List Expr) → self.old ≡ front ++ parts → length parts ≡ count
            → OnOk result (self.new ≡ front ++ join_expressions joint parts ∷ []) }
        ensures err { OnErr result (self.new ≡ self.old) }
    {
        let from = self.roots.len() - count;
        let parts = roots_from(&self.roots, from);
        let kind = gives(are_truths(parts), Kind::Truth);
        let place = self.forest.add_joined(joint, parts)?;
        replace_from(&mut self.roots, from, Root { place, kind });
        Ok(())
    }

    /// Makes a chain of the topmost expressions: a first one, and behind it one for each of these signs.
    pub fn chain(&mut self, signs: &[Operation]) -> Result<(), NoMemory>
        requires some { 0 < length signs.now }
        requires enough { length signs.now < length self.old }
        ensures ok { (front rights : List Expr) (first : Expr)
            → self.old ≡ front ++ first ∷ rights → length rights ≡ length signs.now
            → OnOk result (self.new ≡ front ++ E.Chain first (links_of signs.now rights) ∷ []) }
        ensures err { OnErr result (self.new ≡ self.old) }
    {
        let from = self.roots.len() - signs.len() - 1;
        let first = root_at(&self.roots, from);
        let rights = roots_from(&self.roots, from + 1);
        let kind = chain_kind(first.kind, signs, rights);
        let place = self.forest.add_chain(first.place, signs, rights)?;
        replace_from(&mut self.roots, from, Root { place, kind });
        Ok(())
    }

    /// The only expression of the stack.
    pub fn into_expr(self) -> FlatExpr
        requires one { length self ≡ 1 }
        ensures { self ≡ result ∷ [] }
    {
        let ExprStack {
            mut forest,
            mut roots,
        } = self;
        forest.shrink();
        FlatExpr::of(forest, take_root(&mut roots))
    }
}

// Adds a tree whose parts, if it has any, are trees of the forest, and puts it on top.
#[inline(always)]
fn put(
    forest: &mut Forest,
    roots: &mut Roots,
    node: Node,
    kind: Option<Kind>,
) -> Result<(), NoMemory>
    requires placed { IsPlaced no_pools (length forest.old) node }
    requires kind { kind ≡ kind_of (tree_of no_pools forest.old node) }
    requires roots { All (IsRoot forest.old) roots.old.items }
    ensures roots { All (IsRoot forest.new) roots.new.items }
    ensures ok { OnOk result (trees_at forest.new roots.new.items
        ≡ trees_at forest.old roots.old.items ++ tree_of no_pools forest.old node ∷ []) }
    ensures err { OnErr result (trees_at forest.new roots.new.items ≡ trees_at forest.old roots.old.items) }
{
    let place = forest.add(node)?;
    put_root(roots, Root { place, kind })
}

// Puts the root of the tree that a forest has got last on top.
#[inline(always)]
fn put_root(roots: &mut Roots, root: Root) -> Result<(), NoMemory>
    ensures roots { (trees : List Expr) (tree : Expr)
        → root.place ≡ length trees → root.kind ≡ kind_of tree → All (IsRoot trees) roots.old.items
        → All (IsRoot (trees ++ tree ∷ [])) roots.new.items }
    ensures ok { (trees : List Expr) (tree : Expr) → root.place ≡ length trees → All (IsRoot trees) roots.old.items
        → OnOk result (trees_at (trees ++ tree ∷ []) roots.new.items ≡ trees_at trees roots.old.items ++ tree ∷ []) }
    ensures err { (trees more : List Expr) → All (IsRoot trees) roots.old.items
        → OnErr result (trees_at (trees ++ more) roots.new.items ≡ trees_at trees roots.old.items) }
{
    match roots.push(root) {
        Ok(()) => Ok(()),
        Err(_) => Err(NoMemory),
    }
}

// Puts a root in place of those from a place on.
#[inline(always)]
fn replace_from(roots: &mut Roots, at: usize, root: Root)
    requires { at < length roots.old.items }
    ensures { roots.new.items ≡ take at roots.old.items ++ root ∷ [] }
{
    // That the length is a `usize` shows that the sum fits.
    let _len = roots.len();
    roots.truncate(at + 1);
    roots.as_mut_slice()[at] = root;
}

// The roots from a place on.
#[inline(always)]
fn roots_from(roots: &Roots, from: usize) -> &[Root]
    requires { from ≤ length roots.now.items }
    ensures { result.now ≡ drop from roots.now.items }
{
    &roots.as_slice()[from..]
}

// The root at a place.
#[inline(always)]
fn root_at(roots: &Roots, at: usize) -> Root
    requires { at < length roots.now.items }
    ensures { slice_get roots.now.items at ≡ Some result }
{
    roots.as_slice()[at]
}

// Takes the topmost tree.
#[inline(always)]
fn take_root(roots: &mut Roots) -> Root
    requires { 0 < length roots.old.items }
    ensures { roots.old.items ≡ roots.new.items ++ result ∷ [] }
{
    match roots.pop() {
        Some(root) => root,
        None => unreachable!(),
    }
}
