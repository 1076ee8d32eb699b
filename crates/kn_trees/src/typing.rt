//! The kinds that operators ask and give, and whether a program keeps to them.
ghost use Rattle.std.specs.Prelude.{Option, ◌≡◌, length, map, zip};
ghost use Rattle.std.specs.List.{list_all};
ghost use Rattle.kn_trees.specs.ExprKinds.{is_truth, is_whole, is_text, are_compared, gives};
ghost use Rattle.kn_trees.specs.ExprKinds.{operation_kind, chain_kind};
ghost use Rattle.kn_trees.specs.Kinds.{is_well_kinded, is_clause_well_kinded, is_then_well_kinded};

use crate::kinds::Kind;
use crate::program::{Clause, Operation, Program, Then};
use crate::root::Root;

#[inline(always)]
pub(crate) fn is_truth(kind: Option<Kind>) -> bool
    ensures { result ≡ is_truth kind }
{
    match kind {
        Some(Kind::Truth) => true,
        _ => false,
    }
}

#[inline(always)]
pub(crate) fn is_whole(kind: Option<Kind>) -> bool
    ensures { result ≡ is_whole kind }
{
    match kind {
        Some(Kind::Whole) => true,
        _ => false,
    }
}

#[inline(always)]
pub(crate) fn is_text(kind: Option<Kind>) -> bool
    ensures { result ≡ is_text kind }
{
    match kind {
        Some(Kind::Text) => true,
        _ => false,
    }
}

#[inline(always)]
pub(crate) fn are_compared(left: Option<Kind>, right: Option<Kind>) -> bool
    ensures { result ≡ are_compared left right }
{
    if is_whole(left) {
        is_whole(right)
    } else {
        is_text(left) && is_text(right)
    }
}

/// What an operator gives where its operands are right.
#[inline(always)]
pub(crate) fn gives(right: bool, kind: Kind) -> Option<Kind>
    ensures { result ≡ gives right kind }
{
    if right { Some(kind) } else { None }
}

fn operation_kind(sign: Operation, left: Option<Kind>, right: Option<Kind>) -> Option<Kind>
    ensures { result ≡ operation_kind sign left right }
{
    match sign {
        Operation::Join => gives(is_text(left) && is_text(right), Kind::Text),
        Operation::Plus
        | Operation::Less
        | Operation::Times
        | Operation::Divide
        | Operation::Rest
        | Operation::Power => gives(is_whole(left) && is_whole(right), Kind::Whole),
    }
}

/// Whether all these trees are truths.
pub(crate) fn are_truths(roots: &[Root]) -> bool
    ensures { result ≡ list_all is_truth (map (λ root. root.kind) roots.now) }
{
    for root in roots {
        if !is_truth(root.kind) {
            return false;
        }
    }
    true
}

/// The kind of a chain whose first part has this one.
pub(crate) fn chain_kind(first: Option<Kind>, signs: &[Operation], rights: &[Root]) -> Option<Kind>
    requires { length rights.now ≡ length signs.now }
    ensures { result ≡ chain_kind first (zip signs.now (map (λ root. root.kind) rights.now)) }
{
    let mut left = first;
    for (sign, right) in signs.iter().zip(rights) {
        left = operation_kind(*sign, left, right.kind);
    }
    left
}

/// Whether each test of a program is a truth, and each value a text.
#[cycle(programs)]
#[tactic(auto, using(crate::proofs::ExprKindLaws::well_kinded))]
pub fn is_well_kinded(program: &Program) -> bool
    ensures { result ≡ is_well_kinded program.now }
{
    for clause in program.clauses.as_slice() {
        if !is_clause_well_kinded(clause) {
            return false;
        }
    }
    true
}

#[cycle(programs)]
#[tactic(auto, using(crate::proofs::ExprKindLaws::well_kinded))]
fn is_clause_well_kinded(clause: &Clause) -> bool
    ensures { result ≡ is_clause_well_kinded clause.now }
{
    is_truth(clause.test.kind()) && is_then_well_kinded(&clause.then)
}

#[cycle(programs)]
#[tactic(auto, using(crate::proofs::ExprKindLaws::well_kinded))]
fn is_then_well_kinded(then: &Then) -> bool
    ensures { result ≡ is_then_well_kinded then.now }
{
    match then {
        Then::Top => true,
        Then::Value(value) => is_text(value.kind()),
        Then::Block(program) => is_well_kinded(program),
    }
}
