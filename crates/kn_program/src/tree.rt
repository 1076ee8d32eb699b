//! Expressions by their parts, on the stack.
ghost use Rattle.std.specs.Prelude.{◌≡◌, ◌<◌, ◌≤◌, [], ◌∷◌, ◌++◌, length, OnOk, List};
ghost use Rattle.kn_trees.specs.declared.program.Expr.{Expr};
ghost use Rattle.kn_program.specs.Trees.{several, with_prefix};

use crate::signs::{Joint, Prefix};
use kn_base::NoMemory;
use kn_trees::ExprStack;

/// Joins so many of the topmost tests into one.
pub(crate) fn join_tests(stack: &mut ExprStack, joint: Joint, count: usize) -> Result<(), NoMemory>
    requires two { 1 < count }
    requires enough { count ≤ length stack.old }
    ensures { (front parts : List Expr) → stack.old ≡ front ++ parts → length parts ≡ count
        → OnOk result (stack.new ≡ front ++ several joint parts ∷ []) }
{
    match joint {
        Joint::Or => stack.join_or(count),
        Joint::And => stack.join_and(count),
    }
}

/// Puts a sign before the topmost operand.
pub(crate) fn apply_prefix(stack: &mut ExprStack, prefix: Prefix) -> Result<(), NoMemory>
    requires some { 0 < length stack.old }
    ensures { (front : List Expr) (part : Expr) → stack.old ≡ front ++ part ∷ []
        → OnOk result (stack.new ≡ front ++ with_prefix prefix part ∷ []) }
{
    match prefix {
        Prefix::Minus => stack.apply_minus(),
        Prefix::Number => stack.apply_number(),
        Prefix::Deref => stack.apply_deref(),
    }
}
