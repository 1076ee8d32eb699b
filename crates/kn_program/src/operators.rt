//! The signs of operations, comparisons and prefixes where they come next.
ghost use Rattle.std.specs.Prelude.{◌≡◌, ◌≤◌, false, None};
ghost use Rattle.kn_fields.specs.Words.{with_rest};
ghost use Rattle.kn_fields.specs.Reading.{taken};
ghost use Rattle.kn_program.specs.Signs.{height, operation_of, comparison_of, prefix_of};
ghost use Rattle.kn_program.specs.declared.signs.Precedence.{Precedence};

use crate::signs::{Precedence, Prefix, comparison_of, is_operation, operation_of, prefix_of};
use kn_fields::Cursor;
use kn_trees::{Comparison, Operation};

/// Takes the sign of an operation of a level, if it comes next.
#[inline(always)]
#[tactic(auto, unfolding(kn_fields::specs::Reading::taken))]
pub(crate) fn take_operation(cursor: &mut Cursor<'_, '_>, level: Precedence) -> Option<Operation>
    ensures taken { with_rest result cursor.new ≡ taken (operation_of level) cursor.old }
    ensures kept { result ≡ None → cursor.new ≡ cursor.old }
{
    let text = cursor.sign()?;
    let operation = operation_of(level, text)?;
    cursor.step();
    Some(operation)
}

/// Whether an operation of a level or of a tighter one comes next.
#[inline(always)]
#[tactic(auto, unfolding(kn_fields::specs::Reading::taken))]
pub(crate) fn has_operation(cursor: &Cursor<'_, '_>, level: Precedence) -> bool
    ensures { result ≡ false
        → (tier : Precedence) → height tier ≤ height level → None ≡ taken (operation_of tier) cursor.now }
{
    let Some(text) = cursor.sign() else {
        return false;
    };
    is_operation(level, text)
}

/// Takes the sign of a comparison, if it comes next.
#[inline(always)]
#[tactic(auto, unfolding(kn_fields::specs::Reading::taken))]
pub(crate) fn take_comparison(cursor: &mut Cursor<'_, '_>) -> Option<Comparison>
    ensures taken { with_rest result cursor.new ≡ taken comparison_of cursor.old }
    ensures kept { result ≡ None → cursor.new ≡ cursor.old }
{
    let text = cursor.sign()?;
    let comparison = comparison_of(text)?;
    cursor.step();
    Some(comparison)
}

/// Takes the sign before an operand, if it comes next.
#[inline(always)]
#[tactic(auto, unfolding(kn_fields::specs::Reading::taken))]
pub(crate) fn take_prefix(cursor: &mut Cursor<'_, '_>) -> Option<Prefix>
    ensures taken { with_rest result cursor.new ≡ taken prefix_of cursor.old }
    ensures kept { result ≡ None → cursor.new ≡ cursor.old }
{
    let text = cursor.sign()?;
    let prefix = prefix_of(text)?;
    cursor.step();
    Some(prefix)
}
