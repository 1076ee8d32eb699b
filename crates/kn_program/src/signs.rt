//! The signs of the grammar of conditions, and the words that are no names.
ghost use Rattle.std.specs.Prelude.{◌≡◌, ◌≤◌, false, None, IfSome};
ghost use Rattle.kn_base.specs.declared.limits.TheConstants.{WHOLE_NUMBER};
ghost use Rattle.kn_program.specs.Signs.{joint_text, height, operation_of};
ghost use Rattle.kn_program.specs.Signs.{comparison_of, prefix_of, truth_of, number_of};
ghost use Rattle.kn_program.specs.declared.signs.Precedence.{Precedence};

use kn_base::digits_within;
use kn_base::limits::WHOLE_NUMBER;
use kn_trees::{Comparison, Operation};

/// What stands between tests.
#[derive(Clone, Copy, PartialEq, Eq)]
pub enum Joint {
    /// `||`
    Or,
    /// `&&`
    And,
}

/// A level of the grammar whose operations group to the left, the loosest first.
#[derive(Clone, Copy, PartialEq, Eq)]
pub enum Precedence {
    /// `+`, `-` and `.`
    Sum,
    /// `*`, `/` and `%`
    Product,
    /// `^`
    Power,
}

/// A sign before an operand.
#[derive(Clone, Copy, PartialEq, Eq)]
pub enum Prefix {
    /// `-`
    Minus,
    /// `@`
    Number,
    /// `$`
    Deref,
}

/// How many levels an operand is below this one.
#[inline(always)]
pub(crate) fn height(level: Precedence) -> u64
    ensures { result ≡ height level }
{
    match level {
        Precedence::Sum => 3,
        Precedence::Product => 2,
        Precedence::Power => 1,
    }
}

#[inline(always)]
pub(crate) fn joint_text(joint: Joint) -> &'static [u8]
    ensures { result.now ≡ joint_text joint }
{
    match joint {
        Joint::Or => b"||".as_slice(),
        Joint::And => b"&&".as_slice(),
    }
}

/// The operation of a level that a sign stands for.
#[inline(always)]
#[tactic(auto, unfolding(crate::specs::Signs::operation_of))]
pub(crate) fn operation_of(level: Precedence, text: &[u8]) -> Option<Operation>
    ensures { result ≡ operation_of level text.now }
{
    match level {
        Precedence::Sum => match text {
            [b'+'] => Some(Operation::Plus),
            [b'-'] => Some(Operation::Less),
            [b'.'] => Some(Operation::Join),
            _ => None,
        },
        Precedence::Product => match text {
            [b'*'] => Some(Operation::Times),
            [b'/'] => Some(Operation::Divide),
            [b'%'] => Some(Operation::Rest),
            _ => None,
        },
        Precedence::Power => match text {
            [b'^'] => Some(Operation::Power),
            _ => None,
        },
    }
}

/// Whether a sign stands for an operation of a level or of a tighter one.
#[inline(always)]
pub(crate) fn is_operation(level: Precedence, text: &[u8]) -> bool
    ensures { result ≡ false → (tier : Precedence) → height tier ≤ height level → operation_of tier text.now ≡ None }
{
    let power = operation_of(Precedence::Power, text).is_some();
    let product = power || operation_of(Precedence::Product, text).is_some();
    match level {
        Precedence::Power => power,
        Precedence::Product => product,
        Precedence::Sum => product || operation_of(Precedence::Sum, text).is_some(),
    }
}

/// The comparison that a sign stands for.
#[inline(always)]
#[tactic(auto, unfolding(crate::specs::Signs::comparison_of))]
pub(crate) fn comparison_of(text: &[u8]) -> Option<Comparison>
    ensures { result ≡ comparison_of text.now }
{
    match text {
        [b'=', b'='] => Some(Comparison::Eq),
        [b'!', b'='] => Some(Comparison::Ne),
        [b'<'] => Some(Comparison::Lt),
        [b'>'] => Some(Comparison::Gt),
        [b'<', b'='] => Some(Comparison::Le),
        [b'>', b'='] => Some(Comparison::Ge),
        _ => None,
    }
}

/// What a sign is before an operand.
#[inline(always)]
#[tactic(auto, unfolding(crate::specs::Signs::prefix_of))]
pub(crate) fn prefix_of(text: &[u8]) -> Option<Prefix>
    ensures { result ≡ prefix_of text.now }
{
    match text {
        [b'-'] => Some(Prefix::Minus),
        [b'@'] => Some(Prefix::Number),
        [b'$'] => Some(Prefix::Deref),
        _ => None,
    }
}

/// The truth value that a name stands for, in any case of letters.
#[tactic(auto, unfolding(crate::specs::Signs::truth_of))]
pub(crate) fn truth_of(name: &[u8]) -> Option<bool>
    ensures { result ≡ truth_of name.now }
{
    if name.eq_ignore_ascii_case(b"true".as_slice()) {
        Some(true)
    } else if name.eq_ignore_ascii_case(b"false".as_slice()) {
        Some(false)
    } else {
        None
    }
}

/// The number of digits, or None where it is above 2147483647, which no token is.
#[tactic(auto, unfolding(crate::specs::Signs::number_of))]
pub(crate) fn number_of(digits: &[u8]) -> Option<u32>
    ensures value { result ≡ number_of digits.now }
    ensures small { IfSome result (λ value. value ≤ WHOLE_NUMBER) }
{
    digits_within(WHOLE_NUMBER, digits)
}
