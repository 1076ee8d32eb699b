//! The grammar of expressions, with one token of look-ahead.
//!
//! What is read is put on a stack. After an `Err` nothing is said of the stack. The budget bounds the steps of a
//! reading: each step down the grammar takes one, and a list of parts or of operations has fewer than it. Ten for each
//! token are enough.
ghost use Rattle.std.specs.Prelude.{◌≡◌, ◌+◌, ◌^◌, ◌≤◌, ◌<◌, length};
ghost use Rattle.kn_lex.specs.TokenViews.{token_view};
ghost use Rattle.kn_fields.specs.Words.{word_of};
ghost use Rattle.kn_fields.specs.Reading.{map_read};
ghost use Rattle.kn_trees.specs.declared.program.Expr.TheVariants as E;
ghost use Rattle.kn_program.specs.Signs.{height};
ghost use Rattle.kn_program.specs.Trees.{with_prefix};
ghost use Rattle.kn_program.specs.Stacking.{Puts, PutsBehind, PutsWord};
ghost use Rattle.kn_program.specs.Reading.{tests_at, more_tests_at, test_at, negation_at, comparison_at};
ghost use Rattle.kn_program.specs.Reading.{chain_at, side_at, more_links_at, climb_at, first_at, operand_at, atom_at};

use crate::operators::{has_operation, take_comparison, take_operation, take_prefix};
use crate::signs::{Joint, Precedence, Prefix, height, joint_text, number_of, truth_of};
use crate::tree::{apply_prefix, join_tests};
use kn_base::List;
use kn_fields::{Cursor, GrammarFault};
use kn_lex::{Sort, Token, literal};
use kn_trees::{ExprStack, Operation};
use std::alloc::Global;

/// The tests with `||` or `&&` between them.
#[cycle(expression)]
#[tactic(auto, using(crate::proofs::Steps::tests_step), unfolding(crate::specs::Reading::tests_at))]
pub(crate) fn tests(
    alloc: Global,
    stack: &mut ExprStack,
    cursor: &mut Cursor<'_, '_>,
    joint: Joint,
    budget: u64,
) -> Result<(), GrammarFault>
    ensures { Puts result (tests_at budget joint cursor.old) stack.old stack.new cursor.new }
{
    if budget == 0 {
        return Err(GrammarFault::Syntax);
    }
    test(alloc, stack, cursor, joint, budget - 1)?;
    if cursor.take_sign(joint_text(joint)) {
        more_tests(alloc, stack, cursor, joint, budget - 1)
    } else {
        Ok(())
    }
}

/// The tests with a first one that is read, and a joint behind it.
#[cycle(expression)]
#[tactic(auto, using(kn_fields::proofs::Steps::going_none, kn_fields::proofs::Steps::going_over))]
fn more_tests(
    alloc: Global,
    stack: &mut ExprStack,
    cursor: &mut Cursor<'_, '_>,
    joint: Joint,
    budget: u64,
) -> Result<(), GrammarFault>
    requires some { 0 < length stack.old }
    requires countable { budget + 1 < 2 ^ 64 }
    ensures { PutsBehind result (λ first. more_tests_at budget joint first cursor.old) stack.old stack.new cursor.new }
{
    let mut count = 1;
    let mut left = budget;
    while left > 0 {
        test(alloc, stack, cursor, joint, budget)?;
        count += 1;
        if !cursor.take_sign(joint_text(joint)) {
            join_tests(stack, joint, count)?;
            return Ok(());
        }
        left -= 1;
    }
    Err(GrammarFault::Syntax)
}

/// One of the tests that stand between joints of this sort.
#[cycle(expression)]
#[inline(always)]
fn test(
    alloc: Global,
    stack: &mut ExprStack,
    cursor: &mut Cursor<'_, '_>,
    joint: Joint,
    budget: u64,
) -> Result<(), GrammarFault>
    ensures { Puts result (test_at budget joint cursor.old) stack.old stack.new cursor.new }
{
    match joint {
        Joint::Or => tests(alloc, stack, cursor, Joint::And, budget),
        Joint::And => negation(alloc, stack, cursor, budget),
    }
}

/// A comparison, or `!` and what it stands before.
#[cycle(expression)]
#[tactic(auto, using(crate::proofs::Steps::negation_step), unfolding(crate::specs::Reading::negation_at))]
#[inline(always)]
fn negation(
    alloc: Global,
    stack: &mut ExprStack,
    cursor: &mut Cursor<'_, '_>,
    budget: u64,
) -> Result<(), GrammarFault>
    ensures { Puts result (negation_at budget cursor.old) stack.old stack.new cursor.new }
{
    if budget == 0 {
        return Err(GrammarFault::Syntax);
    }
    if cursor.take_sign(b"!".as_slice()) {
        denial(alloc, stack, cursor, budget - 1)
    } else {
        comparison(alloc, stack, cursor, budget - 1)
    }
}

/// What a `!` makes of what stands behind it.
#[cycle(expression)]
fn denial(
    alloc: Global,
    stack: &mut ExprStack,
    cursor: &mut Cursor<'_, '_>,
    budget: u64,
) -> Result<(), GrammarFault>
    ensures { Puts result (map_read E.Not (negation_at budget cursor.old)) stack.old stack.new cursor.new }
{
    negation(alloc, stack, cursor, budget)?;
    stack.apply_not()?;
    Ok(())
}

/// A sum, or two with a comparison between them.
#[cycle(expression)]
#[tactic(auto, using(crate::proofs::Steps::comparison_step), unfolding(crate::specs::Reading::comparison_at))]
#[inline(always)]
fn comparison(
    alloc: Global,
    stack: &mut ExprStack,
    cursor: &mut Cursor<'_, '_>,
    budget: u64,
) -> Result<(), GrammarFault>
    ensures { Puts result (comparison_at budget cursor.old) stack.old stack.new cursor.new }
{
    if budget == 0 {
        return Err(GrammarFault::Syntax);
    }
    chain(alloc, stack, cursor, Precedence::Sum, budget - 1)?;
    let Some(sign) = take_comparison(cursor) else {
        return Ok(());
    };
    chain(alloc, stack, cursor, Precedence::Sum, budget - 1)?;
    stack.compare(sign)?;
    Ok(())
}

/// The operands with operations of a level between them.
///
/// The first operand comes before the levels, so that one with no operation behind it takes no way through them.
#[cycle(expression)]
#[tactic(auto, using(crate::proofs::Steps::chain_is), unfolding(crate::specs::Reading::operand_at))]
#[inline(always)]
fn chain(
    alloc: Global,
    stack: &mut ExprStack,
    cursor: &mut Cursor<'_, '_>,
    level: Precedence,
    budget: u64,
) -> Result<(), GrammarFault>
    ensures { Puts result (chain_at budget level cursor.old) stack.old stack.new cursor.new }
{
    let levels = height(level);
    if budget < levels {
        return Err(GrammarFault::Syntax);
    }
    operand(alloc, stack, cursor, budget - levels)?;
    climb(alloc, stack, cursor, level, budget)
}

/// The operations of a level and of the tighter ones behind a first operand, if there are any.
#[cycle(expression)]
#[tactic(auto, using(crate::proofs::Steps::climb_none))]
#[inline(always)]
fn climb(
    alloc: Global,
    stack: &mut ExprStack,
    cursor: &mut Cursor<'_, '_>,
    level: Precedence,
    budget: u64,
) -> Result<(), GrammarFault>
    requires some { 0 < length stack.old }
    requires enough { height level ≤ budget }
    ensures { PutsBehind result (λ operand. climb_at budget level operand cursor.old) stack.old stack.new cursor.new }
{
    if has_operation(cursor, level) {
        operations(alloc, stack, cursor, level, budget)
    } else {
        Ok(())
    }
}

/// The operations of the tighter levels behind a first operand, and then those of this one.
#[cycle(expression)]
#[tactic(auto, using(crate::proofs::Steps::climbs))]
fn operations(
    alloc: Global,
    stack: &mut ExprStack,
    cursor: &mut Cursor<'_, '_>,
    level: Precedence,
    budget: u64,
) -> Result<(), GrammarFault>
    requires some { 0 < length stack.old }
    requires enough { height level ≤ budget }
    ensures { PutsBehind result (λ operand. climb_at budget level operand cursor.old) stack.old stack.new cursor.new }
{
    first_side(alloc, stack, cursor, level, budget - 1)?;
    match take_operation(cursor, level) {
        Some(sign) => links(alloc, stack, cursor, level, sign, budget - 1),
        None => Ok(()),
    }
}

/// The operations of the tighter levels behind a first operand.
#[cycle(expression)]
fn first_side(
    alloc: Global,
    stack: &mut ExprStack,
    cursor: &mut Cursor<'_, '_>,
    level: Precedence,
    budget: u64,
) -> Result<(), GrammarFault>
    requires some { 0 < length stack.old }
    requires enough { height level ≤ budget + 1 }
    ensures { PutsBehind result (λ operand. first_at budget level operand cursor.old) stack.old stack.new cursor.new }
{
    match level {
        Precedence::Sum => climb(alloc, stack, cursor, Precedence::Product, budget),
        Precedence::Product => climb(alloc, stack, cursor, Precedence::Power, budget),
        Precedence::Power => Ok(()),
    }
}

/// The operations of a level with a first side that is read, and a sign behind it.
#[cycle(expression)]
#[tactic(auto, using(kn_fields::proofs::Steps::going_none, kn_fields::proofs::Steps::going_over))]
fn links(
    alloc: Global,
    stack: &mut ExprStack,
    cursor: &mut Cursor<'_, '_>,
    level: Precedence,
    sign: Operation,
    budget: u64,
) -> Result<(), GrammarFault>
    requires some { 0 < length stack.old }
    ensures { PutsBehind result
        (λ first. more_links_at budget level first sign cursor.old) stack.old stack.new cursor.new }
{
    let mut signs = List::new(alloc);
    let mut sign = sign;
    let mut left = budget;
    while left > 0 {
        side(alloc, stack, cursor, level, budget)?;
        signs.add(sign)?;
        let Some(next) = take_operation(cursor, level) else {
            stack.chain(signs.as_slice())?;
            return Ok(());
        };
        sign = next;
        left -= 1;
    }
    Err(GrammarFault::Syntax)
}

/// A side of the operations of a level.
#[cycle(expression)]
fn side(
    alloc: Global,
    stack: &mut ExprStack,
    cursor: &mut Cursor<'_, '_>,
    level: Precedence,
    budget: u64,
) -> Result<(), GrammarFault>
    ensures { Puts result (side_at budget level cursor.old) stack.old stack.new cursor.new }
{
    match level {
        Precedence::Sum => chain(alloc, stack, cursor, Precedence::Product, budget),
        Precedence::Product => chain(alloc, stack, cursor, Precedence::Power, budget),
        Precedence::Power => operand(alloc, stack, cursor, budget),
    }
}

/// An atom, or a sign and the operand behind it.
#[cycle(expression)]
#[tactic(auto, using(crate::proofs::Steps::operand_step), unfolding(crate::specs::Reading::operand_at))]
#[inline(always)]
fn operand(
    alloc: Global,
    stack: &mut ExprStack,
    cursor: &mut Cursor<'_, '_>,
    budget: u64,
) -> Result<(), GrammarFault>
    ensures { Puts result (operand_at budget cursor.old) stack.old stack.new cursor.new }
{
    if budget == 0 {
        return Err(GrammarFault::Syntax);
    }
    match take_prefix(cursor) {
        Some(prefix) => signed_operand(alloc, stack, cursor, prefix, budget - 1),
        None => atom(alloc, stack, cursor, budget - 1),
    }
}

/// What a sign makes of the operand behind it.
#[cycle(expression)]
fn signed_operand(
    alloc: Global,
    stack: &mut ExprStack,
    cursor: &mut Cursor<'_, '_>,
    prefix: Prefix,
    budget: u64,
) -> Result<(), GrammarFault>
    ensures { Puts result (map_read (with_prefix prefix) (operand_at budget cursor.old)) stack.old stack.new
        cursor.new }
{
    operand(alloc, stack, cursor, budget)?;
    apply_prefix(stack, prefix)?;
    Ok(())
}

/// Puts the expression of one token on the stack, and gives whether the token spells one.
#[inline(always)]
fn put_constant(
    alloc: Global,
    stack: &mut ExprStack,
    token: &Token<'_>,
) -> Result<bool, GrammarFault>
    ensures { PutsWord result (word_of (token_view token.now)) stack.old stack.new }
{
    match token.sort {
        Sort::Text => {
            let value = literal(alloc, token)?;
            stack.push_text(value.as_slice())?;
            Ok(true)
        }
        Sort::Name => {
            match truth_of(token.text) {
                Some(value) => stack.push_truth(value)?,
                None => stack.push_name(token.text)?,
            }
            Ok(true)
        }
        Sort::Number => match number_of(token.text) {
            Some(value) => {
                stack.push_whole(value as i32)?;
                Ok(true)
            }
            None => Ok(false),
        },
        _ => Ok(false),
    }
}

/// An expression of one token or in brackets.
#[cycle(expression)]
#[tactic(auto, using(crate::proofs::Steps::atom_step), unfolding(crate::specs::Reading::atom_at))]
#[inline(always)]
fn atom(
    alloc: Global,
    stack: &mut ExprStack,
    cursor: &mut Cursor<'_, '_>,
    budget: u64,
) -> Result<(), GrammarFault>
    ensures { Puts result (atom_at budget cursor.old) stack.old stack.new cursor.new }
{
    if budget == 0 {
        return Err(GrammarFault::Syntax);
    }
    let Some(token) = cursor.peek() else {
        return Err(GrammarFault::Syntax);
    };
    if put_constant(alloc, stack, token)? {
        cursor.step();
        return Ok(());
    }
    cursor.expect_sign(b"(".as_slice())?;
    tests(alloc, stack, cursor, Joint::Or, budget - 1)?;
    cursor.expect_sign(b")".as_slice())?;
    Ok(())
}
