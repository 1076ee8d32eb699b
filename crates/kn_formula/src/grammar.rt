//! The grammar of the Licensees field, with one token of look-ahead.
//!
//! The budget bounds the steps of a reading: each step down the grammar takes one, and a list has fewer parts than
//! it. Three for each token are enough.
ghost use Rattle.std.specs.Prelude.{◌≡◌, [], ◌∷◌, IfOk, codes};
ghost use Rattle.std.specs.Str.{bytes_eq};
ghost use Rattle.kn_fields.specs.Reading.{Reads, ReadsWhole, then_read, closed_by};
ghost use Rattle.kn_formula.specs.Reading.{rule_text, finish_list, of_front};
ghost use Rattle.kn_formula.specs.Reading.{parts_at, more_parts_at, item_at, one_at, read_words};

use crate::threshold::need_of;
use crate::written::{Principal, Rule, Written};
use kn_base::{List, NoMemory, Octets};
use kn_fields::{Cursor, GrammarFault};
use kn_lex::{Sort, literal};
use std::alloc::Global;

/// The sign between the parts of a list under a rule.
#[inline(always)]
fn rule_text(rule: Rule) -> &'static [u8]
    ensures { result.now ≡ rule_text rule }
{
    match rule {
        Rule::All => b"&&".as_slice(),
        Rule::Any => b"||".as_slice(),
        Rule::AtLeast(_) => b",".as_slice(),
    }
}

/// The one part of a list under a rule: it is itself, but in a threshold.
#[inline(always)]
#[tactic(auto, unfolding(crate::specs::Trees::joined))]
fn alone(alloc: Global, rule: Rule, part: Written) -> Result<Written, NoMemory>
    ensures { IfOk result (λ whole. whole ≡ finish_list rule (part ∷ [])) }
{
    match rule {
        Rule::All | Rule::Any => Ok(part),
        Rule::AtLeast(_) => {
            let mut parts = List::new(alloc);
            parts.add(part)?;
            Ok(Written::Several { rule, parts })
        }
    }
}

/// A list under a rule.
#[cycle(form)]
fn parts(
    alloc: Global,
    cursor: &mut Cursor<'_, '_>,
    rule: Rule,
    budget: u64,
) -> Result<Written, GrammarFault>
    ensures { Reads result (parts_at budget rule cursor.old) cursor.new }
{
    if budget == 0 {
        return Err(GrammarFault::Syntax);
    }
    let first = item(alloc, cursor, rule, budget - 1)?;
    if cursor.take_sign(rule_text(rule)) {
        more_parts(alloc, cursor, rule, first, budget - 1)
    } else {
        let whole = alone(alloc, rule, first)?;
        Ok(whole)
    }
}

/// A list under a rule with a first part that is read, and a sign behind it.
#[cycle(form)]
fn more_parts(
    alloc: Global,
    cursor: &mut Cursor<'_, '_>,
    rule: Rule,
    first: Written,
    budget: u64,
) -> Result<Written, GrammarFault>
    ensures { Reads result (more_parts_at budget rule first cursor.old) cursor.new }
{
    let mut parts = List::new(alloc);
    parts.add(first)?;
    let mut left = budget;
    while left > 0 {
        let part = item(alloc, cursor, rule, budget)?;
        parts.add(part)?;
        if !cursor.take_sign(rule_text(rule)) {
            return Ok(Written::Several { rule, parts });
        }
        left -= 1;
    }
    Err(GrammarFault::Syntax)
}

/// A part of a list under a rule.
#[cycle(form)]
#[inline(always)]
fn item(
    alloc: Global,
    cursor: &mut Cursor<'_, '_>,
    rule: Rule,
    budget: u64,
) -> Result<Written, GrammarFault>
    ensures { Reads result (item_at budget rule cursor.old) cursor.new }
{
    match rule {
        Rule::All => one(alloc, cursor, budget),
        Rule::Any => parts(alloc, cursor, Rule::All, budget),
        Rule::AtLeast(_) => parts(alloc, cursor, Rule::Any, budget),
    }
}

#[inline(always)]
fn is_opening(text: &[u8]) -> bool
    ensures { result ≡ bytes_eq text.now (codes "(") }
{
    matches!(text, [b'('])
}

/// What stands between the number of a threshold and its list.
fn of_front(cursor: &mut Cursor<'_, '_>) -> Result<(), GrammarFault>
    ensures { Reads result (of_front cursor.old) cursor.new }
{
    cursor.expect_sign(b"-".as_slice())?;
    cursor.expect_name(b"of".as_slice())?;
    cursor.expect_sign(b"(".as_slice())
}

/// A principal, a formula in brackets or a threshold.
#[cycle(form)]
#[inline(always)]
fn one(alloc: Global, cursor: &mut Cursor<'_, '_>, budget: u64) -> Result<Written, GrammarFault>
    ensures { Reads result (one_at budget cursor.old) cursor.new }
{
    if budget == 0 {
        return Err(GrammarFault::Syntax);
    }
    let Some(token) = cursor.take() else {
        return Err(GrammarFault::Syntax);
    };
    match token.sort {
        Sort::Text => {
            let value = literal(alloc, token)?;
            Ok(Written::Who(Principal::Literal(value)))
        }
        Sort::Name => {
            let name = Octets::from_slice(alloc, token.text)?;
            Ok(Written::Who(Principal::Name(name)))
        }
        Sort::Number => {
            of_front(cursor)?;
            read_brackets(
                alloc,
                cursor,
                Rule::AtLeast(need_of(token.text)),
                budget - 1,
            )
        }
        Sort::Sign => {
            if is_opening(token.text) {
                read_brackets(alloc, cursor, Rule::Any, budget - 1)
            } else {
                Err(GrammarFault::Syntax)
            }
        }
        _ => Err(GrammarFault::Syntax),
    }
}

/// A list in brackets, of which the opening one is read.
#[cycle(form)]
fn read_brackets(
    alloc: Global,
    cursor: &mut Cursor<'_, '_>,
    rule: Rule,
    budget: u64,
) -> Result<Written, GrammarFault>
    ensures { Reads result (then_read (parts_at budget rule cursor.old) (closed_by (codes ")"))) cursor.new }
{
    let whole = parts(alloc, cursor, rule, budget)?;
    cursor.expect_sign(b")".as_slice())?;
    Ok(whole)
}

/// The formula that all the tokens spell.
pub(crate) fn written(alloc: Global, cursor: &mut Cursor<'_, '_>) -> Result<Written, GrammarFault>
    ensures { ReadsWhole result (read_words cursor.old) }
{
    let budget = 3 * u64::from(cursor.len());
    let whole = parts(alloc, cursor, Rule::Any, budget)?;
    match cursor.take() {
        Some(_) => Err(GrammarFault::Syntax),
        None => Ok(whole),
    }
}
