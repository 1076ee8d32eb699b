//! The grammar of programs, with one token of look-ahead.
//!
//! The budget bounds the steps of a reading, as with expressions. Twelve for each token and one more are enough.
ghost use Rattle.std.specs.Prelude.{◌≡◌, ◌++◌, OnOk};
ghost use Rattle.kn_fields.specs.Reading.{Reads, ReadsWhole};
ghost use Rattle.kn_program.specs.Reading.{entries_of, has_clause, entry_at, program_at};
ghost use Rattle.kn_program.specs.Reading.{clause_at, tests_at, value_after, read_program};

use crate::expression::tests;
use crate::signs::Joint;
use kn_base::{List, NoMemory};
use kn_fields::{Cursor, GrammarFault};
use kn_trees::{Clause, ExprStack, FlatExpr, Program, Then};
use std::alloc::Global;

/// Adds the clause of an entry, if it has one.
fn add(list: &mut List<Clause>, entry: Option<Clause>) -> Result<(), NoMemory>
    ensures { OnOk result (list.new ≡ list.old ++ entries_of entry) }
{
    let Some(clause) = entry else {
        return Ok(());
    };
    list.add(clause)
}

/// The clauses with `;` between them.
#[cycle(program)]
fn clauses(
    alloc: Global,
    cursor: &mut Cursor<'_, '_>,
    budget: u64,
) -> Result<List<Clause>, GrammarFault>
    ensures { Reads result (program_at budget cursor.old) cursor.new }
{
    let mut list = List::new(alloc);
    let mut left = budget;
    while left > 0 {
        let found = entry(alloc, cursor, budget - 1)?;
        add(&mut list, found)?;
        if !cursor.take_sign(b";".as_slice()) {
            return Ok(list);
        }
        left -= 1;
    }
    Err(GrammarFault::Syntax)
}

/// Whether a clause comes next, and not the end of an empty one.
fn has_clause(cursor: &Cursor<'_, '_>) -> bool
    ensures { result ≡ has_clause cursor.now }
{
    cursor.len() > 0 && !cursor.is_sign(b";".as_slice()) && !cursor.is_sign(b"}".as_slice())
}

/// A clause, or None where it is empty.
#[cycle(program)]
fn entry(
    alloc: Global,
    cursor: &mut Cursor<'_, '_>,
    budget: u64,
) -> Result<Option<Clause>, GrammarFault>
    ensures { Reads result (entry_at (clause_at budget) cursor.old) cursor.new }
{
    if !has_clause(cursor) {
        return Ok(None);
    }
    let clause = clause(alloc, cursor, budget)?;
    Ok(Some(clause))
}

#[cycle(program)]
#[tactic(auto, using(crate::proofs::Steps::clause_step), unfolding(crate::specs::Reading::clause_at))]
fn clause(alloc: Global, cursor: &mut Cursor<'_, '_>, budget: u64) -> Result<Clause, GrammarFault>
    ensures { Reads result (clause_at budget cursor.old) cursor.new }
{
    if budget == 0 {
        return Err(GrammarFault::Syntax);
    }
    let test = expression(alloc, cursor, budget - 1)?;
    if !cursor.take_sign(b"->".as_slice()) {
        let then = Then::Top;
        return Ok(Clause { test, then });
    }
    let then = value(alloc, cursor, budget - 1)?;
    Ok(Clause { test, then })
}

/// An expression.
///
/// Room is taken for all tokens left of the field, since how many are its own isn't known yet; `into_expr` gives back
/// the rest.
fn expression(
    alloc: Global,
    cursor: &mut Cursor<'_, '_>,
    budget: u64,
) -> Result<FlatExpr, GrammarFault>
    ensures { Reads result (tests_at budget Joint.Or cursor.old) cursor.new }
{
    let mut stack = ExprStack::with_room(alloc, cursor.len())?;
    tests(alloc, &mut stack, cursor, Joint::Or, budget)?;
    Ok(stack.into_expr())
}

/// What stands behind `->`.
#[cycle(program)]
fn value(alloc: Global, cursor: &mut Cursor<'_, '_>, budget: u64) -> Result<Then, GrammarFault>
    ensures { Reads result (value_after cursor.old (tests_at budget Joint.Or) (program_at budget)) cursor.new }
{
    if !cursor.take_sign(b"{".as_slice()) {
        let value = expression(alloc, cursor, budget)?;
        return Ok(Then::Value(value));
    }
    let clauses = clauses(alloc, cursor, budget)?;
    cursor.expect_sign(b"}".as_slice())?;
    Ok(Then::Block(Program { clauses }))
}

/// The program that all the tokens spell.
#[tactic(auto, unfolding(crate::specs::Reading::read_program))]
pub(crate) fn program(alloc: Global, cursor: &mut Cursor<'_, '_>) -> Result<Program, GrammarFault>
    ensures { ReadsWhole result (read_program cursor.old) }
{
    let budget = 12 * u64::from(cursor.len()) + 1;
    let clauses = clauses(alloc, cursor, budget)?;
    match cursor.take() {
        Some(_) => Err(GrammarFault::Syntax),
        None => Ok(Program { clauses }),
    }
}
