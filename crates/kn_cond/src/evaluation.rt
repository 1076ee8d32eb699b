//! The value of an expression.
ghost use Rattle.std.specs.Prelude.{◌≡◌, true, map, ◌++◌, IfOk, IfErr};
ghost use Rattle.std.specs.List.{list_any};
ghost use Rattle.kn_cond.specs.Meaning.{Meaning, whole, text, text_in_range, negation, minus, number_of, value_named};
ghost use Rattle.kn_cond.specs.Meaning.{value_by, comparison, holds_of_texts};
ghost use Rattle.kn_cond.specs.Meaning.{operation, operation_of_texts, chain_of, links_of, meaning_of};
ghost use Rattle.kn_cond.specs.Results.{meaning_of_outcome, or_fault};
ghost use Rattle.kn_cond.specs.Joining.{is_join, joins, link_joins};

use crate::numbers;
use crate::outcome::Outcome;
use crate::texts::{Text, is_before};
use kn_base::NoMemory;
use kn_base::limits::TEXT_BYTES;
use kn_env::{Env, is_attribute_name};
use kn_trees::{Comparison, ExprRef, Form, Links, Operands, Operation};
use std::alloc::Global;

/// What an expression gives in an environment. `Err`: out of memory for a joined text.
#[cycle(outcomes)]
#[tactic(auto, using(crate::proofs::Meanings::meanings, crate::proofs::JoinLaws::joined, crate::proofs::ExprDepths::depths))]
pub(crate) fn outcome<'e>(
    alloc: Global,
    expr: ExprRef<'e>,
    env: &'e Env<'e>,
) -> Result<Outcome<'e>, NoMemory>
    ensures value { IfOk result (λ outcome. meaning_of_outcome outcome ≡ meaning_of env.now expr.entry) }
    ensures memory { IfErr result (λ none. joins expr.entry ≡ true) }
{
    match expr.form() {
        Form::Truth(value) => Ok(Outcome::Truth(value)),
        Form::Whole(value) => Ok(Outcome::Whole(value)),
        Form::Text(value) => Ok(Outcome::Text(Text::lent(value))),
        Form::Name(name) => Ok(in_range(env.value(name))),
        Form::Not(part) => Ok(negation(outcome(alloc, part, env)?)),
        Form::Minus(part) => Ok(minus(outcome(alloc, part, env)?)),
        Form::Number(part) => Ok(number_of(outcome(alloc, part, env)?)),
        Form::Deref(part) => Ok(value_named(env, outcome(alloc, part, env)?)),
        Form::And(parts) => value_of_parts(alloc, false, parts, env),
        Form::Or(parts) => value_of_parts(alloc, true, parts, env),
        Form::Compare { sign, left, right } => {
            let first = outcome(alloc, left, env)?;
            let second = outcome(alloc, right, env)?;
            Ok(comparison(sign, first, second))
        }
        Form::Chain { first, rest } => {
            let left = outcome(alloc, first, env)?;
            chain_of(alloc, left, rest, env)
        }
    }
}

// What `&&` gives, where false is decisive, or `||`, where true is. It stops at the first part that is
// that, or a fault.
#[cycle(outcomes)]
#[tactic(auto, using(crate::proofs::ExprDepths::part_steps))]
fn value_of_parts<'e>(
    alloc: Global,
    decisive: bool,
    parts: Operands<'e>,
    env: &'e Env<'e>,
) -> Result<Outcome<'e>, NoMemory>
    ensures value { IfOk result (λ outcome. meaning_of_outcome outcome
        ≡ value_by decisive (map (meaning_of env.now) parts.entry)) }
    ensures memory { IfErr result (λ none. list_any joins parts.entry ≡ true) }
{
    for k in 0..parts.len() {
        match outcome(alloc, parts.get(k), env)? {
            Outcome::Truth(value) if value != decisive => {}
            Outcome::Truth(_) => return Ok(Outcome::Truth(decisive)),
            _ => return Ok(Outcome::Fault),
        }
    }
    Ok(Outcome::Truth(!decisive))
}

// What a chain gives whose first part gives this.
#[cycle(outcomes)]
#[tactic(auto, using(crate::proofs::ExprDepths::link_steps))]
fn chain_of<'e>(
    alloc: Global,
    first: Outcome<'e>,
    links: Links<'e>,
    env: &'e Env<'e>,
) -> Result<Outcome<'e>, NoMemory>
    ensures value { IfOk result (λ outcome. meaning_of_outcome outcome
        ≡ chain_of (meaning_of_outcome first.entry) (links_of env.now links.entry)) }
    ensures memory { IfErr result (λ none. list_any link_joins links.entry ≡ true) }
{
    let mut left = first;
    for k in 0..links.len() {
        let (sign, expr) = links.get(k);
        let right = outcome(alloc, expr, env)?;
        left = operation(alloc, sign, left, right)?;
    }
    Ok(left)
}

fn in_range<'e>(bytes: &'e [u8]) -> Outcome<'e>
    ensures { meaning_of_outcome result ≡ text_in_range bytes.now }
{
    if bytes.len() > TEXT_BYTES {
        Outcome::Fault
    } else {
        Outcome::Text(Text::lent(bytes))
    }
}

fn whole_or_fault<'e>(number: Option<i32>) -> Outcome<'e>
    ensures { meaning_of_outcome result ≡ or_fault number }
{
    match number {
        Some(n) => Outcome::Whole(n),
        None => Outcome::Fault,
    }
}

fn negation(part: Outcome) -> Outcome
    ensures { meaning_of_outcome result ≡ negation (meaning_of_outcome part.entry) }
{
    match part {
        Outcome::Truth(value) => Outcome::Truth(!value),
        _ => Outcome::Fault,
    }
}

fn minus(part: Outcome) -> Outcome
    ensures { meaning_of_outcome result ≡ minus (meaning_of_outcome part.entry) }
{
    match part {
        Outcome::Whole(number) => whole_or_fault(numbers::negative(number)),
        _ => Outcome::Fault,
    }
}

fn number_of(part: Outcome) -> Outcome
    ensures { meaning_of_outcome result ≡ number_of (meaning_of_outcome part.entry) }
{
    match part {
        Outcome::Text(text) => whole_or_fault(numbers::front_number(text.as_slice())),
        _ => Outcome::Fault,
    }
}

fn value_named<'e>(env: &'e Env<'e>, part: Outcome<'e>) -> Outcome<'e>
    ensures { meaning_of_outcome result ≡ value_named env.now (meaning_of_outcome part.entry) }
{
    match part {
        Outcome::Text(name) => {
            if is_attribute_name(name.as_slice()) {
                in_range(env.value(name.as_slice()))
            } else {
                Outcome::Text(Text::lent(b""))
            }
        }
        _ => Outcome::Fault,
    }
}

fn comparison<'e>(sign: Comparison, left: Outcome<'e>, right: Outcome<'e>) -> Outcome<'e>
    ensures { meaning_of_outcome result
        ≡ comparison sign (meaning_of_outcome left.entry) (meaning_of_outcome right.entry) }
{
    match left {
        Outcome::Whole(a) => match right {
            Outcome::Whole(b) => Outcome::Truth(numbers::holds(sign, a, b)),
            _ => Outcome::Fault,
        },
        Outcome::Text(a) => match right {
            Outcome::Text(b) => Outcome::Truth(holds(sign, a.as_slice(), b.as_slice())),
            _ => Outcome::Fault,
        },
        _ => Outcome::Fault,
    }
}

fn holds(sign: Comparison, a: &[u8], b: &[u8]) -> bool
    ensures { result ≡ holds_of_texts sign a.now b.now }
{
    match sign {
        Comparison::Eq => a == b,
        Comparison::Ne => a != b,
        Comparison::Lt => is_before(a, b),
        Comparison::Gt => is_before(b, a),
        Comparison::Le => !is_before(b, a),
        Comparison::Ge => !is_before(a, b),
    }
}

fn operation<'e>(
    alloc: Global,
    sign: Operation,
    left: Outcome<'e>,
    right: Outcome<'e>,
) -> Result<Outcome<'e>, NoMemory>
    ensures value { IfOk result (λ outcome. meaning_of_outcome outcome
        ≡ operation sign (meaning_of_outcome left.entry) (meaning_of_outcome right.entry)) }
    ensures memory { IfErr result (λ none. is_join sign ≡ true) }
{
    match left {
        Outcome::Whole(a) => match right {
            Outcome::Whole(b) => Ok(whole_or_fault(numbers::operation(sign, a, b))),
            _ => Ok(Outcome::Fault),
        },
        Outcome::Text(a) => match right {
            Outcome::Text(b) => operation_of_texts(alloc, sign, a, b),
            _ => Ok(Outcome::Fault),
        },
        _ => Ok(Outcome::Fault),
    }
}

fn operation_of_texts<'e>(
    alloc: Global,
    sign: Operation,
    left: Text<'e>,
    right: Text<'e>,
) -> Result<Outcome<'e>, NoMemory>
    ensures value { IfOk result (λ outcome. meaning_of_outcome outcome
        ≡ operation_of_texts sign left.entry right.entry) }
    ensures memory { IfErr result (λ none. is_join sign ≡ true) }
{
    match sign {
        Operation::Join => join_texts(alloc, left, right.as_slice()),
        _ => Ok(Outcome::Fault),
    }
}

fn join_texts<'e>(alloc: Global, left: Text<'e>, more: &[u8]) -> Result<Outcome<'e>, NoMemory>
    ensures { IfOk result (λ outcome. meaning_of_outcome outcome ≡ text_in_range (left.entry ++ more.now)) }
{
    let len = left.as_slice().len();
    if len > TEXT_BYTES || more.len() > TEXT_BYTES - len {
        return Ok(Outcome::Fault);
    }
    match left.join(alloc, more) {
        Ok(text) => Ok(Outcome::Text(text)),
        Err(NoMemory) => Err(NoMemory),
    }
}
