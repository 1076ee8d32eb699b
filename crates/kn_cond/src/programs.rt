//! The compliance value of a program.
ghost use Rattle.std.specs.Prelude.{◌≡◌, ◌<◌, ◌≤◌, true, map, length, IfOk, IfErr};
ghost use Rattle.std.specs.Option.{option_map_or};
ghost use Rattle.kn_env.specs.Values.{index_of};
ghost use Rattle.kn_cond.specs.Meaning.{meaning_of};
ghost use Rattle.kn_cond.specs.Joining.{joins, program_joins, clause_joins, then_joins, field_joins};
ghost use Rattle.kn_cond.specs.Programs.{value_of, where_true, highest};
ghost use Rattle.kn_cond.specs.Programs.{program_value, clause_value, then_value, field_value};

use crate::evaluation::outcome;
use crate::outcome::Outcome;
use kn_base::NoMemory;
use kn_env::Env;
use kn_trees::{Clause, FlatExpr, Program, Then};
use std::alloc::Global;

/// The value of a Conditions field, by its index among the compliance values of the query. A missing field has the
/// highest. `Err`: out of memory for a joined text.
pub fn field_value<'e>(
    alloc: Global,
    conditions: &'e Option<Program>,
    env: &'e Env<'e>,
) -> Result<u8, NoMemory>
    ensures value { IfOk result (λ level. level ≡ field_value env.now conditions.now) }
    ensures within { IfOk result (λ level. 0 < length env.now.asked.values → level < length env.now.asked.values) }
    ensures memory { IfErr result (λ none. field_joins conditions.now ≡ true) }
{
    match conditions {
        Some(program) => conditions_value(alloc, program, env),
        None => Ok(env.values().highest()),
    }
}

/// The value of a conditions program, by its index among the compliance values of the query (RFC 2704, section 4, the
/// Conditions field). A fault of a test or a value is part of its meaning. `Err`: out of memory for a joined text.
#[cycle(programs)]
#[tactic(auto, using(crate::proofs::ProgramValues::values, crate::proofs::JoinLaws::joined))]
pub fn conditions_value<'e>(
    alloc: Global,
    program: &'e Program,
    env: &'e Env<'e>,
) -> Result<u8, NoMemory>
    ensures value { IfOk result (λ level. level ≡ program_value env.now program.now) }
    ensures within { IfOk result (λ level. 0 < length env.now.asked.values → level < length env.now.asked.values) }
    ensures memory { IfErr result (λ none. program_joins program.now ≡ true) }
{
    let mut highest = 0;
    for clause in program.clauses.as_slice() {
        highest = clause_value(alloc, clause, env)?.max(highest);
    }
    Ok(highest)
}

#[cycle(programs)]
#[tactic(auto, using(crate::proofs::ProgramValues::values, crate::proofs::JoinLaws::joined))]
fn clause_value<'e>(alloc: Global, clause: &'e Clause, env: &'e Env<'e>) -> Result<u8, NoMemory>
    ensures value { IfOk result (λ level. level ≡ clause_value env.now clause.now) }
    ensures within { IfOk result (λ level. 0 < length env.now.asked.values → level < length env.now.asked.values) }
    ensures memory { IfErr result (λ none. clause_joins clause.now ≡ true) }
{
    match outcome(alloc, clause.test.root(), env)? {
        Outcome::Truth(true) => then_value(alloc, &clause.then, env),
        _ => Ok(0),
    }
}

#[cycle(programs)]
#[tactic(auto, using(crate::proofs::ProgramValues::values, crate::proofs::JoinLaws::joined))]
fn then_value<'e>(alloc: Global, then: &'e Then, env: &'e Env<'e>) -> Result<u8, NoMemory>
    ensures value { IfOk result (λ level. level ≡ then_value env.now then.now) }
    ensures within { IfOk result (λ level. 0 < length env.now.asked.values → level < length env.now.asked.values) }
    ensures memory { IfErr result (λ none. then_joins then.now ≡ true) }
{
    match then {
        Then::Top => Ok(env.values().highest()),
        Then::Value(name) => named_value(alloc, name, env),
        Then::Block(program) => conditions_value(alloc, program, env),
    }
}

// The value that a text names; the lowest where it names none.
fn named_value<'e>(alloc: Global, name: &'e FlatExpr, env: &'e Env<'e>) -> Result<u8, NoMemory>
    ensures value { IfOk result (λ level. level ≡ value_of env.now (meaning_of env.now name.now)) }
    ensures within { IfOk result (λ level. 0 < length env.now.asked.values → level < length env.now.asked.values) }
    ensures memory { IfErr result (λ none. joins name.now ≡ true) }
{
    match outcome(alloc, name.root(), env)? {
        Outcome::Text(text) => Ok(value_or_lowest(env, text.as_slice())),
        _ => Ok(0),
    }
}

fn value_or_lowest(env: &Env<'_>, name: &[u8]) -> u8
    ensures value { result ≡ option_map_or (λ index. index) (index_of name.now env.now.asked.values) 0 }
    ensures within { 0 < length env.now.asked.values → result < length env.now.asked.values }
{
    match env.values().index_of(name) {
        Some(index) => index,
        None => 0,
    }
}
