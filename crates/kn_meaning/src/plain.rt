//! Plain and slow programs that compute the definitions. They are only there to be compared with.

ghost use Rattle.std.specs.Prelude.{◌≡◌, ◌≤◌, ◌++◌, ◌∷◌, [], length, map, eqb, OnOk, IfOk};
ghost use Rattle.std.specs.List.{list_any, position_or_len};
ghost use Rattle.std.specs.Str.{bytes_eq};
ghost use Rattle.kn_base.specs.Threshold as T;
ghost use Rattle.kn_meaning.specs.Formulas as L;
ghost use Rattle.kn_meaning.specs.Equations as E;
ghost use Rattle.kn_meaning.specs.Tables.{level_in, statement_in, equations_from};
ghost use Rattle.kn_meaning.specs.Tables.{next_table, entry_of, first_table, last_table};

use kn_base::{List, NoMemory, Octets};
use kn_proof::Id;
use kn_trees::Formula;
use std::alloc::Global;

/// A principal's level, counted from 0.
#[derive(Drop)]
pub struct Level {
    pub name: Octets,
    pub level: u8,
}

/// An assertion in a query, with the compliance value of its conditions there.
#[derive(Drop)]
pub struct Stated {
    pub id: Id,
    pub authorizer: Octets,
    pub ceiling: u8,
    pub licensees: Option<Formula>,
}

/// The level that a table first gives a name, and 0 where it has none.
pub fn level_of(table: &[Level], name: &[u8]) -> u8
    ensures { result ≡ level_in table.now name.now }
{
    for entry in table {
        if entry.name.as_slice() == name {
            return entry.level;
        }
    }
    0
}

/// How many of these levels reach `level`.
pub fn reaching(level: u8, levels: &[u8]) -> usize
    ensures { result ≡ T.reaching level levels.now }
{
    let mut count = 0;
    for other in levels {
        if level <= *other {
            count += 1;
        }
    }
    count
}

/// The greatest level up to `top` that at least `need` of these reach, and 0 where there is none.
/// Tries each level downwards from `top`, and counts anew for each.
pub fn gate_level(top: u8, need: usize, levels: &[u8]) -> u8
    ensures { result ≡ T.threshold top need levels.now }
{
    let mut level = top;
    while level > 0 {
        if need <= reaching(level, levels) {
            return level;
        }
        level -= 1;
    }
    0
}

/// The level of a formula by a walk over it.
#[cycle(formula)]
#[tactic(auto, using(crate::proofs::Walks::formula_levels))]
pub fn formula_level(
    alloc: Global,
    top: u8,
    table: &[Level],
    formula: &Formula,
) -> Result<u8, NoMemory>
    ensures { IfOk result (λ level. level ≡ L.formula_level top (level_in table.now) formula.now) }
{
    match formula {
        Formula::Who(name) => Ok(level_of(table, name.as_slice())),
        Formula::All(parts) => {
            let levels = part_levels(alloc, top, table, parts.as_slice())?;
            Ok(gate_level(top, levels.len(), levels.as_slice()))
        }
        Formula::Any(parts) => {
            let levels = part_levels(alloc, top, table, parts.as_slice())?;
            Ok(gate_level(top, 1, levels.as_slice()))
        }
        Formula::Threshold { need, list } => {
            let levels = part_levels(alloc, top, table, list.as_slice())?;
            Ok(gate_level(top, *need as usize, levels.as_slice()))
        }
    }
}

/// The levels of these formulas, in their order.
#[cycle(formula)]
pub fn part_levels(
    alloc: Global,
    top: u8,
    table: &[Level],
    parts: &[Formula],
) -> Result<Octets, NoMemory>
    ensures { IfOk result (λ levels. levels ≡ map (L.formula_level top (level_in table.now)) parts.now) }
{
    let mut levels = Octets::new(alloc);
    for part in parts {
        levels.push(formula_level(alloc, top, table, part)?)?;
    }
    Ok(levels)
}

/// What an assertion is worth under these levels.
/// That is the level of its licensees, or its ceiling where that is lower; 0 where it has no licensees.
pub fn worth(alloc: Global, top: u8, table: &[Level], stated: &Stated) -> Result<u8, NoMemory>
    ensures { IfOk result (λ worth. worth ≡ E.worth top (level_in table.now) (statement_in stated.now)) }
{
    match &stated.licensees {
        None => Ok(0),
        Some(formula) => {
            let level = formula_level(alloc, top, table, formula)?;
            Ok(level.min(stated.ceiling))
        }
    }
}

/// The highest worth among the assertions of which `name` is authorizer, and 0 where there is none.
pub fn highest_worth(
    alloc: Global,
    top: u8,
    table: &[Level],
    name: &[u8],
    statements: &[Stated],
) -> Result<u8, NoMemory>
    ensures { IfOk result (λ worth. worth
        ≡ E.highest_worth top (level_in table.now) name.now (map statement_in statements.now)) }
{
    let mut best = 0;
    for stated in statements {
        if stated.authorizer.as_slice() == name {
            best = worth(alloc, top, table, stated)?.max(best);
        }
    }
    Ok(best)
}

/// Whether a name is one of these.
pub fn is_among(name: &[u8], names: &[Octets]) -> bool
    ensures { result ≡ list_any (bytes_eq name.now) names.now }
{
    for other in names {
        if name == other.as_slice() {
            return true;
        }
    }
    false
}

/// A principal's level after one more round of the equations.
/// That is `top` for a requester, and else the highest worth.
pub fn round_level(
    alloc: Global,
    top: u8,
    requesters: &[Octets],
    table: &[Level],
    name: &[u8],
    statements: &[Stated],
) -> Result<u8, NoMemory>
    ensures { IfOk result (λ level. level
        ≡ E.round (equations_from top requesters.now statements.now) (level_in table.now) name.now) }
{
    if is_among(name, requesters) {
        return Ok(top);
    }
    highest_worth(alloc, top, table, name, statements)
}

/// The levels of a table after one more round of the equations.
/// Each is computed from the levels of the round before.
pub fn next_levels(
    alloc: Global,
    top: u8,
    requesters: &[Octets],
    statements: &[Stated],
    table: &[Level],
) -> Result<List<Level>, NoMemory>
    ensures { IfOk result (λ next. next ≡ next_table (equations_from top requesters.now statements.now) table.now) }
{
    let mut next = List::new(alloc);
    for entry in table {
        let level = round_level(
            alloc,
            top,
            requesters,
            table,
            entry.name.as_slice(),
            statements,
        )?;
        let name = Octets::from_slice(alloc, entry.name.as_slice())?;
        next.add(Level { name, level })?;
    }
    Ok(next)
}

/// Adds an entry to a table.
fn push_level(
    alloc: Global,
    table: List<Level>,
    name: &[u8],
    level: u8,
) -> Result<List<Level>, NoMemory>
    ensures { IfOk result (λ new. new ≡ table ++ entry_of name.now level ∷ []) }
{
    let mut table = table;
    let name = Octets::from_slice(alloc, name)?;
    match table.push(Level { name, level }) {
        Ok(()) => Ok(table),
        Err(_) => Err(NoMemory),
    }
}

/// Requesters have the top, and authorizers 0.
/// The requesters stand in front.
pub fn first_levels(
    alloc: Global,
    top: u8,
    requesters: &[Octets],
    statements: &[Stated],
) -> Result<List<Level>, NoMemory>
    ensures { IfOk result (λ table. table ≡ first_table top requesters.now statements.now) }
{
    let mut table = List::new(alloc);
    for requester in requesters {
        table = push_level(alloc, table, requester.as_slice(), top)?;
    }
    for stated in statements {
        table = push_level(alloc, table, stated.authorizer.as_slice(), 0)?;
    }
    Ok(table)
}

/// The levels after as many rounds as there are entries times `top`.
/// Behind that many rounds no level rises any more.
pub fn least_levels(
    alloc: Global,
    top: u8,
    requesters: &[Octets],
    statements: &[Stated],
) -> Result<List<Level>, NoMemory>
    ensures { IfOk result (λ table. table ≡ last_table top requesters.now statements.now) }
{
    let mut table = first_levels(alloc, top, requesters, statements)?;
    let rounds = table.len() as u64 * top as u64;
    for _round in 0..rounds {
        table = next_levels(alloc, top, requesters, statements, table.as_slice())?;
    }
    Ok(table)
}
