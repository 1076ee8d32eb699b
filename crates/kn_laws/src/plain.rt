//! A plain and slow program that follows a proof. It is only there to be compared with.

ghost use Rattle.std.specs.Prelude.{◌≡◌, ◌++◌, ◌∷◌, [], map, IfOk};
ghost use Rattle.std.specs.Bool.{Decides};
ghost use Rattle.std.specs.List.{list_any};
ghost use Rattle.kn_meaning.specs.Proofs.{IsProof};
ghost use Rattle.kn_meaning.specs.Tables.{level_in, statement_in, equations_from, entry_of, entries_of};
ghost use Rattle.kn_meaning.specs.Critical as C;
ghost use Rattle.kn_laws.specs.Tested as T;

use kn_base::{List, NoMemory, Octets};
use kn_meaning::plain::{Level, Stated, level_of, worth};
use kn_principal::POLICY;
use kn_proof::{Id, NamedRow};
use std::alloc::Global;

/// Adds an entry to a table.
fn push_level(
    alloc: Global,
    table: List<Level>,
    name: &[u8],
    level: u8,
) -> Result<List<Level>, NoMemory>
    ensures { IfOk result (λ new. new ≡ table ++ entry_of name.now level ∷ []) }
{
    let mut table = table;
    let name = Octets::from_slice(alloc, name)?;
    match table.push(Level { name, level }) {
        Ok(()) => Ok(table),
        Err(_) => Err(NoMemory),
    }
}

/// The requesters at the top.
/// There is an entry for each, in their order.
pub fn requester_levels(
    alloc: Global,
    top: u8,
    requesters: &[Octets],
) -> Result<List<Level>, NoMemory>
    ensures { IfOk result (λ table. table ≡ entries_of top requesters.now) }
{
    let mut table = List::new(alloc);
    for requester in requesters {
        table = push_level(alloc, table, requester.as_slice(), top)?;
    }
    Ok(table)
}

/// Whether a table has an entry for a name.
pub fn has_entry(table: &[Level], name: &[u8]) -> bool
    ensures { result ≡ T.has_entry table.now name.now }
{
    for entry in table {
        if entry.name.as_slice() == name {
            return true;
        }
    }
    false
}

fn is_same_id(left: Id, right: Id) -> bool
    ensures { result ≡ C.is_same_id left right }
{
    match (left, right) {
        (Id::Shared(left), Id::Shared(right)) => left == right,
        (Id::Private(left), Id::Private(right)) => left == right,
        (Id::Shared(_), Id::Private(_)) => false,
        (Id::Private(_), Id::Shared(_)) => false,
    }
}

/// Whether an assertion has a row's id and principal, and is worth the row's level under these levels.
pub fn supports(
    alloc: Global,
    top: u8,
    table: &[Level],
    row: &NamedRow,
    stated: &Stated,
) -> Result<bool, NoMemory>
    ensures { IfOk result (λ found. found ≡ T.supports top (level_in table.now) row.now (statement_in stated.now)) }
{
    if !is_same_id(stated.id, row.id) || stated.authorizer.as_slice() != row.principal.as_slice() {
        return Ok(false);
    }
    Ok(row.value <= worth(alloc, top, table, stated)?)
}

/// Whether one of these assertions supports a row.
pub fn is_supported(
    alloc: Global,
    top: u8,
    table: &[Level],
    row: &NamedRow,
    statements: &[Stated],
) -> Result<bool, NoMemory>
    ensures { IfOk result (λ found. found
        ≡ list_any (T.supports top (level_in table.now) row.now) (map statement_in statements.now)) }
{
    for stated in statements {
        if supports(alloc, top, table, row, stated)? {
            return Ok(true);
        }
    }
    Ok(false)
}

/// Whether a row may follow those of a table, of which the requesters stand in front.
/// It may where its principal has no level yet, its level is from 1 to `top`, and an assertion supports it.
pub fn may_follow(
    alloc: Global,
    top: u8,
    table: &[Level],
    row: &NamedRow,
    statements: &[Stated],
) -> Result<bool, NoMemory>
    ensures { IfOk result (λ found. found ≡ T.may_follow top (map statement_in statements.now) table.now row.now) }
{
    if has_entry(table, row.principal.as_slice()) || row.value < 1 || row.value > top {
        return Ok(false);
    }
    is_supported(alloc, top, table, row, statements)
}

/// Whether no assertion is worth more than its authorizer has.
pub fn is_closed(
    alloc: Global,
    top: u8,
    table: &[Level],
    statements: &[Stated],
) -> Result<bool, NoMemory>
    ensures { IfOk result (λ found. found ≡ T.is_closed top (map statement_in statements.now) table.now) }
{
    for stated in statements {
        if worth(alloc, top, table, stated)? > level_of(table, stated.authorizer.as_slice()) {
            return Ok(false);
        }
    }
    Ok(true)
}

/// Whether a table of all rows is closed, and gives the policy this level.
fn ends(
    alloc: Global,
    top: u8,
    table: &[Level],
    statements: &[Stated],
    level: u8,
) -> Result<bool, NoMemory>
    ensures { IfOk result (λ found. found ≡ T.ends_proof top (map statement_in statements.now) table.now [] level) }
{
    if !is_closed(alloc, top, table, statements)? {
        return Ok(false);
    }
    Ok(level_of(table, POLICY) == level)
}

/// Whether each row may follow those before it, and all of them end a proof.
fn follows(
    alloc: Global,
    top: u8,
    requesters: &[Octets],
    statements: &[Stated],
    rows: &[NamedRow],
    level: u8,
) -> Result<bool, NoMemory>
    ensures { IfOk result (λ found. found
        ≡ T.ends_proof top (map statement_in statements.now) (entries_of top requesters.now) rows.now level) }
{
    let mut table = requester_levels(alloc, top, requesters)?;
    for row in rows {
        if !may_follow(alloc, top, table.as_slice(), row, statements)? {
            return Ok(false);
        }
        table = push_level(alloc, table, row.principal.as_slice(), row.value)?;
    }
    let found = ends(alloc, top, table.as_slice(), statements, level)?;
    Ok(found)
}

/// Whether the rows prove that the policy has this level, where these assertions are stated and these
/// principals request.
/// Takes the rows one by one, and at the end looks whether the table is closed.
pub fn is_proof(
    alloc: Global,
    top: u8,
    requesters: &[Octets],
    statements: &[Stated],
    rows: &[NamedRow],
    level: u8,
) -> Result<bool, NoMemory>
    ensures { IfOk result (λ found. Decides found
        (IsProof (equations_from top requesters.now statements.now) rows.now level)) }
{
    let found = follows(alloc, top, requesters, statements, rows, level)?;
    Ok(found)
}
