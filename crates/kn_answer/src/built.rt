//! The system of a query, with the names of its principals and the ids of its rows.
ghost use Rattle.std.specs.Prelude.{◌≡◌, ◌+◌, ◌^◌, ◌<◌, ◌≤◌, All, Some, length, map, slice_get, IfOk};
ghost use Rattle.kn_meaning.specs.Equations.{equations_over};
ghost use Rattle.kn_rows.specs.Numbering.{IsNumber};
ghost use Rattle.kn_rows.specs.Sizes.{HaveTexts};
ghost use Rattle.kn_answer.specs.Built.{IsBuilt};
ghost use Rattle.kn_answer.specs.Located.{IsFound, IsLocated, AreLocated};

use kn_base::{List, NoMemory};
use kn_env::Query;
use kn_names::Names;
use kn_proof::{Id, NamedRow, Proof, ReadReply, Row};
use kn_rows::{Numbered, Part, Tally, numbered_query};
use kn_system::System;
use std::alloc::Global;
use std::marker::Model;

/// The system of a query: its principals by numbers, of which `POLICY` has 0, and a row for each assertion, in their
/// order. The names of the principals and the ids of the assertions are kept beside it.
#[derive(Drop)]
pub struct Built {
    names: Names,
    system: System<Tally>,
    ids: List<Id>,
}

impl Model for Built {
    ghost use Rattle.std.specs.Prelude.{◌≡◌, length};
    ghost use Rattle.kn_answer.specs.Built.{Interned};

    ghost Value = { Interned };

    ghost view = { λ b. record { names = b.names; system = b.system; ids = b.ids } };

    ghost invariant = { λ b.
        (length b.names ≡ length b.system.requesters) × (length b.ids ≡ length b.system.rows) };
}

/// The system of a query. Its assertions are those of texts that have at most 16,777,000 bytes together.
///
/// `NoMemory` comes only when memory runs out.
pub fn build(alloc: Global, list: &List<Part<'_>>, query: &Query<'_>) -> Result<Built, NoMemory>
    requires { HaveTexts list.now }
    ensures built { IfOk result (λ built. IsBuilt (equations_over query.now list.now) built) }
    ensures ids { IfOk result (λ built. built.ids ≡ map (λ part. part.id) list.now) }
{
    kn_assert::laws::readings_are_computed();
    kn_assert::laws::readings_are_sound();
    let ids = ids_of(alloc, list)?;
    let Numbered { names, system } = numbered_query(alloc, list, query)?;
    // The contract of `levels` says that the system is well formed.
    let _levels = system.levels();
    Ok(Built { names, system, ids })
}

// The ids of assertions, in their order.
fn ids_of(alloc: Global, list: &List<Part<'_>>) -> Result<List<Id>, NoMemory>
    ensures { IfOk result (λ ids. ids ≡ map (λ part. part.id) list.now) }
{
    let mut ids = List::new(alloc);
    for part in list.as_slice() {
        ids.add(part.id)?;
    }
    Ok(ids)
}

impl Built {
    /// The system.
    pub fn system(&self) -> &System<Tally>
        ensures { result.now ≡ self.now.system }
    {
        &self.system
    }

    /// The name of a principal, in normal form.
    pub fn name(&self, principal: u32) -> &[u8]
        requires in_range { principal < length self.now.system.requesters }
        ensures name { IsNumber self.now.names result.now principal }
    {
        self.names.get(principal)
    }

    /// The id of the assertion of which a row is.
    pub fn id(&self, row: u32) -> Id
        requires in_range { row < length self.now.system.rows }
        ensures id { IsNumber self.now.ids result row }
    {
        self.ids.as_slice()[row as usize]
    }

    // A row by its numbers.
    fn numbered_row(&self, named: &NamedRow) -> Row
        ensures { IsLocated self.now named.now result }
    {
        Row {
            principal: self.find_name(named.principal.as_slice()),
            value: named.value,
            by: self.find_id(named.id),
        }
    }

    // The number of a principal, and the greatest u32 where it has none.
    fn find_name(&self, name: &[u8]) -> u32
        ensures { IsFound self.now.names name.now result }
    {
        match self.names.find(name) {
            Some(number) => number,
            None => u32::MAX,
        }
    }

    // The number of the first row with this id, and the greatest u32 where there is none.
    fn find_id(&self, id: Id) -> u32
        ensures { IsFound self.now.ids id result }
    {
        let ids = self.ids.as_slice();
        for row in 0..self.ids.len() {
            if ids[row as usize] == id {
                return row;
            }
        }
        u32::MAX
    }
}

/// The rows that a reply tells by names, by their numbers in a system, in the same order and with the same levels. A
/// name or an id that isn't in the system becomes the greatest u32, which is the number of none.
///
/// `NoMemory` comes only when memory runs out.
pub fn locate(alloc: Global, built: &Built, reply: &ReadReply) -> Result<Proof, NoMemory>
    ensures located { IfOk result (λ proof. AreLocated built.now reply.now.rows proof.rows) }
{
    let mut rows = List::new(alloc);
    for row in reply.rows.as_slice() {
        rows.add(built.numbered_row(row))?;
    }
    Ok(Proof { rows })
}
