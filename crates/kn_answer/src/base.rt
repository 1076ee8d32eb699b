//! A base: assertions as a system over numbered principals, which is of no query and answers each.
ghost use Rattle.std.specs.Prelude.{◌≡◌, ℕ, ◌+◌, ◌-◌, ◌*◌, ◌^◌, ◌<◌, ◌≤◌, false, true, [], ◌∷◌, ◌++◌, List as ListOf};
ghost use Rattle.std.specs.Prelude.{All, length, map, replicate, slice_set, take, None, IfOk, IfSome, OnOk};
ghost use Rattle.kn_env.specs.Environment.{Asked};
ghost use Rattle.kn_meaning.specs.Critical.{equation_nodes};
ghost use Rattle.kn_meaning.specs.Equations.{IsPolicyLevel, Part as AssertionById, equations_over};
ghost use Rattle.kn_meaning.specs.Proofs.{IsProof};
ghost use Rattle.kn_system.specs.Equations.{IsRowOver, SystemEquations, node_total};
ghost use Rattle.kn_rows.specs.BaseRows.{IsBaseOf};
ghost use Rattle.kn_rows.specs.Numbering.{with_names};
ghost use Rattle.kn_rows.specs.Sizes.{HaveTexts, IsReadablePart, size_of, total_size};
ghost use Rattle.kn_answer.specs.Based.{GoesOn, condition_values};
ghost use Rattle.kn_answer.specs.Located.{AreLocated, AreOfSystem, IsLocated, IsOfSystem};
ghost use Rattle.kn_answer.specs.Removed.{live_parts};
ghost use Rattle.kn_base.specs.declared.limits.TheConstants.{REQUESTERS};

use crate::assertions::Assertions;
use crate::conditions::{ConditionValues, Conditions, Evaluated};
use crate::ids::{Ids, IdsOf};
use crate::types::Answer;
use crate::with_others::WithOthers;
use kn_base::limits::MOST_COMPLIANCE_VALUES;
use kn_base::{List, NoMemory, Octets, Steps};
use kn_env::Query;
use kn_proof::{NamedRow, Proof, Row};
use kn_rows::{Numbered, Part, Tally};
use kn_settle::{Scratch, settle_on_demand};
use kn_system::laws;
use std::alloc::Global;
use std::marker::Model;

/// The principals of assertions by numbers, and a row for each assertion, in the order in which they were added. The
/// assertions themselves stay with the caller, who lends them to each answer. A base is of no query: the requesters,
/// and what conditions are worth, come with each query.
#[derive(Drop)]
pub struct Base {
    pub(crate) numbered: Numbered,
    // For each row whether its assertion is still there.
    pub(crate) live: List<bool>,
    pub(crate) scratch: Scratch,
}

impl Model for Base {
    ghost use Rattle.std.specs.Prelude.{◌≡◌, length};
    ghost use Rattle.kn_answer.specs.Based.{BaseView};

    ghost Value = { BaseView };

    ghost view = { λ b. record { names = b.numbered.names; system = b.numbered.system; live = b.live } };

    ghost invariant = { λ b.
        (length b.numbered.names ≡ length b.numbered.system.requesters)
        × (length b.live ≡ length b.numbered.system.rows) };
}

impl Base {
    /// A base of no assertions.
    pub fn new(alloc: Global) -> Result<Base, NoMemory>
        ensures base { IfOk result (λ base. IsBaseOf [] base.names base.system) }
        ensures names { IfOk result (λ base. length base.names ≡ 1) }
        ensures nodes { IfOk result (λ base. node_total base.system.rows ≡ 0) }
        ensures live { IfOk result (λ base. base.live ≡ []) }
    {
        Ok(Base {
            numbered: Numbered::of_policy(alloc, MOST_COMPLIANCE_VALUES as u8)?,
            live: List::new(alloc),
            scratch: Scratch::new(alloc),
        })
    }

    /// The base of these assertions, in their order, or None where their formulas have more nodes together than
    /// `most_nodes`. They are those of texts that have at most 16,777,000 bytes together.
    ///
    /// `NoMemory` comes only when memory runs out.
    pub fn of(
        alloc: Global,
        list: &List<Part<'_>>,
        most_nodes: u32,
    ) -> Result<Option<Base>, NoMemory>
        requires { HaveTexts list.now }
        ensures base { IfOk result (λ found. IfSome found (λ base. IsBaseOf list.now base.names base.system)) }
        ensures few_names { IfOk result (λ found. IfSome found (λ base.
            length base.names ≤ 1 + total_size list.now)) }
        ensures few_nodes { IfOk result (λ found. IfSome found (λ base.
            node_total base.system.rows ≤ total_size list.now)) }
        ensures live { IfOk result (λ found. IfSome found (λ base. live_parts list.now base.live ≡ list.now)) }
        ensures all { IfOk result (λ found. IfSome found (λ base.
            base.live ≡ replicate (length list.now) true)) }
        ensures names { IfOk result (λ found. IfSome found (λ base. length base.names + REQUESTERS ≤ 2 ^ 24)) }
        ensures room { IfOk result (λ found. IfSome found (λ base.
            (requesters : ListOf (ListOf ℕ)) → length requesters ≤ REQUESTERS
            → length (with_names base.names requesters) ≤ 2 ^ 24)) }
        ensures small { IfOk result (λ found. IfSome found (λ base. node_total base.system.rows ≤ most_nodes)) }
        ensures none { IfOk result (λ found. found ≡ None → (asked : Asked)
            → most_nodes < equation_nodes (equations_over asked list.now)) }
    {
        kn_assert::laws::readings_are_computed();
        kn_assert::laws::readings_are_sound();
        let mut base = Base::new(alloc)?;
        for part in list.as_slice() {
            let longer = base.extend(alloc, part)?;
            if longer.nodes() > most_nodes {
                return Ok(None);
            }
            base = longer;
        }
        Ok(Some(base))
    }

    /// The base with these assertions, behind the others and in their order.
    ///
    /// `NoMemory` comes only when memory runs out, and the base is gone then.
    pub fn extend_all(self, alloc: Global, list: &List<Part<'_>>) -> Result<Base, NoMemory>
        requires readable { All IsReadablePart list.now }
        requires names_fit { length self.names + total_size list.now ≤ 2 ^ 24 }
        requires nodes_fit { node_total self.system.rows + total_size list.now ≤ 2 ^ 24 }
        ensures base { IfOk result (λ base. (parts : ListOf AssertionById) → IsBaseOf parts self.names self.system
            → IsBaseOf (parts ++ list.now) base.names base.system) }
        ensures names { IfOk result (λ base. length base.names ≤ length self.names + total_size list.now) }
        ensures nodes { IfOk result (λ base. node_total base.system.rows
            ≤ node_total self.system.rows + total_size list.now) }
        ensures live { IfOk result (λ base. base.live ≡ self.live ++ replicate (length list.now) true) }
        ensures goes_on { IfOk result (GoesOn self) }
    {
        let mut base = self;
        for part in list.as_slice() {
            base = base.extend(alloc, part)?;
        }
        Ok(base)
    }

    /// The base with one more assertion, behind the others. Its text has more bytes than its formula has nodes, so a
    /// caller who counts bytes knows that it has room.
    ///
    /// `NoMemory` comes only when memory runs out, and the base is gone then.
    pub fn extend(self, alloc: Global, part: &Part<'_>) -> Result<Base, NoMemory>
        requires readable { IsReadablePart part.now }
        requires names_fit { length self.names + size_of part.now ≤ 2 ^ 24 }
        requires nodes_fit { node_total self.system.rows + size_of part.now ≤ 2 ^ 24 }
        ensures base { IfOk result (λ base. (parts : ListOf AssertionById) → IsBaseOf parts self.names self.system
            → IsBaseOf (parts ++ part.now ∷ []) base.names base.system) }
        ensures names { IfOk result (λ base. length base.names ≤ length self.names + size_of part.now) }
        ensures nodes { IfOk result (λ base. node_total base.system.rows
            ≤ node_total self.system.rows + size_of part.now) }
        ensures live { IfOk result (λ base. base.live ≡ self.live ++ true ∷ []) }
        ensures goes_on { IfOk result (GoesOn self) }
    {
        let Base {
            mut numbered,
            mut live,
            scratch,
        } = self;
        // The contract of `levels` says that the system is well formed, so the ceiling 0 is below its levels.
        let _levels = numbered.system.levels();
        numbered.add_row(alloc, part.assertion, 0)?;
        live.add(true)?;
        Ok(Base {
            numbered,
            live,
            scratch,
        })
    }

    /// Takes the assertion of a row out of all answers from here on. Its row stays.
    pub fn remove(&mut self, row: u32)
        requires { row < length self.old.live }
        ensures { self.new ≡ record self.old { live = slice_set self.old.live row false } }
    {
        let _was = self.live.replace(row, false);
    }

    /// Puts the assertion of a row back into the answers.
    pub fn restore(&mut self, row: u32)
        requires { row < length self.old.live }
        ensures { self.new ≡ record self.old { live = slice_set self.old.live row true } }
    {
        let _was = self.live.replace(row, true);
    }

    /// The number of principals.
    pub fn principals(&self) -> u32
        ensures { result ≡ length self.now.names }
    {
        self.numbered.system.principals()
    }

    /// The number of nodes of the assertions' formulas together.
    pub fn nodes(&self) -> u32
        ensures { result ≡ node_total self.now.system.rows }
    {
        self.numbered.system.nodes()
    }

    /// The number of rows, with those whose assertions were removed.
    pub fn rows(&self) -> u32
        ensures { result ≡ length self.now.live }
    {
        self.live.len()
    }

    /// The compliance value of a query (RFC 2704, section 5) over the assertions that are still there, with a proof of
    /// it by names (keynoted's own). The assertions are those that were added, in their order.
    ///
    /// `NoMemory` comes only when memory runs out. After it, as after an answer, the base is of the same assertions,
    /// and requesters who weren't known may have got numbers. So there is room for the same query again.
    pub fn answer<A: Assertions>(
        &mut self,
        alloc: Global,
        query: &Query<'_>,
        assertions: &A,
    ) -> Result<Answer, NoMemory>
        requires base { IsBaseOf (A.parts assertions.now) self.old.names self.old.system }
        requires room { length (with_names self.old.names query.now.requesters) ≤ 2 ^ 24 }
        ensures proof { IfOk result (λ a.
            IsProof (equations_over query.now (live_parts (A.parts assertions.now) self.old.live)) a.rows a.value) }
        ensures least { IfOk result (λ a.
            IsPolicyLevel (equations_over query.now (live_parts (A.parts assertions.now) self.old.live)) a.value) }
        ensures below { IfOk result (λ a. a.value < length query.now.values) }
        ensures base { IsBaseOf (A.parts assertions.now) self.new.names self.new.system }
        ensures entered { OnOk result (self.new.names ≡ with_names self.old.names query.now.requesters) }
        ensures again { with_names self.new.names query.now.requesters
            ≡ with_names self.old.names query.now.requesters }
        ensures names { length self.new.names ≤ length self.old.names + length query.now.requesters }
        ensures rows { self.new.system.rows ≡ self.old.system.rows }
        ensures live { self.new.live ≡ self.old.live }
    {
        let values = Evaluated::of(alloc, query, assertions);
        self.answer_by(alloc, query, assertions, &values)
    }

    /// The answer to a query as of `answer`, where the caller gives the values of conditions. The value of a row is
    /// asked for once at most, and only where its assertion is still there and its licensees have a level above the
    /// lowest.
    ///
    /// `NoMemory` comes only when memory runs out, and leaves the base as after `answer`.
    pub fn answer_by<A: Assertions, V: ConditionValues>(
        &mut self,
        alloc: Global,
        query: &Query<'_>,
        assertions: &A,
        values: &V,
    ) -> Result<Answer, NoMemory>
        requires base { IsBaseOf (A.parts assertions.now) self.old.names self.old.system }
        requires room { length (with_names self.old.names query.now.requesters) ≤ 2 ^ 24 }
        requires each { V.each values.now ≡ condition_values query.now (A.parts assertions.now) }
        ensures proof { IfOk result (λ a.
            IsProof (equations_over query.now (live_parts (A.parts assertions.now) self.old.live)) a.rows a.value) }
        ensures least { IfOk result (λ a.
            IsPolicyLevel (equations_over query.now (live_parts (A.parts assertions.now) self.old.live)) a.value) }
        ensures below { IfOk result (λ a. a.value < length query.now.values) }
        ensures base { IsBaseOf (A.parts assertions.now) self.new.names self.new.system }
        ensures entered { OnOk result (self.new.names ≡ with_names self.old.names query.now.requesters) }
        ensures again { with_names self.new.names query.now.requesters
            ≡ with_names self.old.names query.now.requesters }
        ensures names { length self.new.names ≤ length self.old.names + length query.now.requesters }
        ensures rows { self.new.system.rows ≡ self.old.system.rows }
        ensures live { self.new.live ≡ self.old.live }
    {
        self.answer_of(alloc, query, &IdsOf { assertions }, values)
    }

    /// The answer to a query as of `answer_by`, which needs no more of the assertions than their ids.
    pub(crate) fn answer_of<I: Ids, V: ConditionValues>(
        &mut self,
        alloc: Global,
        query: &Query<'_>,
        ids: &I,
        values: &V,
    ) -> Result<Answer, NoMemory>
        requires base { IsBaseOf (I.parts ids.now) self.old.names self.old.system }
        requires room { length (with_names self.old.names query.now.requesters) ≤ 2 ^ 24 }
        requires each { V.each values.now ≡ condition_values query.now (I.parts ids.now) }
        ensures proof { IfOk result (λ a.
            IsProof (equations_over query.now (live_parts (I.parts ids.now) self.old.live)) a.rows a.value) }
        ensures least { IfOk result (λ a.
            IsPolicyLevel (equations_over query.now (live_parts (I.parts ids.now) self.old.live)) a.value) }
        ensures below { IfOk result (λ a. a.value < length query.now.values) }
        ensures base { IsBaseOf (I.parts ids.now) self.new.names self.new.system }
        ensures entered { OnOk result (self.new.names ≡ with_names self.old.names query.now.requesters) }
        ensures again { with_names self.new.names query.now.requesters
            ≡ with_names self.old.names query.now.requesters }
        ensures names { length self.new.names ≤ length self.old.names + length query.now.requesters }
        ensures rows { self.new.system.rows ≡ self.old.system.rows }
        ensures live { self.new.live ≡ self.old.live }
    {
        let requesters = self.numbered.numbers(alloc, query.requesters())?;
        let system = &self.numbered.system;
        // The contract of `levels` says that the system is well formed.
        let _levels = system.levels();
        let levels = query.values().len();
        self.scratch
            .fit(alloc, system.principals(), system.nodes(), levels)?;
        let conditions = Conditions {
            values,
            live: &self.live,
        };
        let settled = settle_on_demand(
            alloc,
            system,
            levels,
            requesters.as_slice(),
            &conditions,
            &mut self.scratch,
            &mut Steps::start(Tally),
        )?;
        laws::least_levels_are_least();
        Ok(Answer {
            value: settled.value,
            rows: self.named_rows(alloc, ids, &settled.proof)?,
        })
    }

    /// The answer to a query as of `answer`, where these assertions stand behind those of the base: the compliance
    /// value over all of them, with a proof of it. They are taken out again, and the principals with them who weren't
    /// known.
    ///
    /// `NoMemory` comes only when memory runs out, and the base is gone then.
    pub fn answer_with<A: Assertions>(
        self,
        alloc: Global,
        query: &Query<'_>,
        assertions: &A,
        others: &List<Part<'_>>,
    ) -> Result<(Answer, Base), NoMemory>
        requires base { IsBaseOf (A.parts assertions.now) self.names self.system }
        requires readable { All IsReadablePart others.now }
        requires room { length self.names + total_size others.now + length query.now.requesters ≤ 2 ^ 24 }
        requires nodes_fit { node_total self.system.rows + total_size others.now ≤ 2 ^ 24 }
        ensures proof { IfOk result (λ r. IsProof (equations_over query.now
            (live_parts (A.parts assertions.now) self.live ++ others.now)) r.0.rows r.0.value) }
        ensures least { IfOk result (λ r. IsPolicyLevel (equations_over query.now
            (live_parts (A.parts assertions.now) self.live ++ others.now)) r.0.value) }
        ensures below { IfOk result (λ r. r.0.value < length query.now.values) }
        ensures names { IfOk result (λ r. r.1.names ≡ self.names) }
        ensures rows { IfOk result (λ r. r.1.system.rows ≡ self.system.rows) }
        ensures live { IfOk result (λ r. r.1.live ≡ self.live) }
    {
        let principals = self.principals();
        let rows = self.rows();
        // The contract of `levels` says that the system is well formed, so it has a principal.
        let _levels = self.numbered.system.levels();
        let mut base = self.extend_all(alloc, others)?;
        let all = WithOthers::of(assertions, rows, others);
        let answer = base.answer(alloc, query, &all)?;
        base.shorten(principals, rows);
        Ok((answer, base))
    }

    // Keeps the first of the principals and of the rows alone. These rows are of these principals.
    fn shorten(&mut self, principals: u32, rows: u32)
        requires some { 0 < principals }
        requires principals { principals ≤ length self.old.names }
        requires rows { rows ≤ length self.old.live }
        requires over_them { All (IsRowOver principals) (take rows self.old.system.rows) }
        ensures names { self.new.names ≡ take principals self.old.names }
        ensures rows { self.new.system.rows ≡ take rows self.old.system.rows }
        ensures live { self.new.live ≡ take rows self.old.live }
    {
        self.numbered.system.shorten_rows(rows);
        self.numbered.system.shorten_principals(principals);
        self.numbered.names.shorten(principals);
        shorten_flags(&mut self.live, rows);
    }

    // The rows of a proof by names, in their order.
    fn named_rows<I: Ids>(
        &self,
        alloc: Global,
        ids: &I,
        proof: &Proof,
    ) -> Result<List<NamedRow>, NoMemory>
        requires numbers { AreOfSystem self.now.system proof.now.rows }
        requires one_each { length (I.parts ids.now) ≡ length self.now.system.rows }
        ensures { IfOk result (λ rows. (s : SystemEquations) → AreLocated (record {
          names = self.now.names;
          system = s;
          ids = map (λ part. part.id) (I.parts ids.now);
        }) rows proof.now.rows) }
    {
        let mut rows = List::new(alloc);
        for row in proof.rows.as_slice() {
            let named = self.name_row(alloc, ids, row)?;
            rows.add(named)?;
        }
        Ok(rows)
    }

    // A row by its names.
    fn name_row<I: Ids>(&self, alloc: Global, ids: &I, row: &Row) -> Result<NamedRow, NoMemory>
        requires numbers { IsOfSystem self.now.system row.now }
        requires one_each { length (I.parts ids.now) ≡ length self.now.system.rows }
        ensures { IfOk result (λ named. (s : SystemEquations) → IsLocated (record {
          names = self.now.names;
          system = s;
          ids = map (λ part. part.id) (I.parts ids.now);
        }) named row.now) }
    {
        Ok(NamedRow {
            value: row.value,
            id: ids.id(row.by),
            principal: Octets::from_slice(alloc, self.numbered.names.get(row.principal))?,
        })
    }
}

// Keeps the first of the flags alone.
fn shorten_flags(flags: &mut List<bool>, len: u32)
    requires { len ≤ length flags.old }
    ensures { flags.new ≡ take len flags.old }
{
    for _place in len..flags.len() {
        let _last = flags.pop();
    }
}
