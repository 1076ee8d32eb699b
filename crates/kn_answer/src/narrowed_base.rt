//! A base for one query alone. It has no more principals than may have a level above the lowest in this query, so it
//! takes little memory where the assertions name many others.
ghost use Rattle.std.specs.Prelude.{◌≡◌, ◌+◌, ◌^◌, ◌<◌, ◌≤◌, true, ◌++◌, List as ListOf, All, length, map, replicate};
ghost use Rattle.std.specs.Prelude.{IfOk, OnOk};
ghost use Rattle.kn_meaning.specs.Equations.{IsPolicyLevel, Part as AssertionById, equations_over};
ghost use Rattle.kn_meaning.specs.Proofs.{IsProof};
ghost use Rattle.kn_system.specs.Equations.{node_total};
ghost use Rattle.kn_rows.specs.BaseRows.{IsBaseOf};
ghost use Rattle.kn_rows.specs.Numbering.{HaveNumbers, with_names};
ghost use Rattle.kn_rows.specs.Sizes.{HaveTexts, IsReadablePart, total_size};
ghost use Rattle.kn_answer.specs.Narrowed.{narrow_parts, narrowed_part};

use crate::base::Base;
use crate::conditions::Evaluated;
use crate::ids::NarrowedIds;
use crate::types::Answer;
use kn_base::limits::MOST_COMPLIANCE_VALUES;
use kn_base::{List, NoMemory};
use kn_env::Query;
use kn_rows::{Numbered, Part};
use kn_settle::Scratch;
use std::alloc::Global;

impl Base {
    /// The base of these assertions, in their order, narrow_parts to those who may have a level in this query. They are
    /// those of texts that have at most 16,777,000 bytes together.
    ///
    /// `NoMemory` comes only when memory runs out.
    pub(crate) fn of_leveled(
        alloc: Global,
        list: &List<Part<'_>>,
        query: &Query<'_>,
    ) -> Result<Base, NoMemory>
        requires { HaveTexts list.now }
        ensures base { IfOk result (λ base. IsBaseOf (narrow_parts query.now list.now) base.names base.system) }
        ensures live { IfOk result (λ base. base.live ≡ replicate (length list.now) true) }
        ensures room { IfOk result (λ base. length (with_names base.names query.now.requesters) ≤ 2 ^ 24) }
    {
        kn_assert::laws::readings_are_computed();
        kn_assert::laws::readings_are_sound();
        let mut numbered = Numbered::of_policy(alloc, MOST_COMPLIANCE_VALUES as u8)?;
        // Who has a level gets a number before any row is added. A row leaves out whoever has none.
        number_authorizers(&mut numbered, list)?;
        numbered.numbers(alloc, query.requesters())?;
        // The contract of `levels` says that the system is well formed, so the ceiling 0 is below its levels.
        let _levels = numbered.system.levels();
        let mut live = List::new(alloc);
        add_narrowed_rows(alloc, &mut numbered, &mut live, list)?;
        Ok(Base {
            numbered,
            live,
            scratch: Scratch::new(alloc),
        })
    }

    /// The compliance value of the query of this base (RFC 2704, section 5), with a proof of it by names (keynoted's
    /// own). The assertions are those that the base is of, and conditions are evaluated where licensees reach them.
    ///
    /// `NoMemory` comes only when memory runs out.
    pub(crate) fn answer_narrowed(
        &mut self,
        alloc: Global,
        query: &Query<'_>,
        list: &List<Part<'_>>,
    ) -> Result<Answer, NoMemory>
        requires base { IsBaseOf (narrow_parts query.now list.now) self.old.names self.old.system }
        requires live { self.old.live ≡ replicate (length list.now) true }
        requires room { length (with_names self.old.names query.now.requesters) ≤ 2 ^ 24 }
        ensures proof { IfOk result (λ a. IsProof (equations_over query.now list.now) a.rows a.value) }
        ensures least { IfOk result (λ a. IsPolicyLevel (equations_over query.now list.now) a.value) }
        ensures below { IfOk result (λ a. a.value < length query.now.values) }
    {
        let values = Evaluated::of(alloc, query, list);
        let ids = NarrowedIds {
            query,
            assertions: list,
        };
        self.answer_of(alloc, query, &ids, &values)
    }
}

// Each authorizer gets a number who has none yet.
fn number_authorizers(numbered: &mut Numbered, list: &List<Part<'_>>) -> Result<(), NoMemory>
    requires few { length numbered.old.names + length list.now ≤ 2 ^ 24 }
    requires one_each { length numbered.old.names ≡ length numbered.old.system.requesters }
    ensures entered { OnOk result (numbered.new.names
        ≡ with_names numbered.old.names (map (λ part. part.assertion.authorizer) list.now)) }
    ensures base { OnOk result ((parts : ListOf AssertionById)
        → IsBaseOf parts numbered.old.names numbered.old.system
        → IsBaseOf parts numbered.new.names numbered.new.system) }
    ensures one_each { OnOk result (length numbered.new.names ≡ length numbered.new.system.requesters) }
    ensures rows { OnOk result (numbered.new.system.rows ≡ numbered.old.system.rows) }
    ensures levels { OnOk result (numbered.new.system.levels ≡ numbered.old.system.levels) }
    ensures names { OnOk result (length numbered.new.names ≤ length numbered.old.names + length list.now) }
{
    for part in list.as_slice() {
        let assertion = part.assertion;
        numbered.number(assertion.authorizer.as_slice())?;
    }
    Ok(())
}

// Adds the row of each assertion, narrow_parts to those who have numbers, and with each row its flag.
fn add_narrowed_rows(
    alloc: Global,
    numbered: &mut Numbered,
    live: &mut List<bool>,
    list: &List<Part<'_>>,
) -> Result<(), NoMemory>
    requires readable { All IsReadablePart list.now }
    requires authorizers { HaveNumbers (map (λ part. part.assertion.authorizer) list.now) numbered.old.names }
    requires nodes_fit { node_total numbered.old.system.rows + total_size list.now ≤ 2 ^ 24 }
    requires one_each { length numbered.old.names ≡ length numbered.old.system.requesters }
    requires levels { 0 < numbered.old.system.levels }
    ensures base { OnOk result ((parts : ListOf AssertionById)
        → IsBaseOf parts numbered.old.names numbered.old.system
        → IsBaseOf (parts ++ map (narrowed_part numbered.old.names) list.now) numbered.new.names
        numbered.new.system) }
    ensures names { OnOk result (numbered.new.names ≡ numbered.old.names) }
    ensures requesters { OnOk result (numbered.new.system.requesters ≡ numbered.old.system.requesters) }
    ensures rows { OnOk result (length numbered.new.system.rows
        ≡ length numbered.old.system.rows + length list.now) }
    ensures live { OnOk result (live.new ≡ live.old ++ replicate (length list.now) true) }
{
    for part in list.as_slice() {
        numbered.add_narrowed_row(alloc, part.assertion, 0)?;
        live.add(true)?;
    }
    Ok(())
}
